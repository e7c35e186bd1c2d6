//! Names in bytes, with pointers to names that stand before them (RFC 1035 section 4.1.4).

ghost use Rattle.std.specs.Prelude.{◌≡◌, ℕ, ◌+◌, ◌<◌, ◌≤◌, ◌/◌, ◌%◌, ◌^◌, ◌++◌, ◌∷◌, ◌≢◌, [], length, take, true, false, OnOk, IfOk, IfSome, None};
ghost use Rattle.wire_names.specs.rr.domain.DomainName.{IsWire, AreLabels, wire_form};
ghost use Rattle.wire_writing.specs.representation.Noted.{WritesLabels, Compresses, first_place};
ghost use Rattle.wire_writing.specs.representation.NameTable.{bucket};

use crate::serialize::writing::compression_table::CompressionTable;
use std::alloc::AllocError;
use wire_names::rr::domain::name::Name;

// A pointer reaches places below this one: it has 14 bits for the place.
const POINTER_REACH: usize = 0x4000;

/// A pointer to this place.
#[inline(always)]
fn write_pointer(bytes: &mut Vec<u8>, place: u16) -> Result<(), AllocError>
    requires { place < 16384 }
    ensures { OnOk result (bytes.new.items ≡ bytes.old.items ++ (192 + place / 256) ∷ (place % 256) ∷ []) }
{
    let [high, low] = (0xc000 + place).to_be_bytes();
    bytes.reserve(2)?;
    bytes.push_reserved(high);
    bytes.push_reserved(low);
    Ok(())
}

/// Puts the first bytes of a wire form behind the bytes. Eight are copied at once where there are as many, which is
/// cheaper than a few, and those that are too many are taken back.
#[inline(always)]
fn write_front(bytes: &mut Vec<u8>, wire: &[u8], len: usize) -> Result<(), AllocError>
    requires { len ≤ length wire.now }
    ensures { OnOk result (bytes.new.items ≡ bytes.old.items ++ take len wire.now) }
{
    if len <= 8 {
        if let Some(front) = wire.first_chunk::<8>() {
            let front = *front;
            bytes.extend_from_slice(&front)?;
            bytes.truncate(bytes.len() - (8 - len));
            return Ok(());
        }
    }
    bytes.extend_from_slice(&wire[..len])
}

/// Ends a name that is at its end byte, or goes on as one that was written last. Answers whether that is so; else
/// nothing was written.
#[inline(always)]
fn write_known(
    bytes: &mut Vec<u8>,
    table: &CompressionTable<'_>,
    wire: &[u8],
) -> Result<bool, AllocError>
    requires header { 12 ≤ length bytes.old.items }
    ensures known { IfOk result (λ known. known ≡ true →
        WritesLabels bytes.old.items bytes.new.items table.now table.now wire.now ×
        Compresses bytes.old.items bytes.new.items table.now table.now wire.now) }
    ensures unknown { IfOk result (λ known. known ≡ false → (bytes.new.items ≡ bytes.old.items) × (wire.now ≢ [])) }
{
    if wire.is_empty() {
        bytes.push(0)?;
        return Ok(true);
    }
    if let Some(place) = table.known_place(wire) {
        write_pointer(bytes, place)?;
        return Ok(true);
    }
    Ok(false)
}

/// Notes a name that was written at this place, if a pointer reaches there, and then keeps it if it is an owner name.
#[inline(always)]
pub(crate) fn note_written<'n>(
    table: &mut CompressionTable<'n>,
    in_bucket: Option<usize>,
    wire: &'n [u8],
    place: usize,
    is_owner: bool,
) -> Result<(), AllocError>
    requires in_bucket { IfSome in_bucket (λ b. b ≡ bucket wire.now) }
    requires labels { wire.now ≢ [] }
    requires fresh { first_place wire.now table.old ≡ None }
    requires behind { 12 ≤ place }
    ensures near { OnOk result (place < 2 ^ 14 → table.new ≡ table.old ++ (wire.now, place) ∷ []) }
    ensures far { OnOk result (2 ^ 14 ≤ place → table.new ≡ table.old) }
{
    if place >= POINTER_REACH {
        return Ok(());
    }
    table.note(in_bucket, wire, place as u16)?;
    if is_owner {
        table.keep(true, wire, place as u16);
    }
    Ok(())
}

/// Puts labels of this wire form, one at least, and their end behind the bytes, and notes what it wrote label by label.
/// An owner name is kept, and else a name that was found.
#[cycle(labels)]
#[inline(always)]
fn write_new_labels<'n>(
    bytes: &mut Vec<u8>,
    table: &mut CompressionTable<'n>,
    wire: &'n [u8],
    is_owner: bool,
) -> Result<(), AllocError>
    requires wire { IsWire wire.now }
    requires labels { wire.now ≢ [] }
    requires header { 12 ≤ length bytes.old.items }
    ensures labels { OnOk result (WritesLabels bytes.old.items bytes.new.items table.old table.new wire.now) }
    ensures compresses { OnOk result (Compresses bytes.old.items bytes.new.items table.old table.new wire.now) }
{
    let in_bucket = table.bucket(wire);
    if let Some(place) = table.find(in_bucket, wire) {
        table.keep(is_owner, wire, place);
        write_pointer(bytes, place)?;
        return Ok(());
    }
    let place = bytes.len();
    let (label, rest) = wire.split_at(1 + usize::from(wire[0]));
    write_front(bytes, wire, label.len())?;
    if !write_known(bytes, table, rest)? {
        write_labels(bytes, table, rest, false)?;
    }
    note_written(table, in_bucket, wire, place, is_owner)?;
    Ok(())
}

/// Writes the labels of a name that stand behind others. It is apart so that most names, of which all but the first
/// label was written before, need no call.
#[cycle(labels)]
#[inline(never)]
fn write_labels<'n>(
    bytes: &mut Vec<u8>,
    table: &mut CompressionTable<'n>,
    wire: &'n [u8],
    is_owner: bool,
) -> Result<(), AllocError>
    requires wire { IsWire wire.now }
    requires labels { wire.now ≢ [] }
    requires header { 12 ≤ length bytes.old.items }
    ensures labels { OnOk result (WritesLabels bytes.old.items bytes.new.items table.old table.new wire.now) }
    ensures compresses { OnOk result (Compresses bytes.old.items bytes.new.items table.old table.new wire.now) }
{
    write_new_labels(bytes, table, wire, is_owner)
}

/// Puts a name behind the bytes, and notes its labels.
pub(crate) fn write_compressed_name<'n>(
    bytes: &mut Vec<u8>,
    table: &mut CompressionTable<'n>,
    name: &'n Name,
) -> Result<(), AllocError>
    requires { 12 ≤ length bytes.old.items }
    ensures labels { OnOk result (WritesLabels bytes.old.items bytes.new.items table.old table.new
        (wire_form name.now.labels)) }
    ensures are { AreLabels name.now.labels }
{
    let wire = name.as_wire();
    if !write_known(bytes, table, wire)? {
        write_new_labels(bytes, table, wire, false)?;
    }
    Ok(())
}

/// Writes the owner name of a record of a section, which is kept: the next record may have it too, and names in
/// the data may end in it.
pub(crate) fn write_owner<'n>(
    bytes: &mut Vec<u8>,
    table: &mut CompressionTable<'n>,
    name: &'n Name,
) -> Result<(), AllocError>
    requires { 12 ≤ length bytes.old.items }
    ensures labels { OnOk result (WritesLabels bytes.old.items bytes.new.items table.old table.new
        (wire_form name.now.labels)) }
    ensures compresses { OnOk result
        (Compresses bytes.old.items bytes.new.items table.old table.new (wire_form name.now.labels)) }
    ensures are { AreLabels name.now.labels }
{
    let wire = name.as_wire();
    if !write_known(bytes, table, wire)? {
        write_new_labels(bytes, table, wire, true)?;
    }
    Ok(())
}
