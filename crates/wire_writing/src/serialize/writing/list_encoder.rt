//! Lists of records in bytes, each cut by itself.

ghost use Rattle.std.specs.Prelude.{◌≡◌, ℕ, ◌+◌, ◌<◌, ◌≤◌, ◌∷◌, ◌||◌, [], length, take, List, Bool, OnOk, IfOk, IfSome, None, option_to_list, option_map};
ghost use Rattle.std.specs.Iterator.{IsFinite};
ghost use Rattle.std.specs.Option.{option_copied};
ghost use Rattle.wire_writing.specs.representation.Endings.{GivesRecords, ListAdds, NotedRun, count_of_one, fault_of, is_cut_by};
ghost use Rattle.wire_messages.specs.serialize.layout.MessageLayout.{tsig_record};
ghost use Rattle.wire_messages.specs.serialize.writing.Reply.{opt_record};
ghost use Rattle.wire_messages.specs.serialize.writing.ReplyRanges.{IsEdnsInRange};
ghost use Rattle.wire_writing.specs.representation.Noted.{AreNotes};
ghost use Rattle.wire_writing.specs.serialize.writing.Writing.{ListWritten, PutsAll};
ghost use Rattle.wire_messages.specs.declared.rr.rdata.RData.{RData};
ghost use Rattle.wire_messages.specs.declared.rr.record.Record.{Record};

use crate::serialize::writing::compression_table::CompressionTable;
use crate::serialize::writing::record_encoder::{
    Ending, write_edns, write_record, write_signature,
};
use std::alloc::AllocError;
use wire_messages::op::edns::Edns;
use wire_messages::rr::record::Record;
use wire_messages::rr::tsig::TSIG;
use wire_names::error::ProtoError;

// How many bytes most records take at most: an address of IPv6 whose owner name is a pointer takes as many.
const USUAL_LEN: usize = 28;

// How many bytes a record takes at least: that of the root, ten more, and no data.
const LEAST_LEN: usize = 11;

// How many names most records have at most: that of the owner, and one in the data.
const USUAL_NAMES: usize = 2;

// So many records mostly fit into the memory that a reply begins with.
const FEW_RECORDS: usize = 16;

/// How the lists that were written so far ended.
#[derive(Clone, Copy)]
pub struct Stops {
    /// Whether one of them was cut: its next record was left out for its size.
    pub is_cut: bool,
    /// Why a record of one of them has no form in bytes. Behind it nothing is written.
    pub fault: Option<ProtoError>,
}

// How many records of a list were written, and how that ended.
#[derive(Clone, Copy)]
struct Run {
    count: u16,
    ending: Ending,
}

/// Takes all records that are left.
pub fn drain<'a, I: Iterator<Item = &'a Record> + Drop>(records: I)
    requires can { I.can_next records }
    requires ends { IsFinite (I.remaining records) }
    ensures { (all : List (Record RData)) × GivesRecords I.next_gives records all }
{
    for _record in records {}
}

/// Takes the memory for so many records at once, as far as they can be written, and tells the table how many names may
/// come: growing step by step copies what was there before. For a few records there is room from the start.
#[inline(always)]
fn make_room(
    bytes: &mut Vec<u8>,
    table: &mut CompressionTable<'_>,
    limit: u16,
    count: usize,
) -> Result<(), AllocError>
    ensures bytes { bytes.new.items ≡ bytes.old.items }
    ensures table { table.new ≡ table.old }
{
    if count <= FEW_RECORDS {
        return Ok(());
    }
    let left = usize::from(limit).saturating_sub(bytes.len());
    table.expect(count.saturating_mul(USUAL_NAMES).min(left / LEAST_LEN));
    bytes.reserve(count.saturating_mul(USUAL_LEN).min(left))
}

/// Puts the first records of a list behind the bytes, up to the one that passes the limit or has no form.
fn write_records<'n, 'a: 'n, I: Iterator<Item = &'a Record> + Drop>(
    bytes: &mut Vec<u8>,
    table: &mut CompressionTable<'n>,
    limit: u16,
    records: I,
) -> Result<Run, AllocError>
    requires can { I.can_next records }
    requires ends { IsFinite (I.remaining records) }
    requires header { 12 ≤ length bytes.old.items }
    requires fits { length bytes.old.items ≤ limit }
    requires noted { AreNotes bytes.old.items (length bytes.old.items) table.old }
    ensures written { IfOk result (λ run. (all : List (Record RData)) ×
        GivesRecords I.next_gives records all ×
        ListWritten limit bytes.old.items all bytes.new.items run.count run.ending ×
        NotedRun limit bytes.old.items table.old (take run.count all) bytes.new.items table.new) }
    ensures header { OnOk result (12 ≤ length bytes.new.items) }
    ensures fits { OnOk result (length bytes.new.items ≤ limit) }
    ensures counted { IfOk result (λ run. length bytes.old.items + run.count ≤ length bytes.new.items) }
    ensures noted { OnOk result (AreNotes bytes.new.items (length bytes.new.items) table.new) }
{
    make_room(bytes, table, limit, records.size_hint().0)?;
    let mut count = 0u16;
    let mut ending = Ending::Whole;
    for record in records {
        if let Ending::Whole = ending {
            match write_record(bytes, table, limit, record)? {
                Ending::Whole => count += 1,
                other => ending = other,
            }
        }
    }
    Ok(Run { count, ending })
}

/// Remembers how a list ended, where none before it was stuck.
#[inline(always)]
fn close(stops: &mut Stops, ending: Ending)
    requires { stops.old.fault ≡ None }
    ensures cut { stops.new.is_cut ≡ (stops.old.is_cut || is_cut_by ending) }
    ensures fault { stops.new.fault ≡ fault_of ending }
{
    match ending {
        Ending::Whole => {}
        Ending::Cut => stops.is_cut = true,
        Ending::Stuck(e) => stops.fault = Some(e),
    }
}

/// Remembers how a list of one record ended, and answers how many records of it were written.
#[inline(always)]
fn close_one(stops: &mut Stops, ending: Ending) -> u16
    requires { stops.old.fault ≡ None }
    ensures count { result ≡ count_of_one ending }
    ensures cut { stops.new.is_cut ≡ (stops.old.is_cut || is_cut_by ending) }
    ensures fault { stops.new.fault ≡ fault_of ending }
{
    close(stops, ending);
    match ending {
        Ending::Whole => 1,
        Ending::Cut | Ending::Stuck(_) => 0,
    }
}

/// Writes a list of a section behind others, of which one may have been stuck; if so, the list is only taken. Answers
/// how many records were written.
#[inline(always)]
pub fn write_list<'n, 'a: 'n, I: Iterator<Item = &'a Record> + Drop>(
    bytes: &mut Vec<u8>,
    table: &mut CompressionTable<'n>,
    limit: u16,
    records: I,
    stops: &mut Stops,
) -> Result<u16, AllocError>
    requires can { I.can_next records }
    requires ends { IsFinite (I.remaining records) }
    requires header { 12 ≤ length bytes.old.items }
    requires fits { length bytes.old.items ≤ limit }
    requires noted { AreNotes bytes.old.items (length bytes.old.items) table.old }
    ensures written { IfOk result (λ count. (all : List (Record RData)) × (is_cut : Bool) ×
        GivesRecords I.next_gives records all ×
        ListAdds limit (record { bytes = bytes.old.items; stops = stops.old }) all
        (record { bytes = bytes.new.items; stops = stops.new }) count is_cut ×
        NotedRun limit bytes.old.items table.old (take count all) bytes.new.items table.new) }
    ensures header { OnOk result (12 ≤ length bytes.new.items) }
    ensures fits { OnOk result (length bytes.new.items ≤ limit) }
    ensures counted { IfOk result (λ count. length bytes.old.items + count ≤ length bytes.new.items) }
    ensures noted { OnOk result (AreNotes bytes.new.items (length bytes.new.items) table.new) }
{
    if stops.fault.is_some() {
        drain(records);
        return Ok(0);
    }
    let run = write_records(bytes, table, limit, records)?;
    close(stops, run.ending);
    Ok(run.count)
}

/// Writes the OPT record as a list of one record. Its owner name is the root.
fn write_one_edns(
    bytes: &mut Vec<u8>,
    limit: u16,
    edns: &Edns,
    stops: &mut Stops,
) -> Result<u16, AllocError>
    requires header { 12 ≤ length bytes.old.items }
    requires fits { length bytes.old.items ≤ limit }
    ensures written { IfOk result (λ count. (is_cut : Bool) ×
        ListAdds limit (record { bytes = bytes.old.items; stops = stops.old }) (opt_record edns.now ∷ [])
        (record { bytes = bytes.new.items; stops = stops.new }) count is_cut ×
        PutsAll limit bytes.old.items (take count (opt_record edns.now ∷ [])) bytes.new.items) }
    ensures in_range { OnOk result (stops.new.fault ≡ None → IsEdnsInRange edns.now) }
    ensures header { OnOk result (12 ≤ length bytes.new.items) }
    ensures fits { OnOk result (length bytes.new.items ≤ limit) }
    ensures counted { IfOk result (λ count. length bytes.old.items + count ≤ length bytes.new.items) }
{
    if stops.fault.is_some() {
        return Ok(0);
    }
    let ending = write_edns(bytes, limit, edns)?;
    Ok(close_one(stops, ending))
}

/// Writes the OPT record where there is one. Where there is none, it costs no call.
#[inline(always)]
pub fn write_optional_edns(
    bytes: &mut Vec<u8>,
    limit: u16,
    edns: Option<&Edns>,
    stops: &mut Stops,
) -> Result<u16, AllocError>
    requires header { 12 ≤ length bytes.old.items }
    requires fits { length bytes.old.items ≤ limit }
    ensures written { IfOk result (λ count. (is_cut : Bool) ×
        ListAdds limit (record { bytes = bytes.old.items; stops = stops.old })
        (option_to_list (option_map opt_record (option_copied edns.entry)))
        (record { bytes = bytes.new.items; stops = stops.new }) count is_cut ×
        PutsAll limit bytes.old.items (take count (option_to_list (option_map opt_record (option_copied edns.entry))))
        bytes.new.items) }
    ensures in_range { OnOk result (stops.new.fault ≡ None → IfSome (option_copied edns.entry) IsEdnsInRange) }
    ensures header { OnOk result (12 ≤ length bytes.new.items) }
    ensures fits { OnOk result (length bytes.new.items ≤ limit) }
    ensures counted { IfOk result (λ count. length bytes.old.items + count ≤ length bytes.new.items) }
{
    match edns {
        Some(edns) => write_one_edns(bytes, limit, edns, stops),
        None => Ok(0),
    }
}

/// Writes the TSIG record as a list of one record. Its names are written in full.
fn write_one_signature(
    bytes: &mut Vec<u8>,
    limit: u16,
    signature: &Record<TSIG>,
    stops: &mut Stops,
) -> Result<u16, AllocError>
    requires header { 12 ≤ length bytes.old.items }
    requires fits { length bytes.old.items ≤ limit }
    ensures written { IfOk result (λ count. (is_cut : Bool) ×
        ListAdds limit (record { bytes = bytes.old.items; stops = stops.old }) (tsig_record signature.now ∷ [])
        (record { bytes = bytes.new.items; stops = stops.new }) count is_cut ×
        PutsAll limit bytes.old.items (take count (tsig_record signature.now ∷ [])) bytes.new.items) }
    ensures header { OnOk result (12 ≤ length bytes.new.items) }
    ensures fits { OnOk result (length bytes.new.items ≤ limit) }
    ensures counted { IfOk result (λ count. length bytes.old.items + count ≤ length bytes.new.items) }
{
    if stops.fault.is_some() {
        return Ok(0);
    }
    let ending = write_signature(bytes, limit, signature)?;
    Ok(close_one(stops, ending))
}

/// Writes the TSIG record where there is one.
#[inline(always)]
pub fn write_optional_signature(
    bytes: &mut Vec<u8>,
    limit: u16,
    signature: Option<&Record<TSIG>>,
    stops: &mut Stops,
) -> Result<u16, AllocError>
    requires header { 12 ≤ length bytes.old.items }
    requires fits { length bytes.old.items ≤ limit }
    ensures written { IfOk result (λ count. (is_cut : Bool) ×
        ListAdds limit (record { bytes = bytes.old.items; stops = stops.old })
        (option_to_list (option_map tsig_record (option_copied signature.entry)))
        (record { bytes = bytes.new.items; stops = stops.new }) count is_cut ×
        PutsAll limit bytes.old.items (take count
        (option_to_list (option_map tsig_record (option_copied signature.entry)))) bytes.new.items) }
    ensures header { OnOk result (12 ≤ length bytes.new.items) }
    ensures fits { OnOk result (length bytes.new.items ≤ limit) }
    ensures counted { IfOk result (λ count. length bytes.old.items + count ≤ length bytes.new.items) }
{
    match signature {
        Some(signature) => write_one_signature(bytes, limit, signature, stops),
        None => Ok(0),
    }
}
