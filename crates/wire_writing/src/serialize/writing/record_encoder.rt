//! Resource records in bytes, each put whole or left out.

ghost use Rattle.std.specs.Prelude.{◌≡◌, ℕ, ◌+◌, ◌*◌, ◌^◌, ◌<◌, ◌≤◌, ◌++◌, ◌↔◌, length, take, drop, OnOk, IfOk, IsTrue, None};
ghost use Rattle.std.specs.Int.{w16, w32, to_be_bytes};
ghost use Rattle.wire_writing.specs.representation.Endings.{RecordEnds, NotesFollow};
ghost use Rattle.wire_messages.specs.serialize.writing.FullForm.{HasNames};
ghost use Rattle.wire_writing.specs.representation.Noted.{AreNotes};
ghost use Rattle.wire_messages.specs.serialize.writing.RecordSize.{data_len, unwritable_reason};
ghost use Rattle.wire_writing.specs.representation.WritingByNotes.{WritesRecord};
ghost use Rattle.wire_messages.specs.serialize.layout.MessageLayout.{tsig_record};
ghost use Rattle.wire_messages.specs.serialize.writing.Reply.{opt_record};
ghost use Rattle.wire_messages.specs.serialize.writing.ReplyRanges.{IsEdnsInRange};
ghost use Rattle.wire_writing.specs.representation.WrittenParts.{record_of};
ghost use Rattle.wire_messages.specs.declared.rr.record.Proof.{Proof};

use crate::serialize::writing::compression_table::CompressionTable;
use crate::serialize::writing::data_encoder::{Data, full_data_len, least_data_len, write_data};
use crate::serialize::writing::name_encoder::write_owner;
use std::alloc::AllocError;
use wire_messages::op::edns::Edns;
use wire_messages::rr::record::Record;
use wire_messages::rr::tsig::TSIG;
use wire_messages::serialize::writing::full_form::{full_name_len, write_name};
use wire_names::error::ProtoError;
use wire_names::rr::domain::name::Name;

/// How the writing of a record, or of a list of records, ended.
#[derive(Clone, Copy)]
pub enum Ending {
    /// Nothing was left out.
    Whole,
    /// The next record was left out, since in full it passes the limit.
    Cut,
    /// The next record has no form in bytes, for this reason.
    Stuck(ProtoError),
}

// What stands between the owner name of a record and its data (RFC 1035 section 4.1.3).
#[derive(Clone, Copy)]
struct FixedFields {
    record_type: u16,
    dns_class: u16,
    ttl: u32,
    len: u16,
}

/// Whether a record of these lengths fits behind this place.
fn has_room(place: usize, limit: u16, name_len: u16, data_len: u16) -> bool
    requires { place ≤ limit }
    ensures { IsTrue result ↔ (place + (name_len + 10 + data_len) ≤ limit) }
{
    let size = usize::from(name_len) + 10 + usize::from(data_len);
    size <= usize::from(limit) - place
}

// What a record is written of.
#[derive(Clone, Copy)]
struct Parts<'r> {
    name: &'r Name,
    dns_class: u16,
    ttl: u32,
    data: Data<'r>,
}

fn write_fixed(bytes: &mut Vec<u8>, fields: FixedFields) -> Result<(), AllocError>
    ensures bytes { OnOk result (bytes.new.items ≡ bytes.old.items ++
        (to_be_bytes w16 fields.record_type ++ to_be_bytes w16 fields.dns_class ++ to_be_bytes w32 fields.ttl ++
        to_be_bytes w16 fields.len)) }
    ensures ttl { fields.ttl < 2 ^ 32 }
{
    let [type_high, type_low] = fields.record_type.to_be_bytes();
    let [class_high, class_low] = fields.dns_class.to_be_bytes();
    let [ttl_1, ttl_2, ttl_3, ttl_4] = fields.ttl.to_be_bytes();
    let [len_high, len_low] = fields.len.to_be_bytes();
    bytes.extend_from_slice(&[
        type_high, type_low, class_high, class_low, ttl_1, ttl_2, ttl_3, ttl_4, len_high, len_low,
    ])
}

/// Puts the record of these parts behind the bytes, with its names in full, where it fits the limit; else the bytes
/// stay.
fn write_parts(bytes: &mut Vec<u8>, limit: u16, parts: Parts<'_>) -> Result<Ending, AllocError>
    requires header { 12 ≤ length bytes.old.items }
    requires fits { length bytes.old.items ≤ limit }
    ensures { IfOk result (λ ending. (proof : Proof) →
        RecordEnds limit bytes.old.items (record_of parts.entry proof) bytes.new.items ending) }
{
    let len = match parts.data.full_len() {
        Ok(len) => len,
        Err(fault) => return Ok(Ending::Stuck(fault)),
    };
    if !has_room(bytes.len(), limit, full_name_len(parts.name), len) {
        return Ok(Ending::Cut);
    }
    write_name(bytes, parts.name)?;
    write_fixed(
        bytes,
        FixedFields {
            record_type: parts.data.record_type().value(),
            dns_class: parts.dns_class,
            ttl: parts.ttl,
            len,
        },
    )?;
    parts.data.write(bytes)?;
    Ok(Ending::Whole)
}

/// Puts a length in the place of two bytes.
fn put_len(bytes: &mut [u8], place: usize, len: u16)
    requires { place + 2 ≤ length bytes.old }
    ensures { bytes.new ≡ take place bytes.old ++ (to_be_bytes w16 len ++ drop (place + 2) bytes.old) }
{
    bytes[place..place + 2].copy_from_slice(&len.to_be_bytes());
}

/// Puts the length of data in its two octets in a vector.
fn put_data_len(bytes: &mut Vec<u8>, place: usize, len: u16)
    requires { place + 2 ≤ length bytes.old.items }
    ensures { bytes.new.items ≡ take place bytes.old.items ++
        (to_be_bytes w16 len ++ drop (place + 2) bytes.old.items) }
{
    put_len(bytes, place, len);
}

/// Puts a record behind the bytes, whatever its size, with pointers to what the table has, and notes its names there.
/// How long the data are is known behind them.
fn write_whole_record<'n>(
    bytes: &mut Vec<u8>,
    table: &mut CompressionTable<'n>,
    record: &'n Record,
) -> Result<(), AllocError>
    requires header { 12 ≤ length bytes.old.items }
    requires form { unwritable_reason «record».now.rdata ≡ None }
    requires names { HasNames «record».now.rdata }
    requires small { data_len «record».now.rdata ≤ 65535 }
    ensures { OnOk result (WritesRecord bytes.old.items bytes.new.items table.old table.new «record».now) }
{
    write_owner(bytes, table, &record.name)?;
    write_fixed(
        bytes,
        FixedFields {
            record_type: record.rdata.record_type().value(),
            dns_class: record.dns_class.value(),
            ttl: record.ttl,
            len: 0,
        },
    )?;
    let start = bytes.len();
    write_data(bytes, table, &record.rdata)?;
    let len = bytes.len() - start;
    put_data_len(bytes, start - 2, len as u16);
    Ok(())
}

/// Puts a record behind the bytes where it fits the limit, with pointers to what the table has, and notes its names
/// there.
///
/// Where it does not fit, the bytes and the table stay as they were. Where memory is refused, the bytes may end in a
/// part of it.
pub(crate) fn write_record<'n>(
    bytes: &mut Vec<u8>,
    table: &mut CompressionTable<'n>,
    limit: u16,
    record: &'n Record,
) -> Result<Ending, AllocError>
    requires header { 12 ≤ length bytes.old.items }
    requires fits { length bytes.old.items ≤ limit }
    requires noted { AreNotes bytes.old.items (length bytes.old.items) table.old }
    ensures ends { IfOk result (λ ending. RecordEnds limit bytes.old.items «record».now bytes.new.items ending) }
    ensures notes { IfOk result (λ ending. NotesFollow bytes.old.items «record».now bytes.new.items table.old table.new
        ending) }
{
    let len = match full_data_len(&record.rdata) {
        Ok(len) => len,
        Err(e) => return Ok(Ending::Stuck(e)),
    };
    // The owner name takes a byte at least.
    if !has_room(bytes.len(), limit, 1, least_data_len(&record.rdata, len)) {
        return Ok(Ending::Cut);
    }
    let place = bytes.len();
    let mark = table.mark();
    write_whole_record(bytes, table, record)?;
    if bytes.len() > usize::from(limit) {
        bytes.truncate(place);
        table.take_back(mark);
        return Ok(Ending::Cut);
    }
    Ok(Ending::Whole)
}

/// Puts the OPT record that says this behind the bytes where it fits the limit (RFC 6891 section 6.1.2).
pub(crate) fn write_edns(bytes: &mut Vec<u8>, limit: u16, edns: &Edns) -> Result<Ending, AllocError>
    requires header { 12 ≤ length bytes.old.items }
    requires fits { length bytes.old.items ≤ limit }
    ensures ends { IfOk result (λ ending.
        RecordEnds limit bytes.old.items (opt_record edns.now) bytes.new.items ending) }
    ensures in_range { IsEdnsInRange edns.now }
{
    let root = Name::root();
    write_parts(
        bytes,
        limit,
        Parts {
            name: &root,
            dns_class: edns.max_payload(),
            ttl: edns.ttl(),
            data: Data::Options(edns.options()),
        },
    )
}

/// Writes a TSIG record.
pub(crate) fn write_signature(
    bytes: &mut Vec<u8>,
    limit: u16,
    signature: &Record<TSIG>,
) -> Result<Ending, AllocError>
    requires header { 12 ≤ length bytes.old.items }
    requires fits { length bytes.old.items ≤ limit }
    ensures { IfOk result (λ ending. RecordEnds limit bytes.old.items (tsig_record signature.now) bytes.new.items
        ending) }
{
    write_parts(
        bytes,
        limit,
        Parts {
            name: &signature.name,
            dns_class: signature.dns_class.value(),
            ttl: signature.ttl,
            data: Data::Signature(&signature.rdata),
        },
    )
}
