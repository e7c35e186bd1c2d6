//! A TSIG record behind a message.

ghost use Rattle.std.specs.Prelude.{◌≡◌, ◌≤◌, ◌<◌, ◌+◌, ◌++◌, ◌^◌, IsTrue, ◌↔◌, OnOk, length, slice_range};
ghost use Rattle.std.specs.Int.{w16, w32, from_be_bytes, to_be_bytes};
ghost use Rattle.wire_names.specs.rr.domain.DomainName.{name_len};
ghost use Rattle.wire_messages.specs.rr.RecordData.{tsig_fields};
ghost use Rattle.wire_messages.specs.serialize.layout.MessageLayout.{tsig_record};
ghost use Rattle.wire_messages.specs.serialize.writing.FullForm.{record_octets};
ghost use Rattle.tsig.specs.Signing.{HasRoom, additionals_of, appended, id_of, record_of};

use std::alloc::AllocError;
use wire_messages::rr::tsig::TSIG;
use wire_messages::serialize::writing::full_form::{full_name_len, write_name, write_u16};
use wire_names::rr::domain::name::Name;

/// The number in two bytes at a place.
fn number_at(bytes: &[u8], place: usize) -> u16
    requires { place + 2 ≤ length bytes.now }
    ensures { result ≡ from_be_bytes w16 (slice_range bytes.now place (place + 2)) }
{
    u16::from_be_bytes([bytes[place], bytes[place + 1]])
}

/// The id of a message.
pub(crate) fn id_of(message: &[u8]) -> u16
    requires { 12 ≤ length message.now }
    ensures { result ≡ id_of message.now }
{
    number_at(message, 0)
}

/// Whether a message has a header, and one more additional record can be counted in it.
pub fn has_room(message: &[u8]) -> bool
    ensures { IsTrue result ↔ HasRoom message.now }
{
    message.len() >= 12 && number_at(message, 10) < u16::MAX
}

/// How many bytes the data of a TSIG record take, where its MAC and its other data are short.
fn data_len(t: &TSIG) -> u16
    requires mac { length t.now.mac ≤ 64 }
    requires other { length t.now.other ≤ 6 }
    ensures { result ≡ name_len t.now.algorithm.labels + length (tsig_fields t.now) }
{
    full_name_len(&t.algorithm) + 16 + t.mac.len() as u16 + t.other.len() as u16
}

/// Puts a number of 32 bits behind the bytes, the highest byte first.
fn write_u32(out: &mut Vec<u8>, number: u32) -> Result<(), AllocError>
    ensures { OnOk result (out.new.items ≡ out.old.items ++ to_be_bytes w32 number) }
{
    out.extend_from_slice(&number.to_be_bytes())
}

/// Puts the fields of a TSIG behind the name of its algorithm.
fn write_fields(out: &mut Vec<u8>, t: &TSIG) -> Result<(), AllocError>
    requires time { t.now.time < 2 ^ 48 }
    requires mac { length t.now.mac ≤ 64 }
    requires other { length t.now.other ≤ 6 }
    ensures { OnOk result (out.new.items ≡ out.old.items ++ tsig_fields t.now) }
{
    write_u16(out, (t.time >> 32) as u16)?;
    write_u32(out, (t.time % 0x1_0000_0000) as u32)?;
    write_u16(out, t.fudge)?;
    write_u16(out, t.mac.len() as u16)?;
    out.extend_from_slice(t.mac.as_slice())?;
    write_u16(out, t.oid)?;
    write_u16(out, t.error)?;
    write_u16(out, t.other.len() as u16)?;
    out.extend_from_slice(t.other.as_slice())
}

/// Puts the TSIG record of these data behind the bytes, in full.
fn write_record(out: &mut Vec<u8>, name: &Name, t: &TSIG) -> Result<(), AllocError>
    requires time { t.now.time < 2 ^ 48 }
    requires mac { length t.now.mac ≤ 64 }
    requires other { length t.now.other ≤ 6 }
    ensures { OnOk result (out.new.items ≡ out.old.items ++ record_octets (tsig_record (record_of name.now t.now))) }
{
    write_name(out, name)?;
    write_u16(out, 250)?;
    write_u16(out, 255)?;
    write_u32(out, 0)?;
    write_u16(out, data_len(t))?;
    write_name(out, &t.algorithm)?;
    write_fields(out, t)
}

/// Puts a message behind the bytes, with the TSIG record of these data, which is counted. It takes memory once.
pub(crate) fn write_appended(
    out: &mut Vec<u8>,
    message: &[u8],
    name: &Name,
    t: &TSIG,
) -> Result<(), AllocError>
    requires room { HasRoom message.now }
    requires time { t.now.time < 2 ^ 48 }
    requires mac { length t.now.mac ≤ 64 }
    requires other { length t.now.other ≤ 6 }
    ensures { OnOk result (out.new.items ≡ out.old.items ++ appended message.now (record_of name.now t.now)) }
{
    let record = usize::from(full_name_len(name)) + 10 + usize::from(data_len(t));
    out.reserve(record.saturating_add(message.len()))?;
    out.extend_from_slice(&message[..10])?;
    write_u16(out, number_at(message, 10) + 1)?;
    out.extend_from_slice(&message[12..])?;
    write_record(out, name, t)
}
