//! The octets of a notice, and the questions of its answers.

ghost use Rattle.std.specs.Prelude.{◌≡◌, ◌++◌, ◌≤◌, IfOk, OnOk, length};
ghost use Rattle.std.specs.Int.{to_be_bytes, w32};
ghost use Rattle.wire_names.specs.rr.domain.DomainName.{name_len};
ghost use Rattle.wire_messages.specs.serialize.writing.FullForm.{record_octets, soa_octets};
ghost use Rattle.wire_messages.specs.serialize.writing.QuestionForm.{question_octets};
ghost use Rattle.notices.specs.Messages.{asks_of, bare_octets, notice_header, notice_octets, question_of, soa_record};

use std::alloc::{AllocError, Global};
use wire_messages::op::header::{Header, HeaderCounts, MessageType, Metadata};
use wire_messages::op::op_code::OpCode;
use wire_messages::op::query::Query;
use wire_messages::op::response_code::ResponseCode;
use wire_messages::rr::dns_class::DNSClass;
use wire_messages::rr::rdata::SOA;
use wire_messages::rr::record_type::RecordType;
use wire_messages::serialize::writing::full_form::{full_name_len, write_name, write_u16};
use wire_names::rr::domain::name::Name;
use wire_writing::serialize::writing::header_encoder::header_bytes;

/// How long a notice is at most (RFC 1035 section 4.2.1).
const MOST_OCTETS: usize = 512;

/// The header of a notice with so many records.
fn notice_header(id: u16, answers: u16) -> Header
    ensures { result ≡ notice_header id answers }
{
    let mut metadata = Metadata::new(id, MessageType::Query, OpCode::NOTIFY);
    metadata.authoritative = true;
    let counts = HeaderCounts {
        queries: 1,
        answers,
        authorities: 0,
        additionals: 0,
    };
    Header { metadata, counts }
}

/// Puts a number of 32 bits last, the highest byte first.
fn write_u32(bytes: &mut Vec<u8>, number: u32) -> Result<(), AllocError>
    ensures { OnOk result (bytes.new.items ≡ bytes.old.items ++ to_be_bytes w32 number) }
{
    bytes.extend_from_slice(&number.to_be_bytes())
}

/// Puts the question of a zone's SOA last.
fn write_question(bytes: &mut Vec<u8>, zone: &Name) -> Result<(), AllocError>
    ensures { OnOk result (bytes.new.items ≡ bytes.old.items ++ question_octets (question_of zone.now)) }
{
    write_name(bytes, zone)?;
    write_u16(bytes, RecordType::SOA.value())?;
    write_u16(bytes, DNSClass::IN.value())
}

/// Puts the data of an SOA record last.
fn write_soa(bytes: &mut Vec<u8>, soa: &SOA) -> Result<(), AllocError>
    ensures { OnOk result (bytes.new.items ≡ bytes.old.items ++ soa_octets soa.now) }
{
    write_name(bytes, &soa.mname)?;
    write_name(bytes, &soa.rname)?;
    write_u32(bytes, soa.serial)?;
    write_u32(bytes, soa.refresh)?;
    write_u32(bytes, soa.retry)?;
    write_u32(bytes, soa.expire)?;
    write_u32(bytes, soa.minimum)
}

/// Puts the SOA record of a zone last.
fn write_record(bytes: &mut Vec<u8>, zone: &Name, ttl: u32, soa: &SOA) -> Result<(), AllocError>
    ensures { OnOk result (bytes.new.items ≡ bytes.old.items ++ record_octets (soa_record zone.now ttl soa.now)) }
{
    write_name(bytes, zone)?;
    write_u16(bytes, RecordType::SOA.value())?;
    write_u16(bytes, DNSClass::IN.value())?;
    write_u32(bytes, ttl)?;
    write_u16(
        bytes,
        full_name_len(&soa.mname) + full_name_len(&soa.rname) + 20,
    )?;
    write_soa(bytes, soa)
}

/// The header and the question of a notice, in which so many records follow.
fn bare_bytes(alloc: Global, id: u16, zone: &Name, answers: u16) -> Result<Vec<u8>, AllocError>
    ensures value { IfOk result (λ bytes. bytes.items ≡ bare_octets id zone.now answers) }
    ensures name { name_len zone.now.labels ≤ 255 }
{
    let name_len = full_name_len(zone);
    let mut bytes = Vec::from_slice(alloc, &header_bytes(&notice_header(id, answers)))?;
    bytes.reserve(usize::from(name_len) + 4)?;
    write_question(&mut bytes, zone)?;
    Ok(bytes)
}

/// A notice of a zone that has this SOA.
pub(crate) fn notice_bytes(
    alloc: Global,
    id: u16,
    zone: &Name,
    ttl: u32,
    soa: &SOA,
) -> Result<Vec<u8>, AllocError>
    ensures value { IfOk result (λ bytes. bytes.items ≡ notice_octets id zone.now ttl soa.now) }
    ensures short { IfOk result (λ bytes. length bytes.items ≤ 512) }
{
    let mut bytes = bare_bytes(alloc, id, zone, 1)?;
    write_record(&mut bytes, zone, ttl, soa)?;
    if bytes.len() <= MOST_OCTETS {
        return Ok(bytes);
    }
    bare_bytes(alloc, id, zone, 0)
}

/// Whether questions are the one of the zone's SOA, or none where the code is an error.
pub(crate) fn asks_of(zone: &Name, code: ResponseCode, queries: &[Query]) -> bool
    ensures { result ≡ asks_of zone.now code queries.now }
{
    match queries {
        [] => code.value() > 0,
        [q] => {
            q.name == *zone && q.query_type == RecordType::SOA && q.query_class == DNSClass::IN
        }
        _ => false,
    }
}
