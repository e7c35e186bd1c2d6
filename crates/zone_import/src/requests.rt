//! Updates in requests of at most 65,535 octets each.
//!
//! No clauses: `import` writes requests only if they make the other zone of a copy.

ghost use Rattle.std.specs.Prelude.{◌<◌, IfOk, length};

use crate::error::RequestFault;
use crate::serials::soa_steps;
use hickory_wire::{
    DNSClass, LowerName, LowerQuery, MessageType, Metadata, OpCode, ProtoError, Query, Record,
    RecordType, ReplyParts, encode_message_parts,
};
use std::alloc::{AllocError, Global};

/// No message has more records: beside its header each takes 11 octets at least.
const MOST_RECORDS: usize = 5_956;

/// The SOA record that a zone is to have.
#[derive(Clone, Copy)]
pub(crate) struct NewSoa<'z> {
    /// The record.
    pub(crate) record: &'z Record,
    /// Its serial.
    pub(crate) serial: u32,
    /// Whether more than its serial is new.
    pub(crate) is_changed: bool,
}

/// The zone section of an update (RFC 2136 section 2.3).
pub(crate) fn zone_section(alloc: Global, origin: &LowerName) -> Result<Vec<u8>, AllocError> {
    let question = Query {
        name: origin.as_name().clone()?,
        query_type: RecordType::SOA,
        query_class: DNSClass::IN,
    };
    let mut bytes = Vec::new(alloc);
    LowerQuery::new(alloc, question)?.emit(&mut bytes)?;
    Ok(bytes)
}

/// A request whose update section has these records, and then these SOA records, as far as they fit in it, and how many
/// that are.
fn request_of(
    alloc: Global,
    zone: &[u8],
    records: &[Record],
    soas: &[Record],
) -> Result<(usize, Vec<u8>), RequestFault> {
    let nothing: &[Record] = &[];
    let parts = ReplyParts {
        metadata: Metadata::new(0, MessageType::Query, OpCode::UPDATE),
        question: zone,
        question_count: 1,
        edns: None,
        answers: nothing.iter(),
        authorities: records.iter(),
        soa: soas.iter(),
        additionals: nothing.iter(),
        signature: None,
    };
    match encode_message_parts(alloc, u16::MAX, parts) {
        Ok((header, bytes)) => Ok((usize::from(header.counts.authorities), bytes)),
        Err(ProtoError::Memory) => Err(RequestFault::Memory),
        Err(_) => Err(RequestFault::TooLong),
    }
}

/// A request with these records, and then these SOA records, if all fit in it.
fn whole_request(
    alloc: Global,
    zone: &[u8],
    records: &[Record],
    soas: &[Record],
) -> Result<Option<Vec<u8>>, RequestFault> {
    if records.len() > MOST_RECORDS {
        return Ok(None);
    }
    let (count, bytes) = request_of(alloc, zone, records, soas)?;
    if count == records.len().saturating_add(soas.len()) {
        Ok(Some(bytes))
    } else {
        Ok(None)
    }
}

/// A request with as many of these records as fit in it, and those behind them.
fn full_request<'r>(
    alloc: Global,
    zone: &[u8],
    records: &'r [Record],
) -> Result<(Vec<u8>, &'r [Record]), RequestFault>
    ensures { IfOk result (λ made. length made.1.now < length records.now) }
{
    let most = records.len().min(MOST_RECORDS);
    let (count, bytes) = request_of(alloc, zone, &records[..most], &[])?;
    if count == 0 || count > most {
        return Err(RequestFault::TooLong);
    }
    let (front, behind) = records.split_at(count);
    if count == most {
        return Ok((bytes, behind));
    }
    let (_, bytes) = request_of(alloc, zone, front, &[])?;
    Ok((bytes, behind))
}

/// The SOA records that stand last in a request, behind others or alone, so that the zone has the new SOA once the
/// request is done: that adds one to the serial (RFC 2136 section 3.6). None where that is all.
fn last_soas(
    alloc: Global,
    soa: &NewSoa<'_>,
    serial: u32,
    is_alone: bool,
) -> Result<Vec<Record>, AllocError> {
    let before = soa.serial.wrapping_sub(1);
    if serial == before && !soa.is_changed && !is_alone {
        return Ok(Vec::new(alloc));
    }
    soa_steps(alloc, soa.record, serial, before)
}

/// The last request, if all that is left of the updates fits in it.
fn last_request(
    alloc: Global,
    zone: &[u8],
    updates: &[Record],
    soa: &NewSoa<'_>,
    serial: u32,
) -> Result<Option<Vec<u8>>, RequestFault> {
    let soas = last_soas(alloc, soa, serial, updates.is_empty())?;
    whole_request(alloc, zone, updates, &soas)
}

/// Requests that do these updates to the zone of a zone section and of a serial, to each of which the update before it
/// has added one; and the last of which leaves the new SOA.
pub(crate) fn requests_of(
    alloc: Global,
    zone: &[u8],
    updates: &[Record],
    soa: &NewSoa<'_>,
    serial: u32,
) -> Result<Vec<Vec<u8>>, RequestFault> {
    let mut requests = Vec::new(alloc);
    let mut rest = updates;
    let mut serial = serial;
    while !rest.is_empty() {
        if let Some(last) = last_request(alloc, zone, rest, soa, serial)? {
            requests.push(last)?;
            return Ok(requests);
        }
        let (request, behind) = full_request(alloc, zone, rest)?;
        requests.push(request)?;
        rest = behind;
        serial = serial.wrapping_add(1);
    }
    match last_request(alloc, zone, rest, soa, serial)? {
        Some(last) => requests.push(last)?,
        None => return Err(RequestFault::TooLong),
    }
    Ok(requests)
}
