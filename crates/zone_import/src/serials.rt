//! The SOA records that lead from one serial to another (RFC 1982).
//!
//! No clauses: `import` writes requests only if they make the other zone of a copy.

ghost use Rattle.std.specs.Prelude.{◌≡◌, IfOk};
ghost use Rattle.zone_import.specs.Imports.{numbered};

use hickory_base::zone_store::serials::is_greater;
use hickory_base::zone_store::{InMemoryZoneHandler, ZoneHandler};
use hickory_wire::{Boxed, RData, Record, RecordType, RrKey, SOA};
use std::alloc::{AllocError, Global};

/// By so much a serial is raised at once: four times this are all serials.
const QUARTER: u32 = 1 << 30;

/// The SOA record at the apex of a zone.
pub(crate) fn apex_soa(zone: &InMemoryZoneHandler) -> Result<Option<&Record>, AllocError> {
    let key = RrKey::new(zone.origin().clone()?, RecordType::SOA);
    match zone.record_set(&key) {
        Some([soa]) => Ok(Some(soa)),
        _ => Ok(None),
    }
}

/// An SOA with another serial.
fn number_soa(alloc: Global, soa: &SOA, serial: u32) -> Result<Boxed<SOA>, AllocError>
    ensures { IfOk result (λ copy. copy ≡ record soa.now { serial = serial }) }
{
    let mut copy = soa.clone()?;
    copy.serial = serial;
    let boxed = Boxed::new(alloc, copy)?;
    Ok(boxed)
}

/// A copy of a record, with this serial where it is an SOA.
pub(crate) fn number(alloc: Global, record: &Record, serial: u32) -> Result<Record, AllocError>
    ensures { IfOk result (λ copy. copy ≡ numbered serial record.now) }
{
    let mut copy = record.clone()?;
    if let RData::SOA(soa) = &record.rdata {
        copy.rdata = RData::SOA(number_soa(alloc, soa.get(), serial)?);
    }
    Ok(copy)
}

/// Whether two SOA records are the same, with one TTL, but for their serials.
pub(crate) fn is_same_but_serial(
    alloc: Global,
    soa: &Record,
    other: &Record,
) -> Result<bool, AllocError> {
    let soa = number(alloc, soa, 0)?;
    let other = number(alloc, other, 0)?;
    Ok(soa == other && soa.ttl == other.ttl)
}

/// The SOA records that take the place of one another until the last has the data of `soa` with this serial, of a zone
/// that has the serial `from`: each is newer than the one before it (RFC 2136 section 3.4.2.2). That is one where the
/// serial is greater than `from` (RFC 1982 section 3.2), and else up to four, which go once round all serials.
pub(crate) fn soa_steps(
    alloc: Global,
    soa: &Record,
    from: u32,
    serial: u32,
) -> Result<Vec<Record>, AllocError> {
    let mut steps = Vec::new(alloc);
    let mut reached = from;
    for _ in 0..3 {
        if is_greater(serial, reached) {
            break;
        }
        reached = reached.wrapping_add(QUARTER);
        steps.push(number(alloc, soa, reached)?)?;
    }
    steps.push(number(alloc, soa, serial)?)?;
    Ok(steps)
}
