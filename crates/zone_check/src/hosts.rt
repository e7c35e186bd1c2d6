//! What is asked of the host that a record names.

ghost use Rattle.std.specs.Prelude.{◌≡◌, ◌↔◌, ◌⊎◌, IfOk, IsTrue};
ghost use Rattle.wire_names.specs.declared.error.DecodeError.TheVariants as decode_error;
ghost use Rattle.zone_check.specs.CheckedZones.{IsBelowCut, IsCut};
ghost use Rattle.zone_check.specs.Findings.{IsAliased, IsIdleGlue, IsOwn, IsServerBelow, IsWithoutAddress, LacksGlue, OfHost, first_name, host_of, srv_host};

use crate::subject::Subject;
use std::alloc::{AllocError, Global};
use wire_messages::rr::rdata::RData;
use wire_messages::rr::record::Record;
use wire_messages::rr::record_type::RecordType;
use wire_names::error::DecodeError;
use wire_names::rr::domain::name::Name;
use wire_reading::serialize::reading::decoder::BinDecoder;

/// The number of the type SRV (RFC 2782).
const SRV: u16 = 33;

/// Whether memory was refused.
fn is_memory(e: &DecodeError) -> bool
    ensures { IsTrue result ↔ (e.now ≡ decode_error.Memory) }
{
    matches!(e, DecodeError::Memory)
}

/// The name that these octets begin with, if they do.
fn first_name(alloc: Global, octets: &[u8]) -> Result<Option<Name>, AllocError>
    ensures { IfOk result (λ found. found ≡ first_name octets.now) }
{
    match BinDecoder::new(octets).read_name(alloc) {
        Ok(name) => Ok(Some(name)),
        Err(e) => {
            if is_memory(&e) {
                Err(AllocError)
            } else {
                Ok(None)
            }
        }
    }
}

/// The host in the octets of an SRV record, behind priority, weight and port, if they have one.
fn srv_host(alloc: Global, octets: &[u8]) -> Result<Option<Name>, AllocError>
    ensures { IfOk result (λ found. found ≡ srv_host octets.now) }
{
    if octets.len() < 6 {
        Ok(None)
    } else {
        first_name(alloc, &octets[6..])
    }
}

/// The host that an NS, MX or SRV record names.
fn host_of(alloc: Global, record: &Record) -> Result<Option<Name>, AllocError>
    ensures { IfOk result (λ found. found ≡ host_of «record».now.rdata) }
{
    match &record.rdata {
        RData::NS(host) => Ok(Some(host.clone()?)),
        RData::MX(mx) => Ok(Some(mx.exchange.clone()?)),
        RData::Unknown { code, bytes } => {
            if code.value() == SRV {
                srv_host(alloc, bytes.as_slice())
            } else {
                Ok(None)
            }
        }
        _ => Ok(None),
    }
}

/// Whether a name is of the zone's own data: in the zone, and neither at a cut nor below one.
fn is_own(alloc: Global, zone: &Subject<'_>, name: &Name) -> Result<bool, AllocError>
    ensures { IfOk result (λ is. IsTrue is ↔ IsOwn zone.now name.now) }
{
    if !zone.is_in_zone(name) || zone.is_cut(alloc, name)? {
        return Ok(false);
    }
    Ok(!zone.is_below_cut(alloc, name)?)
}

/// Whether a host of the zone's own data has neither an address nor an alias, and no wildcard gives it an address.
fn is_without_address(alloc: Global, zone: &Subject<'_>, host: &Name) -> Result<bool, AllocError>
    ensures { IfOk result (λ is. IsTrue is ↔ IsWithoutAddress zone.now host.now) }
{
    if !is_own(alloc, zone, host)? || zone.owns_address(alloc, host)? {
        return Ok(false);
    }
    if zone.owns(alloc, host, RecordType::CNAME)? {
        return Ok(false);
    }
    let is_below = zone.is_below_wildcard(alloc, host)?;
    Ok(!is_below)
}

/// Whether a host of the zone's own data is an alias.
fn is_aliased(alloc: Global, zone: &Subject<'_>, host: &Name) -> Result<bool, AllocError>
    ensures { IfOk result (λ is. IsTrue is ↔ IsAliased zone.now host.now) }
{
    if !is_own(alloc, zone, host)? {
        return Ok(false);
    }
    zone.owns(alloc, host, RecordType::CNAME)
}

/// Whether a record is of type NS and stands at a cut that is the host or above it.
fn is_server_below(
    alloc: Global,
    zone: &Subject<'_>,
    record: &Record,
    host: &Name,
) -> Result<bool, AllocError>
    ensures { IfOk result (λ is. IsTrue is ↔ IsServerBelow zone.now «record».now host.now) }
{
    if record.rdata.record_type() != RecordType::NS || !record.name.zone_of(host) {
        return Ok(false);
    }
    zone.is_cut(alloc, &record.name)
}

/// Whether the host is one that needs glue, and has none.
fn lacks_glue(
    alloc: Global,
    zone: &Subject<'_>,
    record: &Record,
    host: &Name,
) -> Result<bool, AllocError>
    ensures { IfOk result (λ is. IsTrue is ↔ LacksGlue zone.now «record».now host.now) }
{
    if !is_server_below(alloc, zone, record, host)? {
        return Ok(false);
    }
    Ok(!zone.owns_address(alloc, host)?)
}

/// Whether it names a host of the zone's own data without an address.
pub(crate) fn has_no_address(
    alloc: Global,
    zone: &Subject<'_>,
    record: &Record,
) -> Result<bool, AllocError>
    ensures { IfOk result (λ is. IsTrue is ↔ OfHost (IsWithoutAddress zone.now) «record».now.rdata) }
{
    match host_of(alloc, record)? {
        Some(host) => Ok(is_without_address(alloc, zone, &host)?),
        None => Ok(false),
    }
}

/// Whether it names a host that needs glue and has none.
pub(crate) fn has_no_glue(
    alloc: Global,
    zone: &Subject<'_>,
    record: &Record,
) -> Result<bool, AllocError>
    ensures { IfOk result (λ is. IsTrue is ↔ OfHost (LacksGlue zone.now «record».now) «record».now.rdata) }
{
    match host_of(alloc, record)? {
        Some(host) => Ok(lacks_glue(alloc, zone, record, &host)?),
        None => Ok(false),
    }
}

/// Whether it names a host that is an alias.
pub(crate) fn has_aliased_host(
    alloc: Global,
    zone: &Subject<'_>,
    record: &Record,
) -> Result<bool, AllocError>
    ensures { IfOk result (λ is. IsTrue is ↔ OfHost (IsAliased zone.now) «record».now.rdata) }
{
    match host_of(alloc, record)? {
        Some(host) => Ok(is_aliased(alloc, zone, &host)?),
        None => Ok(false),
    }
}

/// Whether a zone is cut at a name or above it.
fn is_cut_away(alloc: Global, zone: &Subject<'_>, name: &Name) -> Result<bool, AllocError>
    ensures { IfOk result (λ is. IsTrue is ↔ (IsCut zone.now name.now ⊎ IsBelowCut zone.now name.now)) }
{
    if zone.is_cut(alloc, name)? {
        return Ok(true);
    }
    zone.is_below_cut(alloc, name)
}

/// Whether it is an address at a cut or below it that no NS record needs.
pub(crate) fn is_idle_glue(
    alloc: Global,
    zone: &Subject<'_>,
    record: &Record,
) -> Result<bool, AllocError>
    ensures { IfOk result (λ is. IsTrue is ↔ IsIdleGlue zone.now «record».now) }
{
    let record_type = record.rdata.record_type();
    if record_type != RecordType::A && record_type != RecordType::AAAA {
        return Ok(false);
    }
    if !is_cut_away(alloc, zone, &record.name)? {
        return Ok(false);
    }
    let is_server = zone.is_server(alloc, &record.name)?;
    Ok(!is_server)
}
