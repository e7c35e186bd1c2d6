//! What is asked of a signed zone: its signatures and its NSEC records.

ghost use Rattle.std.specs.Prelude.{◌≡◌, ◌↔◌, IfOk, IsTrue};
ghost use Rattle.std.specs.Option.{option_map};
ghost use Rattle.zone_check.specs.Findings.{IsFoundIfSigned, IsFoundOfSigned};
ghost use Rattle.zone_check.specs.SignedZones.{EndsSoon, HasEnded, HasIdleType, HasIterations, HasOtherNext, IsIdleType, IsListed, IsNext, IsOfZone, IsToSign, IsUnlisted, IsUnreadNsec, IsUnsigned, LacksNsec, ListsIdleType, OfTimes, is_type_at_cut, nsec_at};

use crate::finding::Kind;
use crate::hashed::is_unread_nsec3;
use crate::octets::{expiration_of, nsec_of, parameters_of};
use crate::starts::is_above;
use crate::subject::Subject;
use std::alloc::{AllocError, Global};
use wire_messages::rr::record::Record;
use wire_messages::rr::record_type::RecordType;
use wire_names::rr::domain::lower_name::LowerName;
use wire_names::rr::domain::name::Name;
use zone_denials::nsec::NsecData;

/// Whether a name is in the zone, and neither below a cut nor below a DNAME.
pub(crate) fn is_of_zone(alloc: Global, zone: &Subject<'_>, name: &Name) -> Result<bool, AllocError>
    ensures { IfOk result (λ is. IsTrue is ↔ IsOfZone zone.now name.now) }
{
    if !zone.is_in_zone(name) || zone.is_below_cut(alloc, name)? {
        return Ok(false);
    }
    let is_below = zone.is_below_dname(alloc, name)?;
    Ok(!is_below)
}

/// Whether the owner name has no NSEC record, and has to have one.
fn lacks_nsec(alloc: Global, zone: &Subject<'_>, record: &Record) -> Result<bool, AllocError>
    ensures { IfOk result (λ is. IsTrue is ↔ LacksNsec zone.now «record».now) }
{
    if zone.owns(alloc, zone.origin(), RecordType::NSEC3PARAM)?
        || !is_of_zone(alloc, zone, &record.name)?
    {
        return Ok(false);
    }
    let owns = zone.owns(alloc, &record.name, RecordType::NSEC)?;
    Ok(!owns)
}

/// Whether it is an NSEC record whose data have not their form.
fn is_unread_nsec(alloc: Global, record: &Record) -> Result<bool, AllocError>
    ensures { IfOk result (λ is. IsTrue is ↔ IsUnreadNsec «record».now) }
{
    if record.rdata.record_type() != RecordType::NSEC {
        return Ok(false);
    }
    let data = nsec_of(alloc, record)?;
    Ok(data.is_none())
}

/// Whether a name is the next owner name of NSEC records after another.
fn is_next(zone: &Subject<'_>, name: LowerName, next: &Name) -> bool
    ensures { IsTrue result ↔ IsNext zone.now name next.now }
{
    match zone.later_owner(name) {
        Some(later) => next == later.as_name(),
        None => next == zone.origin(),
    }
}

/// Whether it is an NSEC record whose next name is not the next owner name.
fn has_other_next(alloc: Global, zone: &Subject<'_>, record: &Record) -> Result<bool, AllocError>
    ensures { IfOk result (λ is. IsTrue is ↔ HasOtherNext zone.now «record».now) }
{
    match nsec_of(alloc, record)? {
        Some(data) => {
            let name = LowerName::new(alloc, &record.name)?;
            Ok(!is_next(zone, name, &data.next))
        }
        None => Ok(false),
    }
}

/// Whether records of the type are the zone's own at a cut.
fn is_type_at_cut(record_type: RecordType) -> bool
    ensures { result ≡ is_type_at_cut record_type }
{
    record_type == RecordType::NS
        || record_type == RecordType::DS
        || record_type == RecordType::RRSIG
        || record_type == RecordType::NSEC
        || record_type == RecordType::SOA
        || record_type == RecordType::CNAME
}

/// Whether records of the type at a name are in its NSEC record.
pub(crate) fn is_listed(
    alloc: Global,
    zone: &Subject<'_>,
    name: &Name,
    record_type: RecordType,
) -> Result<bool, AllocError>
    ensures { IfOk result (λ is. IsTrue is ↔ IsListed zone.now name.now record_type) }
{
    if is_type_at_cut(record_type) {
        return Ok(true);
    }
    let is_cut = zone.is_cut(alloc, name)?;
    Ok(!is_cut)
}

/// Whether the zone has no records of the type at a name.
fn is_idle_type(
    alloc: Global,
    zone: &Subject<'_>,
    name: &Name,
    record_type: RecordType,
) -> Result<bool, AllocError>
    ensures { IfOk result (λ is. IsTrue is ↔ IsIdleType zone.now name.now record_type) }
{
    if !zone.owns(alloc, name, record_type)? {
        return Ok(true);
    }
    let is_listed = is_listed(alloc, zone, name, record_type)?;
    Ok(!is_listed)
}

/// Whether the zone has no records of one of these types at a name.
pub(crate) fn has_idle_type(
    alloc: Global,
    zone: &Subject<'_>,
    name: &Name,
    types: &[RecordType],
) -> Result<bool, AllocError>
    ensures { IfOk result (λ is. IsTrue is ↔ HasIdleType zone.now name.now types.now) }
{
    for record_type in types {
        if is_idle_type(alloc, zone, name, *record_type)? {
            return Ok(true);
        }
    }
    Ok(false)
}

/// Whether it is an NSEC record that lists a type of which the zone has no records at its name.
fn lists_idle_type(alloc: Global, zone: &Subject<'_>, record: &Record) -> Result<bool, AllocError>
    ensures { IfOk result (λ is. IsTrue is ↔ ListsIdleType zone.now «record».now) }
{
    match nsec_of(alloc, record)? {
        Some(data) => has_idle_type(alloc, zone, &record.name, data.types.as_slice()),
        None => Ok(false),
    }
}

/// What the first NSEC record of a name says.
fn nsec_at(alloc: Global, zone: &Subject<'_>, name: &Name) -> Result<Option<NsecData>, AllocError>
    ensures { IfOk result (λ found. option_map (λ it. it.types.items) found ≡
        option_map (λ n. n.types) (nsec_at zone.now name.now)) }
{
    match zone.first_of(alloc, name, RecordType::NSEC)? {
        Some(first) => nsec_of(alloc, first),
        None => Ok(None),
    }
}

/// Whether the owner name has an NSEC record, which does not list the type of this record.
fn is_unlisted(alloc: Global, zone: &Subject<'_>, record: &Record) -> Result<bool, AllocError>
    ensures { IfOk result (λ is. IsTrue is ↔ IsUnlisted zone.now «record».now) }
{
    let record_type = record.rdata.record_type();
    if !is_listed(alloc, zone, &record.name, record_type)? {
        return Ok(false);
    }
    match nsec_at(alloc, zone, &record.name)? {
        Some(data) => Ok(!data.types.as_slice().contains(&record_type)),
        None => Ok(false),
    }
}

/// Whether records of the type at a name are signed.
fn is_to_sign(
    alloc: Global,
    zone: &Subject<'_>,
    name: &Name,
    record_type: RecordType,
) -> Result<bool, AllocError>
    ensures { IfOk result (λ is. IsTrue is ↔ IsToSign zone.now name.now record_type) }
{
    if record_type == RecordType::RRSIG {
        return Ok(false);
    }
    if record_type == RecordType::DS || record_type == RecordType::NSEC {
        return Ok(true);
    }
    let is_cut = zone.is_cut(alloc, name)?;
    Ok(!is_cut)
}

/// Whether the record is one of those to sign, and is not signed.
fn is_unsigned(alloc: Global, zone: &Subject<'_>, record: &Record) -> Result<bool, AllocError>
    ensures { IfOk result (λ is. IsTrue is ↔ IsUnsigned zone.now «record».now) }
{
    let record_type = record.rdata.record_type();
    if !is_of_zone(alloc, zone, &record.name)?
        || !is_to_sign(alloc, zone, &record.name, record_type)?
    {
        return Ok(false);
    }
    let is_covered = zone.is_covered(alloc, &record.name, record_type)?;
    Ok(!is_covered)
}

/// Whether it is a signature that has ended.
fn has_ended(zone: &Subject<'_>, record: &Record) -> bool
    ensures { IsTrue result ↔ OfTimes HasEnded zone.now «record».now.rdata }
{
    match (zone.time(), expiration_of(record)) {
        (Some(time), Some(expiration)) => is_above(time, expiration),
        _ => false,
    }
}

/// 7 days in seconds.
const SOON: u32 = 604_800;

/// Whether a signature that ends at this time ends within 7 days.
fn ends_soon_after(time: u32, expiration: u32) -> bool
    ensures { IsTrue result ↔ EndsSoon time expiration }
{
    !is_above(time, expiration) && is_above(time.wrapping_add(SOON), expiration)
}

/// Whether it is a signature that ends within 7 days.
fn ends_soon(zone: &Subject<'_>, record: &Record) -> bool
    ensures { IsTrue result ↔ OfTimes EndsSoon zone.now «record».now.rdata }
{
    match (zone.time(), expiration_of(record)) {
        (Some(time), Some(expiration)) => ends_soon_after(time, expiration),
        _ => false,
    }
}

/// Whether it is an NSEC3PARAM record with iterations.
fn has_iterations(record: &Record) -> bool
    ensures { IsTrue result ↔ HasIterations «record».now.rdata }
{
    match parameters_of(record, RecordType::NSEC3PARAM) {
        Some(by) => 0 < by.iterations,
        None => false,
    }
}

/// Whether a finding of this kind is one of the record, if the zone is signed.
fn is_if_signed(
    alloc: Global,
    zone: &Subject<'_>,
    record: &Record,
    kind: Kind,
) -> Result<bool, AllocError>
    ensures { IfOk result (λ is. IsTrue is ↔ IsFoundIfSigned kind zone.now «record».now) }
{
    match kind {
        Kind::NoNsec => lacks_nsec(alloc, zone, record),
        Kind::UnreadNsec => is_unread_nsec(alloc, record),
        Kind::OtherNext => has_other_next(alloc, zone, record),
        Kind::IdleType => lists_idle_type(alloc, zone, record),
        Kind::Unlisted => is_unlisted(alloc, zone, record),
        Kind::Unsigned => is_unsigned(alloc, zone, record),
        Kind::Ended => Ok(has_ended(zone, record)),
        Kind::EndsSoon => Ok(ends_soon(zone, record)),
        Kind::Iterations => Ok(has_iterations(record)),
        Kind::UnreadNsec3 => is_unread_nsec3(alloc, zone, record),
        _ => Ok(false),
    }
}

/// Whether the zone is signed, and a finding of this kind is one of the record.
pub(crate) fn is_of_signed(
    alloc: Global,
    zone: &Subject<'_>,
    record: &Record,
    kind: Kind,
) -> Result<bool, AllocError>
    ensures { IfOk result (λ is. IsTrue is ↔ IsFoundOfSigned kind zone.now «record».now) }
{
    if !zone.owns(alloc, zone.origin(), RecordType::RRSIG)? {
        return Ok(false);
    }
    is_if_signed(alloc, zone, record, kind)
}
