//! All that is found of a zone.

ghost use Rattle.std.specs.Prelude.{◌≡◌, ◌↔◌, ◌++◌, ◌∷◌, [], List, IfOk, IsTrue, OnOk, Some, length, map};
ghost use Rattle.std.specs.List.{slice_get};
ghost use Rattle.zone_check.specs.CheckedZones.{Owns, checked_zone};
ghost use Rattle.zone_check.specs.Findings.{AreFindings, Holds, IsFoundOf, IsFoundOfAny, IsFoundOfZone, Selects, at_place, is_for_hashed, is_for_signed, of_whole};
ghost use Rattle.zone_check.specs.declared.finding.Finding.{Finding as FindingOf};

use crate::finding::{Finding, Kind};
use crate::hashed::is_of_hashed;
use crate::hosts::{has_aliased_host, has_no_address, has_no_glue, is_idle_glue};
use crate::names::{
    covers_nothing, has_other_ttl, is_cname_beside_data, is_data_at_cut, is_data_below_cut,
    is_ds_at_apex, is_nsec3param_below_apex, is_outside, is_second, is_soa_below_apex,
};
use crate::signed::is_of_signed;
use crate::starts::{
    has_low_serial, has_odd_expire, has_odd_minimum, has_odd_refresh, has_odd_retry,
};
use crate::subject::Subject;
use std::alloc::{AllocError, Global};
use wire_messages::rr::record::Record;
use wire_messages::rr::record_type::RecordType;
use wire_names::rr::domain::name::Name;

/// Whether the apex has no records of a type.
fn apex_lacks(
    alloc: Global,
    zone: &Subject<'_>,
    record_type: RecordType,
) -> Result<bool, AllocError>
    ensures { IfOk result (λ is. IsTrue is ↔ (¬ (Owns zone.now zone.now.origin record_type))) }
{
    let owns = zone.owns(alloc, zone.origin(), record_type)?;
    Ok(!owns)
}

/// Whether a finding of this kind is one of the zone as a whole.
fn is_of_zone(alloc: Global, zone: &Subject<'_>, kind: Kind) -> Result<bool, AllocError>
    ensures { IfOk result (λ is. IsTrue is ↔ IsFoundOfZone kind zone.now) }
{
    match kind {
        Kind::NoSoa => apex_lacks(alloc, zone, RecordType::SOA),
        Kind::NoServers => apex_lacks(alloc, zone, RecordType::NS),
        _ => Ok(false),
    }
}

/// Whether a finding of this kind is one of the record at a place, be the zone signed or not.
fn is_of_any(
    alloc: Global,
    zone: &Subject<'_>,
    place: usize,
    record: &Record,
    kind: Kind,
) -> Result<bool, AllocError>
    requires { slice_get zone.now.records place ≡ Some «record».now }
    ensures { IfOk result (λ is. IsTrue is ↔ IsFoundOfAny kind zone.now place «record».now) }
{
    match kind {
        Kind::NoSoa | Kind::NoServers => Ok(false),
        Kind::Outside => Ok(is_outside(zone, record)),
        Kind::SoaBelowApex => Ok(is_soa_below_apex(zone, record)),
        Kind::Second => is_second(alloc, zone, record),
        Kind::Repeated => Ok(zone.is_repeated(place)),
        Kind::CnameBesideData => is_cname_beside_data(alloc, zone, record),
        Kind::BelowDname => zone.is_below_dname(alloc, &record.name),
        Kind::BelowCut => is_data_below_cut(alloc, zone, record),
        Kind::AtCut => is_data_at_cut(alloc, zone, record),
        Kind::OtherTtl => has_other_ttl(alloc, zone, record),
        Kind::NoAddress => has_no_address(alloc, zone, record),
        Kind::NoGlue => has_no_glue(alloc, zone, record),
        Kind::IdleGlue => is_idle_glue(alloc, zone, record),
        Kind::HostIsAlias => has_aliased_host(alloc, zone, record),
        Kind::SerialNotAbove => Ok(has_low_serial(zone, record)),
        Kind::Refresh => Ok(has_odd_refresh(record)),
        Kind::Retry => Ok(has_odd_retry(record)),
        Kind::Expire => Ok(has_odd_expire(record)),
        Kind::Minimum => Ok(has_odd_minimum(record)),
        Kind::DsAtApex => Ok(is_ds_at_apex(zone, record)),
        Kind::Nsec3paramBelowApex => Ok(is_nsec3param_below_apex(zone, record)),
        Kind::CoversNothing => covers_nothing(alloc, zone, record),
        _ => Ok(false),
    }
}

/// Whether only signed zones have findings of this kind.
fn is_for_signed(kind: Kind) -> bool
    ensures { result ≡ is_for_signed kind }
{
    match kind {
        Kind::NoNsec => true,
        Kind::UnreadNsec => true,
        Kind::OtherNext => true,
        Kind::IdleType => true,
        Kind::Unlisted => true,
        Kind::Unsigned => true,
        Kind::Ended => true,
        Kind::EndsSoon => true,
        Kind::Iterations => true,
        Kind::UnreadNsec3 => true,
        _ => false,
    }
}

/// Whether only zones whose names are hashed have findings of this kind.
fn is_for_hashed(kind: Kind) -> bool
    ensures { result ≡ is_for_hashed kind }
{
    match kind {
        Kind::OtherParameters => true,
        Kind::OtherNextHash => true,
        Kind::IdleNsec3 => true,
        Kind::BesideNsec3 => true,
        Kind::NoNsec3 => true,
        Kind::IdleType3 => true,
        Kind::Unlisted3 => true,
        _ => false,
    }
}

/// Whether a finding of this kind is one of the record at a place.
fn is_of_record(
    alloc: Global,
    zone: &Subject<'_>,
    place: usize,
    record: &Record,
    kind: Kind,
) -> Result<bool, AllocError>
    requires { slice_get zone.now.records place ≡ Some «record».now }
    ensures { IfOk result (λ is. IsTrue is ↔ IsFoundOf kind zone.now place «record».now) }
{
    if is_for_hashed(kind) {
        return is_of_hashed(alloc, zone, record, kind);
    }
    if is_for_signed(kind) {
        return is_of_signed(alloc, zone, record, kind);
    }
    is_of_any(alloc, zone, place, record, kind)
}

/// Whether a finding holds.
fn is_held(alloc: Global, zone: &Subject<'_>, finding: Finding) -> Result<bool, AllocError>
    ensures { IfOk result (λ is. IsTrue is ↔ Holds zone.now finding) }
{
    let Some(place) = finding.place else {
        return Ok(is_of_zone(alloc, zone, finding.kind)?);
    };
    match zone.record_at(place) {
        Some(record) => Ok(is_of_record(alloc, zone, place, record, finding.kind)?),
        None => Ok(false),
    }
}

/// Puts a finding behind others, if it holds.
fn look_for(
    alloc: Global,
    zone: &Subject<'_>,
    finding: Finding,
    found: &mut Vec<Finding>,
) -> Result<(), AllocError>
    ensures { OnOk result ((all : List FindingOf) → Selects zone.now all found.old.items →
        Selects zone.now (all ++ finding ∷ []) found.new.items) }
{
    let held = is_held(alloc, zone, finding)?;
    if held {
        found.push(finding)?;
        return Ok(());
    }
    Ok(())
}

/// All kinds of findings of a record, in the order in which they are told.
const KINDS: [Kind; 38] = [
    Kind::Outside,
    Kind::SoaBelowApex,
    Kind::Second,
    Kind::Repeated,
    Kind::CnameBesideData,
    Kind::BelowDname,
    Kind::BelowCut,
    Kind::AtCut,
    Kind::OtherTtl,
    Kind::NoAddress,
    Kind::NoGlue,
    Kind::IdleGlue,
    Kind::HostIsAlias,
    Kind::SerialNotAbove,
    Kind::Refresh,
    Kind::Retry,
    Kind::Expire,
    Kind::Minimum,
    Kind::DsAtApex,
    Kind::Nsec3paramBelowApex,
    Kind::CoversNothing,
    Kind::NoNsec,
    Kind::UnreadNsec,
    Kind::OtherNext,
    Kind::IdleType,
    Kind::Unlisted,
    Kind::Unsigned,
    Kind::Ended,
    Kind::EndsSoon,
    Kind::Iterations,
    Kind::UnreadNsec3,
    Kind::OtherParameters,
    Kind::OtherNextHash,
    Kind::IdleNsec3,
    Kind::BesideNsec3,
    Kind::NoNsec3,
    Kind::IdleType3,
    Kind::Unlisted3,
];

/// Puts what is found of the record at a place behind other findings, by these kinds.
fn look_at(
    alloc: Global,
    zone: &Subject<'_>,
    place: usize,
    kinds: &[Kind],
    found: &mut Vec<Finding>,
) -> Result<(), AllocError>
    ensures { OnOk result ((all : List FindingOf) → Selects zone.now all found.old.items →
        Selects zone.now (all ++ map (at_place place) kinds.now) found.new.items) }
{
    for kind in kinds {
        let finding = Finding {
            place: Some(place),
            kind: *kind,
        };
        look_for(alloc, zone, finding, found)?;
    }
    Ok(())
}

/// What is found of a zone as a whole.
fn look_at_whole(alloc: Global, zone: &Subject<'_>) -> Result<Vec<Finding>, AllocError>
    ensures { IfOk result (λ found. Selects zone.now of_whole found.items) }
{
    let mut found = Vec::new(alloc);
    let no_soa = Finding {
        place: None,
        kind: Kind::NoSoa,
    };
    look_for(alloc, zone, no_soa, &mut found)?;
    let no_servers = Finding {
        place: None,
        kind: Kind::NoServers,
    };
    look_for(alloc, zone, no_servers, &mut found)?;
    Ok(found)
}

/// What is found of a zone that is ready to be looked at.
fn look_at_all(alloc: Global, zone: &Subject<'_>, count: usize) -> Result<Vec<Finding>, AllocError>
    requires { count ≡ length zone.now.records }
    ensures { IfOk result (λ found. AreFindings zone.now found.items) }
{
    let mut found = look_at_whole(alloc, zone)?;
    for place in 0..count {
        look_at(alloc, zone, place, &KINDS, &mut found)?;
    }
    Ok(found)
}

/// What is found of a zone: of the zone as a whole first, then of each of its records in their order, and of each
/// record by kind, as the kinds stand in [`Kind`].
///
/// `records` are the records of a zone file in its order, as `zone_text::read_zone_file` gives them; `origin` is the
/// name of the apex, taken as fully qualified. `previous` is the serial of the zone before, and `time` the seconds since
/// 1970 modulo 2^32, if these are known. It takes time by the records, for each by the labels of its name, the depth of a
/// map of all, and the records of its name and type before it; the memory is by the records.
///
/// # Errors
///
/// The one error is want of memory.
pub fn check(
    alloc: Global,
    origin: &Name,
    records: &[Record],
    previous: Option<u32>,
    time: Option<u32>,
) -> Result<Vec<Finding>, AllocError>
    ensures { IfOk result (λ found. AreFindings (checked_zone origin.now records.now previous time) found.items) }
{
    let zone = Subject::new(alloc, origin, records, previous, time)?;
    let found = look_at_all(alloc, &zone, records.len())?;
    Ok(found)
}
