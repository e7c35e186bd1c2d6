//! What is asked of a record's name, type and TTL.

ghost use Rattle.std.specs.Prelude.{◌≡◌, ◌≢◌, ◌↔◌, IfOk, IsTrue};
ghost use Rattle.wire_messages.specs.rr.RecordSameness.{SameData};
ghost use Rattle.zone_check.specs.Findings.{CoversNothing, HasOtherTtl, IsCnameBesideData, IsDataAtCut, IsDataBelowCut, IsDsAtApex, IsNsec3paramBelowApex, IsOutside, IsSecond, IsSingle, IsSoaBelowApex, OfFirst, is_cut_type};

use crate::octets::covered_of;
use crate::subject::{DNAME, Subject};
use std::alloc::{AllocError, Global};
use wire_messages::rr::rdata::RData;
use wire_messages::rr::record::Record;
use wire_messages::rr::record_sameness::record_comparisons;
use wire_messages::rr::record_type::RecordType;

/// Whether the owner name is neither the apex nor below it.
pub(crate) fn is_outside(zone: &Subject<'_>, record: &Record) -> bool
    ensures { IsTrue result ↔ IsOutside zone.now «record».now }
{
    !zone.is_in_zone(&record.name)
}

/// Whether it is an SOA record below the apex.
pub(crate) fn is_soa_below_apex(zone: &Subject<'_>, record: &Record) -> bool
    ensures { IsTrue result ↔ IsSoaBelowApex zone.now «record».now }
{
    record.rdata.record_type() == RecordType::SOA && zone.is_below_apex(&record.name)
}

/// Whether a name owns one record of the type.
fn is_single(record_type: RecordType) -> bool
    ensures { IsTrue result ↔ IsSingle record_type }
{
    record_type == RecordType::SOA
        || record_type == RecordType::CNAME
        || record_type.value() == DNAME
        || record_type == RecordType::NSEC
}

/// Whether the data of two records are not the same.
fn are_other_data(data: &RData, others: &RData) -> bool
    ensures { IsTrue result ↔ (¬ (SameData «data».now others.now)) }
{
    record_comparisons();
    data != others
}

/// Whether the first record of the same name and type has other data.
fn differs_from_first(
    alloc: Global,
    zone: &Subject<'_>,
    record: &Record,
) -> Result<bool, AllocError>
    ensures { IfOk result (λ is. IsTrue is ↔
        OfFirst (λ first. ¬ (SameData first.rdata «record».now.rdata)) zone.now «record».now) }
{
    match zone.first_of(alloc, &record.name, record.rdata.record_type())? {
        Some(first) => Ok(are_other_data(&first.rdata, &record.rdata)),
        None => Ok(false),
    }
}

/// Whether it is another record of a type of which a name owns one.
pub(crate) fn is_second(
    alloc: Global,
    zone: &Subject<'_>,
    record: &Record,
) -> Result<bool, AllocError>
    ensures { IfOk result (λ is. IsTrue is ↔ IsSecond zone.now «record».now) }
{
    if !is_single(record.rdata.record_type()) {
        return Ok(false);
    }
    let differs = differs_from_first(alloc, zone, record)?;
    Ok(differs)
}

/// Whether it is a CNAME beside other data.
pub(crate) fn is_cname_beside_data(
    alloc: Global,
    zone: &Subject<'_>,
    record: &Record,
) -> Result<bool, AllocError>
    ensures { IfOk result (λ is. IsTrue is ↔ IsCnameBesideData zone.now «record».now) }
{
    if record.rdata.record_type() != RecordType::CNAME {
        return Ok(false);
    }
    zone.owns_data(alloc, &record.name)
}

/// Whether it is no address and the zone is cut above it.
pub(crate) fn is_data_below_cut(
    alloc: Global,
    zone: &Subject<'_>,
    record: &Record,
) -> Result<bool, AllocError>
    ensures { IfOk result (λ is. IsTrue is ↔ IsDataBelowCut zone.now «record».now) }
{
    let record_type = record.rdata.record_type();
    if record_type == RecordType::A || record_type == RecordType::AAAA {
        return Ok(false);
    }
    zone.is_below_cut(alloc, &record.name)
}

/// Whether records of the type may stand at a cut.
fn is_cut_type(record_type: RecordType) -> bool
    ensures { result ≡ is_cut_type record_type }
{
    record_type == RecordType::NS
        || record_type == RecordType::DS
        || record_type == RecordType::RRSIG
        || record_type == RecordType::NSEC
        || record_type == RecordType::A
        || record_type == RecordType::AAAA
}

/// Whether it stands at a cut, and is of a type that may not.
pub(crate) fn is_data_at_cut(
    alloc: Global,
    zone: &Subject<'_>,
    record: &Record,
) -> Result<bool, AllocError>
    ensures { IfOk result (λ is. IsTrue is ↔ IsDataAtCut zone.now «record».now) }
{
    if is_cut_type(record.rdata.record_type()) {
        return Ok(false);
    }
    let is_cut = zone.is_cut(alloc, &record.name)?;
    Ok(is_cut)
}

/// Whether its TTL is another than that of the first record of its name and type.
fn has_other_ttl_than_first(
    alloc: Global,
    zone: &Subject<'_>,
    record: &Record,
) -> Result<bool, AllocError>
    ensures { IfOk result (λ is. IsTrue is ↔ OfFirst (λ first. first.ttl ≢ «record».now.ttl) zone.now «record».now) }
{
    match zone.first_of(alloc, &record.name, record.rdata.record_type())? {
        Some(first) => Ok(first.ttl != record.ttl),
        None => Ok(false),
    }
}

/// Whether its TTL is another than that of the first record of its RRset.
pub(crate) fn has_other_ttl(
    alloc: Global,
    zone: &Subject<'_>,
    record: &Record,
) -> Result<bool, AllocError>
    ensures { IfOk result (λ is. IsTrue is ↔ HasOtherTtl zone.now «record».now) }
{
    if record.rdata.record_type() == RecordType::RRSIG {
        return Ok(false);
    }
    let differs = has_other_ttl_than_first(alloc, zone, record)?;
    Ok(differs)
}

/// Whether it is a DS record at the apex.
pub(crate) fn is_ds_at_apex(zone: &Subject<'_>, record: &Record) -> bool
    ensures { IsTrue result ↔ IsDsAtApex zone.now «record».now }
{
    record.rdata.record_type() == RecordType::DS && zone.is_apex(&record.name)
}

/// Whether it is an NSEC3PARAM record below the apex.
pub(crate) fn is_nsec3param_below_apex(zone: &Subject<'_>, record: &Record) -> bool
    ensures { IsTrue result ↔ IsNsec3paramBelowApex zone.now «record».now }
{
    record.rdata.record_type() == RecordType::NSEC3PARAM && zone.is_below_apex(&record.name)
}

/// Whether it is an RRSIG record over a type of which the name has no records.
pub(crate) fn covers_nothing(
    alloc: Global,
    zone: &Subject<'_>,
    record: &Record,
) -> Result<bool, AllocError>
    ensures { IfOk result (λ is. IsTrue is ↔ CoversNothing zone.now «record».now) }
{
    match covered_of(record) {
        Some(covered) => {
            let owns = zone.owns(alloc, &record.name, covered)?;
            Ok(!owns)
        }
        None => Ok(false),
    }
}
