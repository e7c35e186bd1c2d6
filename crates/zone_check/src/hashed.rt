//! What is asked of a zone that is signed with NSEC3 records.

ghost use Rattle.std.specs.Prelude.{◌≡◌, ◌↔◌, ◌⊎◌, IfOk, IsTrue, List, MatchOption, None, Some, ℕ};
ghost use Rattle.std.specs.Option.{option_copied, option_map};
ghost use Rattle.wire_messages.specs.rr.RecordData.{type_of};
ghost use Rattle.zone_check.specs.CheckedZones.{type_nsec3, type_nsec3param};
ghost use Rattle.zone_check.specs.Findings.{IsFoundIfHashed, IsFoundByName, IsFoundOfEmpty, IsFoundOfHashed, IsFoundOfOwner};
ghost use Rattle.zone_check.specs.HashedZones.{HasHash, HasOtherNextHash, HasOtherParameters, IsAbove, IsBesideNsec3, IsCover, IsEmptyAnd, IsFirst, IsIdleNsec3, IsNextHash, IsOptedOut, IsUnlisted3, IsUnreadNsec3, LacksHash, ListsIdleTypeOf, ListsType, MayBeLeftOut, OwnsNothing, hash_at, hashing_of, nsec3_at, nsec3_of, parameters_of};
ghost use Rattle.zone_denials.specs.Nsec3.{Hashing};
ghost use Rattle.zone_denials.specs.Nsec3Data.{hashing_by, nsec3_by};

use crate::finding::Kind;
use crate::hashes;
use crate::octets::{self, parameters_of, zone_parameters_of};
use crate::signed::{has_idle_type, is_listed, is_of_zone};
use crate::subject::Subject;
use std::alloc::{AllocError, Global};
use wire_messages::rr::record::Record;
use wire_messages::rr::record_type::RecordType;
use wire_names::rr::domain::lower_name::LowerName;
use wire_names::rr::domain::name::Name;
use zone_denials::nsec3::hash;
use zone_denials::nsec3_data::{Nsec3Data, Parameters};

/// The hash that the owner name of an NSEC3 record has.
fn hash_at(
    alloc: Global,
    zone: &Subject<'_>,
    record: &Record,
) -> Result<Option<[u8; 20]>, AllocError>
    ensures { IfOk result (λ hash. hash ≡ hash_at zone.now.origin «record».now) }
{
    hashes::hash_at(alloc, zone.origin(), record)
}

/// Whether it is an NSEC3 record whose owner name or data have not their form.
fn is_unread_hash(alloc: Global, zone: &Subject<'_>, record: &Record) -> Result<bool, AllocError>
    ensures { IfOk result (λ is. IsTrue is ↔
        ((type_of «record».now.rdata ≡ type_nsec3) × (nsec3_of zone.now.origin «record».now ≡ None))) }
{
    if record.rdata.record_type() != RecordType::NSEC3 {
        return Ok(false);
    }
    let hash = hash_at(alloc, zone, record)?;
    if hash.is_none() {
        return Ok(true);
    }
    let data = octets::nsec3_of(alloc, record)?;
    Ok(data.is_none())
}

/// Whether it is an NSEC3PARAM record without parameters of a zone.
fn is_unread_parameters(record: &Record) -> bool
    ensures { IsTrue result ↔
        ((type_of «record».now.rdata ≡ type_nsec3param) × (parameters_of «record».now.rdata ≡ None)) }
{
    record.rdata.record_type() == RecordType::NSEC3PARAM && zone_parameters_of(record).is_none()
}

/// Whether it is an NSEC3 or NSEC3PARAM record that has not the form of such a one.
pub(crate) fn is_unread_nsec3(
    alloc: Global,
    zone: &Subject<'_>,
    record: &Record,
) -> Result<bool, AllocError>
    ensures { IfOk result (λ is. IsTrue is ↔ IsUnreadNsec3 zone.now «record».now) }
{
    if is_unread_parameters(record) {
        return Ok(true);
    }
    is_unread_hash(alloc, zone, record)
}

/// Whether it is an NSEC3 record with other parameters than these.
fn has_other_parameters(by: &Parameters<'_>, record: &Record) -> bool
    ensures { IsTrue result ↔ HasOtherParameters (hashing_by by.now) «record».now }
{
    match parameters_of(record, RecordType::NSEC3) {
        Some(other) => other.iterations != by.iterations || other.salt != by.salt,
        None => false,
    }
}

/// Whether a hash is the first of all NSEC3 records.
fn is_first_hash(zone: &Subject<'_>, hash: &[u8; 20]) -> bool
    ensures { IsTrue result ↔ IsFirst (HasHash zone.now) hash.now }
{
    match zone.first_hash() {
        Some(first) => first == hash,
        None => false,
    }
}

/// Whether a hash is the next one of NSEC3 records after another.
fn is_next_hash(zone: &Subject<'_>, hash: &[u8; 20], next: &[u8; 20]) -> bool
    ensures { IsTrue result ↔ IsNextHash zone.now hash.now next.now }
{
    match zone.later_hash(hash) {
        Some(later) => later == next,
        None => is_first_hash(zone, next),
    }
}

/// Whether it is an NSEC3 record whose next hash is not the next one.
fn has_other_next_hash(
    alloc: Global,
    zone: &Subject<'_>,
    record: &Record,
) -> Result<bool, AllocError>
    ensures { IfOk result (λ is. IsTrue is ↔ HasOtherNextHash zone.now «record».now) }
{
    let Some(hash) = hash_at(alloc, zone, record)? else {
        return Ok(false);
    };
    match octets::nsec3_of(alloc, record)? {
        Some(data) => Ok(!is_next_hash(zone, &hash, &data.next)),
        None => Ok(false),
    }
}

/// Whether it is an NSEC3 record with the hash of no name that exists.
fn is_idle_nsec3(alloc: Global, zone: &Subject<'_>, record: &Record) -> Result<bool, AllocError>
    ensures { IfOk result (λ is. (by : Hashing) → hashing_of zone.now ≡ Some by →
        (IsTrue is ↔ IsIdleNsec3 zone.now by «record».now)) }
{
    match hash_at(alloc, zone, record)? {
        Some(hash) => Ok(!zone.has_name_with(&hash)),
        None => Ok(false),
    }
}

/// What the first NSEC3 record of a hash says.
fn nsec3_at(
    alloc: Global,
    zone: &Subject<'_>,
    hash: &[u8; 20],
) -> Result<Option<Nsec3Data>, AllocError>
    ensures { IfOk result (λ found. option_map (nsec3_by hash.now) found ≡ nsec3_at zone.now hash.now) }
{
    match zone.first_with(hash) {
        Some(first) => octets::nsec3_of(alloc, first),
        None => Ok(None),
    }
}

/// The hash of the NSEC3 record that may cover a hash.
fn cover_of<'z>(zone: &'z Subject<'_>, hash: &[u8; 20]) -> Option<&'z [u8; 20]>
    ensures { MatchOption (option_copied result) ((other : List ℕ) → ¬ (HasHash zone.now other))
        (IsCover zone.now hash.now) }
{
    match zone.earlier_hash(hash) {
        Some(cover) => Some(cover),
        None => zone.last_hash(),
    }
}

/// Whether the NSEC3 record that may cover a hash has opted out.
fn is_opted_out(alloc: Global, zone: &Subject<'_>, hash: &[u8; 20]) -> Result<bool, AllocError>
    ensures { IfOk result (λ is. IsTrue is ↔ IsOptedOut zone.now hash.now) }
{
    let Some(cover) = cover_of(zone, hash) else {
        return Ok(false);
    };
    match nsec3_at(alloc, zone, cover)? {
        Some(data) => Ok(data.opt_out),
        None => Ok(false),
    }
}

/// Whether records of a name may have no NSEC3 record.
fn may_be_left_out(alloc: Global, zone: &Subject<'_>, name: &Name) -> Result<bool, AllocError>
    ensures { IfOk result (λ may. IsTrue may ↔ MayBeLeftOut zone.now name.now) }
{
    if !is_of_zone(alloc, zone, name)? {
        return Ok(true);
    }
    if !zone.is_cut(alloc, name)? {
        return Ok(false);
    }
    let is_signed = zone.owns(alloc, name, RecordType::DS)?;
    Ok(!is_signed)
}

/// Whether a name without an NSEC3 record, which exists by an owner name, has to have one.
fn is_kept(
    alloc: Global,
    zone: &Subject<'_>,
    owner: &Name,
    hash: &[u8; 20],
) -> Result<bool, AllocError>
    ensures { IfOk result (λ is. IsTrue is ↔
        ((¬ (IsOptedOut zone.now hash.now)) ⊎ (¬ (MayBeLeftOut zone.now owner.now)))) }
{
    if !is_opted_out(alloc, zone, hash)? {
        return Ok(true);
    }
    let may_be = may_be_left_out(alloc, zone, owner)?;
    Ok(!may_be)
}

/// Whether an NSEC3 record has a hash.
fn has_hash(zone: &Subject<'_>, hash: &[u8; 20]) -> bool
    ensures { IsTrue result ↔ HasHash zone.now hash.now }
{
    zone.first_with(hash).is_some()
}

/// Whether a name that exists by an owner name has no NSEC3 record, and has to have one.
fn lacks_hash(
    alloc: Global,
    zone: &Subject<'_>,
    by: &Parameters<'_>,
    owner: &Name,
    name: &LowerName,
) -> Result<bool, AllocError>
    ensures { IfOk result (λ is. IsTrue is ↔ LacksHash zone.now (hashing_by by.now) owner.now name.now) }
{
    let digest = hash(name, by.salt, by.iterations);
    if has_hash(zone, &digest) {
        return Ok(false);
    }
    if !is_of_zone(alloc, zone, name.as_name())? {
        return Ok(false);
    }
    is_kept(alloc, zone, owner, &digest)
}

/// Whether the NSEC3 record of a name lists a type of which the zone has no records there.
fn lists_idle_type_of(
    alloc: Global,
    zone: &Subject<'_>,
    by: &Parameters<'_>,
    name: &LowerName,
) -> Result<bool, AllocError>
    ensures { IfOk result (λ is. IsTrue is ↔ ListsIdleTypeOf zone.now (hashing_by by.now) name.now) }
{
    let digest = hash(name, by.salt, by.iterations);
    match nsec3_at(alloc, zone, &digest)? {
        Some(data) => has_idle_type(alloc, zone, name.as_name(), data.types.as_slice()),
        None => Ok(false),
    }
}

/// Whether the NSEC3 record of a name lists a type.
fn lists_type(
    alloc: Global,
    zone: &Subject<'_>,
    by: &Parameters<'_>,
    name: &LowerName,
) -> Result<bool, AllocError>
    ensures { IfOk result (λ is. IsTrue is ↔ ListsType zone.now (hashing_by by.now) name.now) }
{
    let digest = hash(name, by.salt, by.iterations);
    match nsec3_at(alloc, zone, &digest)? {
        Some(data) => Ok(!data.types.is_empty()),
        None => Ok(false),
    }
}

/// Whether a finding of this kind is one of an owner name, which is this name in lower case.
fn is_of_owner(
    alloc: Global,
    zone: &Subject<'_>,
    by: &Parameters<'_>,
    owner: &Name,
    name: &LowerName,
    kind: Kind,
) -> Result<bool, AllocError>
    ensures { IfOk result (λ is. IsTrue is ↔ IsFoundOfOwner kind zone.now (hashing_by by.now) owner.now name.now) }
{
    match kind {
        Kind::NoNsec3 => lacks_hash(alloc, zone, by, owner, name),
        Kind::IdleType3 => lists_idle_type_of(alloc, zone, by, name),
        _ => Ok(false),
    }
}

/// Whether a finding of this kind is one of a name above an owner name, if the name owns nothing.
fn is_if_empty(
    alloc: Global,
    zone: &Subject<'_>,
    by: &Parameters<'_>,
    owner: &Name,
    name: &LowerName,
    kind: Kind,
) -> Result<bool, AllocError>
    ensures { IfOk result (λ is. IsTrue is ↔ IsFoundOfEmpty kind zone.now (hashing_by by.now) owner.now name.now) }
{
    match kind {
        Kind::NoNsec3 => lacks_hash(alloc, zone, by, owner, name),
        Kind::IdleType3 => lists_type(alloc, zone, by, name),
        _ => Ok(false),
    }
}

/// Whether a name owns nothing, or only NSEC3 records and what is beside them.
fn owns_nothing(alloc: Global, zone: &Subject<'_>, name: &LowerName) -> Result<bool, AllocError>
    ensures { IfOk result (λ is. IsTrue is ↔ OwnsNothing zone.now name.now) }
{
    if zone.is_no_owner(name) {
        return Ok(true);
    }
    zone.owns(alloc, name.as_name(), RecordType::NSEC3)
}

/// Whether a name owns nothing, and a finding of this kind is one of it.
fn is_of_empty(
    alloc: Global,
    zone: &Subject<'_>,
    by: &Parameters<'_>,
    owner: &Name,
    name: &LowerName,
    kind: Kind,
) -> Result<bool, AllocError>
    ensures { IfOk result (λ is. IsTrue is ↔
        IsEmptyAnd zone.now (IsFoundOfEmpty kind zone.now (hashing_by by.now) owner.now) name.now) }
{
    if !owns_nothing(alloc, zone, name)? {
        return Ok(false);
    }
    is_if_empty(alloc, zone, by, owner, name, kind)
}

/// Whether a finding of this kind is one of a name above an owner name that owns nothing.
fn is_of_above(
    alloc: Global,
    zone: &Subject<'_>,
    by: &Parameters<'_>,
    owner: &Name,
    kind: Kind,
) -> Result<bool, AllocError>
    ensures { IfOk result (λ is. IsTrue is ↔
        IsAbove zone.now (IsFoundOfEmpty kind zone.now (hashing_by by.now) owner.now) owner.now) }
{
    let mut name = LowerName::new(alloc, owner)?;
    'above: while !name.as_name().as_wire().is_empty() {
        name.remove_first_label();
        if is_of_empty(alloc, zone, by, owner, &name, kind)? {
            return Ok(true);
        }
    }
    Ok(false)
}

/// Whether a finding of this kind is one of a name that exists by a record.
fn is_by_name(
    alloc: Global,
    zone: &Subject<'_>,
    by: &Parameters<'_>,
    record: &Record,
    kind: Kind,
) -> Result<bool, AllocError>
    ensures { IfOk result (λ is. IsTrue is ↔ IsFoundByName kind zone.now (hashing_by by.now) «record».now) }
{
    if zone.owns(alloc, &record.name, RecordType::NSEC3)? {
        return Ok(false);
    }
    let name = LowerName::new(alloc, &record.name)?;
    if is_of_owner(alloc, zone, by, &record.name, &name, kind)? {
        return Ok(true);
    }
    is_of_above(alloc, zone, by, &record.name, kind)
}

/// Whether it is a record beside an NSEC3 record.
fn is_beside_nsec3(alloc: Global, zone: &Subject<'_>, record: &Record) -> Result<bool, AllocError>
    ensures { IfOk result (λ is. IsTrue is ↔ IsBesideNsec3 zone.now «record».now) }
{
    let record_type = record.rdata.record_type();
    if record_type == RecordType::NSEC3 || record_type == RecordType::RRSIG {
        return Ok(false);
    }
    zone.owns(alloc, &record.name, RecordType::NSEC3)
}

/// Whether the owner name has an NSEC3 record, which does not list the type of this record.
fn is_unlisted3(
    alloc: Global,
    zone: &Subject<'_>,
    by: &Parameters<'_>,
    record: &Record,
) -> Result<bool, AllocError>
    ensures { IfOk result (λ is. IsTrue is ↔ IsUnlisted3 zone.now (hashing_by by.now) «record».now) }
{
    let record_type = record.rdata.record_type();
    if zone.owns(alloc, &record.name, RecordType::NSEC3)? {
        return Ok(false);
    }
    if !is_listed(alloc, zone, &record.name, record_type)? {
        return Ok(false);
    }
    let name = LowerName::new(alloc, &record.name)?;
    let digest = hash(&name, by.salt, by.iterations);
    match nsec3_at(alloc, zone, &digest)? {
        Some(data) => Ok(!data.types.as_slice().contains(&record_type)),
        None => Ok(false),
    }
}

/// Whether a finding of this kind is one of the record, if the names of the zone are hashed by these parameters.
fn is_if_hashed(
    alloc: Global,
    zone: &Subject<'_>,
    by: &Parameters<'_>,
    record: &Record,
    kind: Kind,
) -> Result<bool, AllocError>
    requires { hashing_of zone.now ≡ Some (hashing_by by.now) }
    ensures { IfOk result (λ is. IsTrue is ↔ IsFoundIfHashed kind zone.now (hashing_by by.now) «record».now) }
{
    match kind {
        Kind::NoNsec3 => is_by_name(alloc, zone, by, record, Kind::NoNsec3),
        Kind::IdleType3 => is_by_name(alloc, zone, by, record, Kind::IdleType3),
        Kind::BesideNsec3 => is_beside_nsec3(alloc, zone, record),
        Kind::OtherParameters => Ok(has_other_parameters(by, record)),
        Kind::OtherNextHash => has_other_next_hash(alloc, zone, record),
        Kind::IdleNsec3 => is_idle_nsec3(alloc, zone, record),
        Kind::Unlisted3 => is_unlisted3(alloc, zone, by, record),
        _ => Ok(false),
    }
}

/// Whether the names of the zone are hashed, and a finding of this kind is one of the record.
pub(crate) fn is_of_hashed(
    alloc: Global,
    zone: &Subject<'_>,
    record: &Record,
    kind: Kind,
) -> Result<bool, AllocError>
    ensures { IfOk result (λ is. IsTrue is ↔ IsFoundOfHashed kind zone.now «record».now) }
{
    match zone.hashing() {
        Some(by) => is_if_hashed(alloc, zone, &by, record, kind),
        None => Ok(false),
    }
}
