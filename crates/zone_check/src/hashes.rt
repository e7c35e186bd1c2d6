//! The NSEC3 records of a zone by their hashes, and the hashes of its names.

ghost use Rattle.std.specs.Prelude.{◌≡◌, ◌<◌, ◌↔◌, ◌⊎◌, ◌≤◌, IfOk, IsSome, IsTrue, List, MatchOption, OnOk, Some, length, ℕ};
ghost use Rattle.std.specs.BTreeMap.{get};
ghost use Rattle.std.specs.List.{find, slice_get};
ghost use Rattle.std.specs.Option.{option_copied, option_map};
ghost use Rattle.wire_messages.specs.declared.rr.rdata.RData.{RData as RecordData};
ghost use Rattle.wire_messages.specs.declared.rr.record.Record.{Record as RecordOf};
ghost use Rattle.wire_names.specs.rr.domain.DomainName.{DomainName};
ghost use Rattle.zone_check.specs.CheckedZones.{Records, ancestor, is_of, type_nsec3};
ghost use Rattle.zone_check.specs.HashedZones.{HasNameHash, IsByRecord, IsFirst, IsLast, hash_at, is_at, is_hash_owner, is_of_hash, label_hash};
ghost use Rattle.zone_check.specs.Indexes.{HasAllNames, HasFirsts, HasHashes, HasNames, HasOwners, IsEarlierKey, IsKey, IsLaterKey, hash_cmp, hashing_in};
ghost use Rattle.zone_denials.specs.Nsec3Data.{hashing_by};

use crate::index::{above_of, first_under, record_at};
use crate::octets::zone_parameters_of;
use std::alloc::{AllocError, Global};
use std::collections::BTreeMap;
use std::ops::{Bound, RangeBounds};
use wire_messages::rr::record::Record;
use wire_messages::rr::record_type::RecordType;
use wire_messages::rr::rr_key::RrKey;
use wire_names::rr::domain::lower_name::LowerName;
use wire_names::rr::domain::name::Name;
use zone_denials::hash_labels::hash_of;
use zone_denials::nsec3::hash;
use zone_denials::nsec3_data::Parameters;

/// The records of a zone, of which the first of each name and type are known.
#[derive(Clone, Copy)]
pub(crate) struct Named<'z> {
    pub(crate) origin: &'z Name,
    pub(crate) records: &'z [Record],
    pub(crate) firsts: &'z BTreeMap<RrKey, usize>,
}

/// Whether it is an NSEC3 record whose owner name is right below this apex.
fn is_hash_owner(alloc: Global, origin: &Name, record: &Record) -> Result<bool, AllocError>
    ensures { IfOk result (λ is. is ≡ is_hash_owner origin.now «record».now) }
{
    if record.rdata.record_type() != RecordType::NSEC3 {
        return Ok(false);
    }
    let above = above_of(alloc, record)?;
    Ok(above.as_name() == origin)
}

/// The hash that the first label of a name is.
fn label_hash(name: &Name) -> Option<[u8; 20]>
    ensures { result ≡ label_hash name.now.labels }
{
    let wire = name.as_wire();
    if wire.len() < 33 || wire[0] != 32 {
        return None;
    }
    hash_of(&wire[1..33])
}

/// The hash that the owner name of an NSEC3 record has.
pub(crate) fn hash_at(
    alloc: Global,
    origin: &Name,
    record: &Record,
) -> Result<Option<[u8; 20]>, AllocError>
    ensures { IfOk result (λ hash. hash ≡ hash_at origin.now «record».now) }
{
    if !is_hash_owner(alloc, origin, record)? {
        return Ok(None);
    }
    Ok(label_hash(&record.name))
}

/// The owner names of records, each with the place of its first one.
pub(crate) fn owners_of(
    alloc: Global,
    records: &[Record],
) -> Result<BTreeMap<LowerName, usize>, AllocError>
    ensures { IfOk result (HasOwners records.now) }
{
    let mut owners = BTreeMap::new(alloc);
    let mut place = records.len();
    while place > 0 {
        place -= 1;
        let record = &records[place];
        let name = LowerName::new(alloc, &record.name)?;
        let _ = owners.insert(name, place)?;
    }
    Ok(owners)
}

/// The place of the first NSEC3 record of each hash.
pub(crate) fn hashes_of(
    alloc: Global,
    origin: &Name,
    records: &[Record],
) -> Result<BTreeMap<[u8; 20], usize>, AllocError>
    ensures { IfOk result (HasHashes origin.now records.now records.now) }
{
    let mut hashes = BTreeMap::new(alloc);
    let mut place = records.len();
    while place > 0 {
        place -= 1;
        if let Some(hash) = hash_at(alloc, origin, &records[place])? {
            let _ = hashes.insert(hash, place)?;
        }
    }
    Ok(hashes)
}

/// Puts the hash of a name that exists among others, if it is in the zone.
fn put_name(
    origin: &Name,
    by: &Parameters<'_>,
    name: &LowerName,
    place: usize,
    names: &mut BTreeMap<[u8; 20], usize>,
) -> Result<(), AllocError>
    ensures { OnOk result ((q : List ℕ) → IsSome (get hash_cmp names.new q) ↔
        (IsSome (get hash_cmp names.old q) ⊎ HasNameHash origin.now (hashing_by by.now) q name.now)) }
{
    if !origin.zone_of(name.as_name()) {
        return Ok(());
    }
    let digest = hash(name, by.salt, by.iterations);
    let _ = names.insert(digest, place)?;
    Ok(())
}

/// Puts the hashes of a name that exists and of the names above it among others.
fn put_names(
    origin: &Name,
    by: &Parameters<'_>,
    mut name: LowerName,
    place: usize,
    names: &mut BTreeMap<[u8; 20], usize>,
) -> Result<(), AllocError>
    ensures { OnOk result ((q : List ℕ) → IsSome (get hash_cmp names.new q) ↔ (IsSome (get hash_cmp names.old q) ⊎
        ((k : ℕ) × (k ≤ length name.labels) × HasNameHash origin.now (hashing_by by.now) q (ancestor name k)))) }
{
    put_name(origin, by, &name, place, names)?;
    'above: while !name.as_name().as_wire().is_empty() {
        name.remove_first_label();
        put_name(origin, by, &name, place, names)?;
    }
    Ok(())
}

/// Whether a name in lower case has no NSEC3 record.
fn is_named(records: &[Record], firsts: &BTreeMap<RrKey, usize>, name: LowerName) -> bool
    requires { HasFirsts records.now records.now firsts.now }
    ensures { IsTrue result ↔ (¬ (IsSome (find (is_of name type_nsec3) records.now))) }
{
    let key = RrKey::new(name, RecordType::NSEC3);
    first_under(records, firsts, &key).is_none()
}

/// Puts the hashes of the names that exist by a record among others.
fn put_names_by(
    alloc: Global,
    zone: &Named<'_>,
    by: &Parameters<'_>,
    place: usize,
    names: &mut BTreeMap<[u8; 20], usize>,
) -> Result<(), AllocError>
    requires place { place < length zone.now.records.now }
    requires firsts { HasFirsts zone.now.records.now zone.now.records.now zone.now.firsts.now }
    ensures { OnOk result ((r : RecordOf RecordData) → slice_get zone.now.records.now place ≡ Some r → (q : List ℕ) →
        IsSome (get hash_cmp names.new q) ↔ (IsSome (get hash_cmp names.old q) ⊎
        IsByRecord zone.now.origin.now zone.now.records.now (hashing_by by.now) q r)) }
{
    let records = zone.records;
    let record = &records[place];
    let key = LowerName::new(alloc, &record.name)?;
    if !is_named(records, zone.firsts, key) {
        return Ok(());
    }
    let name = LowerName::new(alloc, &record.name)?;
    put_names(zone.origin, by, name, place, names)?;
    Ok(())
}

/// The hashes of all names of a zone that exist, each with the place of a record by which one does.
fn names_by(
    alloc: Global,
    zone: &Named<'_>,
    by: &Parameters<'_>,
) -> Result<BTreeMap<[u8; 20], usize>, AllocError>
    requires { HasFirsts zone.now.records.now zone.now.records.now zone.now.firsts.now }
    ensures { IfOk result (HasNames zone.now.origin.now zone.now.records.now (hashing_by by.now) zone.now.records.now) }
{
    let mut names = BTreeMap::new(alloc);
    let mut place = zone.records.len();
    while place > 0 {
        place -= 1;
        put_names_by(alloc, zone, by, place, &mut names)?;
    }
    Ok(names)
}

/// The parameters of a zone, those of the first NSEC3PARAM record of its apex.
pub(crate) fn hashing_of<'z>(
    alloc: Global,
    origin: &Name,
    records: &'z [Record],
    firsts: &BTreeMap<RrKey, usize>,
) -> Result<Option<Parameters<'z>>, AllocError>
    requires { HasFirsts records.now records.now firsts.now }
    ensures { IfOk result (λ by. option_map hashing_by by ≡ hashing_in origin.now records.now) }
{
    let key = RrKey::new(LowerName::new(alloc, origin)?, RecordType::NSEC3PARAM);
    match first_under(records, firsts, &key) {
        Some(record) => Ok(zone_parameters_of(record)),
        None => Ok(None),
    }
}

/// The hashes of all names of a zone that exist, if it has parameters.
pub(crate) fn names_of(
    alloc: Global,
    zone: &Named<'_>,
    by: &Option<Parameters<'_>>,
) -> Result<BTreeMap<[u8; 20], usize>, AllocError>
    requires firsts { HasFirsts zone.now.records.now zone.now.records.now zone.now.firsts.now }
    requires by { option_map hashing_by by.now ≡ hashing_in zone.now.origin.now zone.now.records.now }
    ensures { IfOk result (HasAllNames zone.now.origin.now zone.now.records.now) }
{
    match by {
        Some(by) => names_by(alloc, zone, by),
        None => Ok(BTreeMap::new(alloc)),
    }
}

/// The hashes after a hash.
#[derive(Drop)]
struct After {
    hash: [u8; 20],
}

impl RangeBounds<[u8; 20]> for After {
    ghost use Rattle.std.specs.Prelude.{⊤};
    ghost use Rattle.std.specs.declared.ops.Bound.TheVariants.{Excluded};

    ghost has_bounds = { λ _. ⊤ };

    ghost start_bound = { λ s. Excluded s.hash };

    fn start_bound(&self) -> Bound<&[u8; 20]> {
        Bound::Excluded(&self.hash)
    }

    fn end_bound(&self) -> Bound<&[u8; 20]> {
        Bound::Unbounded
    }
}

/// The hashes before a hash.
#[derive(Drop)]
struct Before {
    end: [u8; 20],
}

impl RangeBounds<[u8; 20]> for Before {
    ghost use Rattle.std.specs.Prelude.{⊤};
    ghost use Rattle.std.specs.declared.ops.Bound.TheVariants.{Excluded};

    ghost has_bounds = { λ _. ⊤ };

    ghost end_bound = { λ s. Excluded s.end };

    fn start_bound(&self) -> Bound<&[u8; 20]> {
        Bound::Unbounded
    }

    fn end_bound(&self) -> Bound<&[u8; 20]> {
        Bound::Excluded(&self.end)
    }
}

/// The first hash after a hash.
pub(crate) fn later_hash<'z>(
    hashes: &'z BTreeMap<[u8; 20], usize>,
    hash: &[u8; 20],
) -> Option<&'z [u8; 20]>
    ensures { MatchOption (option_copied result) ((q : List ℕ) → ¬ (IsLaterKey hashes.now hash.now q))
        (IsFirst (IsLaterKey hashes.now hash.now)) }
{
    match hashes.range(After { hash: *hash }).next() {
        Some((later, _)) => Some(later),
        None => None,
    }
}

/// The last hash before a hash.
pub(crate) fn earlier_hash<'z>(
    hashes: &'z BTreeMap<[u8; 20], usize>,
    hash: &[u8; 20],
) -> Option<&'z [u8; 20]>
    ensures { MatchOption (option_copied result) ((q : List ℕ) → ¬ (IsEarlierKey hashes.now hash.now q))
        (IsLast (IsEarlierKey hashes.now hash.now)) }
{
    match hashes.range(Before { end: *hash }).next_back() {
        Some((earlier, _)) => Some(earlier),
        None => None,
    }
}

/// The first hash of all.
pub(crate) fn first_hash(hashes: &BTreeMap<[u8; 20], usize>) -> Option<&[u8; 20]>
    ensures { MatchOption (option_copied result) ((q : List ℕ) → ¬ (IsKey hashes.now q)) (IsFirst (IsKey hashes.now)) }
{
    match hashes.first_key_value() {
        Some((first, _)) => Some(first),
        None => None,
    }
}

/// The last hash of all.
pub(crate) fn last_hash(hashes: &BTreeMap<[u8; 20], usize>) -> Option<&[u8; 20]>
    ensures { MatchOption (option_copied result) ((q : List ℕ) → ¬ (IsKey hashes.now q)) (IsLast (IsKey hashes.now)) }
{
    match hashes.last_key_value() {
        Some((last, _)) => Some(last),
        None => None,
    }
}

/// The first NSEC3 record of a hash.
pub(crate) fn first_with<'z>(
    records: &'z [Record],
    hashes: &BTreeMap<[u8; 20], usize>,
    hash: &[u8; 20],
) -> Option<&'z Record>
    ensures { (origin : DomainName) → HasHashes origin records.now records.now hashes.now →
        (option_copied result ≡ find (is_of_hash origin hash.now) records.now) }
{
    match hashes.get(hash) {
        Some(place) => record_at(records, *place),
        None => None,
    }
}

/// Whether there is no record of a name in lower case.
pub(crate) fn is_no_owner(owners: &BTreeMap<LowerName, usize>, name: &LowerName) -> bool
    ensures { (records : Records) → HasOwners records owners.now →
        (IsTrue result ↔ (¬ (IsSome (find (is_at name.now) records)))) }
{
    owners.get(name).is_none()
}
