//! Records found by name and type.

ghost use Rattle.std.specs.Prelude.{◌≡◌, ◌==◌, ◌↔◌, ◌<◌, IfOk, IsTrue, MatchOption, Some, length};
ghost use Rattle.std.specs.List.{find, slice_get};
ghost use Rattle.std.specs.Option.{option_copied};
ghost use Rattle.wire_messages.specs.rr.RecordData.{type_of};
ghost use Rattle.wire_messages.specs.rr.RecordSameness.{SameRecord};
ghost use Rattle.wire_names.specs.rr.domain.DomainName.{DomainName};
ghost use Rattle.wire_names.specs.rr.domain.NameOrder.{is_wildcard, lower_name};
ghost use Rattle.zone_check.specs.CheckedZones.{Records, ancestor, is_data_of, is_data_type, is_of, is_server_of, is_wild_address, is_wild_address_of, server_of, type_nsec};
ghost use Rattle.zone_check.specs.Findings.{IsRepeated};
ghost use Rattle.zone_check.specs.Indexes.{HasData, HasEarlier, HasFirsts, HasNsecs, HasServers, HasSignatures, HasWilds};
ghost use Rattle.zone_check.specs.SignedZones.{IsFirstLater, IsLaterOwner, is_signature_of};
ghost use Rattle.wire_messages.specs.declared.rr.rdata.RData.{RData as RecordData};
ghost use Rattle.wire_messages.specs.declared.rr.record.Record.{Record as RecordOf};

use crate::octets::covered_of;
use std::alloc::{AllocError, Global};
use std::collections::BTreeMap;
use std::ops::{Bound, RangeBounds};
use wire_messages::rr::rdata::RData;
use wire_messages::rr::record::Record;
use wire_messages::rr::record_sameness::record_comparisons;
use wire_messages::rr::record_type::RecordType;
use wire_messages::rr::rr_key::RrKey;
use wire_names::rr::domain::lower_name::LowerName;
use wire_names::rr::domain::name::Name;

/// The key of a record's name and a type.
fn key_with(alloc: Global, record: &Record, record_type: RecordType) -> Result<RrKey, AllocError>
    ensures { IfOk result (λ key. key ≡ record
        { name = lower_name «record».now.name; record_type = record_type }) }
{
    let name = LowerName::new(alloc, &record.name)?;
    Ok(RrKey::new(name, record_type))
}

/// The key of a record.
fn key_of(alloc: Global, record: &Record) -> Result<RrKey, AllocError>
    ensures { IfOk result (λ key. key ≡ record
        { name = lower_name «record».now.name; record_type = type_of «record».now.rdata }) }
{
    key_with(alloc, record, record.rdata.record_type())
}

/// The place of the first record of each name and type.
pub(crate) fn firsts_of(
    alloc: Global,
    records: &[Record],
) -> Result<BTreeMap<RrKey, usize>, AllocError>
    ensures { IfOk result (HasFirsts records.now records.now) }
{
    let mut firsts = BTreeMap::new(alloc);
    let mut place = records.len();
    while place > 0 {
        place -= 1;
        let key = key_of(alloc, &records[place])?;
        let _ = firsts.insert(key, place)?;
    }
    Ok(firsts)
}

/// For each record the place of the last one before it that is of its name and type, if there is one.
pub(crate) fn earlier_of(
    alloc: Global,
    records: &[Record],
) -> Result<Vec<Option<usize>>, AllocError>
    ensures { IfOk result (λ earlier. HasEarlier records.now earlier.items) }
{
    let mut earlier = Vec::new(alloc);
    let mut lasts = BTreeMap::new(alloc);
    for place in 0..records.len() {
        let key = key_of(alloc, &records[place])?;
        let last = lasts.insert(key, place)?;
        earlier.push(last)?;
    }
    Ok(earlier)
}

/// Whether two records are the same, their TTL aside.
fn are_same(record: &Record, other: &Record) -> bool
    ensures { IsTrue result ↔ SameRecord «record».now other.now }
{
    record_comparisons();
    record == other
}

/// Whether the records at two places are the same, their TTL aside.
fn are_same_at(records: &[Record], one: usize, other: usize) -> bool
    requires one { one < length records.now }
    requires other { other < length records.now }
    ensures { (q r : RecordOf RecordData) → slice_get records.now one ≡ Some q → slice_get records.now other ≡ Some r →
        (IsTrue result ↔ SameRecord q r) }
{
    are_same(&records[one], &records[other])
}

/// Whether a record before the one at a place is the same.
pub(crate) fn stands_before(records: &[Record], earlier: &[Option<usize>], place: usize) -> bool
    requires within { place < length records.now }
    requires earlier { HasEarlier records.now earlier.now }
    ensures { (r : RecordOf RecordData) → slice_get records.now place ≡ Some r →
        (IsTrue result ↔ IsRepeated records.now place r) }
{
    let mut at = place;
    'earlier: while let Some(before) = earlier[at] {
        if are_same_at(records, before, place) {
            return true;
        }
        at = before;
    }
    false
}

/// Whether records of the type may not stand beside a CNAME (RFC 1034 section 3.6.2, RFC 2181 section 10.1, RFC 4035
/// section 2.5).
pub(crate) fn is_data_type(record_type: RecordType) -> bool
    ensures { result ≡ is_data_type record_type }
{
    !(record_type == RecordType::CNAME
        || record_type == RecordType::KEY
        || record_type == RecordType::RRSIG
        || record_type == RecordType::NSEC)
}

/// The place of the first record of each name that may not stand beside a CNAME.
pub(crate) fn data_of(
    alloc: Global,
    records: &[Record],
) -> Result<BTreeMap<LowerName, usize>, AllocError>
    ensures { IfOk result (HasData records.now records.now) }
{
    let mut others = BTreeMap::new(alloc);
    let mut place = records.len();
    while place > 0 {
        place -= 1;
        let record = &records[place];
        if is_data_type(record.rdata.record_type()) {
            let name = LowerName::new(alloc, &record.name)?;
            let _ = others.insert(name, place)?;
        }
    }
    Ok(others)
}

/// Whether the first label of a name is `*` (RFC 4592 section 2.1.1).
fn is_wildcard(name: &Name) -> bool
    ensures { result ≡ is_wildcard name.now.labels }
{
    let wire = name.as_wire();
    wire.len() > 1 && wire[0] == 1 && wire[1] == b'*'
}

/// Whether a record is an address of a wildcard.
fn is_wild_address(record: &Record) -> bool
    ensures { result ≡ is_wild_address «record».now }
{
    let record_type = record.rdata.record_type();
    let is_address = record_type == RecordType::A || record_type == RecordType::AAAA;
    is_wildcard(&record.name) && is_address
}

/// The name above that of a record, in lower case.
pub(crate) fn above_of(alloc: Global, record: &Record) -> Result<LowerName, AllocError>
    ensures { IfOk result (λ name. name ≡ ancestor (lower_name «record».now.name) 1) }
{
    let mut name = LowerName::new(alloc, &record.name)?;
    name.remove_first_label();
    Ok(name)
}

/// The place of the first address of the wildcard right below each name.
pub(crate) fn wilds_of(
    alloc: Global,
    records: &[Record],
) -> Result<BTreeMap<LowerName, usize>, AllocError>
    ensures { IfOk result (HasWilds records.now records.now) }
{
    let mut wilds = BTreeMap::new(alloc);
    let mut place = records.len();
    while place > 0 {
        place -= 1;
        let record = &records[place];
        if is_wild_address(record) {
            let name = above_of(alloc, record)?;
            let _ = wilds.insert(name, place)?;
        }
    }
    Ok(wilds)
}

/// The host that an NS record names.
fn server_of(record: &Record) -> Option<&Name>
    ensures { option_copied result ≡ server_of «record».now.rdata }
{
    match &record.rdata {
        RData::NS(host) => Some(host),
        _ => None,
    }
}

/// The place of the first NS record that names each host.
pub(crate) fn servers_of(
    alloc: Global,
    records: &[Record],
) -> Result<BTreeMap<LowerName, usize>, AllocError>
    ensures { IfOk result (HasServers records.now records.now) }
{
    let mut servers = BTreeMap::new(alloc);
    let mut place = records.len();
    while place > 0 {
        place -= 1;
        if let Some(host) = server_of(&records[place]) {
            let name = LowerName::new(alloc, host)?;
            let _ = servers.insert(name, place)?;
        }
    }
    Ok(servers)
}

/// Whether a type is NSEC.
fn is_nsec(record_type: RecordType) -> bool
    ensures { result ≡ (record_type == type_nsec) }
{
    record_type == RecordType::NSEC
}

/// The names that have NSEC records, each with the place of its first one.
pub(crate) fn nsecs_of(
    alloc: Global,
    records: &[Record],
) -> Result<BTreeMap<LowerName, usize>, AllocError>
    ensures { IfOk result (HasNsecs records.now) }
{
    let mut nsecs = BTreeMap::new(alloc);
    let mut place = records.len();
    while place > 0 {
        place -= 1;
        let record = &records[place];
        if is_nsec(record.rdata.record_type()) {
            let name = LowerName::new(alloc, &record.name)?;
            let _ = nsecs.insert(name, place)?;
        }
    }
    Ok(nsecs)
}

/// The place of the first signature over records of each name and type.
pub(crate) fn signatures_of(
    alloc: Global,
    records: &[Record],
) -> Result<BTreeMap<RrKey, usize>, AllocError>
    ensures { IfOk result (HasSignatures records.now records.now) }
{
    let mut signatures = BTreeMap::new(alloc);
    let mut place = records.len();
    while place > 0 {
        place -= 1;
        let record = &records[place];
        if let Some(covered) = covered_of(record) {
            let key = key_with(alloc, record, covered)?;
            let _ = signatures.insert(key, place)?;
        }
    }
    Ok(signatures)
}

/// The names after a name in canonical order.
#[derive(Drop)]
struct After {
    name: LowerName,
}

impl RangeBounds<LowerName> for After {
    ghost use Rattle.std.specs.Prelude.{⊤};
    ghost use Rattle.std.specs.declared.ops.Bound.TheVariants.{Excluded};

    ghost has_bounds = { λ _. ⊤ };

    ghost start_bound = { λ s. Excluded s.name };

    fn start_bound(&self) -> Bound<&LowerName> {
        Bound::Excluded(&self.name)
    }

    fn end_bound(&self) -> Bound<&LowerName> {
        Bound::Unbounded
    }
}

/// The first name after a name in canonical order that has an NSEC record.
pub(crate) fn later_owner(nsecs: &BTreeMap<LowerName, usize>, name: LowerName) -> Option<&LowerName>
    ensures { (records : Records) → HasNsecs records nsecs.now →
        MatchOption (option_copied result) ((other : DomainName) → ¬ (IsLaterOwner records name other))
        (IsFirstLater records name) }
{
    match nsecs.range(After { name }).next() {
        Some((later, _)) => Some(later),
        None => None,
    }
}

/// The record at a place, if there is one.
pub(crate) fn record_at(records: &[Record], place: usize) -> Option<&Record>
    ensures { option_copied result ≡ slice_get records.now place }
{
    if place < records.len() {
        Some(&records[place])
    } else {
        None
    }
}

/// The first record of a name in lower case and a type.
pub(crate) fn first_under<'z>(
    records: &'z [Record],
    firsts: &BTreeMap<RrKey, usize>,
    key: &RrKey,
) -> Option<&'z Record>
    requires { HasFirsts records.now records.now firsts.now }
    ensures { option_copied result ≡ find (is_of key.now.name key.now.record_type) records.now }
{
    match firsts.get(key) {
        Some(place) => record_at(records, *place),
        None => None,
    }
}

/// The first signature over records of a name in lower case and a type.
pub(crate) fn signature_under<'z>(
    records: &'z [Record],
    signatures: &BTreeMap<RrKey, usize>,
    key: &RrKey,
) -> Option<&'z Record>
    requires { HasSignatures records.now records.now signatures.now }
    ensures { option_copied result ≡ find (is_signature_of key.now.name key.now.record_type) records.now }
{
    match signatures.get(key) {
        Some(place) => record_at(records, *place),
        None => None,
    }
}

/// The first record of a name in lower case that may not stand beside a CNAME.
pub(crate) fn data_under<'z>(
    records: &'z [Record],
    others: &BTreeMap<LowerName, usize>,
    name: &LowerName,
) -> Option<&'z Record>
    requires { HasData records.now records.now others.now }
    ensures { option_copied result ≡ find (is_data_of name.now) records.now }
{
    match others.get(name) {
        Some(place) => record_at(records, *place),
        None => None,
    }
}

/// The first address of the wildcard right below a name in lower case.
pub(crate) fn wild_under<'z>(
    records: &'z [Record],
    wilds: &BTreeMap<LowerName, usize>,
    name: &LowerName,
) -> Option<&'z Record>
    requires { HasWilds records.now records.now wilds.now }
    ensures { option_copied result ≡ find (is_wild_address_of name.now) records.now }
{
    match wilds.get(name) {
        Some(place) => record_at(records, *place),
        None => None,
    }
}

/// The first NS record that names a host of this name in lower case.
pub(crate) fn server_under<'z>(
    records: &'z [Record],
    servers: &BTreeMap<LowerName, usize>,
    name: &LowerName,
) -> Option<&'z Record>
    requires { HasServers records.now records.now servers.now }
    ensures { option_copied result ≡ find (is_server_of name.now) records.now }
{
    match servers.get(name) {
        Some(place) => record_at(records, *place),
        None => None,
    }
}
