//! Whether records make a set, and sets a zone.

ghost use Rattle.std.specs.Prelude.{◌≡◌, ◌↔◌, ◌<◌, ◌^◌, IsTrue};
ghost use Rattle.std.specs.List.{AllByRecursion};
ghost use Rattle.wire_messages.specs.rr.RecordSameness.{SameRecord};
ghost use Rattle.hickory_base.specs.zone_store.RecordSets.{IsRecordSet, SameSet};
ghost use Rattle.hickory_base.specs.zone_store.ZoneSets.{AreDistinct, IsUnder, IsWellTyped, IsZone, IsZoneSet, sets_of};

use crate::zone_store::record_set::RecordSet;
use hickory_wire::name_laws::name_comparisons;
use hickory_wire::{RData, Record, RecordType, RrKey, SOA, record_comparisons};
use std::collections::BTreeMap;
use std::rc::Rc;

/// Whether two records are of one name and type.
fn is_same_set(first: &Record, other: &Record) -> bool
    ensures { IsTrue result ↔ SameSet first.now other.now }
{
    name_comparisons();
    first.name == other.name && first.rdata.record_type() == other.rdata.record_type()
}

/// Whether all records are of the name and type of this one.
fn are_of_set(first: &Record, others: &[Record]) -> bool
    ensures { IsTrue result ↔ AllByRecursion (SameSet first.now) others.now }
{
    others.iter().all(|other| is_same_set(first, other))
}

/// Whether there is at least one record, and all are of one name and type.
pub(crate) fn is_record_set(records: &[Record]) -> bool
    ensures { IsTrue result ↔ IsRecordSet records.now }
{
    match records {
        [] => false,
        [first, others @ ..] => are_of_set(first, others),
    }
}

/// Whether a record is of the key's name and type.
fn is_under(key: &RrKey, q: &Record) -> bool
    ensures { IsTrue result ↔ IsUnder key.now q.now }
{
    name_comparisons();
    q.name == *key.name.as_name() && q.rdata.record_type() == key.record_type
}

/// Whether all records are of the key's name and type.
fn are_under(key: &RrKey, records: &[Record]) -> bool
    ensures { IsTrue result ↔ AllByRecursion (IsUnder key.now) records.now }
{
    records.iter().all(|q| is_under(key, q))
}

/// Whether two records are not the same.
fn is_other(q: &Record, other: &Record) -> bool
    ensures { IsTrue result ↔ (¬ (SameRecord q.now other.now)) }
{
    record_comparisons();
    q != other
}

/// Whether none of the records is the same as this one.
fn is_absent(q: &Record, records: &[Record]) -> bool
    ensures { IsTrue result ↔ AllByRecursion (λ other. ¬ (SameRecord q.now other)) records.now }
{
    records.iter().all(|other| is_other(q, other))
}

/// Whether no two records are the same.
fn are_distinct(records: &[Record]) -> bool
    ensures { IsTrue result ↔ AreDistinct records.now }
{
    let mut rest = records;
    while let [first, others @ ..] = rest {
        if !is_absent(first, others) {
            return false;
        }
        rest = others;
    }
    true
}

/// The serial of an SOA, which has 32 bits.
pub(crate) fn serial(soa: &SOA) -> u32
    ensures value { result ≡ soa.now.serial }
    ensures range { soa.now.serial < 2 ^ 32 }
{
    soa.serial
}

/// Whether a record has the data of an SOA if it is of that type.
fn is_well_typed(q: &Record) -> bool
    ensures { IsTrue result ↔ IsWellTyped q.now }
{
    match &q.rdata {
        RData::SOA(soa) => {
            // That the serial has 32 bits is known of a value that was read.
            let _ = serial(soa.get());
            true
        }
        other => other.record_type() != RecordType::SOA,
    }
}

/// Whether each record has the data of an SOA if it is of that type.
fn are_well_typed(records: &[Record]) -> bool
    ensures { IsTrue result ↔ AllByRecursion IsWellTyped records.now }
{
    records.iter().all(|q| is_well_typed(q))
}

/// Whether these records are as a zone holds them under the key.
fn is_zone_set(key: &RrKey, records: &[Record]) -> bool
    ensures { IsTrue result ↔ IsZoneSet key.now records.now }
{
    !records.is_empty()
        && are_under(key, records)
        && are_distinct(records)
        && are_well_typed(records)
}

/// Whether each set is as a zone holds it.
pub(crate) fn is_zone(sets: &BTreeMap<RrKey, Rc<RecordSet>>) -> bool
    ensures { IsTrue result ↔ IsZone (sets_of sets.now) }
{
    for (key, set) in sets {
        if !is_zone_set(key, set.records()) {
            return false;
        }
    }
    true
}
