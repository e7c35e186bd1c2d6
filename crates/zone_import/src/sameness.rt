//! Whether two zones are the same.

ghost use Rattle.std.specs.Prelude.{◌≡◌, IfOk, IsTrue, Some, true};
ghost use Rattle.std.specs.List.{AllByRecursion};
ghost use Rattle.hickory_base.specs.zone_store.ZoneSets.{AreDistinct, IsZone, sets_of, zone_records};
ghost use Rattle.hickory_store.specs.updates.Identity.{SameZone, same_record, ttl_at};
ghost use Rattle.zone_import.specs.Imports.{AreSame};

use crate::places::{place_of, places_of};
use hickory_base::zone_store::{InMemoryZoneHandler, RecordSet};
use hickory_store::updates::laws::identities;
use hickory_wire::{Record, RrKey};
use std::alloc::{AllocError, Global};
use std::collections::BTreeMap;
use std::rc::Rc;

/// The sets of a zone by name and type.
pub(crate) type Sets = BTreeMap<RrKey, Rc<RecordSet>>;

/// Whether two records are the same, with one TTL.
fn is_same(r: &Record, q: &Record) -> bool
    ensures { IsTrue result → (same_record r.now q.now ≡ true) × (r.now.ttl ≡ q.now.ttl) }
{
    r == q && r.ttl == q.ttl
}

/// Whether each record is the same as the one at its place among the others, with its TTL.
pub(crate) fn are_same(records: &[Record], others: &[Record]) -> bool
    ensures { IsTrue result → SameZone records.now others.now }
{
    identities();
    let mut rest = records;
    let mut left = others;
    while let [r, more @ ..] = rest {
        let [q, behind @ ..] = left else {
            return false;
        };
        if !is_same(r, q) {
            return false;
        }
        rest = more;
        left = behind;
    }
    left.is_empty()
}

/// Whether the record at this place is the same as another one, with its TTL.
fn is_at(records: &[Record], place: Option<usize>, r: &Record) -> bool
    requires { AreDistinct records.now }
    ensures { IsTrue result → ttl_at records.now r.now ≡ Some r.now.ttl }
{
    identities();
    let Some(place) = place else {
        return false;
    };
    match records.get(place) {
        Some(q) => is_same(r, q),
        None => false,
    }
}

/// Whether each record is among the others, with its TTL.
fn are_among(alloc: Global, records: &[Record], others: &[Record]) -> Result<bool, AllocError>
    requires { AreDistinct others.now }
    ensures { IfOk result (λ among. IsTrue among → AllByRecursion (λ r. ttl_at others.now r ≡ Some r.ttl) records.now) }
{
    let places = places_of(alloc, others)?;
    let mut rest = records;
    while let [r, more @ ..] = rest {
        let place = place_of(alloc, &places, r)?;
        if !is_at(others, place, r) {
            return Ok(false);
        }
        rest = more;
    }
    Ok(true)
}

/// Whether two sets have the same records with the same TTLs, in whatever order.
fn is_same_set(alloc: Global, records: &[Record], others: &[Record]) -> Result<bool, AllocError>
    requires { AreDistinct records.now × AreDistinct others.now }
    ensures { IfOk result (λ same. IsTrue same → SameZone records.now others.now) }
{
    identities();
    if are_same(records, others) {
        return Ok(true);
    }
    if !are_among(alloc, records, others)? {
        return Ok(false);
    }
    are_among(alloc, others, records)
}

/// Whether the sets of two zones are the same, one by one.
fn are_same_sets(alloc: Global, sets: &Sets, others: &Sets) -> Result<bool, AllocError>
    requires { IsZone (sets_of sets.now) × IsZone (sets_of others.now) }
    ensures { IfOk result (λ same. IsTrue same →
        SameZone (zone_records (sets_of sets.now)) (zone_records (sets_of others.now))) }
{
    let mut left = others.iter();
    for (_, set) in sets {
        let Some((_, other)) = left.next() else {
            return Ok(false);
        };
        if !is_same_set(alloc, set.records(), other.records())? {
            return Ok(false);
        }
    }
    Ok(left.next().is_none())
}

/// Whether two zones have the same records with the same TTLs, those of a name and type in whatever order. It takes
/// time by the records of both.
pub fn is_same_zone(
    alloc: Global,
    zone: &InMemoryZoneHandler,
    other: &InMemoryZoneHandler,
) -> Result<bool, AllocError>
    ensures { IfOk result (λ same. IsTrue same → AreSame zone.now other.now) }
{
    are_same_sets(alloc, zone.records(), other.records())
}
