//! Whether RRsets that an update requires are those of the zone.

ghost use Rattle.std.specs.Prelude.{◌≡◌, ◌==◌, ◌&&◌, IfOk};
ghost use Rattle.std.specs.List.{list_any};
ghost use Rattle.std.specs.Option.{option_copied};
ghost use Rattle.wire_messages.specs.Numbers.{class_in};
ghost use Rattle.wire_messages.specs.rr.RecordData.{type_of};
ghost use Rattle.hickory_base.specs.zone_store.ZoneRecords.{existing, is_of, rrset};
ghost use Rattle.hickory_base.specs.zone_store.ZoneSets.{zone_records};
ghost use Rattle.hickory_store.specs.updates.Identity.{same_record};
ghost use Rattle.hickory_store.specs.updates.Prerequisites.{collected, sets_match};
ghost use Rattle.hickory_store.specs.representation.SetsByRecord.{are_matched, are_required, is_matched, is_matched_by};

use crate::updates::laws::identities;
use hickory_base::zone_store::InMemoryZoneHandler;
use hickory_wire::{DNSClass, LowerName, Record, RrKey};
use std::alloc::{AllocError, Global};

/// The zone's records of the name and type of a record, if there are any.
pub(crate) fn find_set<'z>(
    alloc: Global,
    zone: &'z InMemoryZoneHandler,
    r: &Record,
) -> Result<Option<&'z [Record]>, AllocError>
    ensures { IfOk result (λ found.
        option_copied found ≡ existing (rrset (zone_records zone.now.sets) r.now.name (type_of r.now.rdata))) }
{
    let name = LowerName::new(alloc, &r.name)?;
    let key = RrKey::new(name, r.rdata.record_type());
    Ok(zone.record_set(&key))
}

/// Whether one of the records is of this identity.
fn has_record(records: &[Record], r: &Record) -> bool
    ensures { result ≡ list_any (same_record r.now) records.now }
{
    records.iter().any(|q| r == q)
}

/// Whether a record is required, and of this identity.
fn requires_record(r: &Record, q: &Record) -> bool
    ensures { result ≡ ((r.now.dns_class == class_in) && same_record q.now r.now) }
{
    r.dns_class == DNSClass::IN && q == r
}

/// Whether one of the records is required, and of this identity.
fn require_record(prerequisites: &[Record], q: &Record) -> bool
    ensures { result ≡ list_any (λ r. (r.dns_class == class_in) && same_record q.now r) prerequisites.now }
{
    prerequisites.iter().any(|r| requires_record(r, q))
}

/// Whether a required record is of this identity.
fn is_required(prerequisites: &[Record], q: &Record) -> bool
    ensures { result ≡ list_any (same_record q.now) (collected prerequisites.now) }
{
    require_record(prerequisites, q)
}

/// Whether each of these records is required.
fn are_required(prerequisites: &[Record], records: &[Record]) -> bool
    ensures { result ≡ are_required (collected prerequisites.now) records.now }
{
    records.iter().all(|q| is_required(prerequisites, q))
}

/// Whether a record is required, and of the RRset of another.
fn requires_of_set(q: &Record, r: &Record) -> bool
    ensures { result ≡ ((q.now.dns_class == class_in) && is_of r.now.name (type_of r.now.rdata) q.now) }
{
    q.dns_class == DNSClass::IN
        && r.name == q.name
        && r.rdata.record_type() == q.rdata.record_type()
}

/// Whether one of the records is required, and of the RRset of this one.
fn require_of_set(prerequisites: &[Record], r: &Record) -> bool
    ensures { result ≡ list_any (λ q. (q.dns_class == class_in) && is_of r.now.name (type_of r.now.rdata) q)
        prerequisites.now }
{
    prerequisites.iter().any(|q| requires_of_set(q, r))
}

/// Whether a required record is of the RRset of this one.
fn names_set(prerequisites: &[Record], r: &Record) -> bool
    ensures { result ≡ list_any (is_of r.now.name (type_of r.now.rdata)) (collected prerequisites.now) }
{
    require_of_set(prerequisites, r)
}

/// Whether a required record is among these of its RRset, and with it all that is required of them; of several records
/// of one RRset the last one answers for that.
fn is_matched_by(records: &[Record], prerequisites: &[Record], later: &[Record], r: &Record) -> bool
    ensures { result ≡ is_matched_by records.now (collected prerequisites.now) (collected later.now) r.now }
{
    has_record(records, r) && (names_set(later, r) || are_required(prerequisites, records))
}

/// Whether a required record is in the zone, and with it all that is required of its RRset.
fn is_matched(
    alloc: Global,
    zone: &InMemoryZoneHandler,
    prerequisites: &[Record],
    later: &[Record],
    r: &Record,
) -> Result<bool, AllocError>
    ensures { IfOk result (λ matched. matched ≡ is_matched (zone_records zone.now.sets) (collected prerequisites.now)
        (collected later.now) r.now) }
{
    match find_set(alloc, zone, r)? {
        None => Ok(false),
        Some(records) => Ok(is_matched_by(records, prerequisites, later, r)),
    }
}

/// Whether each required record is matched by the zone.
fn are_matched(
    alloc: Global,
    zone: &InMemoryZoneHandler,
    prerequisites: &[Record],
) -> Result<bool, AllocError>
    ensures { IfOk result (λ matched. matched ≡ are_matched (zone_records zone.now.sets) (collected prerequisites.now)
        (collected prerequisites.now)) }
{
    let mut rest = prerequisites;
    while let [r, later @ ..] = rest {
        if r.dns_class == DNSClass::IN && !is_matched(alloc, zone, prerequisites, later, r)? {
            return Ok(false);
        }
        rest = later;
    }
    Ok(true)
}

/// Whether each required RRset is that of the zone.
pub(crate) fn sets_match(
    alloc: Global,
    zone: &InMemoryZoneHandler,
    prerequisites: &[Record],
) -> Result<bool, AllocError>
    ensures { IfOk result (λ matched. matched ≡ sets_match (zone_records zone.now.sets)
        (collected prerequisites.now)) }
{
    identities();
    let matched = are_matched(alloc, zone, prerequisites)?;
    Ok(matched)
}
