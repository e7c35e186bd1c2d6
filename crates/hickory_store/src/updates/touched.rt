//! The names that an update touches, and their records as it leaves them.

ghost use Rattle.std.specs.Prelude.{◌≡◌, IfOk, List, None, OnOk, Some, filter};
ghost use Rattle.wire_messages.specs.declared.rr.rdata.RData.{RData as Data};
ghost use Rattle.wire_messages.specs.declared.rr.record.Record.{Record as ResourceRecord};
ghost use Rattle.hickory_base.specs.zone_store.ZoneSets.{zone_records};
ghost use Rattle.hickory_store.specs.updates.Changes.{any_change, changes, after_updates, after_record};
ghost use Rattle.hickory_store.specs.updates.NameUpdates.{AreNow, PutsName, records_now};

use crate::updates::changes::take_turn;
use hickory_base::zone_store::{InMemoryZoneHandler, ZoneHandler};
use hickory_wire::{Items, LowerName, Record};
use std::alloc::{AllocError, Global};
use std::collections::BTreeMap;

/// Records by owner name.
pub(crate) type ByName = BTreeMap<LowerName, Items<Record>>;

/// Takes out the records of a name, which are copies of the zone's where the name was not touched before.
pub(crate) fn take_name(
    alloc: Global,
    zone: &InMemoryZoneHandler,
    touched: &mut ByName,
    name: &LowerName,
) -> Result<Vec<Record>, AllocError>
    ensures records { IfOk result (λ records.
        records.items ≡ records_now (zone_records zone.now.sets) touched.old name.now) }
    ensures others { PutsName name.now None touched.old touched.new }
{
    match touched.remove(name) {
        Some(records) => Ok(records.into_vec()),
        None => zone.records_of_name(alloc, name.clone()?),
    }
}

/// Puts the records of a name.
pub(crate) fn put_name(
    touched: &mut ByName,
    name: LowerName,
    records: Vec<Record>,
) -> Result<(), AllocError>
    ensures { OnOk result (PutsName name (Some records.items) touched.old touched.new) }
{
    match touched.insert(name, Items::from_vec(records)) {
        Ok(_) => Ok(()),
        Err(_) => Err(AllocError),
    }
}

/// Does what one record of an update section says to its name, and reports whether the zone changed.
fn touch(
    alloc: Global,
    by_rfc: bool,
    zone: &InMemoryZoneHandler,
    touched: &mut ByName,
    r: &Record,
) -> Result<bool, AllocError>
    ensures zone { OnOk result ((records : List (ResourceRecord Data)) →
        AreNow (zone_records zone.now.sets) touched.old records →
        AreNow (zone_records zone.now.sets) touched.new (after_record by_rfc zone.now.origin records r.now)) }
    ensures changed { IfOk result (λ changed. (records : List (ResourceRecord Data)) →
        AreNow (zone_records zone.now.sets) touched.old records →
        changed ≡ changes by_rfc zone.now.origin records r.now) }
{
    let name = LowerName::new(alloc, &r.name)?;
    let mut records = take_name(alloc, zone, touched, &name)?;
    let origin = zone.origin().as_name();
    let is_changed = take_turn(by_rfc, origin, &mut records, r)?;
    put_name(touched, name, records)?;
    Ok(is_changed)
}

/// Does what the records of an update section say, one after another, to the names that they touch, and reports
/// whether the zone changed.
pub(crate) fn touch_all(
    alloc: Global,
    by_rfc: bool,
    zone: &InMemoryZoneHandler,
    touched: &mut ByName,
    updates: &[Record],
) -> Result<bool, AllocError>
    ensures zone { OnOk result ((records : List (ResourceRecord Data)) →
        AreNow (zone_records zone.now.sets) touched.old records →
        AreNow (zone_records zone.now.sets) touched.new (after_updates by_rfc zone.now.origin records updates.now)) }
    ensures changed { IfOk result (λ changed. (records : List (ResourceRecord Data)) →
        AreNow (zone_records zone.now.sets) touched.old records →
        changed ≡ any_change by_rfc zone.now.origin records updates.now) }
{
    let mut changed = false;
    for r in updates {
        let is_changed = touch(alloc, by_rfc, zone, touched, r)?;
        changed = changed | is_changed;
    }
    Ok(changed)
}
