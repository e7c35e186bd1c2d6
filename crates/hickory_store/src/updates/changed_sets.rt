//! From the names that an update touched to the sets of the zone that it changes.

ghost use Rattle.std.specs.Prelude.{◌≡◌, IfOk, List, OnErr, OnOk, filter, not};
ghost use Rattle.std.specs.List.{AllByRecursion, flat_map};
ghost use Rattle.std.specs.List.Sorted.{IsStrictlySortedBy};
ghost use Rattle.std.specs.Map.{keys_of, values_of};
ghost use Rattle.wire_messages.specs.declared.rr.rdata.RData.{RData as Data};
ghost use Rattle.wire_messages.specs.declared.rr.record.Record.{Record as ResourceRecord};
ghost use Rattle.hickory_base.specs.zone_store.ZoneSets.{AreDistinct, IsWellTyped, keys_at, sets_of, zone_records};
ghost use Rattle.wire_messages.specs.rr.RrKeys.{key_cmp};
ghost use Rattle.hickory_store.specs.updates.Identity.{SameRrsets, SameZone};
ghost use Rattle.hickory_store.specs.updates.NameUpdates.{AreNow};
ghost use Rattle.hickory_store.specs.representation.SetChanges.{Makes, has_key, put_sets};

use crate::updates::laws::identities;
use crate::updates::set_changes::{Put, commit};
use crate::updates::touched::ByName;
use crate::updates::zone_sets::{Sets, sets_of_records};
use hickory_base::zone_store::InMemoryZoneHandler;
use hickory_wire::{Record, RrKey};
use std::alloc::{AllocError, Global};

/// What an update changes: the sets that it puts, and the keys that it leaves without one.
#[derive(Drop)]
pub(crate) struct SetChanges {
    pub(crate) puts: Vec<Put>,
    pub(crate) gone: Vec<RrKey>,
}

/// The keys of the zone's sets of the touched names.
fn touched_keys(
    alloc: Global,
    zone: &InMemoryZoneHandler,
    touched: &ByName,
) -> Result<Vec<RrKey>, AllocError>
    ensures { IfOk result (λ keys. keys.items ≡ flat_map (λ name. keys_at name zone.now.sets)
        (keys_of touched.now.entries)) }
{
    let mut all = Vec::new(alloc);
    for name in touched.keys() {
        let mut keys = zone.keys_of_name(alloc, name.clone()?)?;
        all.append(&mut keys)?;
    }
    Ok(all)
}

/// The records of all touched names.
fn touched_records(alloc: Global, touched: ByName) -> Result<Vec<Record>, AllocError>
    ensures { IfOk result (λ all. all.items ≡ flat_map (λ records. records) (values_of touched.entries)) }
{
    let mut all = Vec::new(alloc);
    for records in touched.into_values() {
        let mut records = records.into_vec();
        all.append(&mut records)?;
    }
    Ok(all)
}

/// Those of the keys that the sets do not have.
fn without_set(sets: &Sets, mut keys: Vec<RrKey>) -> Vec<RrKey>
    ensures { result.items ≡ filter (λ key. not (has_key sets.now key)) keys.items }
{
    keys.retain(|key| !sets.contains_key(key));
    keys
}

/// Sets that are to be put, each under its key.
fn puts_of(alloc: Global, sets: Sets) -> Result<Vec<Put>, AllocError>
    ensures { IfOk result (λ puts. put_sets puts.items ≡ sets_of sets) }
{
    let mut puts = Vec::new(alloc);
    for (key, set) in sets {
        puts.push(Put { key, set })?;
    }
    Ok(puts)
}

/// The changes that make the zone hold what the touched names do, and of all others what it has.
pub(crate) fn changed_sets(
    alloc: Global,
    zone: &InMemoryZoneHandler,
    touched: ByName,
) -> Result<SetChanges, AllocError>
    ensures ordered { IfOk result (λ changes. IsStrictlySortedBy key_cmp (keys_of (put_sets changes.puts.items))) }
    ensures makes { IfOk result (λ changes. (records : List (ResourceRecord Data)) →
        AreNow (zone_records zone.now.sets) touched records →
        Makes (put_sets changes.puts.items) changes.gone.items zone.now.sets records) }
{
    // That keys are in order is known of a map whose length was read.
    let _ = touched.len();
    let _ = zone.records().len();
    let keys = touched_keys(alloc, zone, &touched)?;
    let records = touched_records(alloc, touched)?;
    let sets = sets_of_records(alloc, records)?;
    let _ = sets.len();
    let gone = without_set(&sets, keys);
    let puts = puts_of(alloc, sets)?;
    Ok(SetChanges { puts, gone })
}

/// Commits the changes to the zone. Where memory is refused, the zone is as it was.
pub(crate) fn commit_changes(
    alloc: Global,
    zone: &mut InMemoryZoneHandler,
    changes: SetChanges,
) -> Result<(), AllocError>
    requires ordered { IsStrictlySortedBy key_cmp (keys_of (put_sets changes.puts.items)) }
    requires makes { (records : List (ResourceRecord Data)) × AreDistinct records × AllByRecursion IsWellTyped records ×
        Makes (put_sets changes.puts.items) changes.gone.items zone.old.sets records }
    ensures done { OnOk result ((records : List (ResourceRecord Data)) →
        Makes (put_sets changes.puts.items) changes.gone.items zone.old.sets records →
        SameZone (zone_records zone.new.sets) records) }
    ensures rrsets { OnOk result ((records : List (ResourceRecord Data)) →
        Makes (put_sets changes.puts.items) changes.gone.items zone.old.sets records →
        SameRrsets (zone_records zone.new.sets) records) }
    ensures others { zone.new ≡ record zone.old { sets = zone.new.sets } }
    ensures unchanged { OnErr result (zone.new ≡ zone.old) }
{
    identities();
    let SetChanges { puts, gone } = changes;
    let mut sets = zone.take_records(alloc);
    match commit(alloc, &mut sets, puts, &gone) {
        Ok(()) => {
            // That keys are in order is known of a map whose length was read.
            let _ = sets.len();
            zone.replace_records(sets);
            Ok(())
        }
        Err(e) => {
            zone.replace_records(sets);
            Err(e)
        }
    }
}
