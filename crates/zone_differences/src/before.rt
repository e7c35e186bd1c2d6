//! What stands in a zone before an update, and what the update has changed of it.

ghost use Rattle.std.specs.Prelude.{◌++◌, ◌≡◌, IfOk, IfSome, OnOk};
ghost use Rattle.std.specs.List.{flat_map};
ghost use Rattle.hickory_base.specs.zone_store.ZoneSets.{zone_records};
ghost use Rattle.zone_differences.specs.Standing.{IsBefore, Leads, came, went};

use crate::comparing::push_changed;
use crate::difference::Difference;
use crate::names::{NameRecords, apex_soa, push_name, push_names};
use hickory_base::zone_store::{InMemoryZoneHandler, ZoneHandler};
use hickory_store::updates::laws::identities;
use hickory_wire::{Items, Name, Record};
use std::alloc::{AllocError, Global};

/// How many records an update may have of which the difference is kept.
const MOST_RECORDS: usize = 1000;

/// What stands in a zone before an update: its SOA record, and the records of the apex and of each name that the update
/// speaks of.
#[derive(Debug, Drop)]
pub struct Before {
    pub(crate) soa: Record,
    pub(crate) names: Vec<NameRecords>,
}

/// Puts copies of the records of a name last that an update has taken out, and of those that it has put in.
fn push_difference(
    alloc: Global,
    origin: &Name,
    zone: &InMemoryZoneHandler,
    before: &NameRecords,
    deleted: &mut Vec<Record>,
    added: &mut Vec<Record>,
) -> Result<(), AllocError>
    ensures deleted { OnOk result (deleted.new.items ≡ deleted.old.items ++ went origin.now
        (zone_records zone.now.sets) before.now) }
    ensures added { OnOk result (added.new.items ≡ added.old.items ++ came origin.now
        (zone_records zone.now.sets) before.now) }
{
    let after = zone.records_of_name(alloc, before.name.clone()?)?;
    let standing = before.records.as_slice();
    push_changed(origin, standing, &after, standing, deleted)?;
    push_changed(origin, standing, &after, &after, added)
}

/// Compares what stood at some names with what stands there now.
fn compare(
    alloc: Global,
    zone: &InMemoryZoneHandler,
    names: &[NameRecords],
) -> Result<(Items<Record>, Items<Record>), AllocError>
    ensures deleted { IfOk result (λ lists.
        lists.0 ≡ flat_map (went zone.now.origin (zone_records zone.now.sets)) names.now) }
    ensures added { IfOk result (λ lists.
        lists.1 ≡ flat_map (came zone.now.origin (zone_records zone.now.sets)) names.now) }
{
    let origin = zone.origin().as_name();
    let mut deleted = Vec::new(alloc);
    let mut added = Vec::new(alloc);
    for before in names {
        push_difference(alloc, origin, zone, before, &mut deleted, &mut added)?;
    }
    Ok((Items::from_vec(deleted), Items::from_vec(added)))
}

impl Before {
    /// What stands in a zone before an update of these records is made; `None` where its apex has another number of SOA
    /// records than one, and of an update of more than a thousand records. It takes memory for copies of the records of
    /// the names that the update speaks of, and time by those, and by the square of the number of names.
    pub fn of(
        alloc: Global,
        zone: &InMemoryZoneHandler,
        updates: &[Record],
    ) -> Result<Option<Before>, AllocError>
        ensures { IfOk result (λ found. IfSome found (IsBefore zone.now updates.now)) }
    {
        if updates.len() > MOST_RECORDS {
            return Ok(None);
        }
        let Some(soa) = apex_soa(alloc, zone)? else {
            return Ok(None);
        };
        let mut names = Vec::new(alloc);
        push_names(alloc, zone, updates, &mut names)?;
        push_name(alloc, zone, zone.origin().as_name(), &mut names)?;
        Ok(Some(Before { soa, names }))
    }

    /// What the update has changed, of the zone that it left; `None` where that has another number of SOA records at
    /// its apex than one. It takes memory for copies of the records that have changed, and time by the records of the
    /// names that the update speaks of, by the square of those of each.
    pub fn until(
        self,
        alloc: Global,
        zone: &InMemoryZoneHandler,
    ) -> Result<Option<Difference>, AllocError>
        ensures { IfOk result (λ found. IfSome found (Leads self zone.now)) }
    {
        identities();
        let Before { soa, names } = self;
        let Some(new_soa) = apex_soa(alloc, zone)? else {
            return Ok(None);
        };
        let (deleted, added) = compare(alloc, zone, &names)?;
        Ok(Some(Difference {
            old_soa: soa,
            deleted,
            new_soa,
            added,
        }))
    }
}
