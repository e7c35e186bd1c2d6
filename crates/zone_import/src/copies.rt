//! Copies of zones.

ghost use Rattle.std.specs.Prelude.{◌++◌, ◌≡◌, IfOk, OnOk, map};
ghost use Rattle.hickory_base.specs.zone_store.ZoneSets.{sets_of, zone_records};
ghost use Rattle.hickory_store.specs.updates.Identity.{SameZone};
ghost use Rattle.zone_import.specs.Imports.{numbered};

use crate::sameness::Sets;
use crate::serials::number;
use hickory_base::zone_store::{InMemoryZoneHandler, ZoneHandler};
use hickory_server::server::NoKeys;
use hickory_store::file::{RecordsError, zone_of_records};
use hickory_store::updates::UpdatableZoneHandler;
use hickory_store::updates::laws::identities;
use hickory_wire::{Record, record_comparisons};
use std::alloc::{AllocError, Global};

/// A copy of a zone, which shares its records, that nobody may change by a request.
pub(crate) fn copy_of(
    zone: &InMemoryZoneHandler,
) -> Result<UpdatableZoneHandler<NoKeys>, AllocError>
    ensures { IfOk result (λ copy. copy.zone ≡ zone.now) }
{
    let origin = zone.origin().clone()?;
    let sets = match zone.records().clone() {
        Ok(sets) => sets,
        Err(e) => return Err(e),
    };
    let kind = zone.zone_type();
    let policy = zone.axfr_policy();
    let copy = InMemoryZoneHandler::new(origin, sets, kind, policy);
    Ok(UpdatableZoneHandler::new(copy, policy, false, NoKeys))
}

/// Puts copies of records last, with this serial where they are SOAs.
fn push_numbered(
    alloc: Global,
    records: &[Record],
    serial: u32,
    all: &mut Vec<Record>,
) -> Result<(), AllocError>
    ensures { OnOk result (all.new.items ≡ all.old.items ++ map (numbered serial) records.now) }
{
    for record in records {
        all.push(number(alloc, record, serial)?)?;
    }
    Ok(())
}

/// Copies of the records of the sets, with this serial where they are SOAs.
fn numbered_records(alloc: Global, sets: &Sets, serial: u32) -> Result<Vec<Record>, AllocError>
    ensures { IfOk result (λ records. records.items ≡ map (numbered serial) (zone_records (sets_of sets.now))) }
{
    let mut all = Vec::new(alloc);
    for (_, set) in sets {
        push_numbered(alloc, set.records(), serial, &mut all)?;
    }
    Ok(all)
}

/// The zone with another serial in its SOA record. It takes memory for the zone twice.
pub fn with_serial(
    alloc: Global,
    zone: &InMemoryZoneHandler,
    serial: u32,
) -> Result<InMemoryZoneHandler, RecordsError>
    ensures { IfOk result (λ made.
        SameZone (zone_records made.sets) (map (numbered serial) (zone_records zone.now.sets))) }
{
    identities();
    record_comparisons();
    let records = numbered_records(alloc, zone.records(), serial)?;
    let apex = zone.origin().as_name();
    match zone_of_records(alloc, apex, records, zone.zone_type(), zone.axfr_policy()) {
        Ok(made) => {
            // That its sets are in order is known once they are looked at.
            let _ = made.records();
            Ok(made)
        }
        Err(e) => Err(e),
    }
}
