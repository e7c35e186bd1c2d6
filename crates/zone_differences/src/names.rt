//! The names that an update speaks of, with their records.

ghost use Rattle.std.specs.Prelude.{◌∷◌, ◌≡◌, All, IfOk, IfSome, OnOk, [], true};
ghost use Rattle.hickory_base.specs.zone_store.ZoneRecords.{rrset};
ghost use Rattle.hickory_base.specs.zone_store.ZoneSets.{zone_records};
ghost use Rattle.zone_differences.specs.Standing.{AreStanding, Keeps, are_among};

use hickory_base::zone_store::{InMemoryZoneHandler, ZoneHandler};
use hickory_wire::{Items, LowerName, Name, Record, RecordType, RrKey};
use std::alloc::{AllocError, Global};

/// A name, with its records.
#[derive(Debug, Drop)]
pub(crate) struct NameRecords {
    pub(crate) name: LowerName,
    pub(crate) records: Items<Record>,
}

/// Whether a name is among some.
fn are_among(names: &[NameRecords], name: &LowerName) -> bool
    ensures { result ≡ are_among names.now name.now }
{
    names.iter().any(|e| e.name == *name)
}

/// Puts a name last with its records, unless it is there.
pub(crate) fn push_name(
    alloc: Global,
    zone: &InMemoryZoneHandler,
    name: &Name,
    names: &mut Vec<NameRecords>,
) -> Result<(), AllocError>
    ensures standing { OnOk result (AreStanding (zone_records zone.now.sets) names.old.items →
        AreStanding (zone_records zone.now.sets) names.new.items) }
    ensures there { OnOk result (are_among names.new.items name.now ≡ true) }
    ensures others { OnOk result (Keeps names.old.items names.new.items) }
{
    let name = LowerName::new(alloc, name)?;
    if are_among(names, &name) {
        return Ok(());
    }
    let records = zone.records_of_name(alloc, name.clone()?)?;
    names.push(NameRecords {
        name,
        records: Items::from_vec(records),
    })?;
    Ok(())
}

/// Puts the owner names of records among these names, each once, with what the zone has of it.
pub(crate) fn push_names(
    alloc: Global,
    zone: &InMemoryZoneHandler,
    records: &[Record],
    names: &mut Vec<NameRecords>,
) -> Result<(), AllocError>
    ensures standing { OnOk result (AreStanding (zone_records zone.now.sets) names.old.items →
        AreStanding (zone_records zone.now.sets) names.new.items) }
    ensures there { OnOk result (All (λ r. are_among names.new.items r.name ≡ true) records.now) }
{
    for r in records {
        push_name(alloc, zone, &r.name, names)?;
    }
    Ok(())
}

/// A copy of the SOA record at the apex of a zone, where there is one alone.
pub(crate) fn apex_soa(
    alloc: Global,
    zone: &InMemoryZoneHandler,
) -> Result<Option<Record>, AllocError>
    ensures { IfOk result (λ found.
        IfSome found (λ soa. rrset (zone_records zone.now.sets) zone.now.origin 6 ≡ soa ∷ [])) }
{
    let key = RrKey::new(zone.origin().clone()?, RecordType::SOA);
    match zone.record_set(&key) {
        Some([soa]) => Ok(Some(soa.clone()?)),
        _ => Ok(None),
    }
}
