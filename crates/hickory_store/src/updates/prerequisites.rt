//! What an update requires of the zone.

ghost use Rattle.std.specs.Prelude.{◌≡◌, ◌==◌, IfOk};
ghost use Rattle.wire_messages.specs.rr.RecordData.{type_of};
ghost use Rattle.hickory_base.specs.zone_store.ZoneSets.{zone_records};
ghost use Rattle.hickory_store.specs.updates.Prerequisites.{absence_refusal, class_refusal, existence_refusal, name_is_in_use, prerequisite_refusal, prerequisite_section_refusal, rrset_exists};
ghost use Rattle.hickory_store.specs.updates.Refusals.{Tells, first_refusal, unless};

use crate::updates::handler::UpdatableZoneHandler;
use crate::updates::names::is_in_zone;
use crate::updates::prescan::{has_no_data, unless};
use crate::updates::required_sets::{find_set, sets_match};
use crate::updates::verifier::Verifier;
use hickory_base::errors::UpdateFault;
use hickory_base::zone_store::InMemoryZoneHandler;
use hickory_wire::{DNSClass, LowerName, Record, RecordType, ResponseCode};
use std::alloc::{AllocError, Global};

/// Whether the name of a record is in use.
fn name_is_in_use(alloc: Global, zone: &InMemoryZoneHandler, r: &Record) -> Result<bool, AllocError>
    ensures { IfOk result (λ used. used ≡ name_is_in_use (zone_records zone.now.sets) r.now.name) }
{
    Ok(zone.is_in_use(LowerName::new(alloc, &r.name)?))
}

/// Whether the RRset of a record exists.
fn rrset_exists(alloc: Global, zone: &InMemoryZoneHandler, r: &Record) -> Result<bool, AllocError>
    ensures { IfOk result (λ exists. exists ≡ rrset_exists (zone_records zone.now.sets) r.now.name
        (type_of r.now.rdata)) }
{
    Ok(find_set(alloc, zone, r)?.is_some())
}

/// The fault of this code, unless the test holds.
fn require(holds: bool, code: ResponseCode) -> Result<(), UpdateFault>
    ensures { Tells (unless holds code) result }
{
    unless(holds, code).map_err(UpdateFault::Code)
}

/// Whether the name or the RRset of a record exists, as class ANY requires.
fn check_existence(alloc: Global, zone: &InMemoryZoneHandler, r: &Record) -> Result<(), UpdateFault>
    ensures { Tells (existence_refusal (zone_records zone.now.sets) r.now) result }
{
    if r.rdata.record_type() == RecordType::ANY {
        require(name_is_in_use(alloc, zone, r)?, ResponseCode::NX_DOMAIN)
    } else {
        require(rrset_exists(alloc, zone, r)?, ResponseCode::NX_RRSET)
    }
}

/// Whether the name or the RRset of a record does not exist, as class NONE requires.
fn check_absence(alloc: Global, zone: &InMemoryZoneHandler, r: &Record) -> Result<(), UpdateFault>
    ensures { Tells (absence_refusal (zone_records zone.now.sets) r.now) result }
{
    if r.rdata.record_type() == RecordType::ANY {
        require(!name_is_in_use(alloc, zone, r)?, ResponseCode::YX_DOMAIN)
    } else {
        require(!rrset_exists(alloc, zone, r)?, ResponseCode::YX_RRSET)
    }
}

/// What the class of a record requires of the zone, but for records of the zone's class, which are required as sets.
fn check_class(alloc: Global, zone: &InMemoryZoneHandler, r: &Record) -> Result<(), UpdateFault>
    ensures { Tells (class_refusal (zone_records zone.now.sets) r.now) result }
{
    if r.dns_class == DNSClass::ANY {
        if !has_no_data(r) {
            return Err(UpdateFault::Code(ResponseCode::FORM_ERR));
        }
        check_existence(alloc, zone, r)
    } else if r.dns_class == DNSClass::NONE {
        if !has_no_data(r) {
            return Err(UpdateFault::Code(ResponseCode::FORM_ERR));
        }
        check_absence(alloc, zone, r)
    } else {
        require(r.dns_class == DNSClass::IN, ResponseCode::FORM_ERR)
    }
}

/// Whether the zone is as one record requires.
fn check(alloc: Global, zone: &InMemoryZoneHandler, r: &Record) -> Result<(), UpdateFault>
    ensures { Tells (prerequisite_refusal zone.now.origin (zone_records zone.now.sets) r.now) result }
{
    if r.ttl != 0 {
        return Err(UpdateFault::Code(ResponseCode::FORM_ERR));
    }
    if !is_in_zone(zone, &r.name) {
        return Err(UpdateFault::Code(ResponseCode::NOT_ZONE));
    }
    check_class(alloc, zone, r)
}

/// Whether the zone is as the records require one by one.
fn check_all(
    alloc: Global,
    zone: &InMemoryZoneHandler,
    prerequisites: &[Record],
) -> Result<(), UpdateFault>
    ensures { Tells (first_refusal (prerequisite_refusal zone.now.origin (zone_records zone.now.sets))
        prerequisites.now) result }
{
    for r in prerequisites {
        check(alloc, zone, r)?;
    }
    Ok(())
}

/// Whether the zone is as the records require, one by one and then as sets.
fn verify(
    alloc: Global,
    zone: &InMemoryZoneHandler,
    prerequisites: &[Record],
) -> Result<(), UpdateFault>
    ensures { Tells (prerequisite_section_refusal zone.now.origin (zone_records zone.now.sets) prerequisites.now)
        result }
{
    check_all(alloc, zone, prerequisites)?;
    require(
        sets_match(alloc, zone, prerequisites)?,
        ResponseCode::NX_RRSET,
    )
}

impl<V: Verifier> UpdatableZoneHandler<V> {
    /// Whether the zone is as an update requires; else the code of the first record that asks for what is not so
    /// (RFC 2136 section 3.2). The zone's records are looked up by their names and types, and none is changed.
    ///
    /// A TTL but 0 is FormErr, and a name outside the zone NotZone. Class ANY requires that the name is in use (type
    /// ANY; NXDomain) or that the RRset exists (NXRRSet); class NONE that the name is not in use (type ANY; YXDomain)
    /// or that the RRset does not exist (YXRRSet). In these two classes data are FormErr, and so is any other class but
    /// the zone's. In the end the records of the zone's class, taken as RRsets, must be those of the zone, TTLs aside;
    /// else NXRRSet.
    pub fn verify_prerequisites(
        &self,
        alloc: Global,
        prerequisites: &[Record],
    ) -> Result<(), UpdateFault>
        ensures { Tells (prerequisite_section_refusal self.now.zone.origin
            (zone_records self.now.zone.sets) prerequisites.now) result }
    {
        verify(alloc, &self.in_memory, prerequisites)
    }
}
