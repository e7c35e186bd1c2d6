//! Dynamic updates of a zone, whole or not at all.

ghost use Rattle.std.specs.Prelude.{◌≡◌, ◌<◌, ◌^◌, IfErr, IfOk, List, MatchOption, MatchResult, None, Ok, OnOk, false, map, true};
ghost use Rattle.std.specs.List.{AllByRecursion, list_any};
ghost use Rattle.wire_messages.specs.declared.rr.rdata.RData.{RData as Data};
ghost use Rattle.wire_messages.specs.declared.rr.record.Record.{Record as ResourceRecord};
ghost use Rattle.hickory_base.specs.zone_store.ZoneSets.{zone_records};
ghost use Rattle.hickory_store.specs.updates.NameUpdates.{AreNow};
ghost use Rattle.hickory_store.specs.updates.Prescan.{prescan_refusal};
ghost use Rattle.hickory_store.specs.updates.Serials.{next_serial};
ghost use Rattle.hickory_store.specs.updates.UpdateAnswers.{IsRefused, Updates, applied, incremented, is_apex_soa, with_next_serial};
ghost use Rattle.hickory_store.specs.representation.ZoneSets.{HasSerial};

use crate::updates::changed_sets::{changed_sets, commit_changes};
use crate::updates::changes::is_type;
use crate::updates::handler::UpdatableZoneHandler;
use crate::updates::laws::identities;
use crate::updates::touched::{ByName, put_name, take_name, touch_all};
use crate::updates::verifier::Verifier;
use hickory_base::errors::UpdateFault;
use hickory_base::zone_store::{InMemoryZoneHandler, ZoneHandler};
use hickory_wire::{Boxed, Name, RData, Record, RecordType, ResponseCode, SOA};
use std::alloc::{AllocError, Global};
use std::collections::BTreeMap;

/// Whether a record is an SOA of the apex.
fn is_apex_soa(origin: &Name, q: &Record) -> bool
    ensures { result ≡ is_apex_soa origin.now q.now }
{
    *origin == q.name && is_type(RecordType::SOA, q)
}

/// Whether the apex has an SOA.
fn has_apex_soa(origin: &Name, records: &[Record]) -> bool
    ensures { result ≡ list_any (is_apex_soa origin.now) records.now }
{
    records.iter().any(|q| is_apex_soa(origin, q))
}

/// An SOA with the next serial.
fn next_soa(alloc: Global, soa: &SOA) -> Result<Boxed<SOA>, AllocError>
    ensures { IfOk result (λ next. next ≡ record soa.now { serial = next_serial soa.now.serial }) }
{
    let mut next = soa.clone()?;
    next.serial = next.serial.wrapping_add(1);
    let boxed = Boxed::new(alloc, next)?;
    Ok(boxed)
}

/// Increments the serial of a record that is an SOA of the apex.
fn increment(alloc: Global, origin: &Name, q: &mut Record) -> Result<(), AllocError>
    ensures { OnOk result (q.new ≡ incremented origin.now q.old) }
{
    if is_apex_soa(origin, q) {
        if let RData::SOA(soa) = &q.rdata {
            let next = next_soa(alloc, soa.get())?;
            q.rdata = RData::SOA(next);
        }
    }
    Ok(())
}

/// Increments the serials of the SOAs of the apex. Where memory is refused, those of a front may have been.
fn increment_serials(alloc: Global, origin: &Name, records: &mut [Record]) -> Result<(), AllocError>
    ensures { OnOk result (records.new ≡ map (incremented origin.now) records.old) }
{
    for q in records.iter_mut() {
        increment(alloc, origin, q)?;
    }
    Ok(())
}

/// Increments the serials of the SOAs of the apex, among its records as the update leaves them; without one it is
/// ServFail.
fn increment_apex(
    alloc: Global,
    zone: &InMemoryZoneHandler,
    touched: &mut ByName,
) -> Result<(), UpdateFault>
    ensures zone { OnOk result ((records : List (ResourceRecord Data)) →
        AreNow (zone_records zone.now.sets) touched.old records →
        AreNow (zone_records zone.now.sets) touched.new (map (incremented zone.now.origin) records)) }
    ensures found { OnOk result ((records : List (ResourceRecord Data)) →
        AreNow (zone_records zone.now.sets) touched.old records →
        list_any (is_apex_soa zone.now.origin) records ≡ true) }
    ensures refused { IfErr result (λ e. (records : List (ResourceRecord Data)) →
        AreNow (zone_records zone.now.sets) touched.old records →
        IsRefused (with_next_serial zone.now.origin records) e) }
{
    let apex = zone.origin();
    let mut records = take_name(alloc, zone, touched, apex)?;
    let origin = apex.as_name();
    if !has_apex_soa(origin, &records) {
        return Err(UpdateFault::Code(ResponseCode::SERV_FAIL));
    }
    increment_serials(alloc, origin, &mut records)?;
    let name = apex.clone()?;
    put_name(touched, name, records)?;
    Ok(())
}

/// The names that an update touches, with their records after it, or none where the zone stays as it is.
fn updated(
    alloc: Global,
    by_rfc: bool,
    zone: &InMemoryZoneHandler,
    updates: &[Record],
    increments: bool,
) -> Result<Option<ByName>, UpdateFault>
    ensures { MatchResult result (λ o.
        MatchOption o (applied by_rfc zone.now.origin (zone_records zone.now.sets) updates.now increments ≡ Ok
        (zone_records zone.now.sets, false)) (λ touched. (records : List (ResourceRecord Data)) ×
        AreNow (zone_records zone.now.sets) touched records ×
        (applied by_rfc zone.now.origin (zone_records zone.now.sets) updates.now increments ≡ Ok
        (records, increments))))
        (λ e. IsRefused (applied by_rfc zone.now.origin (zone_records zone.now.sets) updates.now increments) e) }
{
    let mut touched = BTreeMap::new(alloc);
    let is_changed = touch_all(alloc, by_rfc, zone, &mut touched, updates)?;
    if increments {
        if !is_changed {
            return Ok(None);
        }
        increment_apex(alloc, zone, &mut touched)?;
    }
    Ok(Some(touched))
}

/// That serials have 32 bits is known of a record that was read.
fn read_serial(r: &Record)
    ensures { HasSerial r.now }
{
    if let RData::SOA(soa) = &r.rdata {
        let _ = serial(soa.get());
    }
}

/// The serial of an SOA, which has 32 bits.
fn serial(soa: &SOA) -> u32
    ensures value { result ≡ soa.now.serial }
    ensures range { soa.now.serial < 2 ^ 32 }
{
    soa.serial
}

/// That serials have 32 bits is known of records that were read.
fn read_serials(records: &[Record])
    ensures { AllByRecursion HasSerial records.now }
{
    let mut rest = records;
    while let [r, others @ ..] = rest {
        read_serial(r);
        rest = others;
    }
}

impl<V: Verifier> UpdatableZoneHandler<V> {
    /// Does what the records of an update section say to the zone, one after another (RFC 2136 section 3.4.2), as the
    /// Rust crate hickory-server does: this is `update_records_by` without `by_rfc`.
    pub fn update_records(
        &mut self,
        alloc: Global,
        updates: &[Record],
        increments_serial: bool,
    ) -> Result<bool, UpdateFault>
        requires { prescan_refusal self.old.zone.origin updates.now ≡ None }
        ensures zone { Updates (applied false self.old.zone.origin (zone_records self.old.zone.sets) updates.now
            increments_serial) result self.old.zone self.new.zone }
        ensures others { self.new ≡ record self.old { zone = self.new.zone } }
        ensures untouched { IfOk result (λ changed. increments_serial ≡ true → changed ≡ false → self.new ≡ self.old) }
    {
        self.update_records_by(alloc, updates, increments_serial, false)
    }

    /// Does what the records of an update section say to the zone, one after another (RFC 2136 section 3.4.2). The
    /// records are some that `pre_scan` accepts. Whatever the error, the zone is as it was.
    ///
    /// If `increments_serial` is set and some record changed the zone, the serial of its SOA is incremented and the
    /// answer is true; without an SOA that is ServFail. If no record changed the zone, nothing of it is touched and
    /// the answer is false. If `increments_serial` is not set, as in a replay of updates that were made before, the
    /// serial is what the records leave, and the answer is false whether they changed the zone or not.
    ///
    /// If `by_rfc` is set, the RFCs are followed also where the Rust crate hickory-server differs from them: an RRset
    /// has the TTL of the record that was added to it last (RFC 2181 section 5.2), a TTL of 2^31 or more counts as 0
    /// (section 8), and the last NS of a name is kept only at the apex (RFC 2136 section 3.4.2.4).
    pub fn update_records_by(
        &mut self,
        alloc: Global,
        updates: &[Record],
        increments_serial: bool,
        by_rfc: bool,
    ) -> Result<bool, UpdateFault>
        requires { prescan_refusal self.old.zone.origin updates.now ≡ None }
        ensures zone { Updates (applied by_rfc self.old.zone.origin (zone_records self.old.zone.sets) updates.now
            increments_serial) result self.old.zone self.new.zone }
        ensures others { self.new ≡ record self.old { zone = self.new.zone } }
        ensures untouched { IfOk result (λ changed. increments_serial ≡ true → changed ≡ false → self.new ≡ self.old) }
    {
        identities();
        read_serials(updates);
        // That no two records of a zone are the same is known of sets that were lent.
        let _ = self.in_memory.records();
        let touched = updated(alloc, by_rfc, &self.in_memory, updates, increments_serial)?;
        match touched {
            None => Ok(false),
            Some(touched) => {
                let changes = changed_sets(alloc, &self.in_memory, touched)?;
                commit_changes(alloc, &mut self.in_memory, changes)?;
                Ok(increments_serial)
            }
        }
    }
}
