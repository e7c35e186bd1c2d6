//! A zone that is held in memory.

mod answers;
mod records;

ghost use Rattle.std.specs.Prelude.{◌≡◌, ◌↔◌, IsTrue, []};
ghost use Rattle.std.specs.Map.{lookup};
ghost use Rattle.std.specs.Option.{option_copied};
ghost use Rattle.wire_messages.specs.Numbers.{class_in, type_soa};
ghost use Rattle.hickory_base.specs.zone_store.ZoneAnswers.{zone_soa, soa_serial};
ghost use Rattle.hickory_base.specs.zone_store.ZoneSets.{AreDistinct, AreSetsInOrder, IsZone, is_key, sets_of, zone_records};

use crate::zone_store::conditions::is_zone;
use crate::zone_store::find::{set_under, share_under};
use crate::zone_store::handler::{AxfrPolicy, ZoneType};
use crate::zone_store::record_set::RecordSet;
use hickory_wire::{DNSClass, LowerName, RData, Record, RecordType, RrKey};
use std::alloc::Global;
use std::collections::BTreeMap;
use std::marker::Model;
use std::mem;
use std::rc::Rc;

/// A zone of class IN that is held in memory: its sets of records by name and type.
///
/// It answers by the records that stand in it, and follows no CNAME, no wildcard and no delegation.
#[derive(Drop)]
pub struct InMemoryZoneHandler {
    // The key of the zone's SOA record, whose name is the origin: it is looked up without memory for a key.
    apex: RrKey,
    // A share of the set under that key: each denial reads it, and so needs no look-up. Where there is none, the set
    // may still stand in the map, since a share is not to be had where too many are counted.
    soa: Option<Rc<RecordSet>>,
    zone_type: ZoneType,
    axfr_policy: AxfrPolicy,
    records: BTreeMap<RrKey, Rc<RecordSet>>,
}

impl Model for InMemoryZoneHandler {
    ghost use Rattle.std.specs.Prelude.{◌≡◌, IfSome, Some};
    ghost use Rattle.std.specs.Map.{lookup};
    ghost use Rattle.wire_messages.specs.Numbers.{type_soa};
    ghost use Rattle.hickory_base.specs.zone_store.ZoneAnswers.{MemoryZone};

    ghost Value = { MemoryZone };

    ghost use Rattle.hickory_base.specs.zone_store.ZoneSets.{AreSetsInOrder, IsZone, is_key, sets_of};

    ghost view = { λ z. record {
      origin = z.apex.name;
      zone_type = z.zone_type;
      axfr_policy = z.axfr_policy;
      sets =
          sets_of z.records;
    } };

    ghost invariant = { λ z. (z.apex.record_type ≡ type_soa) × IsZone (sets_of z.records) ×
        AreSetsInOrder (sets_of z.records) ×
        IfSome z.soa (λ set. lookup (is_key z.apex.name type_soa) (sets_of z.records) ≡ Some set.value) };
}

impl InMemoryZoneHandler {
    /// Whether these sets make a zone: each is under its own key and holds no record twice, and each record of type SOA
    /// has the data of one.
    pub fn accepts(records: &BTreeMap<RrKey, Rc<RecordSet>>) -> bool
        ensures { IsTrue result ↔ IsZone (sets_of records.now) }
    {
        is_zone(records)
    }

    /// The zone of these sets, which `accepts` takes. It needs no memory, and looks at no set: `accepts` walks over
    /// each once.
    pub fn new(
        origin: LowerName,
        records: BTreeMap<RrKey, Rc<RecordSet>>,
        zone_type: ZoneType,
        axfr_policy: AxfrPolicy,
    ) -> InMemoryZoneHandler
        requires { IsZone (sets_of records) }
        ensures { result ≡ record {
          origin = origin;
          zone_type = zone_type;
          axfr_policy = axfr_policy;
          sets = sets_of
              records;
        } }
    {
        // That the keys are in order is known of a map whose length was read.
        let _ = records.len();
        let apex = RrKey::new(origin, RecordType::SOA);
        let soa = share_under(&records, &apex);
        InMemoryZoneHandler {
            apex,
            soa,
            zone_type,
            axfr_policy,
            records,
        }
    }

    /// The class of its records: IN.
    pub fn class(&self) -> DNSClass
        ensures { result ≡ class_in }
    {
        DNSClass::IN
    }

    /// The sets by name and type, which `accepts` takes, in the order of their keys. No two records of the zone are the
    /// same.
    pub fn records(&self) -> &BTreeMap<RrKey, Rc<RecordSet>>
        ensures sets { sets_of result.now ≡ self.now.sets }
        ensures zone { IsZone self.now.sets }
        ensures ordered { AreSetsInOrder self.now.sets }
        ensures distinct { AreDistinct (zone_records self.now.sets) }
    {
        &self.records
    }

    /// Puts these sets, which `accepts` takes, in the place of all others. It needs no memory.
    pub fn replace_records(&mut self, records: BTreeMap<RrKey, Rc<RecordSet>>)
        requires { IsZone (sets_of records) }
        ensures { self.new ≡ record self.old { sets = sets_of records } }
    {
        // That the keys are in order is known of a map whose length was read.
        let _ = records.len();
        self.soa = share_under(&records, &self.apex);
        self.records = records;
    }

    /// Hands the sets over, and leaves a zone without any. It needs no memory.
    pub fn take_records(&mut self, alloc: Global) -> BTreeMap<RrKey, Rc<RecordSet>>
        ensures sets { sets_of result ≡ self.old.sets }
        ensures zone { IsZone self.old.sets }
        ensures emptied { self.new ≡ record self.old { sets = [] } }
    {
        // Whoever has the sets may want them unshared.
        self.soa = None;
        mem::replace(&mut self.records, BTreeMap::new(alloc))
    }

    /// The records of type SOA at the origin.
    fn soa_set(&self) -> Option<&[Record]>
        ensures { option_copied result ≡ lookup (is_key self.now.origin type_soa) self.now.sets }
    {
        match &self.soa {
            Some(set) => Some(set.records()),
            None => set_under(&self.records, &self.apex),
        }
    }

    /// The SOA record at the origin.
    fn soa(&self) -> Option<&Record>
        ensures { option_copied result ≡ zone_soa self.now }
    {
        match self.soa_set() {
            None => None,
            Some(records) => records.first(),
        }
    }

    /// The serial of the SOA record at the origin, 0 without one.
    pub fn serial(&self) -> u32
        ensures { result ≡ soa_serial (zone_soa self.now) }
    {
        match self.soa() {
            Some(
                Record {
                    rdata: RData::SOA(soa),
                    ..
                },
            ) => soa.get().serial,
            _ => 0,
        }
    }
}
