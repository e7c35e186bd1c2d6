//! Zones while their records are given, and the handlers that are made of them.

use crate::calls::CallLog;
use crate::fault::Fault;
use crate::handler::{Handler, Source};
use crate::keys::KeyVerifier;
use hickory_base::zone_store::{AxfrPolicy, InMemoryZoneHandler, RecordSet, ZoneHandler, ZoneType};
use hickory_store::updates::UpdatableZoneHandler;
use hickory_wire::{LowerName, Name, Record, RrKey};
use record_text::read_name;
use std::alloc::Global;
use std::collections::BTreeMap;
use std::rc::Rc;

/// A zone while its records are given.
#[derive(Drop)]
pub struct OpenZone {
    /// The name at its top.
    pub origin: Name,
    /// What the server is to it.
    pub zone_type: ZoneType,
    /// Who may have a transfer.
    pub axfr_policy: AxfrPolicy,
    /// Whether it makes updates or refuses them; `None` if it is a zone in memory.
    pub updates: Option<bool>,
    /// Its records by name and type, in the order in which they were given.
    pub sets: BTreeMap<RrKey, Vec<Record>>,
}

/// Adds a set to a map.
fn put_set(
    alloc: Global,
    sets: &mut BTreeMap<RrKey, Rc<RecordSet>>,
    key: &RrKey,
    records: &[Record],
) -> Result<(), Fault> {
    let mut copies = Vec::new(alloc);
    for record in records {
        copies.push(record.clone()?)?;
    }
    if !RecordSet::accepts(&copies) {
        drop(copies);
        return Err(Fault::Line("these records make no zone"));
    }
    let set = Rc::new(alloc, RecordSet::new(copies))?;
    let old = sets.insert(RrKey::new(key.name.clone()?, key.record_type), set)?;
    drop(old);
    Ok(())
}

/// The verifier of a zone that takes updates.
fn verifier(alloc: Global, log: &CallLog) -> Result<KeyVerifier, Fault> {
    Ok(KeyVerifier {
        unknown: read_name(alloc, "unknown.example.")?,
        bad: read_name(alloc, "bad.example.")?,
        lacking: read_name(alloc, "lacking.example.")?,
        log: log.share()?,
    })
}

/// What a handler of a zone in memory answers by.
fn source(
    alloc: Global,
    zone: InMemoryZoneHandler,
    updates: Option<bool>,
    log: &CallLog,
) -> Result<Source, Fault> {
    let Some(allow_update) = updates else {
        return Ok(Source::Zone(zone));
    };
    match verifier(alloc, log) {
        Ok(verifier) => {
            let policy = zone.axfr_policy();
            Ok(Source::Updatable(UpdatableZoneHandler::new(zone, policy, allow_update, verifier)))
        }
        Err(fault) => {
            drop(zone);
            Err(fault)
        }
    }
}

impl OpenZone {
    /// Adds a record to the set of its name and type.
    pub fn put(&mut self, alloc: Global, record: Record) -> Result<(), Fault> {
        let record_type = record.rdata.record_type();
        match LowerName::new(alloc, &record.name) {
            Ok(name) => {
                let key = RrKey::new(name, record_type);
                let set = self.sets.entry(key)?.or_insert(Vec::new(alloc));
                set.push(record)?;
                Ok(())
            }
            Err(e) => {
                drop(record);
                Err(Fault::from(e))
            }
        }
    }

    /// The zone in memory of copies of its records.
    fn in_memory(&self, alloc: Global) -> Result<InMemoryZoneHandler, Fault> {
        let mut sets = BTreeMap::new(alloc);
        for (key, records) in &self.sets {
            put_set(alloc, &mut sets, key, records.as_slice())?;
        }
        if !InMemoryZoneHandler::accepts(&sets) {
            drop(sets);
            return Err(Fault::Line("these records make no zone"));
        }
        let origin = LowerName::new(alloc, &self.origin)?;
        Ok(InMemoryZoneHandler::new(origin, sets, self.zone_type, self.axfr_policy))
    }

    /// The handler of the zone.
    pub fn handler(&self, alloc: Global, log: &CallLog) -> Result<Handler, Fault> {
        let source = source(alloc, self.in_memory(alloc)?, self.updates, log)?;
        match LowerName::new(alloc, &self.origin) {
            Ok(origin) => Ok(Handler {
                zone_type: self.zone_type,
                axfr_policy: self.axfr_policy,
                origin,
                validates: false,
                proof_kind: None,
                source,
            }),
            Err(e) => {
                drop(source);
                Err(Fault::from(e))
            }
        }
    }
}
