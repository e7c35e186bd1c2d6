//! Zones of the records of messages.

use hickory_base::zone_store::{AxfrPolicy, InMemoryZoneHandler, RecordSet, ZoneType};
use hickory_server::server::NoKeys;
use hickory_store::updates::UpdatableZoneHandler;
use hickory_wire::{LowerName, Message, Record, RrKey};
use sqlite_disk::Memory;
use std::alloc::Global;
use std::collections::BTreeMap;
use std::rc::Rc;
use update_policy::Policy;
use zones::Zone;

/// Records by name and type.
type Groups = BTreeMap<RrKey, Vec<Record>>;

/// The sets of a zone.
type Sets = BTreeMap<RrKey, Rc<RecordSet>>;

/// Puts a record among those of this name and type.
fn put_at(alloc: Global, groups: &mut Groups, key: RrKey, record: Record) -> Option<()> {
    let Ok(entry) = groups.entry(key) else {
        drop(record);
        return None;
    };
    entry.or_insert(Vec::new(alloc)).push(record).ok()
}

/// Puts a record among those of its name and type.
fn put(alloc: Global, groups: &mut Groups, record: Record) -> Option<()> {
    let Ok(name) = LowerName::new(alloc, &record.name) else {
        drop(record);
        return None;
    };
    let key = RrKey::new(name, record.rdata.record_type());
    put_at(alloc, groups, key, record)
}

/// The records by name and type.
fn grouped(alloc: Global, records: Vec<Record>) -> Option<Groups> {
    let mut groups = BTreeMap::new(alloc);
    for record in records {
        if put(alloc, &mut groups, record).is_none() {
            drop(groups);
            return None;
        }
    }
    Some(groups)
}

/// These records as a set, if they make one.
fn set_of(alloc: Global, records: Vec<Record>) -> Option<Rc<RecordSet>> {
    if !RecordSet::accepts(records.as_slice()) {
        drop(records);
        return None;
    }
    Rc::new(alloc, RecordSet::new(records)).ok()
}

/// The records as the sets of a zone.
fn record_sets(alloc: Global, records: Vec<Record>) -> Option<Sets> {
    let groups = grouped(alloc, records)?;
    let mut sets = BTreeMap::new(alloc);
    for (key, records) in groups {
        if put_set(alloc, &mut sets, key, records).is_none() {
            drop(sets);
            return None;
        }
    }
    Some(sets)
}

/// Puts a set of these records among sets.
fn put_set(alloc: Global, sets: &mut Sets, key: RrKey, records: Vec<Record>) -> Option<()> {
    let set = set_of(alloc, records)?;
    sets.insert(key, set).ok()?;
    Some(())
}

/// The zone of these sets.
fn zone_at(origin: LowerName, sets: Sets) -> Option<(LowerName, InMemoryZoneHandler)> {
    let Ok(apex) = origin.clone() else {
        drop(sets);
        return None;
    };
    if !InMemoryZoneHandler::accepts(&sets) {
        drop(sets);
        return None;
    }
    let handler = InMemoryZoneHandler::new(apex, sets, ZoneType::Primary, AxfrPolicy::Deny);
    Some((origin, handler))
}

/// The name of the first of records.
fn first_name(alloc: Global, records: &[Record]) -> Option<LowerName> {
    LowerName::new(alloc, &records.first()?.name).ok()
}

/// The zone of these records, the first at the origin.
fn zone_of(alloc: Global, records: Vec<Record>) -> Option<(LowerName, InMemoryZoneHandler)> {
    let Some(origin) = first_name(alloc, records.as_slice()) else {
        drop(records);
        return None;
    };
    zone_at(origin, record_sets(alloc, records)?)
}

/// The answers of the message that bytes begin with.
fn answers(alloc: Global, bytes: &[u8]) -> Option<Vec<Record>> {
    let message = Message::read(alloc, bytes).ok()?;
    Some(message.answers.into_vec())
}

/// The zone whose records are the answers of the message that bytes begin with, the first at the origin.
pub(crate) fn zone(alloc: Global, bytes: &[u8]) -> Option<(LowerName, InMemoryZoneHandler)> {
    zone_of(alloc, answers(alloc, bytes)?)
}

/// A message after its length, and what comes after both (RFC 1035 section 4.2.2).
fn framed(bytes: &[u8]) -> Option<(&[u8], &[u8])> {
    let [high, low, rest @ ..] = bytes else {
        return None;
    };
    let len = usize::from(*high) * 256 + usize::from(*low);
    Some((rest.get(..len)?, rest.get(len..)?))
}

/// Puts the answers of a message after other records.
fn put_answers(alloc: Global, records: &mut Vec<Record>, message: &[u8]) -> Option<()> {
    let mut answers = answers(alloc, message)?;
    let put = records.append(&mut answers);
    drop(answers);
    put.ok()
}

/// The answers of messages, each after its length.
fn answers_of(alloc: Global, bytes: &[u8]) -> Option<Vec<Record>> {
    let mut records = Vec::new(alloc);
    let mut rest = bytes;
    for _ in 0..bytes.len() {
        let Some((message, behind)) = framed(rest) else {
            break;
        };
        if put_answers(alloc, &mut records, message).is_none() {
            drop(records);
            return None;
        }
        rest = behind;
    }
    Some(records)
}

/// A zone that takes updates and transfers, of the answers of messages, each after its length.
pub(crate) fn updatable_zone(
    alloc: Global,
    bytes: &[u8],
) -> Option<(LowerName, UpdatableZoneHandler<NoKeys>)> {
    let (origin, zone) = zone_of(alloc, answers_of(alloc, bytes)?)?;
    let handler = UpdatableZoneHandler::new(zone, AxfrPolicy::AllowAll, true, NoKeys);
    Some((origin, handler))
}

/// A zone that answers as RFC 1034 says and grants no update, of the answers of messages, each after its length.
pub(crate) fn authoritative_zone(
    alloc: Global,
    bytes: &[u8],
) -> Option<(LowerName, Zone<NoKeys, Memory>)> {
    let (origin, zone) = updatable_zone(alloc, bytes)?;
    let zone = Zone::new(alloc, zone, Policy::new(alloc));
    if !zone.is_owned() {
        drop(zone);
        drop(origin);
        return None;
    }
    Some((origin, zone))
}
