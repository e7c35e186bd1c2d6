//! A zone as entries of a journal, and back.

ghost use Rattle.std.specs.Prelude.{◌≡◌, ◌++◌, ◌∷◌, [], List, ℕ, IfOk, IfSome, IsTrue, OnOk, true};
ghost use Rattle.hickory_base.specs.zone_store.ZoneAnswers.{soa_serial, zone_soa};
ghost use Rattle.hickory_base.specs.zone_store.ZoneSets.{sets_of, zone_records};
ghost use Rattle.hickory_store.specs.updates.Identity.{SameZone, same_record};
ghost use Rattle.hickory_store.specs.updates.UpdateLaws.{HasOneSoa, HoldsIn};
ghost use Rattle.journal.specs.Read.{contents};
ghost use Rattle.durable_updates.specs.Snapshots.{IsAnswer, IsBase, IsSnapshot, Recalls, Say, Says};
ghost use Rattle.wire_messages.specs.declared.rr.record.Record.{Record as ResourceRecord};
ghost use Rattle.wire_messages.specs.declared.rr.rdata.RData.{RData as Data};

use crate::batches::Sets;
use crate::redoing::{RedoError, redo, redo_to};
use hickory_base::zone_store::{AxfrPolicy, InMemoryZoneHandler, ZoneHandler, ZoneType};
use hickory_store::file::{RecordsError, zone_of_records};
use hickory_store::updates::laws::identities;
use hickory_store::updates::{UpdatableZoneHandler, Verifier};
use hickory_wire::{
    DecodeError, Message, MessageType, Metadata, OpCode, Record, ReplyParts, encode_message_parts,
    record_comparisons,
};
use std::alloc::{AllocError, AllocFailed, Global};
use std::slice;
use thiserror::Error;

/// Why a zone has no snapshot.
#[derive(Clone, Copy, Debug, PartialEq, Eq, Error)]
pub enum SnapshotError {
    /// A record is not read back as it is from a message of 65,535 bytes, or the records make no zone with one SOA at
    /// its apex.
    #[error("the zone does not read back as it is")]
    Unreadable,
    /// Memory was refused.
    #[error("out of memory")]
    Memory,
}

impl From<AllocError> for SnapshotError {
    fn from(_: AllocError) -> SnapshotError {
        SnapshotError::Memory
    }
}

impl<T: Drop> From<AllocFailed<T>> for SnapshotError {
    fn from(_e: AllocFailed<T>) -> SnapshotError {
        SnapshotError::Memory
    }
}

impl From<RedoError> for SnapshotError {
    fn from(e: RedoError) -> SnapshotError {
        match e {
            RedoError::Memory => SnapshotError::Memory,
            RedoError::Damaged => SnapshotError::Unreadable,
        }
    }
}

/// Whether two records are the same, with one TTL.
fn is_same(r: &Record, q: &Record) -> bool
    ensures { IsTrue result → (same_record r.now q.now ≡ true) × (r.now.ttl ≡ q.now.ttl) }
{
    r == q && r.ttl == q.ttl
}

/// The one record of these.
fn only_record(records: Vec<Record>) -> Option<Record>
    ensures { IfSome result (λ r. records.items ≡ r ∷ []) }
{
    let mut records = records;
    let last = records.pop();
    if records.is_empty() { last } else { None }
}

/// Reads an entry of a snapshot: the record that is the one answer of its message.
pub fn read_record(alloc: Global, entry: &[u8]) -> Result<Record, RedoError>
    ensures { IfOk result (IsAnswer entry.now) }
{
    if entry.is_empty() {
        return Err(RedoError::Damaged);
    }
    match Message::read(alloc, entry) {
        Ok(message) => match only_record(message.answers.into_vec()) {
            Some(r) => Ok(r),
            None => Err(RedoError::Damaged),
        },
        Err(DecodeError::Memory) => Err(RedoError::Memory),
        Err(_) => Err(RedoError::Damaged),
    }
}

/// A message that has these records as answers, as far as they fit in it.
fn message_of(alloc: Global, records: &[Record]) -> Result<Vec<u8>, SnapshotError> {
    let nothing: &[Record] = &[];
    let parts = ReplyParts {
        metadata: Metadata::new(0, MessageType::Response, OpCode::QUERY),
        question: &[],
        question_count: 0,
        edns: None,
        answers: records.iter(),
        authorities: nothing.iter(),
        soa: nothing.iter(),
        additionals: nothing.iter(),
        signature: None,
    };
    match encode_message_parts(alloc, u16::MAX, parts) {
        Ok((_, bytes)) => Ok(bytes),
        Err(_) => Err(SnapshotError::Memory),
    }
}

/// Puts an entry last that says a record.
fn push_record(
    alloc: Global,
    record: &Record,
    entries: &mut Vec<Vec<u8>>,
) -> Result<(), SnapshotError>
    ensures { OnOk result ((entry : List ℕ) × (contents entries.new.items ≡ contents entries.old.items ++ entry ∷ []) ×
        Says entry «record».now) }
{
    let entry = message_of(alloc, slice::from_ref(record))?;
    let r = read_record(alloc, &entry)?;
    if !is_same(&r, record) {
        return Err(SnapshotError::Unreadable);
    }
    entries.push(entry)?;
    Ok(())
}

/// Puts an entry last for each of these records.
fn push_records(
    alloc: Global,
    records: &[Record],
    entries: &mut Vec<Vec<u8>>,
) -> Result<(), SnapshotError>
    ensures { OnOk result ((added : List (List ℕ)) ×
        (contents entries.new.items ≡ contents entries.old.items ++ added) × Say added records.now) }
{
    let mut rest = records;
    while let [first, others @ ..] = rest {
        push_record(alloc, first, entries)?;
        rest = others;
    }
    Ok(())
}

/// An entry for each record of the sets, in their order.
fn write_sets(alloc: Global, sets: &Sets) -> Result<Vec<Vec<u8>>, SnapshotError>
    ensures { IfOk result (λ entries. Say (contents entries.items) (zone_records (sets_of sets.now))) }
{
    let mut entries = Vec::new(alloc);
    for (_, set) in sets {
        push_records(alloc, set.records(), &mut entries)?;
    }
    Ok(entries)
}

/// The records of a snapshot, and the entries behind it.
#[derive(Drop)]
struct Found<'e> {
    records: Vec<Record>,
    requests: &'e [Vec<u8>],
}

/// Reads entries up to the first empty one, which stands behind a snapshot.
fn read_snapshot<'e>(alloc: Global, entries: &'e [Vec<u8>]) -> Result<Found<'e>, RedoError>
    ensures { IfOk result (λ found. (snapshot : List (List ℕ)) ×
        (contents entries.now ≡ snapshot ++ [] ∷ contents found.requests.now) × Say snapshot found.records.items) }
{
    identities();
    let mut records = Vec::new(alloc);
    let mut rest = entries;
    while let [entry, others @ ..] = rest {
        if entry.is_empty() {
            return Ok(Found {
                records,
                requests: others,
            });
        }
        records.push(read_record(alloc, entry)?)?;
        rest = others;
    }
    Err(RedoError::Damaged)
}

/// The zone of these records, with the apex of this one. It has one SOA there.
fn zone_of<V: Verifier>(
    zone: &UpdatableZoneHandler<V>,
    alloc: Global,
    records: Vec<Record>,
) -> Result<InMemoryZoneHandler, RedoError>
    ensures same { IfOk result (λ made. SameZone (zone_records made.sets) records.items) }
    ensures soa { IfOk result (λ made. HasOneSoa zone.now.zone.origin (zone_records made.sets)) }
{
    identities();
    record_comparisons();
    let apex = zone.origin().as_name();
    match zone_of_records(alloc, apex, records, ZoneType::Primary, AxfrPolicy::Deny) {
        Ok(made) => {
            // That its sets are in order is known once they are looked at.
            let _ = made.records();
            Ok(made)
        }
        Err(RecordsError::Memory) => Err(RedoError::Memory),
        Err(_) => Err(RedoError::Damaged),
    }
}

/// The records of a zone as entries, each a message of one answer, in the order of their names and types, with an empty
/// entry behind them. What is written is read back before it is given, and made a zone. It takes memory for the zone
/// three times.
pub fn snapshot<V: Verifier>(
    zone: &UpdatableZoneHandler<V>,
    alloc: Global,
) -> Result<Vec<Vec<u8>>, SnapshotError>
    ensures { IfOk result (λ entries. (written : List (List ℕ)) × (contents entries.items ≡ written ++ [] ∷ []) ×
        IsSnapshot written zone.now.zone) }
{
    identities();
    record_comparisons();
    let mut entries = write_sets(alloc, zone.in_memory().records())?;
    let none: Vec<u8> = Vec::new(alloc);
    entries.push(none)?;
    let found = read_snapshot(alloc, &entries)?;
    zone_of(zone, alloc, found.records)?;
    Ok(entries)
}

/// Puts records in the place of those of a zone.
fn put_records<V: Verifier>(
    zone: &mut UpdatableZoneHandler<V>,
    alloc: Global,
    records: Vec<Record>,
) -> Result<(), RedoError>
    ensures records { OnOk result (SameZone (zone_records zone.new.zone.sets) records.items) }
    ensures soa { OnOk result (HoldsIn HasOneSoa zone.new.zone) }
    ensures others { zone.new ≡ record zone.old { zone = record zone.old.zone { sets = zone.new.zone.sets } } }
{
    let mut made = zone_of(zone, alloc, records)?;
    let sets = made.take_records(alloc);
    zone.in_memory_mut().replace_records(sets);
    Ok(())
}

/// Where the file was compacted, puts the records of its snapshot in the place of those of the first zone, and gives
/// the requests behind it; of every other file it gives all entries. After an `Err` the zone is as before.
pub(crate) fn put_snapshot<'e, V: Verifier>(
    zone: &mut UpdatableZoneHandler<V>,
    alloc: Global,
    entries: &'e [Vec<u8>],
) -> Result<&'e [Vec<u8>], RedoError>
    ensures base { IfOk result (λ requests. IsBase (contents entries.now) zone.old.zone zone.new.zone
        (contents requests.now)) }
    ensures others { zone.new ≡ record zone.old { zone = zone.new.zone } }
{
    let [head, others @ ..] = entries else {
        return Ok(entries);
    };
    if head.len() != 8 {
        return Ok(entries);
    }
    let Found { records, requests } = read_snapshot(alloc, others)?;
    put_records(zone, alloc, records)?;
    Ok(requests)
}

/// Does the entries of a file to the first zone, the one of before any of them. A file that was compacted begins with
/// its generation and a snapshot, whose records take the place of those of the first zone; every other one is done as
/// `redo` does it. After an `Err` those of a front are done.
pub fn recall<V: Verifier>(
    zone: &mut UpdatableZoneHandler<V>,
    alloc: Global,
    entries: &[Vec<u8>],
) -> Result<(), RedoError>
    ensures recalled { OnOk result (Recalls (contents entries.now) zone.old.zone zone.new.zone) }
    ensures others { zone.new ≡ record zone.old { zone = zone.new.zone } }
{
    let requests = put_snapshot(zone, alloc, entries)?;
    redo(zone, alloc, requests)
}

/// Does the entries of a file, as `recall` does, up to the first zone of a serial, and gives those behind that; `None`
/// where no zone on the way has it, and then all are done. The first zone is that of the snapshot, where the file was
/// compacted.
pub fn recall_to<'e, V: Verifier>(
    zone: &mut UpdatableZoneHandler<V>,
    alloc: Global,
    entries: &'e [Vec<u8>],
    serial: u32,
) -> Result<Option<&'e [Vec<u8>]>, RedoError>
    ensures recalled { IfOk result
        (λ found. IfSome found (λ rest. (done : List (List ℕ)) × (contents entries.now ≡ done ++ contents rest.now) ×
        Recalls done zone.old.zone zone.new.zone × (soa_serial (zone_soa zone.new.zone) ≡ serial))) }
    ensures others { zone.new ≡ record zone.old { zone = zone.new.zone } }
{
    let requests = put_snapshot(zone, alloc, entries)?;
    redo_to(zone, alloc, requests, serial)
}
