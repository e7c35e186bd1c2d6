//! The serials of the zone of a journal, from entry to entry.
//!
//! No clauses: the serials are only printed.

use crate::fault::Fault;
use crate::zone::{Zone, empty_zone};
use durable_updates::{RedoError, recall, redo};
use hickory_base::zone_store::ZoneHandler;
use hickory_wire::{Name, Record, RecordType};
use journal_entries::{Entry, may_stand};
use std::alloc::{AllocError, Global};

/// The serials of a zone before an update and behind it.
#[derive(Clone, Copy, Debug, PartialEq, Eq)]
pub struct Serials {
    /// The one that it had.
    pub before: u32,
    /// The one that it has.
    pub behind: u32,
}

/// The zone that the entries of a journal make, from the snapshot that it begins with up to the first entry that cannot
/// be done again.
#[derive(Drop)]
pub struct Followed {
    /// The apex that the snapshot tells of.
    apex: Option<Name>,
    /// The zone, from the end of the snapshot on.
    zone: Option<Zone>,
}

/// Whether entries were done again. Want of memory says nothing of them.
fn are_done(done: Result<(), RedoError>) -> Result<bool, Fault> {
    match done {
        Ok(()) => Ok(true),
        Err(RedoError::Damaged) => Ok(false),
        Err(RedoError::Memory) => Err(Fault::Memory),
    }
}

impl Followed {
    /// The zone of before the first entry, of which nothing is known.
    pub fn new() -> Followed {
        Followed {
            apex: None,
            zone: None,
        }
    }

    /// Notes the apex of the snapshot: the owner of its first SOA record.
    fn note(&mut self, record: &Record) -> Result<(), AllocError> {
        if self.apex.is_none() && record.rdata.record_type() == RecordType::SOA {
            self.apex = Some(record.name.clone()?);
        }
        Ok(())
    }

    /// Begins with the zone of the snapshot that these entries are, if they make one.
    fn begin(&mut self, alloc: Global, snapshot: &[Vec<u8>]) -> Result<(), Fault> {
        let Some(apex) = &self.apex else {
            return Ok(());
        };
        let mut zone = empty_zone(alloc, apex)?;
        if are_done(recall(&mut zone, alloc, snapshot))? {
            self.zone = Some(zone);
        }
        Ok(())
    }

    /// Does an update again, the last of these entries. Where it cannot be done, the zone is known no more.
    fn update(
        &mut self,
        alloc: Global,
        entry: &Entry,
        entries: &[Vec<u8>],
    ) -> Result<Option<Serials>, Fault> {
        let Some(mut zone) = self.zone.take() else {
            return Ok(None);
        };
        if !may_stand(entry, Some(zone.origin())) {
            return Ok(None);
        }
        let before = zone.in_memory().serial();
        let (_, last) = entries.split_at(entries.len().saturating_sub(1));
        if !are_done(redo(&mut zone, alloc, last))? {
            return Ok(None);
        }
        let behind = zone.in_memory().serial();
        self.zone = Some(zone);
        Ok(Some(Serials { before, behind }))
    }

    /// Goes on to an entry, the last of these, which are those of the journal up to it. Of an update that was done
    /// again it gives the serials.
    pub fn step(
        &mut self,
        alloc: Global,
        entry: &Entry,
        entries: &[Vec<u8>],
    ) -> Result<Option<Serials>, Fault> {
        match entry {
            Entry::Generation(_) => {}
            Entry::Said(record) => self.note(record)?,
            Entry::SnapshotEnd => self.begin(alloc, entries)?,
            Entry::Update(_) => return self.update(alloc, entry, entries),
            Entry::Other => self.zone = None,
        }
        Ok(None)
    }
}
