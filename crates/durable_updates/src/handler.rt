//! A zone whose updates are on the disk before they are answered.

ghost use Rattle.std.specs.Prelude.{◌≡◌, ◌⊎◌, IfErr, IfOk, IfSome, IsTrue};
ghost use Rattle.durable_updates.specs.Batches.{AnswersBatch};
ghost use Rattle.sqlite_disk.specs.Disk.{Only};
ghost use Rattle.durable_updates.specs.Recorded.{AreRecovered, IsDurable, IsHandedBack, IsNext, IsOpenedFrom, IsRecovered, IsRefused};
ghost use Rattle.durable_updates.specs.Recovering.{counting};
ghost use Rattle.durable_updates.specs.OpenErrors.{is_no_journal};
ghost use Rattle.durable_updates.specs.Snapshots.{Recalls};
ghost use Rattle.durable_updates.specs.Versions.{AreFollowed};
ghost use Rattle.hickory_base.specs.zone_store.ZoneAnswers.{MemoryZone};
ghost use Rattle.journal.specs.Read.{contents};
ghost use Rattle.journal.specs.Settled.{IsAtRest};

use crate::batches::{UpdateAnswer, copied_sets, update_all_durably};
use crate::compaction::{CompactError, Spare, compact_into};
use crate::following::recall_followed;
use crate::recovering::{TwoRecovered, recover_two};
use crate::redoing::{RedoError, redo};
use crate::snapshots::recall;
use hickory_base::server::Request;
use hickory_base::zone_store::{InMemoryZoneHandler, ZoneHandler};
use hickory_store::updates::{UpdatableZoneHandler, Verifier};
use journal::{Journal, RecoverError, recover};
use sqlite_disk::Disk;
use std::alloc::{AllocError, Global};
use std::marker::Model;
use thiserror::Error;
use zone_differences::History;

/// Why the journal of a zone was not opened.
#[derive(Debug, Drop, Error)]
pub enum OpenError {
    /// Its file was not recovered.
    #[error("{0}")]
    Journal(RecoverError),
    /// Its entries were not done again.
    #[error("{0}")]
    Entries(RedoError),
}

/// A copy of a zone in memory, which shares its records.
fn copied_zone<V: Verifier>(
    zone: &UpdatableZoneHandler<V>,
) -> Result<InMemoryZoneHandler, AllocError>
    ensures { IfOk result (λ copy. copy ≡ zone.now.zone) }
{
    let sets = copied_sets(zone)?;
    let zone = zone.in_memory();
    let origin = zone.origin().clone()?;
    Ok(InMemoryZoneHandler::new(origin, sets, zone.zone_type(), zone.axfr_policy()))
}

/// A zone that takes dynamic updates (RFC 2136) as `UpdatableZoneHandler` does by the RFCs. Each is in a journal on the
/// disk before it is answered `Ok`. If the journal refuses an update, the answer is ServFail, and the zone is as before.
///
/// A contract sees the zone alone. What it keeps with its journal is `IsDurable`, whatever is asked of it.
#[derive(Drop)]
pub struct JournalledZone<V: Verifier, D: Disk + Drop> {
    zone: UpdatableZoneHandler<V>,
    journal: Journal<D>,
    spare: Option<Spare<D>>,
}

impl<V: Verifier, D: Disk + Drop> Model for JournalledZone<V, D> {
    ghost use Rattle.hickory_store.specs.updates.UpdatableZone.{UpdatableZone};
    ghost use Rattle.std.specs.Prelude.{IfSome};
    ghost use Rattle.durable_updates.specs.Recorded.{IsDurable, IsNext};

    ghost Value = { UpdatableZone V };

    ghost view = { λ handler. handler.zone };

    ghost invariant = { λ handler. IsDurable D.Disk handler.zone.zone handler.journal ×
        IfSome handler.spare (λ s. IsNext D.Disk handler.journal s.journal s.generation) };
}

impl<V: Verifier, D: Disk + Drop> JournalledZone<V, D> {
    /// Opens the journal in a file, and does its entries again to `zone`, the zone that was there before the first of
    /// them. An empty file is a journal without entries. It takes memory for the file twice and for the zone, and
    /// writes at most one byte, with one sync.
    ///
    /// # Errors
    ///
    /// With an error the file is handed back. It stands for the same entries, and one that is no journal's is as it
    /// was.
    pub fn open(
        alloc: Global,
        zone: UpdatableZoneHandler<V>,
        disk: D,
    ) -> Result<JournalledZone<V, D>, (OpenError, D)>
        requires usable { IsTrue (D.is_usable disk) }
        // After a restart, what is read is what is on the disk.
        requires restarted { Only (D.seen disk) (D.may_leave disk) }
        ensures recovered { IfOk result (λ handler. IsRecovered D.Disk disk zone.zone handler.zone) }
        ensures others { IfOk result (λ handler. handler ≡ record zone { zone = handler.zone }) }
        ensures err { IfErr result (λ e. IsOpenedFrom D.Disk disk e.1) }
        ensures refused { IfErr result (λ e. IsTrue (is_no_journal e.0) → IsRefused D.Disk disk e.1) }
    {
        let mut zone = zone;
        let mut disk = disk;
        match recover(alloc, &mut disk) {
            Err(error) => Err((OpenError::Journal(error), disk)),
            Ok(found) => match redo(&mut zone, alloc, &found.entries) {
                Err(error) => Err((OpenError::Entries(error), disk)),
                Ok(()) => Ok(JournalledZone::new(zone, Journal::new(disk, found.end))),
            },
        }
    }

    /// Opens the journal that two files are in turns, of which the one with the higher generation counts (the first
    /// where they have one), and does its entries to `zone`, the zone that was there before the first of them; of a
    /// journal that was compacted the snapshot takes the place of its records. `compact` goes from the one file to the
    /// other. Two empty files are a journal without entries. It takes memory for both files twice and for the zone, and
    /// writes at most one byte to each, with one sync.
    ///
    /// # Errors
    ///
    /// With an error the files are handed back. They stand for the same entries, and where one is no journal's, that is
    /// as it was.
    pub fn open_two(
        alloc: Global,
        zone: UpdatableZoneHandler<V>,
        first: D,
        second: D,
    ) -> Result<JournalledZone<V, D>, (OpenError, D, D)>
        requires usable { IsTrue (D.is_usable first) × IsTrue (D.is_usable second) }
        // After a restart, what is read is what is on the disk.
        requires restarted { Only (D.seen first) (D.may_leave first) × Only (D.seen second) (D.may_leave second) }
        ensures recovered { IfOk result (λ handler. AreRecovered D.Disk first second zone.zone handler.zone) }
        ensures others { IfOk result (λ handler. handler ≡ record zone { zone = handler.zone }) }
        ensures err { IfErr result (λ e. IsHandedBack D.Disk first e.1 × IsHandedBack D.Disk second e.2) }
        ensures refused { IfErr result (λ e. IsTrue (is_no_journal e.0) → IsRefused D.Disk first e.1 ⊎
            IsRefused D.Disk second e.2) }
    {
        let mut zone = zone;
        let mut first = first;
        let mut second = second;
        match recover_two(alloc, &mut first, &mut second) {
            Err(error) => Err((OpenError::Journal(error), first, second)),
            Ok(found) => match recall(&mut zone, alloc, found.entries()) {
                Err(error) => Err((OpenError::Entries(error), first, second)),
                Ok(()) => Ok(JournalledZone::of_two(zone, first, second, &found)),
            },
        }
    }

    /// Opens the journal that two files are in turns as `open_two` does, and gives what the last of the requests have
    /// changed: of those behind the snapshot, and of so many last ones as a history has room for. That is of as many
    /// records of transfers as `History::limit_of` tells, of the zone that the first of the requests was done to and
    /// `least`, twice. It also takes memory for a copy of the zone's keys.
    ///
    /// # Errors
    ///
    /// After an error the zone is handed back as it was, and the files as `open_two` hands them back.
    pub fn open_followed(
        alloc: Global,
        zone: UpdatableZoneHandler<V>,
        first: D,
        second: D,
        least: usize,
    ) -> Result<(JournalledZone<V, D>, History), (OpenError, UpdatableZoneHandler<V>, D, D)>
        requires usable { IsTrue (D.is_usable first) × IsTrue (D.is_usable second) }
        // After a restart, what is read is what is on the disk.
        requires restarted { Only (D.seen first) (D.may_leave first) × Only (D.seen second) (D.may_leave second) }
        ensures followed { IfOk result (λ opened. AreFollowed D.Disk first second zone.zone opened.1 opened.0.zone) }
        ensures others { IfOk result (λ opened. opened.0 ≡ record zone { zone = opened.0.zone }) }
        ensures kept { IfErr result (λ e. e.1 ≡ zone) }
        ensures err { IfErr result (λ e. IsHandedBack D.Disk first e.2 × IsHandedBack D.Disk second e.3) }
        ensures refused { IfErr result (λ e. IsTrue (is_no_journal e.0) → IsRefused D.Disk first e.2 ⊎
            IsRefused D.Disk second e.3) }
    {
        let Ok(before) = copied_zone(&zone) else {
            return Err((OpenError::Entries(RedoError::Memory), zone, first, second));
        };
        let mut zone = zone;
        let mut first = first;
        let mut second = second;
        match recover_two(alloc, &mut first, &mut second) {
            Err(error) => Err((OpenError::Journal(error), zone, first, second)),
            Ok(found) => match recall_followed(&mut zone, alloc, found.entries(), least) {
                Err(error) => {
                    *zone.in_memory_mut() = before;
                    Err((OpenError::Entries(error), zone, first, second))
                }
                Ok(history) => Ok((JournalledZone::of_two(zone, first, second, &found), history)),
            },
        }
    }

    /// A handler of the zone that the entries which count of two files make, with these files.
    fn of_two(
        zone: UpdatableZoneHandler<V>,
        first: D,
        second: D,
        found: &TwoRecovered,
    ) -> JournalledZone<V, D>
        requires first { IsTrue (D.is_clean first) →
            IsAtRest D.seen D.may_leave first found.now.first.end (contents found.now.first.entries.items) }
        requires second { IsTrue (D.is_clean second) →
            IsAtRest D.seen D.may_leave second found.now.second.end (contents found.now.second.entries.items) }
        requires recalled { (base : MemoryZone) × Recalls (contents (counting found.now).items) base zone.zone }
        ensures { result ≡ zone }
    {
        let generation = found.next_generation();
        let first = Journal::new(first, found.first.end);
        let second = Journal::new(second, found.second.end);
        if found.is_second {
            JournalledZone::with_spare(zone, second, first, generation)
        } else {
            JournalledZone::with_spare(zone, first, second, generation)
        }
    }

    /// A handler of a zone with its journal and a spare file.
    fn with_spare(
        zone: UpdatableZoneHandler<V>,
        journal: Journal<D>,
        spare: Journal<D>,
        generation: u64,
    ) -> JournalledZone<V, D>
        requires durable { IsDurable D.Disk zone.zone journal }
        requires spare { IsNext D.Disk journal spare generation }
        ensures { result ≡ zone }
    {
        JournalledZone {
            zone,
            journal,
            spare: Some(Spare {
                journal: spare,
                generation,
            }),
        }
    }

    /// A handler of a zone with its journal: the zone is the one that the entries of the journal make of the first
    /// zone, as `redo` leaves it of what `recover` found.
    pub fn new(zone: UpdatableZoneHandler<V>, journal: Journal<D>) -> JournalledZone<V, D>
        requires { IsDurable D.Disk zone.zone journal }
        ensures { result ≡ zone }
    {
        JournalledZone {
            zone,
            journal,
            spare: None,
        }
    }

    /// The zone without its journal.
    pub fn zone(&self) -> &UpdatableZoneHandler<V>
        ensures { result.now ≡ self.now }
    {
        &self.zone
    }

    /// Whether the journal takes entries. Once it does not, every update is ServFail, until the zone is recovered from
    /// the file.
    pub fn takes_updates(&self) -> bool {
        self.journal.is_open()
    }

    /// Makes the updates that requests ask for, each at its moment in seconds since 1970, as `update_all_durably` does:
    /// judged one after another, on the disk together, all or none, and then answered, in their order. Where they could
    /// not be written, none is acknowledged, and the zone is as before.
    ///
    /// # Errors
    ///
    /// With an error memory was refused, and nothing happened.
    pub fn update_all(
        &mut self,
        alloc: Global,
        requests: &[(Request, u64)],
    ) -> Result<Vec<UpdateAnswer>, AllocError>
        ensures answers { IfOk result (λ told. AnswersBatch (λ _. Unit {0}) V.Verifier requests.now told.items self.old
            self.new) }
        ensures memory { IfErr result (λ _. self.new ≡ self.old) }
    {
        update_all_durably(&mut self.zone, &mut self.journal, alloc, requests)
    }

    /// How long the journal is, in bytes.
    pub fn journal_len(&self) -> usize {
        self.journal.end()
    }

    /// Compacts the journal: writes the zone as it is now to the second file, with the next generation, which then is
    /// the journal's file; what was it is the second one. It takes memory for the zone four times, and two or three
    /// syncs.
    ///
    /// A crash at any moment leaves the old file or the new one to count, whole.
    ///
    /// # Errors
    ///
    /// After an error the journal is in its file as before, and
    /// takes updates as before; but after `Journal(Disk)` it takes no update any more, until it is opened again.
    pub fn compact(&mut self, alloc: Global) -> Result<(), CompactError>
        ensures { self.new ≡ self.old }
    {
        compact_into(&self.zone, &mut self.journal, &mut self.spare, alloc)
    }

    /// Compacts a journal that is longer than so many bytes, and tells whether it was.
    pub fn compact_beyond(&mut self, alloc: Global, len: usize) -> Result<bool, CompactError>
        ensures { self.new ≡ self.old }
    {
        if self.journal.end() <= len {
            return Ok(false);
        }
        self.compact(alloc)?;
        Ok(true)
    }

    /// The zone, its journal, and the spare file, if there is one.
    pub(crate) fn into_whole(self) -> (UpdatableZoneHandler<V>, Journal<D>, Option<Spare<D>>)
        ensures zone { result.0 ≡ self }
        ensures durable { IsDurable D.Disk result.0.zone result.1 }
        ensures spare { IfSome result.2 (λ s. IsNext D.Disk result.1 s.journal s.generation) }
    {
        let JournalledZone {
            zone,
            journal,
            spare,
        } = self;
        (zone, journal, spare)
    }

    /// The zone and its journal, as they are after whatever was asked of the handler.
    pub fn into_parts(self) -> (UpdatableZoneHandler<V>, Journal<D>)
        ensures zone { result.0 ≡ self }
        ensures durable { IsDurable D.Disk result.0.zone result.1 }
    {
        let (zone, journal, _) = self.into_whole();
        (zone, journal)
    }
}
