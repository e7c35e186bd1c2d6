//! What keeps the records of a zone: memory, or a journal too.

ghost use Rattle.std.specs.Prelude.{◌≡◌, ◌⊎◌, IfErr, IfOk, IfSome, IsTrue, OnErr, OnOk, false, is_some, option_copied, true};
ghost use Rattle.durable_updates.specs.DurableUpdates.{AnswersDurably, StaysUnwritten};
ghost use Rattle.durable_updates.specs.Holding.{AreFilesOf};
ghost use Rattle.durable_updates.specs.OpenErrors.{is_no_journal};
ghost use Rattle.durable_updates.specs.Recorded.{IsDurable, IsHandedBack, IsRefused};
ghost use Rattle.durable_updates.specs.Versions.{AreFollowed};
ghost use Rattle.sqlite_disk.specs.Disk.{Only};
ghost use Rattle.zones.specs.KeptZones.{kept_zone};

use durable_updates::{HoldingZone, JournalledZone, OpenError, UpdateAnswer};
use hickory_base::server::Request;
use hickory_base::zone_store::ZoneHandler;
use hickory_store::updates::{UpdatableZoneHandler, Verifier};
use journal::Journal;
use journal::host_file::OwnedDisk;
use sqlite_disk::Disk;
use std::alloc::Global;
use zone_differences::History;

/// Half of the number of records of transfers that the history of a small zone may have.
pub(crate) const LEAST_RECORDS: usize = 100;

/// What keeps the records of a zone.
#[derive(Drop)]
pub(crate) enum Kept<V: Verifier, D: Disk + Drop> {
    /// Only memory.
    Memory(UpdatableZoneHandler<V>),
    /// A journal too.
    Journal(HoldingZone<V, D>),
}

impl<V: Verifier, D: Disk + Drop> Kept<V, D> {
    /// The zone in memory, which takes the updates.
    pub(crate) fn updatable(&self) -> &UpdatableZoneHandler<V>
        ensures { result.now ≡ (kept_zone self.now).updatable }
    {
        match self {
            Kept::Memory(zone) => zone,
            Kept::Journal(zone) => zone.zone(),
        }
    }

    /// Opens the journal that two files are in turns, in place of the one that there was, if any, as
    /// [`JournalledZone::open_followed`] does. After an error all is as it was, and the files are handed back.
    pub(crate) fn opened(
        self,
        files: (Global, D, D),
    ) -> (Kept<V, D>, Result<History, (OpenError, D, D)>)
        requires usable { IsTrue (D.is_usable files.1) × IsTrue (D.is_usable files.2) }
        requires restarted { Only (D.seen files.1) (D.may_leave files.1) ×
            Only (D.seen files.2) (D.may_leave files.2) }
        ensures followed { IfOk result.1 (λ history. AreFollowed D.Disk files.1 files.2 (kept_zone self).updatable.zone
            history (kept_zone result.0).updatable.zone) }
        ensures others { OnOk result.1 (kept_zone result.0 ≡ record {
          updatable = record (kept_zone self).updatable { zone = (kept_zone result.0).updatable.zone };
          is_journalled = true;
          holds = false;
          takes_entries = (kept_zone result.0).takes_entries;
        }) }
        ensures kept { OnErr result.1 (result.0 ≡ self) }
        ensures err { IfErr result.1 (λ e. IsHandedBack D.Disk files.1 e.1 × IsHandedBack D.Disk files.2 e.2) }
        ensures refused { IfErr result.1 (λ e. IsTrue (is_no_journal e.0) → IsRefused D.Disk files.1 e.1 ⊎
            IsRefused D.Disk files.2 e.2) }
    {
        let (alloc, first, second) = files;
        match self {
            Kept::Memory(zone) => {
                match JournalledZone::open_followed(alloc, zone, first, second, LEAST_RECORDS) {
                    Ok((zone, history)) => (Kept::Journal(HoldingZone::new(zone)), Ok(history)),
                    Err((error, zone, first, second)) => {
                        (Kept::Memory(zone), Err((error, first, second)))
                    }
                }
            }
            Kept::Journal(zone) => {
                let (zone, opened) = zone.reopened(alloc, first, second, LEAST_RECORDS);
                (Kept::Journal(zone), opened)
            }
        }
    }

    /// Lets the zone take updates whose signatures this verifier finds good.
    pub(crate) fn set_updates(&mut self, verifier: V)
        ensures { kept_zone self.new ≡ record (kept_zone self.old) {
          updatable = record (kept_zone self.old).updatable { allow_update = true; verifier = verifier };
        } }
    {
        match self {
            Kept::Memory(zone) => {
                zone.set_allow_update(true);
                zone.set_verifier(verifier);
            }
            Kept::Journal(zone) => zone.set_updates(verifier),
        }
    }

    /// Shuts the journal, if there is one: it takes no entries from then on.
    pub(crate) fn shut(&mut self)
        ensures { kept_zone self.new ≡ record (kept_zone self.old) { takes_entries = false } }
    {
        match self {
            Kept::Memory(_) => {}
            Kept::Journal(zone) => zone.shut(),
        }
    }

    /// Makes an update. If there is a journal, the update is on the disk before the answer, or it is held.
    pub(crate) fn update(&mut self, alloc: Global, request: &Request, now: u64) -> UpdateAnswer
        ensures answers { AnswersDurably (IsTrue (kept_zone self.old).is_journalled ×
            StaysUnwritten V.Verifier (kept_zone self.old).updatable (request.now, now)
            (kept_zone self.new).takes_entries) V.Verifier
            (kept_zone self.old).updatable (request.now, now) result (kept_zone self.new).updatable }
        ensures written { OnOk result.0 ((kept_zone self.old).is_journalled ≡ true →
            (kept_zone self.old).takes_entries ≡ true) }
        ensures shut { (kept_zone self.old).takes_entries ≡ false → (kept_zone self.new).takes_entries ≡ false }
        ensures others { kept_zone self.new ≡ record (kept_zone self.old) {
          updatable = (kept_zone self.new).updatable;
          takes_entries = (kept_zone self.new).takes_entries;
        } }
        ensures kept { OnErr result.0 ((kept_zone self.new).updatable ≡ (kept_zone self.old).updatable) }
    {
        match self {
            Kept::Memory(zone) => zone.update_by(alloc, request, now, true),
            Kept::Journal(zone) => zone.update(alloc, request, now),
        }
    }

    /// The zone in memory, and its journal, if it has one.
    pub(crate) fn into_parts(self) -> (UpdatableZoneHandler<V>, Option<Journal<D>>)
        ensures zone { result.0 ≡ (kept_zone self).updatable }
        ensures journal { is_some result.1 ≡ (kept_zone self).is_journalled }
        ensures durable { IfSome result.1 (λ journal. (kept_zone self).holds ≡ false →
            IsDurable D.Disk result.0.zone journal) }
    {
        match self {
            Kept::Memory(zone) => (zone, None),
            Kept::Journal(zone) => {
                let (zone, journal) = zone.into_parts();
                (zone, Some(journal))
            }
        }
    }
}

impl<V: Verifier, D: OwnedDisk + Drop> Kept<V, D> {
    /// The file that the journal is in and the one that it may be compacted into, if there is a journal.
    pub(crate) fn files(&self) -> Option<(&D, Option<&D>)>
        ensures journal { is_some result ≡ (kept_zone self.now).is_journalled }
        ensures files { IfSome result (λ files. AreFilesOf D.Disk (kept_zone self.now).holds
            (kept_zone self.now).updatable.zone files.0.now (option_copied files.1)) }
    {
        match self {
            Kept::Memory(_) => None,
            Kept::Journal(zone) => Some(zone.files()),
        }
    }

    /// All operations of the files are done.
    pub(crate) fn operations_done(&mut self)
        ensures { kept_zone self.new ≡ kept_zone self.old }
    {
        match self {
            Kept::Memory(_) => {}
            Kept::Journal(zone) => zone.operations_done(),
        }
    }
}
