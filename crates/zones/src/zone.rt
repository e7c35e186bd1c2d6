//! A zone, what keeps it, and what is known of it.

ghost use Rattle.std.specs.Prelude.{◌≡◌, ◌⊎◌, ◌↔◌, IfErr, IfSome, IsTrue, OnErr, OnOk, [], false, is_some, not, option_copied, true};
ghost use Rattle.hickory_base.specs.zone_store.ZoneAnswers.{soa_serial, zone_soa};
ghost use Rattle.durable_updates.specs.Holding.{AreFilesOf};
ghost use Rattle.durable_updates.specs.OpenErrors.{is_no_journal};
ghost use Rattle.durable_updates.specs.Recorded.{IsDurable, IsHandedBack, IsRefused};
ghost use Rattle.zone_answers.specs.Zones.{AreOwners};
ghost use Rattle.sqlite_disk.specs.Disk.{Only};
ghost use Rattle.zones.specs.Journals.{IsOpened};
ghost use Rattle.zones.specs.KeptZones.{kept_zone};
ghost use Rattle.zones.specs.ZoneStates.{zone_state};

use crate::kept::{Kept, LEAST_RECORDS};
use crate::overview::Overview;
use core::mem::replace_with;
use durable_updates::{CompactError, OpenError};
use hickory_store::updates::{UpdatableZoneHandler, Verifier};
use journal::Journal;
use journal::host_file::OwnedDisk;
use sqlite_disk::Disk;
use std::alloc::Global;
use std::marker::Model;
use update_policy::Policy;
use zone_differences::History;

/// A zone, which answers standard queries as RFC 1034 section 4.3.2 says, and takes the updates that its rules grant.
///
/// An update is made if the verifier of the zone finds its signature good, and the rules grant each of its changes to
/// the key of the signature. Any other update is refused whole: with NOTAUTH if its signature is not good; with NOTZONE
/// if an owner name is outside of the zone (RFC 2136 section 3.4.1.3); else with REFUSED (section 3.3). If the zone has
/// a journal, an update is on the disk before it is answered `Ok` (section 3.5). An update that the journal refuses is
/// answered by ServFail, and changes nothing; queries go on.
///
/// If a record of the zone has an owner name outside of it, the zone answers each query with ServFail.
///
/// A client that asks for what changed since its version (IXFR, RFC 1995) gets only the SOA record over UDP, and if its
/// version is no older than the zone's (section 2). Else it gets the differences since then (section 4), if the zone
/// has kept all of them, or the whole zone. A zone in memory keeps differences from when it was loaded; a zone with a
/// journal also those that the journal has after its snapshot.
#[derive(Drop)]
pub struct Zone<V: Verifier, D: Disk + Drop> {
    pub(crate) kept: Kept<V, D>,
    pub(crate) overview: Overview,
    pub(crate) history: History,
    pub(crate) policy: Policy,
}

impl<V: Verifier, D: Disk + Drop> Model for Zone<V, D> {
    ghost use Rattle.zones.specs.Overviews.{IsOverview};
    ghost use Rattle.zones.specs.KeptZones.{kept_zone};
    ghost use Rattle.zones.specs.ZoneStates.{ZoneState, zone_state};

    ghost Value = { ZoneState V };

    ghost view = { λ zone. zone_state (kept_zone zone.kept) zone.history zone.policy };

    ghost invariant = { λ zone. IsOverview (kept_zone zone.kept).updatable.zone zone.overview };
}

impl<V: Verifier, D: Disk + Drop> Zone<V, D> {
    /// The zone that is kept so, with this history and these rules. It takes time and memory by the zone's record sets.
    fn of(alloc: Global, kept: Kept<V, D>, history: History, policy: Policy) -> Zone<V, D>
        ensures { result ≡ zone_state (kept_zone kept) history policy }
    {
        let overview = Overview::of(alloc, kept.updatable().in_memory());
        Zone {
            kept,
            overview,
            history,
            policy,
        }
    }

    /// A zone without a journal, with the rules of who may update what: its updates last as long as it does. No earlier
    /// version of it is known. The differences that updates make are kept, up to as many records of transfers as the
    /// zone has record sets now (RFC 1995 section 5), and up to 200 of a smaller zone; the oldest are dropped first.
    ///
    /// It takes time by the zone's record sets, and memory for an index of them, by which queries are answered until an
    /// update changes the zone. If the memory is refused, they are answered without the index.
    pub fn new(alloc: Global, zone: UpdatableZoneHandler<V>, policy: Policy) -> Zone<V, D>
        ensures { result ≡ record {
          updatable = zone;
          is_journalled = false;
          holds = false;
          history = [];
          policy = policy;
        } }
    {
        let limit = History::limit_of(zone.in_memory(), LEAST_RECORDS);
        let history = History::new(alloc, limit);
        Zone::of(alloc, Kept::Memory(zone), history, policy)
    }

    /// Opens the journal that two files are in turns, as [`JournalledZone::open_followed`] does, and gives it to the
    /// zone in place of the one that the zone had, if any. The entries are done to the zone; if the journal was
    /// compacted, its snapshot replaces the records of the zone. The settings and the rules stay.
    ///
    /// The zone keeps the differences that the last requests of the journal made: of those after its snapshot, as many
    /// as a history has room for. The room is as in [`Zone::new`], counted in the zone that the first of these requests
    /// was done to. It takes memory for both files twice and for the zone, and writes at most one byte to each file,
    /// with one sync.
    ///
    /// # Errors
    ///
    /// After an error the zone is as it was, and the files are handed back. If one of them is no journal's, nothing was
    /// written to it.
    pub fn open(&mut self, alloc: Global, first: D, second: D) -> Result<(), (OpenError, D, D)>
        requires usable { IsTrue (D.is_usable first) × IsTrue (D.is_usable second) }
        // After a restart, what is read is what is on the disk.
        requires restarted { Only (D.seen first) (D.may_leave first) × Only (D.seen second) (D.may_leave second) }
        ensures opened { OnOk result (IsOpened D.Disk first second self.old self.new) }
        ensures kept { OnErr result (self.new ≡ self.old) }
        ensures err { IfErr result (λ e. IsHandedBack D.Disk first e.1 × IsHandedBack D.Disk second e.2) }
        ensures refused { IfErr result (λ e. IsTrue (is_no_journal e.0) → IsRefused D.Disk first e.1 ⊎
            IsRefused D.Disk second e.2) }
    {
        match replace_with(&mut self.kept, (alloc, first, second), Kept::opened) {
            Ok(history) => {
                self.overview = Overview::of(alloc, self.kept.updatable().in_memory());
                self.history = history;
                Ok(())
            }
            Err(e) => Err(e),
        }
    }

    /// Lets the zone take the updates that these rules grant, if this verifier finds their signatures good. The rules
    /// and the verifier that it had are gone.
    pub fn set_updates(&mut self, verifier: V, policy: Policy)
        ensures { self.new ≡ record self.old {
          updatable = record self.old.updatable { allow_update = true; verifier = verifier };
          policy = policy;
        } }
    {
        self.kept.set_updates(verifier);
        self.policy = policy;
    }

    /// Takes the rules away, so the zone takes no updates from then on: each is refused as the zone's rules do not grant
    /// it. The journal, if there is one, takes no entries and is not compacted. Queries go on.
    pub fn stop_updates(&mut self, alloc: Global)
        ensures { self.new ≡ record self.old { policy = [] } }
    {
        self.kept.shut();
        self.policy = Policy::new(alloc);
    }

    /// The rules of who may update what. Without a rule the zone takes no updates.
    pub fn policy(&self) -> &Policy
        ensures { result.now ≡ self.now.policy }
    {
        &self.policy
    }

    /// Whether each owner name may own records of the zone. If not, queries are answered with ServFail.
    pub fn is_owned(&self) -> bool
        ensures { IsTrue result ↔ AreOwners self.now.updatable.zone.origin self.now.updatable.zone.sets }
    {
        self.overview.is_owned
    }

    /// The zone in memory, which takes the updates.
    pub fn updatable(&self) -> &UpdatableZoneHandler<V>
        ensures { result.now ≡ self.now.updatable }
    {
        self.kept.updatable()
    }

    /// The serial of the zone (RFC 1035 section 3.3.13).
    pub fn serial(&self) -> u32
        ensures { result ≡ soa_serial (zone_soa self.now.updatable.zone) }
    {
        self.updatable().in_memory().serial()
    }

    /// Whether updates can get another answer than ServFail. After a write to its journal has failed, a zone takes no
    /// updates until the journal is opened again.
    pub fn takes_updates(&self) -> bool
        ensures { self.now.is_journalled ≡ false → result ≡ true }
    {
        match &self.kept {
            Kept::Memory(_) => true,
            Kept::Journal(zone) => zone.takes_updates(),
        }
    }

    /// Holds updates from now on until [`Zone::settle`], as [`HoldingZone::hold`] does. Until then the caller must send
    /// no answer of the zone. A zone without a journal, or with one that takes no entries, holds none. It takes no
    /// memory.
    pub fn hold(&mut self, alloc: Global)
        ensures held { self.new ≡ record self.old { holds = self.new.holds } }
        ensures kept { self.old.holds ≡ true → self.new.holds ≡ true }
    {
        let Kept::Journal(zone) = &mut self.kept else {
            return;
        };
        zone.hold(alloc)
    }

    /// Writes the updates that are held, all or none, with two syncs, as [`HoldingZone::settle`] does. Returns whether
    /// none is held any more. If it is false, none of them may be acknowledged, and the zone in memory is ahead of its
    /// journal, which must be opened again.
    pub fn settle(&mut self, alloc: Global) -> bool
        ensures { self.new ≡ record self.old { holds = not result } }
    {
        let Kept::Journal(zone) = &mut self.kept else {
            return true;
        };
        zone.settle(alloc)
    }

    /// Whether there is a journal that is to be compacted, as [`HoldingZone::needs_compaction`] says: never while
    /// updates are held. The cost does not depend on the size of the zone.
    pub fn needs_compaction(&self) -> bool
        ensures memory { self.now.is_journalled ≡ false → result ≡ false }
        ensures held { self.now.holds ≡ true → result ≡ false }
    {
        match &self.kept {
            Kept::Memory(_) => false,
            Kept::Journal(zone) => zone.needs_compaction(),
        }
    }

    /// Compacts the journal, as [`JournalledZone::compact`] does. Without a journal nothing happens. The zone and its
    /// differences stay, also after an error.
    pub fn compact(&mut self, alloc: Global) -> Result<(), CompactError>
        ensures { self.new ≡ self.old }
    {
        let Kept::Journal(zone) = &mut self.kept else {
            return Ok(());
        };
        zone.compact(alloc)
    }

    /// The zone in memory, and its journal, if it has one, as they are after whatever was asked of the zone. If no
    /// updates are held, all requests that were answered `Ok` are on the disk, and they make this zone of the one that
    /// was there before them.
    pub fn into_parts(self) -> (UpdatableZoneHandler<V>, Option<Journal<D>>)
        ensures zone { result.0 ≡ self.updatable }
        ensures journal { is_some result.1 ≡ self.is_journalled }
        ensures durable { IfSome result.1 (λ journal. self.holds ≡ false → IsDurable D.Disk result.0.zone journal) }
    {
        self.kept.into_parts()
    }
}

impl<V: Verifier, D: OwnedDisk + Drop> Zone<V, D> {
    /// The file that the journal of the zone is in, and the one that it may be compacted into, if the zone has a
    /// journal.
    pub fn files(&self) -> Option<(&D, Option<&D>)>
        ensures journal { is_some result ≡ self.now.is_journalled }
        ensures files { IfSome result (λ files. AreFilesOf D.Disk self.now.holds self.now.updatable.zone files.0.now
            (option_copied files.1)) }
    {
        self.kept.files()
    }

    /// All operations of the files of the journal are done, if the zone has one. The zone and its differences remain.
    pub fn operations_done(&mut self)
        ensures { self.new ≡ self.old }
    {
        self.kept.operations_done();
    }
}
