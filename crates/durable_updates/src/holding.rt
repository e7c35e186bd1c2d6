//! A zone with a journal that may hold updates, to have them written together.

ghost use Rattle.std.specs.Prelude.{◌≡◌, ◌||◌, ◌*◌, ◌-◌, ◌^◌, ◌++◌, ◌∷◌, [], IfErr, IfOk, IsTrue, OnErr, OnOk, false, max, min, not, option_copied, true, ◌⊎◌};
ghost use Rattle.journal.specs.Read.{contents};
ghost use Rattle.durable_updates.specs.Batches.{AnswersRead, bytes_of, if_accepted};
ghost use Rattle.durable_updates.specs.DurableUpdates.{AnswersDurably, StaysUnwritten};
ghost use Rattle.durable_updates.specs.Holding.{AreFilesOf};
ghost use Rattle.durable_updates.specs.OpenErrors.{is_no_journal};
ghost use Rattle.durable_updates.specs.Recorded.{IsDurable, IsHandedBack, IsRefused};
ghost use Rattle.durable_updates.specs.Versions.{AreFollowed};
ghost use Rattle.sqlite_disk.specs.Disk.{Only};

use crate::batches::{UpdateAnswer, write_held};
use crate::compaction::{CompactError, Spare, compact_into, spare_done};
use crate::handler::{JournalledZone, OpenError};
use crate::updating::update_durably;
use hickory_base::errors::UpdateFault;
use hickory_base::server::Request;
use hickory_store::updates::{UpdatableZoneHandler, Verifier};
use hickory_wire::ResponseCode;
use journal::Journal;
use journal::host_file::OwnedDisk;
use sqlite_disk::Disk;
use std::alloc::{AllocError, Global};
use std::marker::Model;
use zone_differences::History;

/// How many bytes a journal has for each record set of its zone before it is long: some three times what a snapshot of
/// sets of one short record takes. So a journal is about as long as its zone and twice that of updates, which is what
/// BIND's `max-journal-size` allows beside a zone.
const BYTES_PER_SET: usize = 256;

/// For how many record sets a journal has room at least, so that a small zone is not written again behind each few
/// updates.
const LEAST_SETS: usize = 1000;

/// How long a journal may be, in bytes, before it is to be compacted: 256 bytes for each record set of its zone, and
/// for 1,000 sets at least.
pub fn longest_journal(sets: usize) -> usize
    ensures { result ≡ min (max sets 1000 * 256) (2 ^ 64 - 1) }
{
    sets.max(LEAST_SETS).saturating_mul(BYTES_PER_SET)
}

/// Puts the bytes of a request last among entries.
fn put_entry(alloc: Global, request: &Request, entries: &mut Vec<Vec<u8>>) -> Result<(), AllocError>
    ensures put { OnOk result (contents entries.new.items ≡ contents entries.old.items ++ request.now.bytes ∷ []) }
    ensures kept { OnErr result (contents entries.new.items ≡ contents entries.old.items) }
{
    let entry = Vec::from_slice(alloc, request.as_slice())?;
    match entries.push(entry) {
        Ok(()) => Ok(()),
        Err(_) => Err(AllocError),
    }
}

/// Makes an update in memory, as `UpdatableZoneHandler::update_by` does by the RFCs. If it is made, the bytes of its
/// request are put last among the entries that are to be written. One whose message was not read from its bytes is
/// ServFail, and changes nothing. Nobody is to be answered before these are written, by `write_held`.
pub fn update_held<V: Verifier>(
    zone: &mut UpdatableZoneHandler<V>,
    alloc: Global,
    request: &Request,
    now: u64,
    entries: &mut Vec<Vec<u8>>,
) -> UpdateAnswer
    ensures answers { AnswersRead V.Verifier zone.old (request.now, now) result zone.new }
    ensures entries { contents entries.new.items ≡ contents entries.old.items ++ bytes_of
        (if_accepted result.0 request.now []) }
{
    if !request.was_read() {
        return (Err(UpdateFault::Code(ResponseCode::SERV_FAIL)), None);
    }
    if put_entry(alloc, request, entries).is_err() {
        return (Err(UpdateFault::Memory), None);
    }
    let (answer, context) = zone.update_by(alloc, request, now, true);
    if answer.is_err() {
        entries.pop();
    }
    (answer, context)
}

/// A zone that takes dynamic updates (RFC 2136) and has a journal, as [`JournalledZone`] has, and may hold updates:
/// from `hold` on they are judged and made in memory, one after the other, and `settle` writes all together, with two
/// syncs. Whoever holds updates gives no answer before they are settled, not to a query either: until then the zone in
/// memory is ahead of the one on the disk.
///
/// A contract sees the zone in memory, whether it holds updates, and whether the journal takes entries. What the zone
/// keeps with its journal is `IsDurable` if it holds none, whatever is asked of it.
#[derive(Drop)]
pub struct HoldingZone<V: Verifier, D: Disk + Drop> {
    zone: UpdatableZoneHandler<V>,
    journal: Journal<D>,
    spare: Option<Spare<D>>,
    held: Option<Vec<Vec<u8>>>,
    /// How long the journal was behind the last compaction since it was opened, or try of one; 0 before the first.
    last: usize,
}

impl<V: Verifier, D: Disk + Drop> Model for HoldingZone<V, D> {
    ghost use Rattle.std.specs.Prelude.{IfSome, option_map};
    ghost use Rattle.std.specs.Option.{is_some};
    ghost use Rattle.journal.specs.Read.{contents};
    ghost use Rattle.durable_updates.specs.Holding.{IsKeptBut, ZoneInMemory};
    ghost use Rattle.durable_updates.specs.Recorded.{IsNext};

    ghost Value = { ZoneInMemory V };

    ghost view = { λ handler. record {
      updatable = handler.zone;
      holds = is_some handler.held;
      takes_entries = handler.journal.is_open;
    } };

    ghost invariant = { λ handler. IsKeptBut D.Disk handler.zone.zone handler.journal
        (option_map (λ entries. contents entries.items) handler.held) ×
        IfSome handler.spare (λ s. IsNext D.Disk handler.journal s.journal s.generation) };
}

impl<V: Verifier, D: Disk + Drop> HoldingZone<V, D> {
    /// A zone that holds no updates.
    pub fn new(zone: JournalledZone<V, D>) -> HoldingZone<V, D>
        ensures { result ≡ record { updatable = zone; holds = false; takes_entries = result.takes_entries } }
    {
        let (zone, journal, spare) = zone.into_whole();
        HoldingZone {
            zone,
            journal,
            spare,
            held: None,
            last: 0,
        }
    }

    /// Opens the journal in two files as [`JournalledZone::open_followed`] does, in place of the one that the zone had.
    /// Gives the zone with this journal, which holds no updates, and what its last requests have changed.
    ///
    /// # Errors
    ///
    /// After an error the zone is as it was, with the journal that it had, and the files are handed back.
    pub fn reopened(
        self,
        alloc: Global,
        first: D,
        second: D,
        least: usize,
    ) -> (HoldingZone<V, D>, Result<History, (OpenError, D, D)>)
        requires usable { IsTrue (D.is_usable first) × IsTrue (D.is_usable second) }
        // After a restart, what is read is what is on the disk.
        requires restarted { Only (D.seen first) (D.may_leave first) × Only (D.seen second) (D.may_leave second) }
        ensures followed { IfOk result.1 (λ history. AreFollowed D.Disk first second self.updatable.zone history
            result.0.updatable.zone) }
        ensures others { OnOk result.1 (result.0 ≡ record {
          updatable = record self.updatable { zone = result.0.updatable.zone };
          holds = false;
          takes_entries = result.0.takes_entries;
        }) }
        ensures kept { OnErr result.1 (result.0 ≡ self) }
        ensures err { IfErr result.1 (λ e. IsHandedBack D.Disk first e.1 × IsHandedBack D.Disk second e.2) }
        ensures refused { IfErr result.1 (λ e. IsTrue (is_no_journal e.0) → IsRefused D.Disk first e.1 ⊎
            IsRefused D.Disk second e.2) }
    {
        let HoldingZone {
            zone,
            journal,
            spare,
            held,
            last,
        } = self;
        match JournalledZone::open_followed(alloc, zone, first, second, least) {
            Ok((zone, history)) => (HoldingZone::new(zone), Ok(history)),
            Err((error, zone, first, second)) => {
                let zone = HoldingZone {
                    zone,
                    journal,
                    spare,
                    held,
                    last,
                };
                (zone, Err((error, first, second)))
            }
        }
    }

    /// The zone in memory, without its journal.
    pub fn zone(&self) -> &UpdatableZoneHandler<V>
        ensures { result.now ≡ self.now.updatable }
    {
        &self.zone
    }

    /// Lets the zone take updates whose signatures this verifier finds good. Updates that are held stay.
    pub fn set_updates(&mut self, verifier: V)
        ensures { self.new ≡ record self.old {
          updatable = record self.old.updatable { allow_update = true; verifier = verifier };
        } }
    {
        self.zone.set_allow_update(true);
        self.zone.set_verifier(verifier);
    }

    /// Whether the journal takes entries. Once it does not, every update is ServFail, be it held or not, until the zone
    /// is recovered from the file.
    pub fn takes_updates(&self) -> bool
        ensures { result ≡ self.now.takes_entries }
    {
        self.journal.is_open()
    }

    /// Shuts the journal, which takes no entries from then on. The zone and the updates that are held stay.
    pub fn shut(&mut self)
        ensures { self.new ≡ record self.old { takes_entries = false } }
    {
        self.journal.shut();
    }

    /// Has updates held from now on, until they are settled. A journal that takes no entries has none held: each update
    /// is ServFail as ever. It takes no memory.
    pub fn hold(&mut self, alloc: Global)
        ensures { self.new ≡ record self.old { holds = self.old.holds || self.old.takes_entries } }
    {
        if self.held.is_none() && self.journal.is_open() {
            self.held = Some(Vec::new(alloc));
        }
    }

    /// Writes the updates that are held, all or none, with two syncs; none where there are none. Whether that is done:
    /// from then on none is held. Where it is not, they are held still, so that the zone in memory is ahead: it is to
    /// be recovered from its files, and none of these updates is to be acknowledged. A crash at any moment leaves all
    /// of them on the disk, or none.
    pub fn settle(&mut self, alloc: Global) -> bool
        ensures others { self.new ≡ record self.old { holds = not result; takes_entries = self.new.takes_entries } }
        ensures written { result ≡ true → self.new.takes_entries ≡ self.old.takes_entries }
        ensures shut { self.old.takes_entries ≡ false → self.new.takes_entries ≡ false }
    {
        let Some(entries) = &self.held else {
            return true;
        };
        if write_held(&mut self.journal, alloc, entries).is_err() {
            return false;
        }
        self.held = None;
        true
    }

    /// Makes an update. If updates are held, and the journal takes entries, it waits to be written; else it is on the
    /// disk before the answer, as `update_durably` says. An update that passes all checks and changes nothing is written
    /// too.
    pub fn update(&mut self, alloc: Global, request: &Request, now: u64) -> UpdateAnswer
        ensures answers { AnswersDurably (StaysUnwritten V.Verifier self.old.updatable (request.now, now)
            self.new.takes_entries) V.Verifier self.old.updatable (request.now, now) result self.new.updatable }
        ensures written { OnOk result.0 ((self.old.takes_entries ≡ true) × (self.new.takes_entries ≡ true)) }
        ensures shut { self.old.takes_entries ≡ false → self.new.takes_entries ≡ false }
        ensures kept { OnErr result.0 (self.new.updatable ≡ self.old.updatable) }
        ensures holds { self.new.holds ≡ self.old.holds }
    {
        match &mut self.held {
            None => update_durably(&mut self.zone, &mut self.journal, alloc, request, now),
            Some(_) if !self.journal.is_open() => {
                update_durably(&mut self.zone, &mut self.journal, alloc, request, now)
            }
            Some(entries) => update_held(&mut self.zone, alloc, request, now, entries),
        }
    }

    /// How long the journal may be before it is to be compacted again. A zone of long records has a long snapshot, and
    /// what could not be compacted is not tried again at once: so it may be twice as long as it was behind the last
    /// compaction, or try of one, too.
    fn longest(&self) -> usize {
        let sets = self.zone.in_memory().records().len();
        longest_journal(sets).max(self.last.saturating_mul(2))
    }

    /// Whether the journal is to be compacted: where it never was, so that the zone of before its first entry still
    /// counts; or where it is longer than [`longest_journal`] says of the zone, and more than twice as long as behind
    /// the last compaction since it was opened, or try of one. It is not where updates are held, where the journal
    /// takes no entries, or where it has one file. It costs nothing by the size of the zone.
    pub fn needs_compaction(&self) -> bool
        ensures held { self.now.holds ≡ true → result ≡ false }
    {
        match &self.spare {
            Some(spare) if self.held.is_none() && self.journal.is_open() => {
                spare.generation < 2 || self.journal.end() > self.longest()
            }
            _ => false,
        }
    }

    /// Compacts the journal, as [`JournalledZone::compact`] does. If updates are held, that is the error `Held`, and
    /// nothing is written. If the journal takes no entries, nothing is written either.
    pub fn compact(&mut self, alloc: Global) -> Result<(), CompactError>
        ensures others { self.new ≡ record self.old { takes_entries = self.new.takes_entries } }
        ensures held { self.old.holds ≡ true → (result ≡ Err CompactError.Held) × (self.new ≡ self.old) }
        ensures ok { OnOk result ((self.old.takes_entries ≡ true) × (self.new.takes_entries ≡ true)) }
        ensures shut { self.old.takes_entries ≡ false → self.new.takes_entries ≡ false }
    {
        if self.held.is_some() {
            return Err(CompactError::Held);
        }
        let compacted = compact_into(&self.zone, &mut self.journal, &mut self.spare, alloc);
        self.last = self.journal.end();
        compacted
    }

    /// The zone in memory and its journal, as they are after whatever was asked of the handler: where no updates are
    /// held, the journal keeps the zone.
    pub fn into_parts(self) -> (UpdatableZoneHandler<V>, Journal<D>)
        ensures zone { result.0 ≡ self.updatable }
        ensures durable { self.holds ≡ false → IsDurable D.Disk result.0.zone result.1 }
    {
        let HoldingZone {
            zone,
            journal,
            spare: _,
            held: _,
            last: _,
        } = self;
        (zone, journal)
    }
}

impl<V: Verifier, D: OwnedDisk + Drop> HoldingZone<V, D> {
    /// The file that the journal is in, and the one that it may be compacted into, if there is one.
    pub fn files(&self) -> (&D, Option<&D>)
        ensures { AreFilesOf D.Disk self.now.holds self.now.updatable.zone result.0.now (option_copied result.1) }
    {
        match &self.spare {
            Some(spare) => (self.journal.disk(), Some(spare.journal.disk())),
            None => (self.journal.disk(), None),
        }
    }

    /// All operations of both files are done: none is owed. The zone and the updates that are held stay.
    pub fn operations_done(&mut self)
        ensures { self.new ≡ self.old }
    {
        self.journal.operations_done();
        spare_done(&mut self.spare);
    }
}
