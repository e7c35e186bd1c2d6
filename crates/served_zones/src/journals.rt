//! Opening the journals of zones that are served.

ghost use Rattle.std.specs.Prelude.{◌≡◌, ◌⊎◌, ◌↔◌, IfOk, IsTrue, OnErr, OnOk};
ghost use Rattle.durable_updates.specs.OpenErrors.{is_no_journal};
ghost use Rattle.sqlite_disk.specs.Disk.{Only};
ghost use Rattle.served_zones.specs.JournalFaults.{says_no_journal};
ghost use Rattle.served_zones.specs.Journals.{HandlerIsStopped, HandlerOpens, HasRules, OpensJournal, StopsAtOpening, TakesUpdates};
ghost use Rattle.served_zones.specs.ZoneChanges.{IsFirst};
ghost use Rattle.zones.specs.Journals.{IsOpened, IsStopped};

use crate::handler::{Handler, Zones};
use durable_updates::{CompactError, OpenError, RedoError, SnapshotError};
use either::Either;
use hickory_store::updates::Verifier;
use hickory_wire::LowerName;
use journal::{JournalError, RecoverError};
use sqlite_disk::Disk;
use std::alloc::{AllocError, AllocFailed, Global};
use thiserror::Error;
use tsig::TsigVerifier;
use zones::Zone;

/// What was found as the journal of a zone was opened.
#[derive(Clone, Copy, Debug, PartialEq, Eq)]
pub struct Opened {
    /// The serial of the zone that was there before, that of its file.
    pub file: u32,
    /// The serial of the zone by its journal.
    pub journal: u32,
    /// Whether the journal takes updates. It does not if the disk failed, or had no room, when the journal was compacted.
    pub takes_updates: bool,
}

/// How the journal of a zone is, after what was asked of the zone.
#[derive(Clone, Copy, Debug, PartialEq, Eq)]
pub enum JournalState {
    /// It takes updates, or the zone has none.
    Open,
    /// It takes no updates any more, as after a write that failed. Each update is answered by ServFail until the journal
    /// is opened again.
    Shut,
    /// It was to be compacted, and could not be: an allocation failed, or the zone does not read back. It takes updates,
    /// and is compacted once it is twice as long.
    Long(JournalFault),
}

/// Why the journal of a zone is not opened, or not compacted.
#[derive(Clone, Copy, Debug, PartialEq, Eq, Error)]
pub enum JournalFault {
    /// There is no zone of this name that has rules.
    #[error("no zone of this name takes updates")]
    NoUpdates,
    /// One of its files is not a journal, and is left as it is.
    #[error("not a journal")]
    NotAJournal,
    /// The disk failed when its files were read or recovered.
    #[error("the disk failed")]
    Disk,
    /// One of its entries is not an update of the zone.
    #[error("an entry is not an update of this zone")]
    Damaged,
    /// The zone does not read back as it is, so it cannot be kept.
    #[error("a snapshot does not read back as the zone")]
    NoSnapshot,
    /// An allocation failed.
    #[error("no memory")]
    Memory,
}

impl From<AllocError> for JournalFault {
    fn from(_e: AllocError) -> JournalFault {
        JournalFault::Memory
    }
}

impl<T: Drop> From<AllocFailed<T>> for JournalFault {
    fn from(_e: AllocFailed<T>) -> JournalFault {
        JournalFault::Memory
    }
}

/// The fault of a journal that is not opened.
fn fault_of(error: &OpenError) -> JournalFault
    ensures { says_no_journal result ≡ is_no_journal error.now }
{
    match error {
        OpenError::Journal(RecoverError::Memory) | OpenError::Entries(RedoError::Memory) => {
            JournalFault::Memory
        }
        OpenError::Journal(RecoverError::NotAJournal) => JournalFault::NotAJournal,
        OpenError::Journal(RecoverError::Disk(_)) => JournalFault::Disk,
        OpenError::Entries(RedoError::Damaged) => JournalFault::Damaged,
    }
}

/// How the journal of a zone is.
fn state_of<V: Verifier, D: Disk + Drop>(zone: &Zone<V, D>) -> JournalState {
    if zone.takes_updates() {
        JournalState::Open
    } else {
        JournalState::Shut
    }
}

/// Compacts the journal of a zone, and returns how the journal is then. The zone and its differences remain.
fn compact<V: Verifier, D: Disk + Drop>(alloc: Global, zone: &mut Zone<V, D>) -> JournalState
    ensures { zone.new ≡ zone.old }
{
    match zone.compact(alloc) {
        Err(CompactError::Zone(SnapshotError::Memory)) => JournalState::Long(JournalFault::Memory),
        Err(CompactError::Journal(JournalError::Memory)) => {
            JournalState::Long(JournalFault::Memory)
        }
        Err(CompactError::Zone(SnapshotError::Unreadable)) => {
            JournalState::Long(JournalFault::NoSnapshot)
        }
        _ => state_of(zone),
    }
}

/// Compacts the journal of a zone if it is to be compacted, and returns whether it takes updates then. If the disk fails,
/// the zone remains as it is, and answers queries.
fn compacted<V: Verifier, D: Disk + Drop>(
    alloc: Global,
    zone: &mut Zone<V, D>,
) -> Result<bool, JournalFault>
    ensures { zone.new ≡ zone.old }
{
    if !zone.needs_compaction() {
        return Ok(zone.takes_updates());
    }
    match compact(alloc, zone) {
        JournalState::Long(fault) => Err(fault),
        state => Ok(state == JournalState::Open),
    }
}

/// Whether the first handler of a chain is a zone that has rules.
fn has_rules<D: Disk + Drop>(chain: &[Handler<D>]) -> bool
    ensures { IsTrue result ↔ HasRules chain.now }
{
    match chain {
        [Either::Left(zone), ..] => !zone.policy().is_empty(),
        _ => false,
    }
}

/// Opens the journal of a zone, and compacts it if it is to be. If that fails since an allocation failed, or since the
/// zone does not read back, the zone is as its journal says, and takes no updates. After any other error it is as it
/// was.
fn open_in_zone<D: Disk + Drop>(
    alloc: Global,
    zone: &mut Zone<TsigVerifier, D>,
    first: D,
    second: D,
) -> Result<Opened, JournalFault>
    requires usable { IsTrue (D.is_usable first) × IsTrue (D.is_usable second) }
    requires restarted { Only (D.seen first) (D.may_leave first) × Only (D.seen second) (D.may_leave second) }
    ensures opened { OnOk result (IsOpened D.Disk first second zone.old zone.new) }
    ensures err { OnErr result ((zone.new ≡ zone.old) ⊎ IsStopped D.Disk first second zone.old zone.new) }
{
    let file = zone.serial();
    if let Err((error, _, _)) = zone.open(alloc, first, second) {
        return Err(fault_of(&error));
    }
    match compacted(alloc, zone) {
        Ok(takes_updates) => Ok(Opened {
            file,
            journal: zone.serial(),
            takes_updates,
        }),
        Err(fault) => {
            zone.stop_updates(alloc);
            Err(fault)
        }
    }
}

/// Opens the journal of a handler, if that is a zone that has rules.
fn open_in_handler<D: Disk + Drop>(
    alloc: Global,
    handler: &mut Handler<D>,
    first: D,
    second: D,
) -> Result<Opened, JournalFault>
    requires usable { IsTrue (D.is_usable first) × IsTrue (D.is_usable second) }
    requires restarted { Only (D.seen first) (D.may_leave first) × Only (D.seen second) (D.may_leave second) }
    ensures opened { OnOk result (HandlerOpens D.Disk first second handler.old handler.new) }
    ensures err { OnErr result ((handler.new ≡ handler.old) ⊎
        HandlerIsStopped D.Disk first second handler.old handler.new) }
{
    match handler {
        Either::Left(zone) => {
            if zone.policy().is_empty() {
                return Err(JournalFault::NoUpdates);
            }
            open_in_zone(alloc, zone, first, second)
        }
        Either::Right(_) => Err(JournalFault::NoUpdates),
    }
}

/// Opens the journal of the first handler of a chain, if that is a zone that has rules.
fn open_in_chain<D: Disk + Drop>(
    alloc: Global,
    chain: &mut Vec<Handler<D>>,
    first: D,
    second: D,
) -> Result<Opened, JournalFault>
    requires usable { IsTrue (D.is_usable first) × IsTrue (D.is_usable second) }
    requires restarted { Only (D.seen first) (D.may_leave first) × Only (D.seen second) (D.may_leave second) }
    ensures opened { OnOk result (IsFirst (HandlerOpens D.Disk first second) chain.old.items chain.new.items) }
    ensures err { OnErr result ((chain.new.items ≡ chain.old.items) ⊎
        IsFirst (HandlerIsStopped D.Disk first second) chain.old.items chain.new.items) }
{
    if chain.is_empty() {
        return Err(JournalFault::NoUpdates);
    }
    open_in_handler(alloc, &mut chain[0], first, second)
}

/// Opens the journal of the zone of this apex in two files by turns, as [`Zone::open`] does. The zone must have rules.
/// From then on each update is on the disk before it is answered (RFC 2136 section 3.5).
///
/// The journal is compacted if it is to be, as `HoldingZone::needs_compaction` says: if it never was, and if it is long
/// for its zone. After the first compaction the file of the zone no longer counts. If the disk fails during the
/// compaction, `takes_updates` says so: the zone is served as its journal says, and each update is answered by ServFail.
///
/// The zone keeps the differences that the last updates of the journal made after its snapshot: up to as many records of
/// transfers as the zone of the snapshot has record sets (RFC 1995 section 5), and up to 200 of a smaller zone.
///
/// # Errors
///
/// If there is no zone of this apex that has rules, the error is `JournalFault::NoUpdates`. After an error nothing
/// changes, unless the journal is open, and was to be compacted, and an allocation failed or the zone does not read
/// back: then the zone is as its journal says, and takes no updates. If one of the files is not a journal, nothing is
/// written to it.
pub fn open_journal<D: Disk + Drop>(
    alloc: Global,
    zones: &mut Zones<D>,
    apex: &LowerName,
    first: D,
    second: D,
) -> Result<Opened, JournalFault>
    requires usable { IsTrue (D.is_usable first) × IsTrue (D.is_usable second) }
    // After a restart, what is read is what is on the disk.
    requires restarted { Only (D.seen first) (D.may_leave first) × Only (D.seen second) (D.may_leave second) }
    ensures opened { OnOk result (OpensJournal D.Disk first second apex.now zones.old.zones zones.new.zones) }
    ensures err { OnErr result ((zones.new.zones ≡ zones.old.zones) ⊎
        StopsAtOpening D.Disk first second apex.now zones.old.zones zones.new.zones) }
    ensures refused { ¬ (TakesUpdates zones.old.zones apex.now) → zones.new ≡ zones.old }
    ensures others { zones.new ≡ record zones.old { zones = zones.new.zones } }
{
    match zones.zone_mut(apex) {
        Some(chain) => open_in_chain(alloc, chain, first, second),
        None => Err(JournalFault::NoUpdates),
    }
}

/// Whether there is a zone of this apex that has rules, by which it takes updates.
pub fn has_updates<D: Disk + Drop>(zones: &Zones<D>, apex: &LowerName) -> Result<bool, AllocError>
    ensures { IfOk result (λ takes. IsTrue takes ↔ TakesUpdates zones.now.zones apex.now) }
{
    if !zones.contains(apex) {
        return Ok(false);
    }
    match zones.find(apex)? {
        Some(chain) => Ok(has_rules(chain)),
        None => Ok(false),
    }
}

/// Compacts the journal of a handler, if it has one that is to be compacted. Returns how the journal is then.
fn compact_handler<D: Disk + Drop>(alloc: Global, handler: &mut Handler<D>) -> JournalState
    ensures { handler.new ≡ handler.old }
{
    match handler {
        Either::Left(zone) => {
            if zone.needs_compaction() {
                compact(alloc, zone)
            } else {
                state_of(zone)
            }
        }
        Either::Right(_) => JournalState::Open,
    }
}

/// Compacts the journal of the first handler of a chain, if it is to be compacted. Returns how the journal is then.
fn compact_first<D: Disk + Drop>(alloc: Global, chain: &mut Vec<Handler<D>>) -> JournalState
    ensures { chain.new.items ≡ chain.old.items }
{
    if chain.is_empty() {
        return JournalState::Open;
    }
    compact_handler(alloc, &mut chain[0])
}

/// Compacts the journal of the zone of this apex, if it is to be compacted, as `HoldingZone::needs_compaction` says.
/// Returns how the journal is then. The zone and its differences remain, also if the journal could not be compacted.
pub fn compact_due<D: Disk + Drop>(
    alloc: Global,
    zones: &mut Zones<D>,
    apex: &LowerName,
) -> JournalState
    ensures { zones.new ≡ zones.old }
{
    match zones.zone_mut(apex) {
        Some(chain) => compact_first(alloc, chain),
        None => JournalState::Open,
    }
}
