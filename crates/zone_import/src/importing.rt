//! A zone with its journal, turned into another zone.

ghost use Rattle.std.specs.Prelude.{◌≡◌, ◌⊎◌, ℕ, List, Err, IfErr, IfOk, OnErr, OnOk, false, length, true};
ghost use Rattle.hickory_base.specs.zone_store.ZoneAnswers.{MemoryZone};
ghost use Rattle.journal.specs.Read.{contents};
ghost use Rattle.durable_updates.specs.Redone.{Redone};
ghost use Rattle.zone_import.specs.Imports.{AreSame, Keeps, LeavesEither, is_above, serial_of};
ghost use Rattle.zone_import.specs.declared.error.ImportError.TheVariants as import_error;

use crate::changes::Changes;
use crate::copies::copy_of;
use crate::error::{ImportError, RequestFault};
use crate::requests::{NewSoa, requests_of, zone_section};
use crate::sameness::is_same_zone;
use crate::serials::{apex_soa, is_same_but_serial};
use durable_updates::redo;
use hickory_base::zone_store::serials::is_greater;
use hickory_base::zone_store::{InMemoryZoneHandler, ZoneHandler};
use hickory_server::server::NoKeys;
use hickory_store::updates::{UpdatableZoneHandler, Verifier};
use journal::Journal;
use sqlite_disk::Disk;
use std::alloc::Global;

/// What was done to turn a zone into another one.
#[derive(Clone, Copy, Debug, PartialEq, Eq)]
pub struct Imported {
    /// How many records were deleted.
    pub deleted: usize,
    /// How many records were added, or have another TTL.
    pub added: usize,
    /// The serial of the zone before.
    pub old_serial: u32,
    /// The serial of the zone from now on.
    pub new_serial: u32,
    /// How many requests that took: none where the zones are the same.
    pub requests: usize,
}

/// What is to be done.
#[derive(Drop)]
struct Plan {
    entries: Vec<Vec<u8>>,
    deleted: usize,
    added: usize,
}

/// What turns a zone into another one that is not the same and whose serial is above its own.
// No clause: `reached` sees whether the requests make the other zone.
fn plan_of(
    alloc: Global,
    zone: &InMemoryZoneHandler,
    other: &InMemoryZoneHandler,
) -> Result<Plan, RequestFault> {
    let (Some(old_soa), Some(soa)) = (apex_soa(zone)?, apex_soa(other)?) else {
        return Err(RequestFault::Unreached);
    };
    let changes = Changes::between(alloc, zone.records(), other.records())?;
    let Changes { deleted, added, .. } = changes;
    let section = zone_section(alloc, zone.origin())?;
    let soa = NewSoa {
        record: soa,
        serial: other.serial(),
        is_changed: !is_same_but_serial(alloc, soa, old_soa)?,
    };
    let updates = changes.into_updates()?;
    let entries = requests_of(alloc, &section, &updates, &soa, zone.serial())?;
    Ok(Plan {
        entries,
        deleted,
        added,
    })
}

/// What turns a zone into another one: nothing where they are the same.
fn planned(
    alloc: Global,
    zone: &InMemoryZoneHandler,
    other: &InMemoryZoneHandler,
) -> Result<Plan, ImportError>
    ensures serial { result ≡ Err import_error.Serial → is_above other.now zone.now ≡ false }
    ensures above { IfOk result (λ plan. (length plan.entries.items ≡ 0) ⊎ (is_above other.now zone.now ≡ true)) }
{
    if is_same_zone(alloc, zone, other)? {
        return Ok(Plan {
            entries: Vec::new(alloc),
            deleted: 0,
            added: 0,
        });
    }
    if !is_greater(other.serial(), zone.serial()) {
        return Err(ImportError::Serial);
    }
    Ok(plan_of(alloc, zone, other)?)
}

/// The zone that entries make of this one, where it is the same as the other.
fn reached(
    alloc: Global,
    zone: &InMemoryZoneHandler,
    entries: &[Vec<u8>],
    other: &InMemoryZoneHandler,
) -> Result<UpdatableZoneHandler<NoKeys>, RequestFault>
    ensures redone { IfOk result (λ ahead. Redone (contents entries.now) zone.now ahead.zone) }
    ensures same { IfOk result (λ ahead. AreSame ahead.zone other.now) }
{
    let mut ahead = copy_of(zone)?;
    redo(&mut ahead, alloc, entries)?;
    if is_same_zone(alloc, ahead.in_memory(), other)? {
        Ok(ahead)
    } else {
        Err(RequestFault::Unreached)
    }
}

/// Turns a zone with its journal into another zone of its apex, as that of a zone file that was edited: what goes is
/// deleted, and what comes is added, by requests for updates (RFC 2136 section 2.5) of at most 65,535 octets each,
/// which are added to the journal as one batch. Where the zones are the same, the journal is left alone.
///
/// The requests are done to a copy first, as who recovers the journal does them, and only where that is then the same
/// as the other zone they are written. The other's serial has to be above that of the zone (RFC 1982 section 3.2). Of a
/// serial that fewer updates reach the SOA record goes once round all serials.
///
/// A crash at any moment leaves a file of the journal that stands for the zone as it was, or for the other one. After
/// an error the zone is as it was, and so is the journal; but after `Journal(Disk)` it takes no update any more, until
/// it is recovered from its file.
///
/// It takes memory for the names of both zones and for what changes, and time by the records of both, and by the square
/// of those that change at one name.
pub fn import<V: Verifier, D: Disk>(
    zone: &mut UpdatableZoneHandler<V>,
    journal: &mut Journal<D>,
    alloc: Global,
    other: &InMemoryZoneHandler,
) -> Result<Imported, ImportError>
    ensures same { OnOk result (AreSame zone.new.zone other.now) }
    ensures kept { OnErr result (zone.new ≡ zone.old) }
    ensures others { zone.new ≡ record zone.old { zone = record zone.old.zone { sets = zone.new.zone.sets } } }
    ensures serials { IfOk result (λ done. (done.old_serial ≡ serial_of zone.old.zone) ×
        (done.new_serial ≡ serial_of other.now)) }
    ensures serial { result ≡ Err import_error.Serial → is_above other.now zone.old.zone ≡ false }
    ensures above { IfOk result (λ done. (done.requests ≡ 0) ⊎ (is_above other.now zone.old.zone ≡ true)) }
    // Entries that are on the disk, and make the zone of some first one, make the zone that it is then.
    ensures acknowledged { OnOk result ((first : MemoryZone) → Keeps D.Disk first zone.old.zone journal.old →
        Keeps D.Disk first zone.new.zone journal.new) }
    ensures refused { OnErr result ((journal.new ≡ journal.old) ⊎
        ((journal.old.is_open ≡ true) × (journal.new.is_open ≡ false))) }
    ensures clean { D.is_clean journal.new.disk ≡ D.is_clean journal.old.disk }
    // Whatever the answer, a crash leaves the zone as it was, or the other one.
    ensures crash { (first : MemoryZone) → Keeps D.Disk first zone.old.zone journal.old → (c : List ℕ) →
        D.may_leave journal.new.disk c → LeavesEither first zone.old.zone other.now c }
{
    let old_serial = zone.in_memory().serial();
    let plan = planned(alloc, zone.in_memory(), other)?;
    let mut ahead = reached(alloc, zone.in_memory(), &plan.entries, other)?;
    journal.append_all(alloc, &plan.entries)?;
    let sets = ahead.in_memory_mut().take_records(alloc);
    zone.in_memory_mut().replace_records(sets);
    Ok(Imported {
        deleted: plan.deleted,
        added: plan.added,
        old_serial,
        new_serial: other.serial(),
        requests: plan.entries.len(),
    })
}
