//! Turning the zone of a journal into the one of a zone file.

ghost use Rattle.std.specs.Prelude.{◌≡◌, IfOk, IsNone, IsTrue, MatchOption, OnErr};
ghost use Rattle.zone_journal.specs.Zones.{AreSameButSerial, IsNumbered, IsTurned};

use crate::compaction::{fault_of_files, fault_of_opening};
use crate::fault::Fault;
use crate::zone::Zone;
use durable_updates::JournalledZone;
use hickory_base::zone_store::InMemoryZoneHandler;
use hickory_base::zone_store::serials::is_greater;
use hickory_server::store::file::RecordsError;
use journal::Journal;
use sqlite_disk::{Disk, Files};
use sqlite_std_file::{Unknown, open};
use std::alloc::Global;
use std::io;
use zone_import::{ImportError, Imported, import, is_same_zone, with_serial};

/// Why a zone is not turned into one of this serial, where it has another one.
// No clause: why it fails is only reported.
fn fault_of_import(error: &ImportError, zone: u32, other: u32) -> Fault {
    match error {
        ImportError::Serial => Fault::NotAbove { zone, other },
        ImportError::TooLong => Fault::RecordTooLong,
        ImportError::Unreached => Fault::Unreached,
        ImportError::Journal(_) => Fault::UpdatesNotWritten,
        ImportError::Memory => Fault::Memory,
    }
}

/// The zone with another serial.
fn numbered(
    alloc: Global,
    zone: &InMemoryZoneHandler,
    serial: u32,
) -> Result<InMemoryZoneHandler, ImportError>
    ensures { IfOk result (IsNumbered serial zone.now) }
{
    match with_serial(alloc, zone, serial) {
        Ok(zone) => Ok(zone),
        Err(RecordsError::Memory) => Err(ImportError::Memory),
        Err(_) => Err(ImportError::Unreached),
    }
}

/// Whether two zones are the same but for their serials.
fn is_same_but_serial(
    alloc: Global,
    zone: &InMemoryZoneHandler,
    other: &InMemoryZoneHandler,
) -> Result<bool, ImportError>
    ensures { IfOk result (λ same. IsTrue same → AreSameButSerial zone.now other.now) }
{
    let other = numbered(alloc, other, zone.serial())?;
    Ok(is_same_zone(alloc, zone, &other)?)
}

/// Turns the zone into the other one, with the serial of that or the next one of its own. Where no more than the serial
/// is another and it is not above, nothing is to be done.
fn turn<D: Disk>(
    alloc: Global,
    zone: &mut Zone,
    journal: &mut Journal<D>,
    other: &InMemoryZoneHandler,
    takes_next: bool,
) -> Result<Option<Imported>, ImportError>
    ensures turned { IfOk result (λ done. MatchOption done (AreSameButSerial zone.old.zone other.now)
        (λ _. IsTurned takes_next zone.old.zone other.now zone.new.zone)) }
    ensures same { IfOk result (λ done. IsNone done → zone.new ≡ zone.old) }
    ensures err { OnErr result (zone.new ≡ zone.old) }
{
    let serial = zone.in_memory().serial();
    let is_above = !takes_next && is_greater(other.serial(), serial);
    if !is_above && is_same_but_serial(alloc, zone.in_memory(), other)? {
        return Ok(None);
    }
    if takes_next {
        let other = numbered(alloc, other, serial.wrapping_add(1))?;
        return Ok(Some(import(zone, journal, alloc, &other)?));
    }
    Ok(Some(import(zone, journal, alloc, other)?))
}

/// Turns the zone of the journal in a file and the one beside it into the other one, and gives its serial of before and
/// what was done.
// No clause: no contract says which bytes a file has. `turn` says what becomes of the zone.
pub fn import_zone(
    rt: &HostRuntime,
    file: &str,
    empty: Zone,
    other: &InMemoryZoneHandler,
    takes_next: bool,
) -> Result<(u32, Option<Imported>), Fault> {
    let Files { db, log } = match open(rt, file, Unknown) {
        Ok(files) => files,
        Err(error) => return Err(fault_of_files(&error)),
    };
    let journalled = match JournalledZone::open_two(rt.alloc(), empty, db, log) {
        Ok(journalled) => journalled,
        Err((error, _, _)) => return Err(fault_of_opening(&error)),
    };
    let (mut zone, mut journal) = journalled.into_parts();
    if zone.in_memory().records().is_empty() {
        return Err(Fault::NotCompacted);
    }
    let serial = zone.in_memory().serial();
    match turn(rt.alloc(), &mut zone, &mut journal, other, takes_next) {
        Ok(done) => Ok((serial, done)),
        Err(error) => Err(fault_of_import(&error, serial, other.serial())),
    }
}

/// Prints what was done to a journal's zone, which had this serial.
pub fn print_imported<R: Print>(
    rt: &R,
    file: &str,
    serial: u32,
    done: Option<Imported>,
) -> io::Result<()> {
    let Some(done) = done else {
        return println!(rt; "{file}: nothing to do, serial: {serial}");
    };
    let Imported {
        deleted,
        added,
        old_serial,
        new_serial,
        requests,
    } = done;
    println!(rt;
        "{file}: deleted: {deleted}, added: {added}, serial: {old_serial}, now {new_serial}, requests: {requests}"
    )
}
