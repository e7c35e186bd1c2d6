//! The zone at the end of a journal.

ghost use Rattle.std.specs.Prelude.{IfOk};
ghost use Rattle.journal.specs.Read.{contents};
ghost use Rattle.zone_journal.specs.Zones.{IsZoneAfter};

use crate::fault::Fault;
use crate::zone_file::read_zone_of;
use durable_updates::{recall, recall_to};
use hickory_base::zone_store::{AxfrPolicy, InMemoryZoneHandler, RecordSet, ZoneType};
use hickory_server::server::NoKeys;
use hickory_store::updates::UpdatableZoneHandler;
use hickory_wire::{LowerName, Name};
use std::alloc::{AllocError, Global};
use std::collections::BTreeMap;
use std::io;
use std::rt::Files;

/// A zone that nobody may change by a request, for the entries of a journal.
pub type Zone = UpdatableZoneHandler<NoKeys>;

/// A zone without records, whose place those of a snapshot take.
// No clause: its records are those of the snapshot that takes their place.
pub fn empty_zone(alloc: Global, origin: &Name) -> Result<Zone, AllocError> {
    let origin = LowerName::new(alloc, origin)?;
    let zone = InMemoryZoneHandler::new(
        origin,
        BTreeMap::new(alloc),
        ZoneType::Primary,
        AxfrPolicy::Deny,
    );
    Ok(UpdatableZoneHandler::new(zone, AxfrPolicy::Deny, false, NoKeys))
}

/// The zone of a zone file.
// No clause: no contract says which bytes a file has.
pub fn zone_of_file<R: Files + Eprint + Alloc<A = Global>>(
    rt: &R,
    origin: &Name,
    file: &str,
) -> Result<Zone, Fault> {
    let zone = read_zone_of(rt, origin, file)?;
    Ok(UpdatableZoneHandler::new(zone, AxfrPolicy::Deny, false, NoKeys))
}

/// Does the entries of a journal to a zone: all, or those up to a serial.
pub fn with_entries(
    alloc: Global,
    zone: Zone,
    entries: &[Vec<u8>],
    serial: Option<u32>,
) -> Result<Zone, Fault>
    ensures { IfOk result (λ made. IsZoneAfter (contents entries.now) zone.zone serial made.zone) }
{
    let mut zone = zone;
    let Some(serial) = serial else {
        recall(&mut zone, alloc, entries)?;
        return Ok(zone);
    };
    match recall_to(&mut zone, alloc, entries, serial)? {
        Some(_) => Ok(zone),
        None => Err(Fault::NoSerial { serial }),
    }
}

/// Prints the records of a set, each in a line.
fn print_set<R: Print>(rt: &R, set: &RecordSet) -> io::Result<()> {
    for record in set.records() {
        println!(rt; "{record}")?;
    }
    Ok(())
}

/// Prints the records of a zone, each in a line, in the order of their names and types.
pub fn print_zone<R: Print>(rt: &R, zone: &Zone) -> io::Result<()> {
    for set in zone.in_memory().records().values() {
        print_set(rt, set)?;
    }
    Ok(())
}
