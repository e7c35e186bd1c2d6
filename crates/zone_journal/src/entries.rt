//! What the entries of a journal are, as lines.

use crate::serials::Serials;
use hickory_base::server::Request;
use hickory_base::update_request::UpdateRequest;
use hickory_wire::{LowerName, Record, TSIG};
use jiff::Timestamp;
use journal_entries::{Entry, zone_of};
use std::io;

/// Prints records, each in a line behind four spaces.
fn print_records<R: Print>(rt: &R, records: &[Record]) -> io::Result<()> {
    for record in records {
        println!(rt; "    {record}")?;
    }
    Ok(())
}

/// The moment so many seconds after 1970 began, where the calendar has it.
// No clause: the time is only printed.
fn moment(seconds: u64) -> Option<Timestamp> {
    let seconds = i64::try_from(seconds).ok()?;
    Timestamp::from_second(seconds).ok()
}

/// Prints the key of a signature and when it was made (RFC 8945 section 4.2), which is the number of seconds where the
/// calendar has no such moment.
fn print_signature<R: Print>(rt: &R, signature: &Record<TSIG>) -> io::Result<()> {
    print!(rt; ", key: {}", signature.name)?;
    let seconds = signature.rdata.time;
    match moment(seconds) {
        Some(moment) => print!(rt; ", signed: {moment}"),
        None => print!(rt; ", signed: {seconds}"),
    }
}

/// Prints the serial that an update leaves, behind the one that it found where that is another.
fn print_serials<R: Print>(rt: &R, serials: Serials) -> io::Result<()> {
    let Serials { before, behind } = serials;
    if before == behind {
        print!(rt; ", serial: {behind}")
    } else {
        print!(rt; ", serial: {before} to {behind}")
    }
}

/// Prints what a request asks for: the zone, who signed it if it is signed, the serials if they are known, and the
/// records of the update section.
fn print_update<R: Print>(
    rt: &R,
    request: &Request,
    zone: &LowerName,
    serials: Option<Serials>,
) -> io::Result<()> {
    let message = request.message();
    let records = message.updates();
    print!(rt; "an update of {zone}, records: {}", records.len())?;
    if let Some(signature) = message.signature() {
        print_signature(rt, signature)?;
    }
    if let Some(serials) = serials {
        print_serials(rt, serials)?;
    }
    println!(rt; "")?;
    print_records(rt, records)
}

/// Prints an entry by its number, from 1 on, its place and its length, an update with the serials if they are known.
pub fn print_entry<R: Print>(
    rt: &R,
    number: usize,
    place: usize,
    len: usize,
    entry: &Entry,
    serials: Option<Serials>,
) -> io::Result<()> {
    print!(rt; "entry {number} at {place}, {len} bytes: ")?;
    match (entry, zone_of(entry)) {
        (Entry::Update(request), Some(zone)) => print_update(rt, request, zone, serials),
        (Entry::Generation(generation), _) => println!(rt; "the generation {generation}"),
        (Entry::Said(r), _) => println!(rt; "of the snapshot: {r}"),
        (Entry::SnapshotEnd, _) => println!(rt; "the end of the snapshot"),
        _ => println!(rt; "no update"),
    }
}
