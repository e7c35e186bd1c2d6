//! The files of journals whose owner does to them what is noted there.

ghost use Rattle.std.specs.Prelude.{◌≡◌, IfOk, option_copied, option_map};
ghost use Rattle.served_zones.specs.Operations.{AreFilesAt, AreFilesIn, HandlerStops, Stops};
ghost use Rattle.served_zones.specs.ZoneChanges.{FirstChanges};

use crate::handler::{Handler, Zones};
use either::Either;
use hickory_wire::LowerName;
use journal::host_file::OwnedDisk;
use sqlite_disk::Disk;
use std::alloc::{AllocError, Global};

/// The files of the journal of the first handler of a chain, if it has one.
fn files_in<D: OwnedDisk + Drop>(chain: &[Handler<D>]) -> Option<(&D, Option<&D>)>
    ensures { AreFilesIn D.Disk chain.now (option_map (λ files. (files.0.now, option_copied files.1)) result) }
{
    match chain {
        [Either::Left(zone), ..] => zone.files(),
        _ => None,
    }
}

/// The files of the journal of the zone that answers for a name: the file that the journal is in, and the one that it
/// may be compacted into. `None` if the zone has no journal.
pub fn files_of<'z, D: OwnedDisk + Drop>(
    zones: &'z Zones<D>,
    name: &LowerName,
) -> Result<Option<(&'z D, Option<&'z D>)>, AllocError>
    ensures { IfOk result (λ found. AreFilesAt D.Disk zones.now.zones name.now
        (option_map (λ files. (files.0.now, option_copied files.1)) found)) }
{
    match zones.find(name)? {
        Some(chain) => Ok(files_in(chain)),
        None => Ok(None),
    }
}

/// All operations of the files of a handler are done, if it is a zone with a journal.
fn handler_done<D: OwnedDisk + Drop>(handler: &mut Handler<D>)
    ensures { handler.new ≡ handler.old }
{
    match handler {
        Either::Left(zone) => zone.operations_done(),
        Either::Right(_) => {}
    }
}

/// All operations of the files of the first handler of a chain are done, if it is a zone with a journal.
fn first_done<D: OwnedDisk + Drop>(chain: &mut Vec<Handler<D>>)
    ensures { chain.new.items ≡ chain.old.items }
{
    if chain.is_empty() {
        return;
    }
    handler_done(&mut chain[0])
}

/// All operations of the files of the journal of the zone of this apex are done.
fn zone_done<D: OwnedDisk + Drop>(zones: &mut Zones<D>, apex: &LowerName)
    ensures { zones.new ≡ zones.old }
{
    if let Some(chain) = zones.zone_mut(apex) {
        first_done(chain);
    }
}

/// All operations of the files of the journals of the zones of these apexes are done: none is owed. The zones remain as
/// they are, and so does what a read returns of the files, and what a crash leaves of them.
pub fn all_done<D: OwnedDisk + Drop>(zones: &mut Zones<D>, apexes: &[LowerName])
    ensures { zones.new ≡ zones.old }
{
    for place in 0..apexes.len() {
        zone_done(zones, &apexes[place]);
    }
}

/// Lets a handler take no updates any more, if it is a zone.
fn stop<D: Disk + Drop>(alloc: Global, handler: &mut Handler<D>)
    ensures { HandlerStops handler.old handler.new }
{
    match handler {
        Either::Left(zone) => zone.stop_updates(alloc),
        Either::Right(_) => {}
    }
}

/// Lets the first handler of a chain take no updates any more, if it is a zone.
fn stop_first<D: Disk + Drop>(alloc: Global, chain: &mut Vec<Handler<D>>)
    ensures { FirstChanges HandlerStops chain.old.items chain.new.items }
{
    if chain.is_empty() {
        return;
    }
    stop(alloc, &mut chain[0])
}

/// Lets the zone of this apex take no updates any more, as [`Zone::stop_updates`](zones::Zone::stop_updates) does: an
/// operation of one of its files has failed, so the zone in memory may be ahead of its journal.
pub fn stop_updates<D: Disk + Drop>(alloc: Global, zones: &mut Zones<D>, apex: &LowerName)
    ensures stops { Stops apex.now zones.old.zones zones.new.zones }
    ensures others { zones.new ≡ record zones.old { zones = zones.new.zones } }
{
    if let Some(chain) = zones.zone_mut(apex) {
        stop_first(alloc, chain);
    }
}
