//! Zones that hold updates, to write them together.

ghost use Rattle.std.specs.Prelude.{◌≡◌, Bool, IsNone, not};
ghost use Rattle.served_zones.specs.Holding.{AllBegin, AllSettle, Begins, HandlerHolds, Holds};
ghost use Rattle.served_zones.specs.ZoneChanges.{FirstChanges};

use crate::handler::{Handler, Zones};
use either::Either;
use hickory_wire::LowerName;
use sqlite_disk::Disk;
use std::alloc::Global;

/// Lets a handler hold updates, if it is a zone with a journal.
fn hold<D: Disk + Drop>(alloc: Global, handler: &mut Handler<D>)
    ensures { (holds : Bool) × HandlerHolds holds handler.old handler.new }
{
    match handler {
        Either::Left(zone) => zone.hold(alloc),
        Either::Right(_) => {}
    }
}

/// Lets the first handler of a chain hold updates, if it is a zone with a journal.
fn hold_first<D: Disk + Drop>(alloc: Global, chain: &mut Vec<Handler<D>>)
    ensures { (holds : Bool) × FirstChanges (HandlerHolds holds) chain.old.items chain.new.items }
{
    if chain.is_empty() {
        return;
    }
    hold(alloc, &mut chain[0])
}

/// Writes the updates that a handler holds. Returns whether it holds none any more.
fn settle<D: Disk + Drop>(alloc: Global, handler: &mut Handler<D>) -> bool
    ensures { HandlerHolds (not result) handler.old handler.new }
{
    match handler {
        Either::Left(zone) => zone.settle(alloc),
        Either::Right(_) => true,
    }
}

/// Writes the updates that the first handler of a chain holds. Returns whether it holds none any more.
fn settle_first<D: Disk + Drop>(alloc: Global, chain: &mut Vec<Handler<D>>) -> bool
    ensures { FirstChanges (HandlerHolds (not result)) chain.old.items chain.new.items }
{
    if chain.is_empty() {
        return true;
    }
    settle(alloc, &mut chain[0])
}

/// Lets the zone of this apex hold updates from now on, until [`settle_updates`]: they are judged and made in memory,
/// one after the other, and written together. Until then the caller must send no answer of the zone. A zone without a
/// journal, or whose journal takes no updates, holds none.
pub fn hold_updates<D: Disk + Drop>(alloc: Global, zones: &mut Zones<D>, apex: &LowerName)
    ensures begins { Begins apex.now zones.old.zones zones.new.zones }
    ensures others { zones.new ≡ record zones.old { zones = zones.new.zones } }
{
    if let Some(chain) = zones.zone_mut(apex) {
        hold_first(alloc, chain);
    }
}

/// Writes the updates that the zone of this apex holds, all or none, with two syncs. Returns whether they are written.
/// If not, none of them may be acknowledged, and the zone in memory is ahead of its journal, which must be opened again.
pub fn settle_updates<D: Disk + Drop>(alloc: Global, zones: &mut Zones<D>, apex: &LowerName) -> bool
    ensures settles { Holds (not result) apex.now zones.old.zones zones.new.zones }
    ensures others { zones.new ≡ record zones.old { zones = zones.new.zones } }
{
    match zones.zone_mut(apex) {
        Some(chain) => settle_first(alloc, chain),
        None => true,
    }
}

/// Lets the zones of these apexes hold updates from now on, as [`hold_updates`] does.
pub fn hold_all<D: Disk + Drop>(alloc: Global, zones: &mut Zones<D>, apexes: &[LowerName])
    ensures begin { AllBegin apexes.now zones.old.zones zones.new.zones }
    ensures others { zones.new ≡ record zones.old { zones = zones.new.zones } }
{
    for place in 0..apexes.len() {
        hold_updates(alloc, zones, &apexes[place]);
    }
}

/// Writes the updates that the zones of these apexes hold, one zone after the other, as [`settle_updates`] does: all or
/// none of each zone. Returns the place of the first zone whose updates are not written, if there is one. The zones
/// after it were not tried.
pub fn settle_all<D: Disk + Drop>(
    alloc: Global,
    zones: &mut Zones<D>,
    apexes: &[LowerName],
) -> Option<usize>
    ensures settle { IsNone result → AllSettle apexes.now zones.old.zones zones.new.zones }
    ensures others { zones.new ≡ record zones.old { zones = zones.new.zones } }
{
    for place in 0..apexes.len() {
        if !settle_updates(alloc, zones, &apexes[place]) {
            return Some(place);
        }
    }
    None
}
