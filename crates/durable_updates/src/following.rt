//! Doing a journal's entries again, and keeping what the last of them change.

ghost use Rattle.std.specs.Prelude.{◌≡◌, IfOk, OnOk};
ghost use Rattle.zone_differences.specs.Histories.{IsKeptUp};
ghost use Rattle.journal.specs.Read.{contents};
ghost use Rattle.durable_updates.specs.Redone.{Redone, RedoesOne};
ghost use Rattle.durable_updates.specs.Snapshots.{Recalls};
ghost use Rattle.durable_updates.specs.Versions.{AreLed};

use crate::redoing::{RedoError, read_entry, redo, redo_updates};
use crate::snapshots::put_snapshot;
use hickory_base::update_request::UpdateRequest;
use hickory_store::updates::{UpdatableZoneHandler, Verifier};
use std::alloc::Global;
use zone_differences::laws::recorded_lead;
use zone_differences::{Before, History};

/// Does one entry again, and puts what it changes last in a history.
fn redo_one_followed<V: Verifier>(
    zone: &mut UpdatableZoneHandler<V>,
    alloc: Global,
    entry: &[u8],
    history: &mut History,
) -> Result<(), RedoError>
    ensures redoes { OnOk result (RedoesOne entry.now zone.old.zone zone.new.zone) }
    ensures history { OnOk result (IsKeptUp zone.old.zone zone.new.zone history.old history.new) }
    ensures others { zone.new ≡ record zone.old { zone = zone.new.zone } }
{
    let request = read_entry(alloc, entry)?;
    let updates = request.message().updates();
    let before = Before::of(alloc, zone.in_memory(), updates);
    if redo_updates(zone, alloc, updates)? {
        history.follow(alloc, before, zone.in_memory());
    }
    Ok(())
}

/// Does entries again as `redo` does, and gives what they change, up to so many records of transfers twice. After an
/// `Err` those of a front are done.
fn redo_followed<V: Verifier>(
    zone: &mut UpdatableZoneHandler<V>,
    alloc: Global,
    entries: &[Vec<u8>],
    limit: usize,
) -> Result<History, RedoError>
    ensures redone { OnOk result (Redone (contents entries.now) zone.old.zone zone.new.zone) }
    ensures led { IfOk result (λ history. AreLed (λ done version. Redone done zone.old.zone version)
        (contents entries.now) history zone.new.zone) }
    ensures others { zone.new ≡ record zone.old { zone = zone.new.zone } }
{
    recorded_lead();
    let mut history = History::new(alloc, limit);
    let mut rest = entries;
    while let [entry, others @ ..] = rest {
        redo_one_followed(zone, alloc, entry, &mut history)?;
        rest = others;
    }
    Ok(history)
}

/// Does the entries of a file to the first zone as `recall` does, and gives what the last of the requests change: of so
/// many last ones as a history has room for, which is of as many records of transfers as `History::limit_of` tells of
/// the zone that the first request is done to, twice; a difference has two records at least. After an `Err` those of a
/// front are done.
pub(crate) fn recall_followed<V: Verifier>(
    zone: &mut UpdatableZoneHandler<V>,
    alloc: Global,
    entries: &[Vec<u8>],
    least: usize,
) -> Result<History, RedoError>
    ensures recalled { OnOk result (Recalls (contents entries.now) zone.old.zone zone.new.zone) }
    ensures led { IfOk result (λ history. AreLed (λ done version. Recalls done zone.old.zone version)
        (contents entries.now) history zone.new.zone) }
    ensures others { zone.new ≡ record zone.old { zone = zone.new.zone } }
{
    let requests = put_snapshot(zone, alloc, entries)?;
    let limit = History::limit_of(zone.in_memory(), least);
    let (earlier, last) = requests.split_at(requests.len().saturating_sub(limit));
    redo(zone, alloc, earlier)?;
    redo_followed(zone, alloc, last, limit)
}
