//! Dynamic updates.

use crate::WRONG;
use crate::zone::updatable_zone;
use hickory_server::server::NoKeys;
use hickory_store::updates::UpdatableZoneHandler;
use hickory_wire::{Message, Record};
use std::alloc::Global;

/// Makes an update that may be made; whether it changed the zone.
fn update(
    alloc: Global,
    zone: &mut UpdatableZoneHandler<NoKeys>,
    records: &[Record],
) -> Option<bool> {
    match zone.pre_scan(records) {
        Ok(()) => zone.update_records(alloc, records, true).ok(),
        Err(_) => None,
    }
}

#[inline(never)]
fn measured_update(
    alloc: Global,
    zone: &mut UpdatableZoneHandler<NoKeys>,
    first: &[Record],
    second: &[Record],
    rounds: u64,
) -> Option<u64> {
    let mut changed = 0u64;
    for _ in 0..rounds {
        let is_changed = update(alloc, zone, first)?;
        if update(alloc, zone, second)? && is_changed {
            changed = changed.wrapping_add(1);
        }
    }
    Some(changed)
}

/// In how many rounds both updates changed the zone.
fn updated(alloc: Global, zone: &[u8], updates: &[u8], rounds: u64) -> Option<u64> {
    let (_, mut zone) = updatable_zone(alloc, zone)?;
    let changed = changed(alloc, &mut zone, updates, rounds);
    drop(zone);
    changed
}

/// In how many rounds both updates of a message, its answers and then its authorities, changed this zone.
fn changed(
    alloc: Global,
    zone: &mut UpdatableZoneHandler<NoKeys>,
    updates: &[u8],
    rounds: u64,
) -> Option<u64> {
    let message = Message::read(alloc, updates).ok()?;
    let first = message.answers.as_slice();
    let second = message.authorities.as_slice();
    let changed = measured_update(alloc, zone, first, second, rounds);
    drop(message);
    changed
}

/// Makes two updates of a zone, whose records are the answers of messages, each after its length: what the answers of
/// the message in `updates` say, then what its authorities say. Answers in how many rounds both changed the zone.
#[unsafe(no_mangle)]
pub extern "C" fn bench_calls_update(
    alloc: Global,
    zone: &[u8],
    updates: &[u8],
    rounds: u64,
) -> u64 {
    updated(alloc, zone, updates, rounds).unwrap_or(WRONG)
}
