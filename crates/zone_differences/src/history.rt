//! The last differences of a zone.

ghost use Rattle.std.specs.Prelude.{◌++◌, ◌∷◌, ◌≡◌, ◌↔◌, IfOk, IsTrue, Ok, Some, []};
ghost use Rattle.hickory_base.specs.zone_store.ZoneAnswers.{soa_serial};
ghost use Rattle.zone_differences.specs.Histories.{IsFollowed, since};
ghost use Rattle.zone_differences.specs.Sequences.{with_differences};
ghost use Rattle.zone_differences.specs.Standing.{Records};

use crate::before::Before;
use crate::difference::{Difference, push_copies, push_sequences};
use hickory_base::zone_store::{InMemoryZoneHandler, ZoneTransfer};
use hickory_wire::{Items, RData, Record};
use std::alloc::{AllocError, Global};
use std::marker::Model;
use std::mem;

/// The last differences of a zone, each of which leads on from where the one before it leads to.
///
/// A contract sees the list of them, the oldest first.
#[derive(Debug, Drop)]
pub struct History {
    older: Vec<Difference>,
    newer: Vec<Difference>,
    /// How many records of a transfer the newer ones take.
    size: usize,
    limit: usize,
}

impl Model for History {
    ghost use Rattle.std.specs.Prelude.{List, ◌++◌};
    ghost use Rattle.zone_differences.specs.declared.difference.Difference.{Difference as Led};

    ghost Value = { List Led };

    ghost view = { λ history. history.older.items ++ history.newer.items };
}

/// The serial of an SOA record; 0 of any other one.
fn serial_of(soa: &Record) -> u32
    ensures { result ≡ soa_serial (Some soa.now) }
{
    match &soa.rdata {
        RData::SOA(soa) => soa.get().serial,
        _ => 0,
    }
}

/// The differences from the last on that leads from a version of a serial.
fn since(differences: &[Difference], serial: u32) -> &[Difference]
    ensures { result.now ≡ since serial differences.now }
{
    let mut found: &[Difference] = &[];
    let mut rest = differences;
    while let [difference, others @ ..] = rest {
        if serial_of(&difference.old_soa) == serial {
            found = rest;
        }
        rest = others;
    }
    found
}

impl History {
    /// How many records of transfers are to be kept of a zone, twice, so that the differences are no longer than the
    /// zone (RFC 1995 section 5): half as many as it has record sets, and so many at least.
    pub fn limit_of(zone: &InMemoryZoneHandler, least: usize) -> usize {
        let half = zone.records().len() / 2;
        half.max(least)
    }

    /// A history without differences, which keeps so many records of transfers at most, twice. It takes no memory.
    pub fn new(alloc: Global, limit: usize) -> History
        ensures { result ≡ [] }
    {
        History {
            older: Vec::new(alloc),
            newer: Vec::new(alloc),
            size: 0,
            limit,
        }
    }

    /// Gives up all differences: what comes next does not lead on from them.
    pub fn clear(&mut self, alloc: Global)
        ensures { self.new ≡ [] }
    {
        self.older = Vec::new(alloc);
        self.newer = Vec::new(alloc);
        self.size = 0;
    }

    /// Makes room among the newer differences, where so many records more would be too many: they are the older ones
    /// from now on.
    fn make_room(&mut self, alloc: Global, size: usize)
        ensures { IsFollowed self.old [] self.new }
    {
        if self.size.saturating_add(size) > self.limit {
            self.older = mem::replace(&mut self.newer, Vec::new(alloc));
            self.size = 0;
        }
    }

    /// Puts a difference last, which leads on from the one before it. Where there are too many records, the oldest
    /// differences are given up, and where there is no memory, all.
    pub fn push(&mut self, alloc: Global, difference: Difference)
        ensures { IsFollowed self.old (difference ∷ []) self.new }
    {
        let size = difference.len();
        if size > self.limit {
            self.clear(alloc);
            return;
        }
        self.make_room(alloc, size);
        match self.newer.push(difference) {
            Ok(()) => self.size = self.size.saturating_add(size),
            Err(_) => self.clear(alloc),
        }
    }

    /// Puts what an update has changed of a zone last, of what stood there before it and the zone that it left. Where
    /// that is not known, all differences are given up.
    pub fn follow(
        &mut self,
        alloc: Global,
        before: Result<Option<Before>, AllocError>,
        zone: &InMemoryZoneHandler,
    )
        ensures { Records before zone.now self.old self.new }
    {
        let Ok(Some(before)) = before else {
            self.clear(alloc);
            return;
        };
        match before.until(alloc, zone) {
            Ok(Some(difference)) => self.push(alloc, difference),
            _ => self.clear(alloc),
        }
    }

    /// The differences that lead from the version of a serial to the zone as it is, from the newest one where there are
    /// several; none where no difference leads from there. It takes time by the number of differences.
    pub fn since(&self, serial: u32) -> Steps<'_>
        ensures { result.older.now ++ result.newer.now ≡ since serial self.now }
    {
        let newer = since(&self.newer, serial);
        if !newer.is_empty() {
            return Steps { older: &[], newer };
        }
        let older = since(&self.older, serial);
        if older.is_empty() {
            return Steps::none();
        }
        Steps {
            older,
            newer: &self.newer,
        }
    }
}

/// Differences of a history, in two parts.
#[derive(Clone, Copy, Debug)]
pub struct Steps<'h> {
    /// The older ones.
    pub older: &'h [Difference],
    /// Those behind them.
    pub newer: &'h [Difference],
}

impl<'h> Steps<'h> {
    /// None.
    pub fn none() -> Steps<'h>
        ensures { result.older.now ++ result.newer.now ≡ [] }
    {
        Steps {
            older: &[],
            newer: &[],
        }
    }

    /// Whether there are none.
    pub fn is_empty(self) -> bool
        ensures { IsTrue result ↔ (self.entry.older.now ++ self.entry.newer.now ≡ []) }
    {
        self.older.is_empty() && self.newer.is_empty()
    }

    /// The transfer that gives them to a client (RFC 1995 section 4): `soa` has the SOA of the zone as it is, which
    /// stands first and last.
    pub fn transfer(self, alloc: Global, soa: &ZoneTransfer) -> Result<ZoneTransfer, AllocError>
        ensures { IfOk result (λ transfer. with_differences (self.entry.older.now ++ self.entry.newer.now)
            (Ok soa.now) ≡ Ok transfer) }
    {
        let mut records = Vec::new(alloc);
        push_copies(&mut records, soa.records.as_slice())?;
        push_sequences(&mut records, self.older)?;
        push_sequences(&mut records, self.newer)?;
        push_copies(&mut records, soa.records.as_slice())?;
        Ok(ZoneTransfer {
            records: Items::from_vec(records),
        })
    }
}
