//! What is made of a zone before queries are answered in it.

ghost use Rattle.std.specs.Prelude.{◌≡◌, IfOk, IfSome};
ghost use Rattle.hickory_base.specs.zone_store.ZoneAnswers.{MemoryZone};
ghost use Rattle.zone_replies.specs.Replies.{as_zone};
ghost use Rattle.zone_answers.specs.Zones.{AreOwners};
ghost use Rattle.zone_answers.specs.representation.Features.{AreFeatures};
ghost use Rattle.zone_answers.specs.representation.Indexes.{KeepsOthers};
ghost use Rattle.zone_replies.specs.representation.PreparedZones.{IsPrepared};

use crate::denials::denial_soa;
use hickory_base::zone_store::{InMemoryZoneHandler, ZoneHandler};
use hickory_wire::Record;
use std::alloc::{AllocError, Global};
use zone_answers::features::Features;
use zone_answers::index::Index;
use zone_answers::view::ZoneView;

/// What is made of a zone before queries are answered in it, so that they are answered faster, and is kept by updates.
#[derive(Drop)]
pub struct Prepared {
    /// The SOA record of the zone, as it is in denials (RFC 2308 section 3).
    pub(crate) soa: Vec<Record>,
    /// The record sets of the zone in an order that is searched by numbers.
    pub(crate) index: Index,
}

impl Prepared {
    /// Prepares a zone: a sorted list of its record sets, which are shared with the zone, with the topmost cuts and
    /// their addresses. Time and memory grow with the number of the record sets.
    ///
    /// # Errors
    ///
    /// Memory was refused.
    pub fn new(
        alloc: Global,
        zone: &InMemoryZoneHandler,
        has: Features,
    ) -> Result<Prepared, AllocError>
        requires owners { AreOwners zone.now.origin zone.now.sets }
        requires features { AreFeatures (as_zone zone.now) has }
        ensures { IfOk result (IsPrepared zone.now) }
    {
        let soa = denial_soa(alloc, zone)?;
        let view = ZoneView {
            origin: zone.origin(),
            sets: zone.records(),
            has,
        };
        let index = Index::new(alloc, view)?;
        Ok(Prepared { soa, index })
    }
    /// What is made of the zone that an update with these records has left, from what was made of the zone before it.
    /// There is none if memory was refused, or a record's owner is outside of the zone. It takes time by the records,
    /// and no more memory than a copy of the SOA.
    pub fn after(
        self,
        alloc: Global,
        zone: &InMemoryZoneHandler,
        updates: &[Record],
    ) -> Option<Prepared>
        ensures { (old : MemoryZone) → zone.now.origin ≡ old.origin → IsPrepared old self →
            KeepsOthers updates.now old.origin old.sets zone.now.sets
            → IfSome result (IsPrepared zone.now) }
    {
        let Ok(soa) = denial_soa(alloc, zone) else {
            return None;
        };
        let Some(index) = self.index.after(alloc, zone.records(), updates) else {
            return None;
        };
        Some(Prepared { soa, index })
    }

    /// Whether updates have marked so many names that it is time to prepare the zone again: more than 64, and more than
    /// a sixteenth of the record sets. Each update marks the apex too. So the time that this takes is, on average, that
    /// of at most 16 record sets for each name that was marked.
    pub fn is_worn(&self) -> bool {
        self.index.is_worn()
    }
}
