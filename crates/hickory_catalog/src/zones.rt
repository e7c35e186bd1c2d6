//! The zones by name.

ghost use Rattle.std.specs.Prelude.{◌≡◌, ◌↔◌, [], true, IfOk, IfErr, OnErr, IsTrue, Some, None, option_map};
ghost use Rattle.wire_names.specs.rr.domain.NameOrder.{Encloses};
ghost use Rattle.hickory_catalog.specs.zones.Kept.{KeptAt};
ghost use Rattle.hickory_catalog.specs.zones.Zones.{AreInOrder, HasZone, ChangesAt};
ghost use Rattle.hickory_catalog.specs.updates.Updates.{ZoneUpdated};
ghost use Rattle.hickory_catalog.specs.zones.Find.{Finds, OneAnswers, CaseDoesNotMatter};
ghost use Rattle.hickory_catalog.specs.representation.Search.{AnswerFromAbove, LastUpTo};

use crate::updates::{ZoneUpdate, update_chain};
use hickory_base::server::Request;
use hickory_base::zone_store::ZoneHandler;
use hickory_wire::LowerName;
use std::alloc::{AllocError, AllocFailed, Global};
use std::collections::BTreeMap;
use std::marker::Model;

/// The zones by name: for each zone apex the chain of its handlers.
///
/// A contract sees the apexes with their handlers, in the order of names. No two apexes are the same name: both fully
/// qualified or neither, and with the same labels without regard to letter case.
#[derive(Drop)]
pub struct Zones<H> {
    chains: BTreeMap<LowerName, Vec<H>>,
}

impl<H> Model for Zones<H> {
    ghost use Rattle.std.specs.Prelude.{List, map};
    ghost use Rattle.std.specs.BTreeMap.{IsOrdered};
    ghost use Rattle.wire_names.specs.rr.domain.DomainName.{DomainName};
    ghost use Rattle.wire_names.specs.rr.domain.NameOrder.{name_cmp};

    ghost Value = { List (DomainName × List H) };

    ghost view = { λ zones. map (λ zone. (zone.0, zone.1.items)) zones.chains.entries };

    ghost invariant = { λ zones. IsOrdered name_cmp zones.chains };
}

impl<H: Drop> Zones<H> {
    ghost use Rattle.std.specs.Borrow.{sem};
    ghost use Rattle.hickory_catalog.specs.zones.Lending.{LendsFromZones};

    /// No zones. It takes no memory.
    pub fn new(alloc: Global) -> Zones<H>
        ensures { result ≡ [] }
    {
        Zones {
            chains: BTreeMap::new(alloc),
        }
    }

    /// The zones stand in the order of their names, each name once, as any `Zones` do. It does nothing.
    pub fn in_order(&self)
        ensures { AreInOrder self.now }
    {
        let _ = &self.chains;
    }

    /// Puts a chain of handlers at a name, and hands back the chain that was there. Where memory is refused, nothing
    /// changes and both arguments are handed back.
    pub fn upsert(
        &mut self,
        name: LowerName,
        handlers: Vec<H>,
    ) -> Result<Option<Vec<H>>, (LowerName, Vec<H>)>
        ensures changed { IfOk result
            (λ old. ChangesAt self.old name (option_map (λ chain. chain.items) old) (Some handlers.items) self.new) }
        ensures handed_back { IfErr result (λ both. both ≡ (name, handlers)) }
        ensures err { OnErr result (self.new ≡ self.old) }
    {
        match self.chains.insert(name, handlers) {
            Ok(old) => Ok(old),
            Err(AllocFailed { value }) => Err(value),
        }
    }

    /// Takes the chain of handlers at a name away, if there is one, and hands it back. It takes no memory.
    pub fn remove(&mut self, name: &LowerName) -> Option<Vec<H>>
        ensures { ChangesAt self.old name.now (option_map (λ chain. chain.items) result) None self.new }
    {
        self.chains.remove(name)
    }

    /// Whether there is a zone of this name.
    pub fn contains(&self, name: &LowerName) -> bool
        ensures { IsTrue result ↔ HasZone self.now name.now }
    {
        self.chains.contains_key(name)
    }

    /// The chain of handlers of the zone whose apex is this name, lent to be changed, or `None` if no zone has this
    /// apex. Letter case does not matter. Whatever is done to the chain, all other zones remain as they were. The time
    /// grows with the logarithm of the number of zones. It takes no memory.
    pub fn zone_mut(&mut self, name: &LowerName) -> Option<&mut Vec<H>>
        ensures* writes_back { sem 𝓛 (LendsFromZones H.row self.entry name.now result) }
        ensures value { KeptAt self.old name.now (option_map (λ chain. chain.now.items) result) }
    {
        self.chains.get_mut(name)
    }

    /// The chain of handlers of the zone that answers for a name: for a fully qualified name the fully qualified zone
    /// nearest above it or at it (RFC 1034, section 4.3.2, step 2), and for another name the zone of that very name.
    #[inline(always)]
    pub fn find(&self, name: &LowerName) -> Result<Option<&Vec<H>>, AllocError>
        ensures found { IfOk result (λ found. Finds self.now name.now (option_map (λ chain. chain.now.items) found)) }
        ensures ordered { AreInOrder self.now }
    {
        if !name.as_name().is_fqdn() {
            return Ok(self.chains.get(name));
        }
        // speed: served, an address. No zone stands behind the last one, so where that one encloses the name none is
        // nearer.
        if let Some((apex, chain)) = self.chains.last_key_value()
            && answers_for(apex, name)
        {
            return Ok(Some(chain));
        }
        self.find_among(name)
    }

    /// The chain of handlers of the zone that answers for a fully qualified name: of the nearest zone above it or at
    /// it.
    #[inline(never)]
    fn find_among(&self, name: &LowerName) -> Result<Option<&Vec<H>>, AllocError>
        requires { name.now.is_fqdn ≡ true }
        ensures found { IfOk result (λ found. Finds self.now name.now (option_map (λ chain. chain.now.items) found)) }
        ensures ordered { AreInOrder self.now }
    {
        // What a name encloses stands right behind it, in the order of names: so this one is the nearest, or stands
        // beside.
        let Some((apex, chain)) = self.last_up_to(name) else {
            return Ok(None);
        };
        if answers_for(apex, name) {
            return Ok(Some(chain));
        }
        self.find_above(name, apex)
    }

    /// The chain of handlers of the zone that answers for a fully qualified name, where only zones above both it and
    /// the other name may answer.
    #[inline(never)]
    fn find_above(&self, name: &LowerName, other: &LowerName) -> Result<Option<&Vec<H>>, AllocError>
        requires qualified { name.now.is_fqdn ≡ true }
        requires above { AnswerFromAbove self.now name.now other.now }
        ensures { IfOk result (λ found. Finds self.now name.now (option_map (λ chain. chain.now.items) found)) }
    {
        let mut ancestor = name.clone()?;
        let mut beside = other;
        while !ancestor.as_name().is_root() {
            ancestor.keep_shared_end(beside);
            let Some((apex, chain)) = self.last_up_to(&ancestor) else {
                return Ok(None);
            };
            if answers_for(apex, &ancestor) {
                return Ok(Some(chain));
            }
            beside = apex;
        }
        Ok(None)
    }

    /// The last zone, in the order of names, whose apex is the name or stands before it.
    #[inline(always)]
    fn last_up_to(&self, name: &LowerName) -> Option<(&LowerName, &Vec<H>)>
        ensures last { LastUpTo self.now name.now (option_map (λ zone. (zone.0.now, zone.1.now.items)) result) }
        ensures ordered { AreInOrder self.now }
    {
        self.chains.range(..=name).next_back()
    }
}

impl<H: ZoneHandler> Zones<H> {
    /// Asks the first handler of the zone of just this apex for an update.
    pub(crate) fn update(
        &mut self,
        alloc: Global,
        name: &LowerName,
        request: &Request,
        now: u64,
    ) -> ZoneUpdate
        ensures { ZoneUpdated H.ZoneHandler (request.now, now) name.now self.old result self.new }
    {
        let Some(chain) = self.chains.get_mut(name) else {
            return ZoneUpdate::NoZone;
        };
        match update_chain(chain, alloc, request, now) {
            None => ZoneUpdate::NoHandler,
            Some((answer, context)) => ZoneUpdate::Answered(answer, context),
        }
    }
}

/// Whether a zone of this apex answers for a fully qualified name, where no other one is nearer.
#[inline(always)]
fn answers_for(apex: &LowerName, name: &LowerName) -> bool
    ensures { IsTrue result ↔ ((apex.now.is_fqdn ≡ true) × Encloses apex.now.labels name.now.labels) }
{
    apex.as_name().is_fqdn() && apex.zone_of(name)
}

/// What is found is one, and does not depend on letter case.
pub fn find_laws<V>()
    ensures one { OneAnswers V }
    ensures case { CaseDoesNotMatter V }
{}
