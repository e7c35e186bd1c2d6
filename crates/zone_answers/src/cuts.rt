//! The topmost cuts of a zone as they were when its index was made, in an order that is searched by numbers.

ghost use Rattle.std.specs.Prelude.{◌≡◌, ◌↔◌, IfOk, IfSome, IsTrue, false, true};
ghost use Rattle.std.specs.List.Sorted.{IsStrictlySortedBy};
ghost use Rattle.std.specs.Map.{keys_of};
ghost use Rattle.std.specs.Option.{option_map};
ghost use Rattle.wire_names.specs.rr.domain.NameOrder.{Encloses};
ghost use Rattle.wire_messages.specs.rr.RrKeys.{key_cmp};
ghost use Rattle.hickory_base.specs.zone_store.ZoneSets.{sets_of, shared_sets};
ghost use Rattle.zone_answers.specs.representation.Features.{AreFeatures};
ghost use Rattle.zone_answers.specs.representation.FoundRecords.{CutAbove};
ghost use Rattle.zone_answers.specs.representation.Indexes.{IsSearched};
ghost use Rattle.zone_answers.specs.representation.TopCuts.{AreCutsOf, AreEach, AreGlueOf, AreHostsOf, IsAt, IsBelowLast, IsHostPlace, IsPassedOver, IsPut};
ghost use Rattle.zone_answers.specs.Zones.{AreOwners, Zone};
ghost use Rattle.zone_answers.specs.Views.{viewed};

use crate::additionals::{Source, additionals, host};
use crate::index::{SharedSet, place_of, word_of};
use crate::view::ZoneView;
use hickory_wire::{LowerName, Record, RecordType, RrKey};
use std::alloc::{AllocError, Global};

/// A cut above a name.
#[derive(Clone, Copy)]
pub struct Cut<'z> {
    /// The NS records there.
    pub servers: &'z [Record],
    /// The addresses of their hosts that stand in the zone, as a referral has them, where those were looked up before.
    pub glue: Option<&'z [Record]>,
}

/// A topmost cut.
#[derive(Clone, Copy)]
pub(crate) struct TopCut<'z> {
    /// Its place among them.
    pub(crate) place: usize,
    /// The NS records there.
    pub(crate) servers: &'z [Record],
}

/// The sets of type NS at the cuts that no other cut is above, in the order of their keys, and beside each the number
/// of its name below the apex.
// speed: served, a referral
#[derive(Drop)]
pub(crate) struct Cuts {
    words: Vec<u64>,
    entries: Vec<SharedSet>,
}

/// Whether the last of these cuts is above the key's name or at it.
fn is_below_last(cuts: &[SharedSet], key: &RrKey) -> bool
    ensures { IsTrue result ↔ IsBelowLast cuts.now key.now }
{
    match cuts.last() {
        Some((top, _)) => top.name.zone_of(&key.name),
        None => false,
    }
}

/// Whether a set is that of a cut, and the last of the cuts before it is not above its name.
fn is_top_cut(origin: &LowerName, cuts: &[SharedSet], key: &RrKey) -> bool
    ensures cut { IsTrue result → IsPut origin.now cuts.now key.now }
    ensures other { result ≡ false → IsPassedOver origin.now cuts.now key.now }
{
    key.record_type == RecordType::NS && !key.name.zone_of(origin) && !is_below_last(cuts, key)
}

/// The place among these sets, which are of the zone of this origin, of the name of the host that a record names, if it
/// names one in the zone.
fn host_place(
    alloc: Global,
    origin: &LowerName,
    sets: &[SharedSet],
    words: &[u64],
    q: &Record,
) -> Result<Option<usize>, AllocError>
    requires { IsSearched origin.now sets.now words.now }
    ensures { IfOk result (IsHostPlace origin.now sets.now q.now) }
{
    let Some(name) = host(alloc, q)? else {
        return Ok(None);
    };
    let name = LowerName::new(alloc, &name)?;
    if !origin.zone_of(&name) {
        return Ok(None);
    }
    let first = RrKey::new(name, RecordType::new(0));
    Ok(Some(place_of(origin, sets, words, &first)))
}

/// The places among these sets of the names of the hosts that records name.
fn host_places(
    alloc: Global,
    origin: &LowerName,
    sets: &[SharedSet],
    words: &[u64],
    servers: &[Record],
) -> Result<Vec<Option<usize>>, AllocError>
    requires { IsSearched origin.now sets.now words.now }
    ensures { IfOk result (λ places. AreEach (IsHostPlace origin.now sets.now) servers.now places.items) }
{
    let mut places = Vec::with_capacity(alloc, servers.len())?;
    for q in servers {
        places.push(host_place(alloc, origin, sets, words, q)?)?;
    }
    Ok(places)
}

impl Cuts {
    /// The topmost cuts of the zone of this origin.
    pub(crate) fn new(
        alloc: Global,
        origin: &LowerName,
        sets: &[SharedSet],
    ) -> Result<Cuts, AllocError>
        requires owners { AreOwners origin.now (shared_sets sets.now) }
        requires ordered { IsStrictlySortedBy key_cmp (keys_of sets.now) }
        ensures { IfOk result (AreCutsOf (record { origin = origin.now; sets = shared_sets sets.now })) }
    {
        let mut words = Vec::new(alloc);
        let mut entries = Vec::new(alloc);
        for (key, set) in sets {
            if is_top_cut(origin, entries.as_slice(), key) {
                words.push(word_of(origin, key))?;
                entries.push((key.clone()?, set.clone()?))?;
            }
        }
        Ok(Cuts { words, entries })
    }

    /// The highest cut above a key's name, which is in the zone of this origin, if it is cut there. No type is below
    /// that of the key.
    #[inline(always)]
    pub(crate) fn above(&self, origin: &LowerName, first: &RrKey) -> Option<TopCut<'_>>
        requires searched { IsSearched origin.now self.now.entries.items self.now.words.items }
        requires least { first.now.record_type ≡ 0 }
        requires qualified { first.now.name.is_fqdn ≡ true }
        requires within { Encloses origin.now.labels first.now.name.labels }
        ensures cut { (zone : Zone) → AreCutsOf zone self.now →
            CutAbove zone first.now.name (option_map (λ top. top.servers.now) result) }
        ensures at { IfSome result (IsAt self.now.entries.items) }
    {
        if self.entries.is_empty() {
            return None;
        }
        self.last_above(origin, first)
    }

    /// The topmost cut above a name, by the last cut before the name: another cannot be above it.
    #[inline(never)]
    fn last_above(&self, origin: &LowerName, first: &RrKey) -> Option<TopCut<'_>>
        requires searched { IsSearched origin.now self.now.entries.items self.now.words.items }
        requires least { first.now.record_type ≡ 0 }
        requires qualified { first.now.name.is_fqdn ≡ true }
        requires within { Encloses origin.now.labels first.now.name.labels }
        ensures cut { (zone : Zone) → AreCutsOf zone self.now →
            CutAbove zone first.now.name (option_map (λ top. top.servers.now) result) }
        ensures at { IfSome result (IsAt self.now.entries.items) }
    {
        // That its labels are in lower case is known of a name that was read.
        let _ = first.name.as_name();
        let entries = self.entries.as_slice();
        let place = place_of(origin, entries, self.words.as_slice(), first);
        if place == 0 {
            return None;
        }
        let (top, servers) = &entries[place - 1];
        if top.name.zone_of(&first.name) {
            Some(TopCut {
                place: place - 1,
                servers: servers.records(),
            })
        } else {
            None
        }
    }

    /// The addresses of the servers at each cut that stand in the zone.
    pub(crate) fn glue(
        &self,
        alloc: Global,
        zone: ZoneView<'_>,
    ) -> Result<Vec<Vec<Record>>, AllocError>
        requires owners { AreOwners zone.origin.now (sets_of zone.sets.now) }
        requires features { AreFeatures (viewed zone) zone.has }
        ensures { IfOk result (λ glue.
            AreGlueOf (viewed zone.entry) self.now.entries.items glue.items) }
    {
        let mut glue = Vec::new(alloc);
        for (_, servers) in self.entries.as_slice() {
            let servers = servers.records();
            glue.push(additionals(alloc, zone, Source::Glue, &[], servers)?)?;
        }
        Ok(glue)
    }

    /// The places among these sets, which are of the zone of this origin, of the names of the servers at each cut.
    pub(crate) fn hosts(
        &self,
        alloc: Global,
        origin: &LowerName,
        sets: &[SharedSet],
        words: &[u64],
    ) -> Result<Vec<Vec<Option<usize>>>, AllocError>
        requires { IsSearched origin.now sets.now words.now }
        ensures { IfOk result (λ hosts. AreHostsOf origin.now sets.now self.now.entries.items hosts.items) }
    {
        let mut hosts = Vec::new(alloc);
        for (_, servers) in self.entries.as_slice() {
            hosts.push(host_places(alloc, origin, sets, words, servers.records())?)?;
        }
        Ok(hosts)
    }
}
