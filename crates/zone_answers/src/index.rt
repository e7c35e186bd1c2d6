//! The sets of a zone in an order that is searched by numbers, and what updates have changed since.

ghost use Rattle.std.specs.Prelude.{◌≡◌, ◌<◌, ◌≤◌, ◌+◌, ◌∷◌, ℕ, IfOk, IfSome, IsTrue, Some, drop, false, length, true};
ghost use Rattle.std.specs.List.{AllByRecursion, slice_get};
ghost use Rattle.std.specs.List.Sorted.{IsStrictlySortedBy};
ghost use Rattle.std.specs.Map.{keys_of};
ghost use Rattle.std.specs.Option.{option_copied};
ghost use Rattle.std.specs.Ordering.{is_lt};
ghost use Rattle.std.specs.BTreeMap.Range.{entries_between};
ghost use Rattle.std.specs.declared.ops.Bound.TheVariants.{Included, Unbounded};
ghost use Rattle.wire_names.specs.rr.domain.DomainName.{DomainName};
ghost use Rattle.wire_names.specs.rr.domain.NameOrder.{Encloses};
ghost use Rattle.wire_messages.specs.rr.RrKeys.{key_cmp};
ghost use Rattle.hickory_base.specs.zone_store.ZoneSets.{AreSetsInOrder, sets_of, shared_sets};
ghost use Rattle.zone_answers.specs.representation.Features.{AreFeatures};
ghost use Rattle.zone_answers.specs.representation.FoundRecords.{CutAbove};
ghost use Rattle.zone_answers.specs.representation.Indexes.{AreMarked, AreWordsOf, IsClearAt, IsIndexBut, IsIndexOf, IsPlaceOf, IsSearched, IsUnmarked, IsWordOf, KeepsOthers, Marks};
ghost use Rattle.zone_answers.specs.representation.KeysBeside.{Entry};
ghost use Rattle.zone_answers.specs.representation.TopCuts.{HasGlue, IsClearGlue, IsClearHost, servers_at};
ghost use Rattle.zone_answers.specs.Zones.{AreOwners, Records, Sets};
ghost use Rattle.zone_answers.specs.Views.{viewed};

use crate::cuts::{Cut, Cuts};
use crate::find::{has_servers_at, has_servers_in};
use crate::view::ZoneView;
use hickory_base::zone_store::RecordSet;
use hickory_wire::{LowerName, Record, RecordType, RrKey};
use std::alloc::{AllocError, Global};
use std::collections::BTreeMap;
use std::marker::Model;
use std::rc::Rc;

/// How many names may have marks however few the sets are.
const MOST_CHANGES: usize = 64;

/// For how many sets one more may.
const MOST_CHANGES_SHARE: usize = 16;

/// A set and its key.
pub(crate) type SharedSet = (RrKey, Rc<RecordSet>);

/// The sets of a zone in the order of their keys as they were when the index was made, and beside each the number of
/// its name below the apex, which stands in this order too; its topmost cuts; and what updates have changed since.
// speed: served, an address
#[derive(Drop)]
pub struct Index {
    apex: LowerName,
    words: Vec<u64>,
    entries: Vec<SharedSet>,
    cuts: Cuts,
    // The addresses of the servers at each cut, as a referral has them.
    glue: Vec<Vec<Record>>,
    // The places of the names of these servers, if they are in the zone.
    hosts: Vec<Vec<Option<usize>>>,
    // Whether a name may have changed, by the place of its first key, among the entries or where it would be, and by
    // the places of its entries.
    marks: Vec<bool>,
    // How many names were marked.
    changes: usize,
    // Whether each name still has the NS records that it has among the entries, or none.
    has_servers: bool,
}

impl Model for Index {
    ghost use Rattle.std.specs.Prelude.{◌≡◌, ◌+◌, length};
    ghost use Rattle.hickory_base.specs.zone_store.ZoneSets.{shared_sets};
    ghost use Rattle.zone_answers.specs.representation.Indexes.{IndexedSets, IsSearched};
    ghost use Rattle.zone_answers.specs.representation.TopCuts.{AreCutsOf, AreGlueOf, AreHostsOf};

    ghost Value = { IndexedSets };

    ghost view = { λ index. record {
      apex = index.apex;
      entries = index.entries.items;
      marks = index.marks.items;
      has_servers = index.has_servers;
    } };

    ghost invariant = { λ index. IsSearched index.apex index.entries.items index.words.items
        × AreCutsOf (record { origin = index.apex; sets = shared_sets index.entries.items }) index.cuts
        × AreGlueOf (record { origin = index.apex; sets = shared_sets index.entries.items }) index.cuts.entries.items
        index.glue.items × AreHostsOf index.apex index.entries.items index.cuts.entries.items index.hosts.items
        × (length index.marks.items ≡ length index.entries.items + 1) };
}

/// The sets of an index before a key.
#[derive(Clone, Copy)]
pub(crate) struct Before<'z> {
    /// The sets, as they were when the index was made.
    pub(crate) sets: &'z [SharedSet],
    /// Whether the name of the set at the same place may have changed since.
    pub(crate) marks: &'z [bool],
}

/// The sets of an index on both sides of a key.
#[derive(Clone, Copy)]
pub(crate) struct Sides<'z> {
    /// The sets before the key.
    pub(crate) before: Before<'z>,
    /// The sets from the key on.
    pub(crate) from: &'z [SharedSet],
    /// Whether the key's place has no mark.
    pub(crate) is_unmarked: bool,
}

/// The number of a key's name, which is at the apex or below it.
#[inline(always)]
pub(crate) fn word_of(apex: &LowerName, key: &RrKey) -> u64
    requires { Encloses apex.now.labels key.now.name.labels }
    ensures { IsWordOf apex.now key.now result }
{
    // That their labels are in lower case is known of names that were read.
    let _ = apex.as_name();
    let _ = key.name.as_name();
    key.name.order_word(apex)
}

/// Whether the key at a place is before this one, whose number is known.
#[inline(always)]
fn is_before(entries: &[SharedSet], words: &[u64], place: usize, word: u64, first: &RrKey) -> bool
    requires within { place < length entries.now }
    requires words { length words.now ≡ length entries.now }
    ensures { (apex : DomainName) (e : Entry) → AreWordsOf apex entries.now words.now → IsWordOf apex first.now word →
        slice_get entries.now place ≡ Some e
        → result ≡ is_lt (key_cmp e.0 first.now) }
{
    let other = words[place];
    if other == word {
        entries[place].0 < *first
    } else {
        other < word
    }
}

/// The place from which on no key is before this one.
pub(crate) fn place_of(
    apex: &LowerName,
    entries: &[SharedSet],
    words: &[u64],
    first: &RrKey,
) -> usize
    requires searched { IsSearched apex.now entries.now words.now }
    requires within { Encloses apex.now.labels first.now.name.labels }
    ensures within { result ≤ length entries.now }
    ensures place { IsPlaceOf first.now entries.now result }
    ensures is { drop result entries.now ≡ entries_between key_cmp (Included first.now) Unbounded entries.now }
{
    let word = word_of(apex, first);
    let mut low = 0;
    let mut high = entries.len();
    while low < high {
        let middle = low + (high - low) / 2;
        if is_before(entries, words, middle, word, first) {
            low = middle + 1;
        } else {
            high = middle;
        }
    }
    low
}

/// Whether there is no mark at a place.
pub(crate) fn is_clear(marks: &[bool], place: usize) -> bool
    ensures { IsTrue result → slice_get marks.now place ≡ Some false }
{
    match marks.get(place) {
        Some(mark) => !*mark,
        None => false,
    }
}

/// Whether there is no mark at the place of a host, if it has one.
fn is_clear_host(marks: &[bool], place: Option<usize>) -> bool
    ensures { IsTrue result → IsClearHost marks.now place }
{
    match place {
        Some(place) => is_clear(marks, place),
        None => true,
    }
}

/// Whether this is so of all hosts.
fn are_clear_hosts(marks: &[bool], places: &[Option<usize>]) -> bool
    ensures { IsTrue result → AllByRecursion (IsClearHost marks.now) places.now }
{
    for place in places {
        if !is_clear_host(marks, *place) {
            return false;
        }
    }
    true
}

/// The addresses of the servers at the cut of this place, unless an update may have changed one.
fn clear_glue<'z>(
    marks: &[bool],
    hosts: &[Vec<Option<usize>>],
    glue: &'z [Vec<Record>],
    place: usize,
) -> Option<&'z [Record]>
    ensures { IfSome (option_copied result) (IsClearGlue marks.now hosts.now glue.now place) }
{
    let Some(places) = hosts.get(place) else {
        return None;
    };
    let Some(glue) = glue.get(place) else {
        return None;
    };
    if are_clear_hosts(marks, places.as_slice()) {
        Some(glue.as_slice())
    } else {
        None
    }
}

/// Marks a place, and from there on those of the sets of the key's name.
fn mark_name(entries: &[SharedSet], marks: &mut Vec<bool>, place: usize, first: &RrKey)
    requires within { place ≤ length entries.now }
    requires marks { length marks.old.items ≡ length entries.now + 1 }
    requires least { first.now.record_type ≡ 0 }
    requires ordered { IsStrictlySortedBy key_cmp (keys_of entries.now) }
    requires place { IsPlaceOf first.now entries.now place }
    ensures len { length marks.new.items ≡ length marks.old.items }
    ensures is { AreMarked first.now entries.now place marks.old.items marks.new.items }
{
    marks[place] = true;
    let mut next = place;
    while next < entries.len() && first.name == entries[next].0.name {
        marks[next] = true;
        next += 1;
    }
}

/// Whether names have the NS records that they had, if one more may have changed: it had none before, and has none
/// after.
fn is_still(so_far: bool, before: bool, after: bool) -> bool
    ensures { IsTrue result → (so_far ≡ true) × (before ≡ false) × (after ≡ false) }
{
    so_far && !before && !after
}

impl Index {
    /// The index of the sets of the zone of this origin.
    pub fn new(alloc: Global, zone: ZoneView<'_>) -> Result<Index, AllocError>
        requires owners { AreOwners zone.origin.now (sets_of zone.sets.now) }
        requires features { AreFeatures (viewed zone) zone.has }
        requires ordered { AreSetsInOrder (sets_of zone.sets.now) }
        ensures { IfOk result (IsIndexOf zone.entry.origin.now (sets_of zone.entry.sets.now)) }
    {
        let mut words = Vec::with_capacity(alloc, zone.sets.len())?;
        let mut entries = Vec::with_capacity(alloc, zone.sets.len())?;
        let mut marks = Vec::with_capacity(alloc, zone.sets.len())?;
        for (key, set) in zone.sets {
            words.push(word_of(zone.origin, key))?;
            entries.push((key.clone()?, set.clone()?))?;
            marks.push(false)?;
        }
        marks.push(false)?;
        let cuts = Cuts::new(alloc, zone.origin, entries.as_slice())?;
        let glue = cuts.glue(alloc, zone)?;
        let hosts = cuts.hosts(alloc, zone.origin, entries.as_slice(), words.as_slice())?;
        Ok(Index {
            apex: zone.origin.clone()?,
            words,
            entries,
            cuts,
            glue,
            hosts,
            marks,
            changes: 0,
            has_servers: true,
        })
    }

    /// Whether the zone still has the NS records that the index has, and no others.
    #[inline(always)]
    pub(crate) fn has_servers(&self) -> bool
        ensures { result ≡ self.now.has_servers }
    {
        self.has_servers
    }

    /// Whether so many names were marked that the index should be made again: more than 64 and than a sixteenth of the
    /// sets.
    pub fn is_worn(&self) -> bool {
        self.changes > MOST_CHANGES && self.changes > self.entries.len() / MOST_CHANGES_SHARE
    }

    /// The sets on both sides of a key, whose name is at the apex or below it.
    #[inline(always)]
    pub(crate) fn beside_key(&self, first: &RrKey) -> Sides<'_>
        requires { Encloses self.now.apex.labels first.now.name.labels }
        ensures before { (place : ℕ) (e : Entry) → IsClearAt result.before.sets.now result.before.marks.now place e →
            IsClearAt self.now.entries self.now.marks place e }
        ensures unmarked { result.is_unmarked ≡ true → IsUnmarked self.now first.now }
        ensures is { result.from.now ≡ entries_between key_cmp (Included first.now) Unbounded self.now.entries }
        ensures ordered { IsStrictlySortedBy key_cmp (keys_of self.now.entries) }
    {
        let entries = self.entries.as_slice();
        let place = place_of(&self.apex, entries, self.words.as_slice(), first);
        let marks = self.marks.as_slice();
        Sides {
            before: Before {
                sets: &entries[..place],
                marks,
            },
            from: &entries[place..],
            is_unmarked: !marks[place],
        }
    }

    /// The highest cut above a key's name, which is at the apex or below it, if the zone is cut there. No type is below
    /// that of the key.
    #[inline(always)]
    pub(crate) fn cut_above(&self, first: &RrKey) -> Option<Cut<'_>>
        requires least { first.now.record_type ≡ 0 }
        requires qualified { first.now.name.is_fqdn ≡ true }
        requires within { Encloses self.now.apex.labels first.now.name.labels }
        ensures cut { CutAbove (record { origin = self.now.apex; sets = shared_sets self.now.entries }) first.now.name
            (servers_at result) }
        ensures glue { (origin : DomainName) (sets : Sets) → IsIndexOf origin sets self.now →
            IfSome result (HasGlue (record { origin = origin; sets = sets })) }
    {
        let Some(top) = self.cuts.above(&self.apex, first) else {
            return None;
        };
        let glue = clear_glue(
            self.marks.as_slice(),
            self.hosts.as_slice(),
            self.glue.as_slice(),
            top.place,
        );
        Some(Cut {
            servers: top.servers,
            glue,
        })
    }

    /// Marks the place of a key, whose name is at the apex or below it, and the sets of that name. No type is below that
    /// of the key.
    fn mark(&mut self, first: &RrKey)
        requires least { first.now.record_type ≡ 0 }
        requires within { Encloses self.old.apex.labels first.now.name.labels }
        ensures { Marks first.now self.old self.new }
    {
        let entries = self.entries.as_slice();
        let place = place_of(&self.apex, entries, self.words.as_slice(), first);
        mark_name(entries, &mut self.marks, place, first);
        self.changes = self.changes.saturating_add(1);
    }

    /// Marks the owner name of a record of an update that has left the zone these sets. Returns whether it did: not if
    /// memory was refused, or the name is outside of the zone.
    fn mark_owner(
        &mut self,
        alloc: Global,
        sets: &BTreeMap<RrKey, Rc<RecordSet>>,
        r: &Record,
    ) -> bool
        ensures { IsTrue result → (origin : DomainName) (rest : Records) →
            IsIndexBut (r.now ∷ rest) origin (sets_of sets.now) self.old →
            IsIndexBut rest origin (sets_of sets.now) self.new }
    {
        let Ok(name) = LowerName::new(alloc, &r.name) else {
            return false;
        };
        if !self.apex.zone_of(&name) {
            return false;
        }
        let first = RrKey::new(name, RecordType::new(0));
        let before = has_servers_in(self, &first);
        let after = has_servers_at(sets, &first);
        self.has_servers = is_still(self.has_servers, before, after);
        self.mark(&first);
        true
    }

    /// The index of the zone that an update with these records has left with these sets, by the index before it: that
    /// one, with marks at the names that may have changed. It takes time by the records. There is none if memory was
    /// refused, or a name is outside of the zone.
    pub fn after(
        self,
        alloc: Global,
        sets: &BTreeMap<RrKey, Rc<RecordSet>>,
        updates: &[Record],
    ) -> Option<Index>
        ensures { (origin : DomainName) (old : Sets) → IsIndexOf origin old self →
            KeepsOthers updates.now origin old (sets_of sets.now)
            → IfSome result (IsIndexOf origin (sets_of sets.now)) }
    {
        let mut index = self;
        let Ok(apex) = index.apex.clone() else {
            return None;
        };
        index.mark(&RrKey::new(apex, RecordType::new(0)));
        for r in updates {
            if !index.mark_owner(alloc, sets, r) {
                return None;
            }
        }
        Some(index)
    }
}
