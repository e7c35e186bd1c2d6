//! How the names of a zone are found.

ghost use Rattle.std.specs.Prelude.{◌≡◌, ◌↔◌, ◌⊎◌, [], ℕ, IfOk, MatchOption, IsTrue, true, false, cond, Some, None};
ghost use Rattle.std.specs.Bool.{OnTrue};
ghost use Rattle.std.specs.Option.{option_copied};
ghost use Rattle.hickory_base.specs.zone_store.ZoneAnswers.{records_at};
ghost use Rattle.hickory_base.specs.zone_store.ZoneSets.{AreSetsInOrder, has_name, sets_of, shared_sets};
ghost use Rattle.zone_answers.specs.Zones.{AreOwners, Answers, AnswersDirectly, Exists, Sets, answer, any_of, ancestor, at_node, by_wildcard, Zone, of_sets, rrset, wildcard};
ghost use Rattle.std.specs.Prelude.{IfSome, IsSome, drop, length};
ghost use Rattle.wire_names.specs.rr.domain.DomainName.{AreLabels, IsWire, wire_form};
ghost use Rattle.zone_answers.specs.representation.Features.{AreFeatures, IsOfLength};
ghost use Rattle.zone_answers.specs.representation.FoundRecords.{first_or};
ghost use Rattle.zone_answers.specs.representation.Indexes.{AreStill, IsClearAt, IsIndexOf, IsUnmarked};
ghost use Rattle.zone_answers.specs.representation.KeysBeside.{Entry, SharedMap, StandsBehind};
ghost use Rattle.std.specs.Option.{unwrap_or};
ghost use Rattle.wire_names.specs.rr.domain.DomainName.{DomainName};
ghost use Rattle.zone_answers.specs.representation.FoundRecords.{CutAbove, CutAt, WildFound, may_be_cut, name_of, outcome_of, IsAbove, IsBare, IsEncloser, IsWildAmong, Tells, missing_outcome, wild_or_referral};
ghost use Rattle.zone_answers.specs.representation.TopCuts.{HasGlue, servers_at};
ghost use Rattle.zone_answers.specs.Views.{viewed};
ghost use Rattle.wire_names.specs.rr.domain.NameOrder.{Encloses};
ghost use Rattle.wire_messages.specs.Numbers.{type_a, type_aaaa, type_any, type_cname, type_ds, type_ns};

use crate::cuts::Cut;
use crate::features::{Features, has_length};
use crate::index::{Before, Index, is_clear};
use crate::redirections::{Redirection, redirection_from, redirection_of};
use crate::view::ZoneView;
use crate::wildcards::{is_wildcard_beside, wildcard_below};
use hickory_base::zone_store::RecordSet;
use hickory_wire::{LowerName, Name, Record, RecordType, RrKey};
use std::alloc::{AllocError, Global};
use std::collections::BTreeMap;
use std::rc::Rc;

/// What a name owns that matters to a query.
#[derive(Clone, Copy)]
pub(crate) struct Node<'z> {
    /// The RRset of the type asked for.
    pub(crate) wanted: Option<&'z [Record]>,
    /// The RRset of type CNAME.
    pub(crate) alias: Option<&'z [Record]>,
    /// The RRset of type NS.
    pub(crate) servers: Option<&'z [Record]>,
    /// The first key from the name's first on.
    pub(crate) behind: Option<&'z RrKey>,
    /// The sets before the name's first key, if an index has them, and else none.
    pub(crate) before: Before<'z>,
    /// Whether no update has changed this since, except what is before.
    pub(crate) is_current: bool,
}

/// The key that was found before, or else this one.
fn first_key<'z>(found: Option<&'z RrKey>, key: &'z RrKey) -> Option<&'z RrKey>
    ensures { option_copied result ≡ Some (unwrap_or (option_copied found.entry) key.now) }
{
    match found {
        Some(first) => Some(first),
        None => Some(key),
    }
}

/// The RRset that was found before, or else these records, if they are of the type.
fn first_or<'z>(
    found: Option<&'z [Record]>,
    is_type: bool,
    records: &'z [Record],
) -> Option<&'z [Record]>
    ensures { option_copied result ≡ first_or (option_copied found.entry) (cond is_type (Some records.now) None) }
{
    match found {
        Some(first) => Some(first),
        None => { if is_type { Some(records) } else { None } }
    }
}

/// What the key's name owns. No type is below that of the key.
#[inline(always)]
fn node_at<'z>(
    sets: &'z BTreeMap<RrKey, Rc<RecordSet>>,
    first: &RrKey,
    record_type: RecordType,
) -> Node<'z>
    requires { first.now.record_type ≡ 0 }
    ensures wanted { option_copied result.wanted ≡ rrset (sets_of sets.now) first.now.name record_type }
    ensures alias { option_copied result.alias ≡ rrset (sets_of sets.now) first.now.name type_cname }
    ensures servers { option_copied result.servers ≡ rrset (sets_of sets.now) first.now.name type_ns }
    ensures behind { StandsBehind sets.now first.now (option_copied result.behind) }
    ensures before { result.before.sets.now ≡ [] }
{
    let mut wanted = None;
    let mut alias = None;
    let mut servers = None;
    let mut behind = None;
    for (key, set) in sets.range(first..) {
        behind = first_key(behind, key);
        if first.name != key.name {
            break;
        }
        let records = set.records();
        wanted = first_or(wanted, record_type == key.record_type, records);
        alias = first_or(alias, RecordType::CNAME == key.record_type, records);
        servers = first_or(servers, RecordType::NS == key.record_type, records);
    }
    Node {
        wanted,
        alias,
        servers,
        behind,
        before: Before {
            sets: &[],
            marks: &[],
        },
        is_current: true,
    }
}

/// The sets of a name by the index of a zone, in which the name is: as they were when the index was made.
// speed: served, an address
#[inline(always)]
fn node_in<'z>(index: &'z Index, first: &RrKey, record_type: RecordType) -> Node<'z>
    requires least { first.now.record_type ≡ 0 }
    requires within { Encloses index.now.apex.labels first.now.name.labels }
    ensures wanted { option_copied result.wanted ≡ rrset (shared_sets index.now.entries) first.now.name record_type }
    ensures alias { option_copied result.alias ≡ rrset (shared_sets index.now.entries) first.now.name type_cname }
    ensures servers { option_copied result.servers ≡ rrset (shared_sets index.now.entries) first.now.name type_ns }
    ensures behind { (origin : DomainName) (sets : SharedMap) → IsIndexOf origin (sets_of sets) index.now →
        AreSetsInOrder (sets_of sets) → result.is_current ≡ true
        → StandsBehind sets first.now (option_copied result.behind) }
    ensures before { (place : ℕ) (e : Entry) → IsClearAt result.before.sets.now result.before.marks.now place e →
        IsClearAt index.now.entries index.now.marks place e }
    ensures current { result.is_current ≡ true → IsUnmarked index.now first.now }
{
    let mut wanted = None;
    let mut alias = None;
    let mut servers = None;
    let mut behind = None;
    let sides = index.beside_key(first);
    for (key, set) in sides.from {
        behind = first_key(behind, key);
        if first.name != key.name {
            break;
        }
        let records = set.records();
        wanted = first_or(wanted, record_type == key.record_type, records);
        alias = first_or(alias, RecordType::CNAME == key.record_type, records);
        servers = first_or(servers, RecordType::NS == key.record_type, records);
    }
    Node {
        wanted,
        alias,
        servers,
        behind,
        before: sides.before,
        is_current: sides.is_unmarked,
    }
}

/// What the key's name, which is in the zone of this origin, owns, by the zone's index if it has one.
#[inline(always)]
fn node_by<'z>(
    index: Option<&'z Index>,
    origin: &LowerName,
    sets: &'z BTreeMap<RrKey, Rc<RecordSet>>,
    first: &RrKey,
    record_type: RecordType,
) -> Node<'z>
    requires least { first.now.record_type ≡ 0 }
    requires within { Encloses origin.now.labels first.now.name.labels }
    requires index { IfSome (option_copied index) (IsIndexOf origin.now (sets_of sets.now)) }
    ensures wanted { option_copied result.wanted ≡ rrset (sets_of sets.now) first.now.name record_type }
    ensures alias { option_copied result.alias ≡ rrset (sets_of sets.now) first.now.name type_cname }
    ensures servers { option_copied result.servers ≡ rrset (sets_of sets.now) first.now.name type_ns }
    ensures behind { StandsBehind sets.now first.now (option_copied result.behind) }
    ensures before { AreStill result.before (sets_of sets.now) }
{
    if let Some(index) = index {
        // That keys are in order is known of a map whose length was read.
        let _ = sets.len();
        let node = node_in(index, first, record_type);
        if node.is_current {
            return node;
        }
    }
    node_at(sets, first, record_type)
}

/// Whether the key's name owns NS records, by the sets of a zone.
pub(crate) fn has_servers_at(sets: &BTreeMap<RrKey, Rc<RecordSet>>, first: &RrKey) -> bool
    requires { first.now.record_type ≡ 0 }
    ensures { result ≡ false → rrset (sets_of sets.now) first.now.name type_ns ≡ None }
{
    node_at(sets, first, RecordType::NS).servers.is_some()
}

/// Whether the key's name, which is in the zone, owns NS records, by the zone's index.
pub(crate) fn has_servers_in(index: &Index, first: &RrKey) -> bool
    requires least { first.now.record_type ≡ 0 }
    requires within { Encloses index.now.apex.labels first.now.name.labels }
    ensures { result ≡ false → rrset (shared_sets index.now.entries) first.now.name type_ns ≡ None }
{
    node_in(index, first, RecordType::NS).servers.is_some()
}

/// The addresses that a name owns.
#[derive(Clone, Copy)]
pub(crate) struct Addresses<'z> {
    /// The RRset of type A.
    pub(crate) four: Option<&'z [Record]>,
    /// The RRset of type AAAA.
    pub(crate) six: Option<&'z [Record]>,
}

/// The addresses that the key's name owns, both in one search. No type is below that of the key.
pub(crate) fn addresses_at<'z>(
    sets: &'z BTreeMap<RrKey, Rc<RecordSet>>,
    first: &RrKey,
) -> Addresses<'z>
    requires { first.now.record_type ≡ 0 }
    ensures four { option_copied result.four ≡ rrset (sets_of sets.now) first.now.name type_a }
    ensures six { option_copied result.six ≡ rrset (sets_of sets.now) first.now.name type_aaaa }
{
    let mut four = None;
    let mut six = None;
    for (key, set) in sets.range(first..) {
        if first.name != key.name {
            break;
        }
        let records = set.records();
        four = first_or(four, RecordType::A == key.record_type, records);
        six = first_or(six, RecordType::AAAA == key.record_type, records);
    }
    Addresses { four, six }
}

/// The keys on both sides of a name, in their order.
#[derive(Clone, Copy)]
pub(crate) struct Neighbours<'z> {
    /// The last key before the name's first.
    pub(crate) before: Option<&'z RrKey>,
    /// The first key from the name's first on.
    pub(crate) behind: Option<&'z RrKey>,
}

/// The keys beside the key's name, of which the one behind it is known. No type is below that of the key.
fn beside<'z>(
    sets: &'z BTreeMap<RrKey, Rc<RecordSet>>,
    first: &RrKey,
    behind: Option<&'z RrKey>,
) -> Neighbours<'z>
    requires least { first.now.record_type ≡ 0 }
    requires qualified { first.now.name.is_fqdn ≡ true }
    requires behind { StandsBehind sets.now first.now (option_copied behind) }
    ensures { (origin : DomainName) → AreOwners origin (sets_of sets.now) →
        Tells (sets_of sets.now) first.now.name result }
{
    let before = match sets.range(..first).next_back() {
        Some((key, _)) => Some(key),
        None => None,
    };
    Neighbours { before, behind }
}

/// Whether there is a key, and its name is the name or below it.
#[inline(always)]
fn is_above(name: &LowerName, key: Option<&RrKey>) -> bool
    ensures { IsTrue result ↔ IsAbove name.now (option_copied key.entry) }
{
    match key {
        Some(key) => name.zone_of(&key.name),
        None => false,
    }
}

/// Takes labels off the name's front until it exists, as the keys beside it tell. Returns whether it does in the end.
fn keep_closest_encloser(beside: Neighbours<'_>, name: &mut LowerName) -> bool
    requires { name.old.is_fqdn ≡ true }
    ensures found { (sets : Sets) → Tells sets name.old beside.entry →
        OnTrue result (IsEncloser sets name.old name.new) }
    ensures none { (sets : Sets) → Tells sets name.old beside.entry → result ≡ false → (k : ℕ) →
        ¬ (Exists sets (ancestor name.old k)) }
{
    while !is_above(name, beside.before) && !is_above(name, beside.behind) {
        if name.as_name().is_root() {
            return false;
        }
        name.remove_first_label();
    }
    true
}

/// The closest encloser of the key's name, which is the name itself where that exists, with the key behind the name
/// known. There is none where no name above exists.
fn encloser_beside<'z>(
    sets: &'z BTreeMap<RrKey, Rc<RecordSet>>,
    first: &RrKey,
    behind: Option<&'z RrKey>,
) -> Result<Option<LowerName>, AllocError>
    requires least { first.now.record_type ≡ 0 }
    requires qualified { first.now.name.is_fqdn ≡ true }
    requires behind { StandsBehind sets.now first.now (option_copied behind) }
    ensures { (origin : DomainName) → AreOwners origin (sets_of sets.now) → IfOk result
        (λ found. MatchOption found ((k : ℕ) → ¬ (Exists (sets_of sets.now) (ancestor first.now.name k)))
        (IsEncloser (sets_of sets.now) first.now.name)) }
{
    let mut name = first.name.clone()?;
    if keep_closest_encloser(beside(sets, first, behind), &mut name) {
        Ok(Some(name))
    } else {
        Ok(None)
    }
}

/// The RRset under a key.
pub fn set_under<'z>(sets: &'z BTreeMap<RrKey, Rc<RecordSet>>, key: &RrKey) -> Option<&'z [Record]>
    ensures { option_copied result ≡ rrset (sets_of sets.now) key.now.name key.now.record_type }
{
    match sets.get(key) {
        None => None,
        Some(set) => Some(set.records()),
    }
}

/// Where the authority of a zone ends.
#[derive(Clone, Copy)]
pub(crate) struct Delegation<'z> {
    /// The NS records of the cut.
    pub(crate) servers: &'z [Record],
    /// Whether the name itself is cut off, and not one above it.
    pub(crate) is_at_name: bool,
}

/// The NS records of the fully qualified name of these labels.
#[inline(never)]
fn servers_of<'z>(
    alloc: Global,
    sets: &'z BTreeMap<RrKey, Rc<RecordSet>>,
    wire: &[u8],
) -> Result<Option<&'z [Record]>, AllocError>
    requires { IsWire wire.now }
    ensures { IfOk result (λ found. option_copied found ≡ rrset (sets_of sets.now) (name_of wire.now) type_ns) }
{
    let name = Name::from_wire(alloc, wire, true)?;
    let key = RrKey::new(LowerName::new(alloc, &name)?, RecordType::NS);
    Ok(set_under(sets, &key))
}

/// Whether a zone may be cut at a name of this length, where the name at its apex has that one.
fn may_be_cut(apex: usize, has: Features, len: usize) -> bool
    ensures { result ≡ may_be_cut apex has len }
{
    apex < len && has_length(has.cuts, len)
}

/// The records that there are, or else those found before.
fn or_before<'z>(found: Option<&'z [Record]>, before: Option<&'z [Record]>) -> Option<&'z [Record]>
    ensures { option_copied result ≡ first_or (option_copied found.entry) (option_copied before.entry) }
{
    match found {
        Some(records) => Some(records),
        None => before,
    }
}

/// The NS records of the name of these labels where the zone may be cut there, or else those found below.
#[inline(always)]
fn servers_or<'z>(
    alloc: Global,
    sets: &'z BTreeMap<RrKey, Rc<RecordSet>>,
    apex: usize,
    wire: &[u8],
    has: Features,
    below: Option<&'z [Record]>,
) -> Result<Option<&'z [Record]>, AllocError>
    requires { IsWire wire.now }
    ensures { IfOk result (λ found. option_copied found ≡
        cond (may_be_cut apex has (length wire.now))
        (first_or (rrset (sets_of sets.now) (name_of wire.now) type_ns) (option_copied below.entry))
        (option_copied below.entry)) }
{
    if may_be_cut(apex, has, wire.len()) {
        Ok(or_before(servers_of(alloc, sets, wire)?, below))
    } else {
        Ok(below)
    }
}

/// The servers of the highest cut above a name in the zone, if it is cut there. At its apex and above it there is none.
#[inline(never)]
fn climb_to_cut<'z>(
    alloc: Global,
    zone: ZoneView<'z>,
    name: &LowerName,
) -> Result<Option<&'z [Record]>, AllocError>
    requires qualified { name.now.is_fqdn ≡ true }
    requires within { Encloses zone.origin.now.labels name.now.labels }
    requires features { AreFeatures (viewed zone) zone.has }
    ensures { IfOk result (λ found. CutAbove (viewed zone.entry) name.now
        (option_copied found)) }
{
    let wire = name.as_name().as_wire();
    let apex = zone.origin.as_name().as_wire().len();
    let mut highest = None;
    let mut place = 0;
    while place + apex < wire.len() {
        place += 1 + usize::from(wire[place]);
        highest = servers_or(alloc, zone.sets, apex, &wire[place..], zone.has, highest)?;
    }
    Ok(highest)
}

/// The highest cut above a name by the index of a zone. Only what is two labels or more below the apex can have one.
#[inline(always)]
fn cut_above_in<'z>(index: &'z Index, origin: &LowerName, first: &RrKey) -> Option<Cut<'z>>
    requires least { first.now.record_type ≡ 0 }
    requires qualified { first.now.name.is_fqdn ≡ true }
    requires within { Encloses origin.now.labels first.now.name.labels }
    requires index { index.now.apex ≡ origin.now }
    ensures cut { CutAbove (record { origin = origin.now; sets = shared_sets index.now.entries }) first.now.name
        (servers_at result) }
    ensures glue { (sets : Sets) → IsIndexOf origin.now sets index.now →
        IfSome result (HasGlue (record { origin = origin.now; sets = sets })) }
{
    if parent_len(&first.name) <= origin.as_name().as_wire().len() {
        return None;
    }
    // speed: served, a referral
    index.cut_above(first)
}

/// A cut with these servers, whose addresses are not known, if there are any.
fn unknown_glue<'z>(servers: Option<&'z [Record]>) -> Option<Cut<'z>>
    ensures servers { servers_at result ≡ option_copied servers.entry }
    ensures glue { IfSome result (λ cut. cut.glue ≡ None) }
{
    match servers {
        Some(servers) => Some(Cut {
            servers,
            glue: None,
        }),
        None => None,
    }
}

/// The highest cut above a key's name, by the zone's index, if it has one. No type is below that of the key.
#[inline(always)]
pub fn cut_above<'z>(
    alloc: Global,
    zone: ZoneView<'z>,
    first: &RrKey,
    index: Option<&'z Index>,
) -> Result<Option<Cut<'z>>, AllocError>
    requires least { first.now.record_type ≡ 0 }
    requires qualified { first.now.name.is_fqdn ≡ true }
    requires within { Encloses zone.origin.now.labels first.now.name.labels }
    requires features { AreFeatures (viewed zone) zone.has }
    requires index { IfSome (option_copied index) (IsIndexOf zone.origin.now (sets_of zone.sets.now)) }
    ensures cut { IfOk result (λ found.
        CutAbove (viewed zone.entry) first.now.name (servers_at found)) }
    ensures glue { IfOk result (λ found.
        IfSome found (HasGlue (viewed zone.entry))) }
{
    match index {
        Some(index) if index.has_servers() => Ok(cut_above_in(index, zone.origin, first)),
        _ => {
            let servers = climb_to_cut(alloc, zone, &first.name)?;
            Ok(unknown_glue(servers))
        }
    }
}

/// The servers of a cut, if there is one.
pub fn servers_at<'z>(cut: Option<Cut<'z>>) -> Option<&'z [Record]>
    ensures { option_copied result ≡ servers_at cut.entry }
{
    match cut {
        Some(cut) => Some(cut.servers),
        None => None,
    }
}

/// Where the authority of a zone ends above a name or at it, where the servers of the highest cut above it are known,
/// and its own NS records.
fn cut_at<'z>(
    origin: &LowerName,
    name: &LowerName,
    above: Option<&'z [Record]>,
    servers: Option<&'z [Record]>,
) -> Option<Delegation<'z>>
    requires within { Encloses origin.now.labels name.now.labels }
    ensures { (sets : Sets) → CutAbove (record { origin = origin.now; sets = sets }) name.now
        (option_copied above.entry) → option_copied servers.entry ≡ rrset sets name.now type_ns
        → CutAt (record { origin = origin.now; sets = sets }) name.now result }
{
    if let Some(servers) = above {
        return Some(Delegation {
            servers,
            is_at_name: false,
        });
    }
    let Some(servers) = servers else {
        return None;
    };
    if name.zone_of(origin) {
        return None;
    }
    Some(Delegation {
        servers,
        is_at_name: true,
    })
}

/// What a zone has for a name and a type, where it lies.
#[derive(Clone, Copy)]
pub enum Found<'z> {
    /// The records asked for.
    Answer(&'z [Record]),
    /// All records of the name, of whatever type, if it has any.
    Every,
    /// The CNAME of the name.
    Alias(&'z [Record]),
    /// The servers of a zone below.
    Referral(&'z [Record]),
    /// Records of a wildcard, which the name asked for is to own.
    WildAnswer(&'z [Record]),
    /// All records of the wildcard whose key this is, which the name asked for is to own.
    WildEvery(&'z RrKey),
    /// The CNAME of a wildcard, which the name asked for is to own.
    WildAlias(&'z [Record]),
    /// The name exists, and has no such records.
    NoData,
    /// The name does not exist.
    NoName,
    /// The DNAME records that redirect the name.
    Redirected(Redirection<'z>),
}

/// What is found at a name that owns this.
fn found_at(node: Node<'_>) -> Found<'_>
    ensures { (sets : Sets) (name : DomainName) →
        outcome_of sets name result ≡ of_sets (option_copied node.entry.wanted) (option_copied node.entry.alias) }
{
    match node.wanted {
        Some(records) => Found::Answer(records),
        None => match node.alias {
            Some(records) => Found::Alias(records),
            None => Found::NoData,
        },
    }
}

/// What is found at a name for which a wildcard stands that owns this.
fn found_wild(node: Node<'_>) -> Found<'_>
    ensures { (sets : Sets) (name : DomainName) →
        outcome_of sets name result ≡ by_wildcard
        (of_sets (option_copied node.entry.wanted) (option_copied node.entry.alias)) }
{
    match node.wanted {
        Some(records) => Found::WildAnswer(records),
        None => match node.alias {
            Some(records) => Found::WildAlias(records),
            None => Found::NoData,
        },
    }
}

/// Whether records of any type are asked for.
fn is_any(record_type: RecordType) -> bool
    ensures { IsTrue result ↔ (record_type ≡ type_any) }
{
    record_type == RecordType::ANY
}

/// Whether the key has this name.
fn is_of(name: &LowerName, key: &RrKey) -> bool
    ensures { result ≡ has_name name.now key.now }
{
    name == &key.name
}

/// What is found for any type at a name for which a wildcard stands, whose first key this is.
fn find_wild_any<'z>(first: &RrKey, behind: Option<&'z RrKey>) -> Found<'z>
    requires { first.now.record_type ≡ 0 }
    ensures { (sets : SharedMap) → StandsBehind sets first.now (option_copied behind.entry)
        → (name : DomainName) → outcome_of (sets_of sets) name result ≡ by_wildcard
        (any_of (records_at first.now.name (sets_of sets))) }
{
    match behind {
        None => Found::NoData,
        Some(key) => {
            if is_of(&first.name, key) {
                Found::WildEvery(key)
            } else {
                Found::NoData
            }
        }
    }
}

/// What is found at a name for which a wildcard stands, whose first key this is and that owns this.
fn find_at_wildcard<'z>(first: &RrKey, node: Node<'z>, record_type: RecordType) -> Found<'z>
    requires { first.now.record_type ≡ 0 }
    ensures { (sets : SharedMap) → StandsBehind sets first.now (option_copied node.entry.behind)
        → option_copied node.entry.wanted ≡ rrset (sets_of sets) first.now.name record_type →
        option_copied node.entry.alias ≡ rrset (sets_of sets) first.now.name type_cname
        → (name : DomainName) → outcome_of (sets_of sets) name result ≡ by_wildcard
        (at_node (sets_of sets) first.now.name record_type) }
{
    if is_any(record_type) {
        find_wild_any(first, node.behind)
    } else {
        found_wild(node)
    }
}

/// Whether records of the type stand at the cut itself, on the side of the zone above (RFC 4035 section 3.1.4.1).
fn stands_above(cut: Delegation<'_>, record_type: RecordType) -> bool
    ensures { IsTrue result ↔ (IsTrue cut.entry.is_at_name × (record_type ≡ type_ds)) }
{
    cut.is_at_name && record_type == RecordType::DS
}

/// What is found at a name of the zone's own that exists and owns this.
fn found_at_existing(node: Node<'_>, record_type: RecordType) -> Found<'_>
    ensures { (sets : Sets) (name : DomainName) → option_copied node.entry.wanted ≡ rrset sets name record_type →
        option_copied node.entry.alias ≡ rrset sets name type_cname
        → outcome_of sets name result ≡ at_node sets name record_type }
{
    if is_any(record_type) {
        Found::Every
    } else {
        found_at(node)
    }
}

/// What is found at a name that exists.
fn find_existing<'z>(
    node: Node<'z>,
    record_type: RecordType,
    cut: Option<Delegation<'z>>,
) -> Found<'z>
    ensures { (zone : Zone) (name : DomainName) → CutAt zone name cut.entry → Exists zone.sets name
        → option_copied node.entry.wanted ≡ rrset zone.sets name record_type →
        option_copied node.entry.alias ≡ rrset zone.sets name type_cname →
        AnswersDirectly zone name record_type (outcome_of zone.sets name result) }
{
    if let Some(cut) = cut {
        if !stands_above(cut, record_type) {
            return Found::Referral(cut.servers);
        }
    }
    found_at_existing(node, record_type)
}

/// What is found at the wildcard right below a name, for a name that does not exist, if there is such a wildcard.
fn find_wild<'z>(
    alloc: Global,
    sets: &'z BTreeMap<RrKey, Rc<RecordSet>>,
    encloser: &LowerName,
    record_type: RecordType,
    has: Features,
) -> Result<Option<Found<'z>>, AllocError>
    requires qualified { encloser.now.is_fqdn ≡ true }
    requires features { AreLabels encloser.now.labels → Exists (sets_of sets.now) (wildcard encloser.now) →
        IsOfLength has.wildcards (length (wire_form encloser.now.labels)) }
    ensures { (origin : DomainName) → AreOwners origin (sets_of sets.now) →
        IfOk result (WildFound (sets_of sets.now) encloser.now record_type) }
{
    if !has_length(has.wildcards, encloser.as_name().as_wire().len()) {
        return Ok(None);
    }
    let Some(source) = wildcard_below(alloc, encloser)? else {
        return Ok(None);
    };
    let first = RrKey::new(source, RecordType::new(0));
    let node = node_at(sets, &first, record_type);
    if is_above(&first.name, node.behind) {
        Ok(Some(find_at_wildcard(&first, node, record_type)))
    } else {
        Ok(None)
    }
}

/// The servers of a cut above a name, where nothing can redirect the name before.
fn referral_at_once<'z>(above: Option<&'z [Record]>, has: Features) -> Option<&'z [Record]>
    ensures { IfSome result (λ servers. (option_copied above.entry ≡ Some servers.now) × (has.dnames ≡ false)) }
{
    if has.dnames { None } else { above }
}

/// What the zone has for a name in it that does not exist, below its closest encloser, where this is found at the
/// wildcard right below that one.
fn found_below<'z>(
    zone: ZoneView<'z>,
    encloser: &LowerName,
    above: Option<&'z [Record]>,
    wild: Option<Found<'z>>,
) -> Result<Found<'z>, AllocError>
    requires within { Encloses zone.origin.now.labels encloser.now.labels }
    requires features { AreFeatures (viewed zone) zone.has }
    ensures { (name : DomainName) (t : ℕ) → IsEncloser (sets_of zone.entry.sets.now) name encloser.now →
        ¬ (Exists (sets_of zone.entry.sets.now) name)
        → CutAbove (viewed zone.entry) name (option_copied above.entry) →
        WildFound (sets_of zone.entry.sets.now) encloser.now t wild.entry
        → IfOk result (λ found. Answers (viewed zone.entry) name t
        (outcome_of (sets_of zone.entry.sets.now) name found)) }
{
    if let Some(by) = redirection_from(zone, encloser)? {
        return Ok(Found::Redirected(by));
    }
    if let Some(cut) = above {
        return Ok(Found::Referral(cut));
    }
    match wild {
        Some(found) => Ok(found),
        None => Ok(Found::NoName),
    }
}

/// Whether a name exists, as a wildcard right below it tells, or a key that is at it or below it. There may be others
/// that tell so.
fn is_told(name: &LowerName, wild: Option<Found<'_>>, key: Option<&RrKey>) -> bool
    ensures { IsTrue result → IsSome wild.entry ⊎ IsAbove name.now (option_copied key.entry) }
{
    match wild {
        Some(_) => true,
        None => is_above(name, key),
    }
}

/// What the zone has for a name in it that does not exist, where its closest encloser is looked for among the keys
/// beside it.
#[inline(never)]
fn look_beside<'z>(
    alloc: Global,
    zone: ZoneView<'z>,
    first: &RrKey,
    record_type: RecordType,
    behind: Option<&'z RrKey>,
    above: Option<&'z [Record]>,
) -> Result<Found<'z>, AllocError>
    requires least { first.now.record_type ≡ 0 }
    requires qualified { first.now.name.is_fqdn ≡ true }
    requires owners { AreOwners zone.origin.now (sets_of zone.sets.now) }
    requires within { Encloses zone.origin.now.labels first.now.name.labels }
    requires behind { StandsBehind zone.sets.now first.now (option_copied behind) }
    requires missing { ¬ (Exists (sets_of zone.sets.now) first.now.name) }
    requires above { CutAbove (viewed zone) first.now.name
        (option_copied above) }
    requires features { AreFeatures (viewed zone) zone.has }
    ensures { IfOk result (λ found. Answers (viewed zone.entry) first.now.name
        record_type (outcome_of (sets_of zone.entry.sets.now) first.now.name found)) }
{
    let Some(encloser) = encloser_beside(zone.sets, first, behind)? else {
        return Ok(Found::NoName);
    };
    let wild = find_wild(alloc, zone.sets, &encloser, record_type, zone.has)?;
    found_below(zone, &encloser, above, wild)
}

/// How many bytes the labels of the name right above this one take in wire form.
fn parent_len(name: &LowerName) -> usize
    ensures len { result ≡ length (wire_form (drop 1 name.now.labels)) }
    ensures labels { AreLabels (drop 1 name.now.labels) }
{
    let wire = name.as_name().as_wire();
    if wire.is_empty() {
        return 0;
    }
    wire.len() - 1 - usize::from(wire[0])
}

/// Whether there is no DNAME, and the name right above this one exists, as a key that is at it or below it tells,
/// without a wildcard right below it. There may be others of which this is so.
#[inline(always)]
fn is_bare(name: &LowerName, behind: Option<&RrKey>, has: Features) -> bool
    ensures { IsTrue result → IsBare has name.now (option_copied behind.entry) }
{
    if has.dnames || has_length(has.wildcards, parent_len(name)) {
        return false;
    }
    match behind {
        Some(key) => name.has_parent_above(&key.name),
        None => false,
    }
}

/// How many of the sets before a name are looked at for a wildcard's, of which most own no more.
const MOST_WILD: usize = 4;

/// The records of a type of the wildcard right below the name above this one, if they are among the last of these sets,
/// and no update may have changed them.
fn wild_among<'z>(
    name: &LowerName,
    record_type: RecordType,
    before: Before<'z>,
) -> Option<&'z [Record]>
    ensures { IfSome result (λ records. IsWildAmong before.entry name.now record_type records.now) }
{
    let mut place = before.sets.len().saturating_sub(MOST_WILD);
    while place < before.sets.len() {
        let (key, set) = &before.sets[place];
        if key.record_type == record_type
            && is_wildcard_beside(&key.name, name)
            && is_clear(before.marks, place)
        {
            return Some(set.records());
        }
        place += 1;
    }
    None
}

/// The records of the wildcard that stands for a name, from among these sets, where nothing redirects the name, and
/// records of one type are asked for.
#[inline(always)]
fn wild_at_once<'z>(
    name: &LowerName,
    record_type: RecordType,
    before: Before<'z>,
    has: Features,
) -> Option<&'z [Record]>
    ensures { IfSome result (λ records. (has.dnames ≡ false) × ¬ (record_type ≡ type_any) ×
        IsWildAmong before.entry name.now record_type records.now) }
{
    if has.dnames || is_any(record_type) {
        return None;
    }
    wild_among(name, record_type, before)
}

/// What is found where a wildcard that owns these records stands for a name that does not exist, and no DNAME redirects
/// it.
fn found_wild_answer<'z>(above: Option<&'z [Record]>, records: &'z [Record]) -> Found<'z>
    ensures { (sets : Sets) (name : DomainName) →
        outcome_of sets name result ≡ wild_or_referral (option_copied above.entry) records.now }
{
    match above {
        Some(cut) => Found::Referral(cut),
        None => Found::WildAnswer(records),
    }
}

/// What is found where no wildcard stands for a name that does not exist, and no DNAME redirects it.
fn found_missing<'z>(above: Option<&'z [Record]>) -> Found<'z>
    ensures { (sets : Sets) (name : DomainName) →
        outcome_of sets name result ≡ missing_outcome (option_copied above.entry) }
{
    match above {
        Some(cut) => Found::Referral(cut),
        None => Found::NoName,
    }
}

/// What the zone has for a name in it that does not exist. Where a wildcard right below the name above it or the key
/// behind it tells that the name above exists, no other key is looked for.
#[inline(never)]
fn look_above_by_name<'z>(
    alloc: Global,
    zone: ZoneView<'z>,
    first: &RrKey,
    record_type: RecordType,
    behind: Option<&'z RrKey>,
    above: Option<&'z [Record]>,
) -> Result<Found<'z>, AllocError>
    requires least { first.now.record_type ≡ 0 }
    requires qualified { first.now.name.is_fqdn ≡ true }
    requires owners { AreOwners zone.origin.now (sets_of zone.sets.now) }
    requires within { Encloses zone.origin.now.labels first.now.name.labels }
    requires behind { StandsBehind zone.sets.now first.now (option_copied behind) }
    requires missing { ¬ (Exists (sets_of zone.sets.now) first.now.name) }
    requires above { CutAbove (viewed zone) first.now.name
        (option_copied above) }
    requires features { AreFeatures (viewed zone) zone.has }
    ensures { IfOk result (λ found. Answers (viewed zone.entry) first.now.name
        record_type (outcome_of (sets_of zone.entry.sets.now) first.now.name found)) }
{
    let mut parent = first.name.clone()?;
    parent.remove_first_label();
    // speed: served, a wildcard
    let wild = find_wild(alloc, zone.sets, &parent, record_type, zone.has)?;
    if is_told(&parent, wild, behind) {
        return found_below(zone, &parent, above, wild);
    }
    look_beside(alloc, zone, first, record_type, behind, above)
}

/// What a zone answers for a name that it has not, by the names above it. No name is made in a zone without DNAME in
/// two cases: the key behind the name tells that the name above exists, and right below one as long as that there is no
/// wildcard; or records of one type are asked for, and among the last sets before the name are those of that type of
/// the wildcard right below the name above.
#[inline(always)]
fn look_above<'z>(
    alloc: Global,
    zone: ZoneView<'z>,
    first: &RrKey,
    record_type: RecordType,
    behind: Option<&'z RrKey>,
    before: Before<'z>,
    above: Option<&'z [Record]>,
) -> Result<Found<'z>, AllocError>
    requires least { first.now.record_type ≡ 0 }
    requires qualified { first.now.name.is_fqdn ≡ true }
    requires owners { AreOwners zone.origin.now (sets_of zone.sets.now) }
    requires within { Encloses zone.origin.now.labels first.now.name.labels }
    requires behind { StandsBehind zone.sets.now first.now (option_copied behind) }
    requires before { AreStill before (sets_of zone.sets.now) }
    requires missing { ¬ (Exists (sets_of zone.sets.now) first.now.name) }
    requires above { CutAbove (viewed zone) first.now.name
        (option_copied above) }
    requires features { AreFeatures (viewed zone) zone.has }
    ensures { IfOk result (λ found. Answers (viewed zone.entry) first.now.name
        record_type (outcome_of (sets_of zone.entry.sets.now) first.now.name found)) }
{
    // speed: served, a name that is not there
    if is_bare(&first.name, behind, zone.has) {
        return Ok(found_missing(above));
    }
    // speed: served, a wildcard
    if let Some(records) = wild_at_once(&first.name, record_type, before, zone.has) {
        return Ok(found_wild_answer(above, records));
    }
    look_above_by_name(alloc, zone, first, record_type, behind, above)
}

/// What the zone has for a name in it that exists and owns this.
fn look_at<'z>(
    zone: ZoneView<'z>,
    name: &LowerName,
    record_type: RecordType,
    node: Node<'z>,
    above: Option<&'z [Record]>,
) -> Result<Found<'z>, AllocError>
    requires within { Encloses zone.origin.now.labels name.now.labels }
    requires exists { Exists (sets_of zone.sets.now) name.now }
    requires wanted { option_copied node.wanted ≡ rrset (sets_of zone.sets.now) name.now record_type }
    requires alias { option_copied node.alias ≡ rrset (sets_of zone.sets.now) name.now type_cname }
    requires servers { option_copied node.servers ≡ rrset (sets_of zone.sets.now) name.now type_ns }
    requires above { CutAbove (viewed zone) name.now (option_copied above) }
    requires features { AreFeatures (viewed zone) zone.has }
    ensures { IfOk result (λ found. Answers (viewed zone.entry) name.now
        record_type (outcome_of (sets_of zone.entry.sets.now) name.now found)) }
{
    if let Some(by) = redirection_of(zone, name)? {
        return Ok(Found::Redirected(by));
    }
    let cut = cut_at(zone.origin, name, above, node.servers);
    Ok(find_existing(node, record_type, cut))
}

/// The records asked for, where the name owns them and neither a DNAME record nor a cut can stand before them.
#[inline(always)]
fn plain_answer<'z>(
    node: &Node<'z>,
    record_type: RecordType,
    above: Option<&'z [Record]>,
    has: Features,
) -> Option<&'z [Record]>
    ensures { (zone : Zone) (name : DomainName) → AreFeatures zone has → CutAbove zone name (option_copied above.entry)
        → option_copied node.now.wanted ≡ rrset zone.sets name record_type →
        option_copied node.now.servers ≡ rrset zone.sets name type_ns
        → IfSome result (λ records. Answers zone name record_type (answer records.now)) }
{
    if has.dnames || above.is_some() || node.servers.is_some() || is_any(record_type) {
        return None;
    }
    node.wanted
}

/// What the zone of this origin has for a name in it and a type (RFC 1034 section 4.3.2). No type is below that of the
/// key.
pub fn look_up<'z>(
    alloc: Global,
    zone: ZoneView<'z>,
    first: &RrKey,
    record_type: RecordType,
) -> Result<Found<'z>, AllocError>
    requires least { first.now.record_type ≡ 0 }
    requires qualified { first.now.name.is_fqdn ≡ true }
    requires owners { AreOwners zone.origin.now (sets_of zone.sets.now) }
    requires within { Encloses zone.origin.now.labels first.now.name.labels }
    requires features { AreFeatures (viewed zone) zone.has }
    ensures { IfOk result (λ found. Answers (viewed zone.entry) first.now.name
        record_type (outcome_of (sets_of zone.entry.sets.now) first.now.name found)) }
{
    let above = servers_at(cut_above(alloc, zone, first, None)?);
    look_up_by(alloc, zone, first, record_type, above, None)
}

/// What a zone answers for a name and a type, by the zone's index, if it has one, where the servers of the highest cut
/// above the name are known.
#[inline(always)]
pub fn look_up_by<'z>(
    alloc: Global,
    zone: ZoneView<'z>,
    first: &RrKey,
    record_type: RecordType,
    above: Option<&'z [Record]>,
    index: Option<&'z Index>,
) -> Result<Found<'z>, AllocError>
    requires least { first.now.record_type ≡ 0 }
    requires qualified { first.now.name.is_fqdn ≡ true }
    requires owners { AreOwners zone.origin.now (sets_of zone.sets.now) }
    requires within { Encloses zone.origin.now.labels first.now.name.labels }
    requires features { AreFeatures (viewed zone) zone.has }
    requires above { CutAbove (viewed zone) first.now.name
        (option_copied above) }
    requires index { IfSome (option_copied index) (IsIndexOf zone.origin.now (sets_of zone.sets.now)) }
    ensures { IfOk result (λ found. Answers (viewed zone.entry) first.now.name
        record_type (outcome_of (sets_of zone.entry.sets.now) first.now.name found)) }
{
    if let Some(servers) = referral_at_once(above, zone.has) {
        return Ok(Found::Referral(servers));
    }
    let node = node_by(index, zone.origin, zone.sets, first, record_type);
    // speed: served, an address
    if let Some(records) = plain_answer(&node, record_type, above, zone.has) {
        return Ok(Found::Answer(records));
    }
    if is_above(&first.name, node.behind) {
        look_at(zone, &first.name, record_type, node, above)
    } else {
        look_above(
            alloc,
            zone,
            first,
            record_type,
            node.behind,
            node.before,
            above,
        )
    }
}
