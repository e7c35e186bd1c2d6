//! What a zone has, and where: what it does not have costs a query nothing.

ghost use Rattle.std.specs.Prelude.{◌≡◌, ◌↔◌, ◌==◌, IsTrue};
ghost use Rattle.std.specs.List.{All};
ghost use Rattle.std.specs.BTreeMap.{keys};
ghost use Rattle.hickory_base.specs.zone_store.ZoneSets.{sets_of};
ghost use Rattle.wire_names.specs.rr.domain.DomainName.{AreLabels, DomainName, wire_form};
ghost use Rattle.zone_answers.specs.Zones.{Exists, IsCut, wildcard};
ghost use Rattle.std.specs.Prelude.{◌<◌, ◌-◌, ◌+◌, ℕ, length, slice_index};
ghost use Rattle.zone_answers.specs.representation.Features.{AreAmong, AreFeatures, AreStarsWithin, Covers, CutsNothing, CutsWithin, Includes, IsNoDname, IsOfLength, IsStarless, IsWildWithin, has_star};

use crate::redirections::DNAME;
use hickory_base::zone_store::RecordSet;
use hickory_wire::{LowerName, Name, Record, RecordType, RrKey};
use std::collections::BTreeMap;
use std::rc::Rc;

/// Lengths of names in wire form, without the byte 0 that ends them: from the least to the most, none where the least
/// is more.
#[derive(Clone, Copy)]
pub struct Lengths {
    /// The least.
    pub least: usize,
    /// The most.
    pub most: usize,
}

/// Where a zone may have these. Elsewhere it has none.
#[derive(Clone, Copy)]
pub struct Features {
    /// Cuts below its apex, by the lengths of the names that are cut off.
    pub cuts: Lengths,
    /// DNAME records.
    pub dnames: bool,
    /// Wildcards, by the lengths of the names that they stand right below. Such a length may be told too where a name
    /// has a label of 42 octets or a `*` in one.
    pub wildcards: Lengths,
}

/// Whether a length is one of these.
pub(crate) fn has_length(lengths: Lengths, len: usize) -> bool
    ensures { IsTrue result ↔ IsOfLength lengths len }
{
    lengths.least <= len && len <= lengths.most
}

/// No lengths.
fn no_lengths() -> Lengths
    ensures { (len : ℕ) → ¬ (IsOfLength result len) }
{
    Lengths { least: 1, most: 0 }
}

/// The lengths of all names.
fn all_lengths() -> Lengths
    ensures { (len : ℕ) → len < 255 → IsOfLength result len }
{
    Lengths {
        least: 0,
        most: 254,
    }
}

/// The lengths with one more, and all between.
fn with_length(lengths: Lengths, len: usize) -> Lengths
    ensures among { AreAmong lengths result }
    ensures this { IsOfLength result len }
{
    Lengths {
        least: lengths.least.min(len),
        most: lengths.most.max(len),
    }
}

/// Whether records under the key cut no zone of this origin.
fn cuts_nothing(origin: &LowerName, key: &RrKey) -> bool
    ensures { IsTrue result ↔ CutsNothing origin.now key.now }
{
    if key.record_type == RecordType::NS {
        key.name.zone_of(origin)
    } else {
        true
    }
}

/// Whether the key is of another type than DNAME.
fn is_no_dname(key: &RrKey) -> bool
    ensures { IsTrue result ↔ IsNoDname key.now }
{
    key.record_type.value() != DNAME
}

/// Whether a byte is `*`.
fn is_star(byte: u8) -> bool
    ensures { result ≡ (byte == 42) }
{
    byte == b'*'
}

/// Whether a byte of the name is `*`.
fn has_star(name: &Name) -> bool
    ensures { result ≡ has_star (wire_form name.now.labels) }
{
    name.as_wire().iter().any(|byte| is_star(*byte))
}

/// Whether no byte of the key's name is `*`.
fn is_starless(key: &RrKey) -> bool
    ensures { IsTrue result ↔ IsStarless key.now }
{
    !has_star(key.name.as_name())
}

/// Whether no key cuts the zone.
fn are_cutting_nothing(origin: &LowerName, sets: &BTreeMap<RrKey, Rc<RecordSet>>) -> bool
    ensures { IsTrue result ↔ All (CutsNothing origin.now) (keys sets.now) }
{
    sets.keys().all(|key| cuts_nothing(origin, key))
}

/// Whether no key is of type DNAME.
fn are_no_dnames(sets: &BTreeMap<RrKey, Rc<RecordSet>>) -> bool
    ensures { IsTrue result ↔ All IsNoDname (keys sets.now) }
{
    sets.keys().all(|key| is_no_dname(key))
}

/// Whether no name has a `*`.
fn are_starless(sets: &BTreeMap<RrKey, Rc<RecordSet>>) -> bool
    ensures { IsTrue result ↔ All IsStarless (keys sets.now) }
{
    sets.keys().all(|key| is_starless(key))
}

/// The lengths of the names that own NS records and are longer than that of the apex.
fn lengths_of_cuts(apex: usize, sets: &BTreeMap<RrKey, Rc<RecordSet>>) -> Lengths {
    let mut lengths = Lengths {
        least: 254,
        most: 0,
    };
    for key in sets.keys() {
        let len = key.name.as_name().as_wire().len();
        if key.record_type == RecordType::NS && apex < len {
            lengths = with_length(lengths, len);
        }
    }
    lengths
}

/// Whether records under the key cut no zone of this origin but at a name of such a length.
fn cuts_within(origin: &LowerName, lengths: Lengths, key: &RrKey) -> bool
    ensures { IsTrue result ↔ CutsWithin origin.now lengths key.now }
{
    key.record_type != RecordType::NS
        || key.name.zone_of(origin)
        || has_length(lengths, key.name.as_name().as_wire().len())
}

/// Whether cuts stand at names of such lengths alone.
fn are_cut_within(
    origin: &LowerName,
    lengths: Lengths,
    sets: &BTreeMap<RrKey, Rc<RecordSet>>,
) -> bool
    ensures { IsTrue result ↔ All (CutsWithin origin.now lengths) (keys sets.now) }
{
    sets.keys().all(|key| cuts_within(origin, lengths, key))
}

/// The lengths of the names at which the zone is cut.
fn cut_lengths(origin: &LowerName, sets: &BTreeMap<RrKey, Rc<RecordSet>>) -> Lengths
    ensures { (name : DomainName) → AreLabels name.labels →
        IsCut (record { origin = origin.now; sets = sets_of sets.now }) name →
        IsOfLength result (length (wire_form name.labels)) }
{
    if are_cutting_nothing(origin, sets) {
        return no_lengths();
    }
    let lengths = lengths_of_cuts(origin.as_name().as_wire().len(), sets);
    if are_cut_within(origin, lengths, sets) {
        lengths
    } else {
        all_lengths()
    }
}

/// The lengths with those of what stands behind each `*` of the bytes.
fn with_stars(lengths: Lengths, bytes: &[u8]) -> Lengths
    ensures among { AreAmong lengths result }
    ensures stars { AreStarsWithin result bytes.now }
{
    let mut all = lengths;
    for i in 0..bytes.len() {
        if bytes[i] == b'*' {
            all = with_length(all, bytes.len() - i - 1);
        }
    }
    all
}

/// The lengths of what stands behind each `*` of the names.
fn lengths_of_wildcards(sets: &BTreeMap<RrKey, Rc<RecordSet>>) -> Lengths {
    let mut lengths = Lengths {
        least: 254,
        most: 0,
    };
    for key in sets.keys() {
        lengths = with_stars(lengths, key.name.as_name().as_wire());
    }
    lengths
}

/// Whether behind each `*` of the bytes so many stand.
fn are_stars_within(lengths: Lengths, bytes: &[u8]) -> bool
    ensures { IsTrue result ↔ AreStarsWithin lengths bytes.now }
{
    for i in 0..bytes.len() {
        if bytes[i] == b'*' && !has_length(lengths, bytes.len() - i - 1) {
            return false;
        }
    }
    true
}

/// Whether all wildcards at the key's name or above it stand right below names of such lengths.
fn is_wild_within(lengths: Lengths, key: &RrKey) -> bool
    ensures { IsTrue result ↔ IsWildWithin lengths key.now }
{
    are_stars_within(lengths, key.name.as_name().as_wire())
}

/// Whether wildcards stand right below names of such lengths alone.
fn are_wild_within(lengths: Lengths, sets: &BTreeMap<RrKey, Rc<RecordSet>>) -> bool
    ensures { IsTrue result ↔ All (IsWildWithin lengths) (keys sets.now) }
{
    sets.keys().all(|key| is_wild_within(lengths, key))
}

/// The lengths of the names that wildcards stand right below.
fn wildcard_lengths(sets: &BTreeMap<RrKey, Rc<RecordSet>>) -> Lengths
    ensures { (encloser : DomainName) → AreLabels encloser.labels → Exists (sets_of sets.now) (wildcard encloser) →
        IsOfLength result (length (wire_form encloser.labels)) }
{
    if are_starless(sets) {
        return no_lengths();
    }
    let lengths = lengths_of_wildcards(sets);
    if are_wild_within(lengths, sets) {
        lengths
    } else {
        all_lengths()
    }
}

/// What the zone of this origin has, and where.
pub fn features_of(origin: &LowerName, sets: &BTreeMap<RrKey, Rc<RecordSet>>) -> Features
    ensures { AreFeatures (record { origin = origin.now; sets = sets_of sets.now }) result }
{
    Features {
        cuts: cut_lengths(origin, sets),
        dnames: !are_no_dnames(sets),
        wildcards: wildcard_lengths(sets),
    }
}

/// What a zone has with a record more.
fn with_record(has: Features, added: &Record) -> Features
    ensures includes { Includes has result }
    ensures covers { Covers result added.now }
{
    let bytes = added.name.as_wire();
    let record_type = added.rdata.record_type();
    let cuts = if record_type == RecordType::NS {
        with_length(has.cuts, bytes.len())
    } else {
        has.cuts
    };
    Features {
        cuts,
        dnames: has.dnames || record_type.value() == DNAME,
        wildcards: with_stars(has.wildcards, bytes),
    }
}

/// What a zone that has these has with records more, whatever goes: so nothing of the zone is looked at. It takes time
/// by the records.
pub fn with_records(has: Features, added: &[Record]) -> Features
    ensures includes { Includes has result }
    ensures covers { All (Covers result) added.now }
{
    let mut all = has;
    for i in 0..added.len() {
        all = with_record(all, &added[i]);
    }
    all
}
