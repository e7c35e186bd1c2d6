//! Which names exist, and the closest enclosers of those that do not (RFC 4592 section 3.3.1).

ghost use Rattle.std.specs.Prelude.{◌≡◌, ◌↔◌, ℕ, IfOk, IsTrue, MatchOption, true, false};
ghost use Rattle.std.specs.Bool.{OnTrue};
ghost use Rattle.std.specs.Option.{option_copied};
ghost use Rattle.wire_names.specs.rr.domain.DomainName.{DomainName};
ghost use Rattle.hickory_base.specs.zone_store.ZoneSets.{sets_of};
ghost use Rattle.zone_answers.specs.Zones.{AreOwners, Exists, Sets, ancestor};
ghost use Rattle.zone_answers.specs.representation.FoundRecords.{IsAbove, IsEncloser, Tells};
ghost use Rattle.zone_answers.specs.representation.KeysBeside.{StandsBehind};
ghost use Rattle.signed_answers.specs.LentSets.{IsLastBelow};

use hickory_base::zone_store::RecordSet;
use hickory_wire::{LowerName, RrKey};
use std::alloc::AllocError;
use std::collections::BTreeMap;
use std::rc::Rc;

/// The first key that is not below this one.
pub(crate) fn key_from<'z>(
    sets: &'z BTreeMap<RrKey, Rc<RecordSet>>,
    first: &RrKey,
) -> Option<&'z RrKey>
    ensures { StandsBehind sets.now first.now (option_copied result) }
{
    match sets.range(first..).next() {
        Some((key, _)) => Some(key),
        None => None,
    }
}

/// Whether there is a key, and its name is the name or below it.
fn is_above(name: &LowerName, key: Option<&RrKey>) -> bool
    ensures { IsTrue result ↔ IsAbove name.now (option_copied key.entry) }
{
    match key {
        Some(key) => name.zone_of(&key.name),
        None => false,
    }
}

/// Whether the key's name exists. No type is below that of the key.
pub(crate) fn exists(sets: &BTreeMap<RrKey, Rc<RecordSet>>, first: &RrKey) -> bool
    requires least { first.now.record_type ≡ 0 }
    requires qualified { first.now.name.is_fqdn ≡ true }
    ensures { (origin : DomainName) → AreOwners origin (sets_of sets.now) →
        IsTrue result ↔ Exists (sets_of sets.now) first.now.name }
{
    is_above(&first.name, key_from(sets, first))
}

/// Takes labels off the name's front until it exists, as the keys beside it tell. Returns whether it does in the end.
fn keep_closest_encloser(
    before: Option<&RrKey>,
    behind: Option<&RrKey>,
    name: &mut LowerName,
) -> bool
    requires { name.old.is_fqdn ≡ true }
    ensures found { (sets : Sets) → Tells sets name.old (record { before = before.entry; behind = behind.entry }) →
        OnTrue result (IsEncloser sets name.old name.new) }
    ensures none { (sets : Sets) → Tells sets name.old (record { before = before.entry; behind = behind.entry }) →
        result ≡ false → (k : ℕ) → ¬ (Exists sets (ancestor name.old k)) }
{
    while !is_above(name, before) && !is_above(name, behind) {
        if name.as_name().is_root() {
            return false;
        }
        name.remove_first_label();
    }
    true
}

/// The last key below this one.
fn key_before<'z>(sets: &'z BTreeMap<RrKey, Rc<RecordSet>>, first: &RrKey) -> Option<&'z RrKey>
    ensures { IsLastBelow sets.now first.now (option_copied result) }
{
    match sets.range(..first).next_back() {
        Some((key, _)) => Some(key),
        None => None,
    }
}

/// The closest encloser of the key's name, which is the name itself if that exists. There is none if no name above
/// exists. No type is below that of the key.
pub(crate) fn encloser(
    sets: &BTreeMap<RrKey, Rc<RecordSet>>,
    first: &RrKey,
) -> Result<Option<LowerName>, AllocError>
    requires least { first.now.record_type ≡ 0 }
    requires qualified { first.now.name.is_fqdn ≡ true }
    ensures { (origin : DomainName) → AreOwners origin (sets_of sets.now) → IfOk result
        (λ found. MatchOption found ((k : ℕ) → ¬ (Exists (sets_of sets.now) (ancestor first.now.name k)))
        (IsEncloser (sets_of sets.now) first.now.name)) }
{
    let mut name = first.name.clone()?;
    if keep_closest_encloser(key_before(sets, first), key_from(sets, first), &mut name) {
        Ok(Some(name))
    } else {
        Ok(None)
    }
}
