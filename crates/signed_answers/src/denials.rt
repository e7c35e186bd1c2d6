//! The NSEC RRsets that a reply shows (RFC 4035 sections 3.1.3 and 3.1.4).

ghost use Rattle.std.specs.Prelude.{◌≡◌, ◌<◌, ℕ, IfOk, IsTrue, None, Some, [], false, is_some, length, true};
ghost use Rattle.std.specs.Option.{option_copied, option_map};
ghost use Rattle.wire_names.specs.rr.domain.DomainName.{DomainName};
ghost use Rattle.wire_messages.specs.Numbers.{type_ds, type_ns};
ghost use Rattle.hickory_base.specs.zone_store.ZoneAnswers.{records_at};
ghost use Rattle.hickory_base.specs.zone_store.ZoneSets.{IsZone, has_name, sets_of};
ghost use Rattle.zone_answers.specs.Zones.{Answers, AreOwners, Delegates, Exists, Zone, ancestor, any_of, by_wildcard, no_data, referral, rrset};
ghost use Rattle.zone_answers.specs.Views.{viewed};
ghost use Rattle.zone_answers.specs.representation.FoundRecords.{IsEncloser, outcome_of};
ghost use Rattle.signed_answers.specs.NsecSets.{NsecFor, first_name};
ghost use Rattle.signed_answers.specs.LentSets.{lent_set};
ghost use Rattle.signed_answers.specs.ShownSets.{ShowsMissing};
ghost use Rattle.signed_answers.specs.LentDenials.{AreShown, AreShownOf};

use crate::enclosers::{encloser, exists};
use crate::nsec_sets::{NsecSet, nsec_before};
use crate::wildcards::wildcard_below;
use hickory_base::zone_store::RecordSet;
use hickory_wire::{LowerName, Name, Record, RecordType, RrKey};
use std::alloc::{AllocError, Global};
use std::collections::BTreeMap;
use std::rc::Rc;
use zone_answers::find::{Found, set_under};
use zone_answers::view::ZoneView;

/// The NSEC RRsets that a reply shows. Both may be one, which a reply shows once.
#[derive(Clone, Copy)]
pub struct Shown<'z> {
    /// That of the name, or of the cut of a referral: the last one at the name or before it.
    pub name: Option<NsecSet<'z>>,
    /// That of the wildcard right below the closest encloser of the name.
    pub wildcard: Option<NsecSet<'z>>,
}

/// Nothing to show.
fn none<'z>() -> Shown<'z>
    ensures { result ≡ record { name = None; wildcard = None } }
{
    Shown {
        name: None,
        wildcard: None,
    }
}

/// The NSEC RRset whose owner name is the last one at the name or before it.
fn nsec_for<'z>(sets: &'z BTreeMap<RrKey, Rc<RecordSet>>, name: LowerName) -> Option<NsecSet<'z>>
    ensures { NsecFor (sets_of sets.now) name (option_map lent_set result) }
{
    let key = RrKey::new(name, RecordType::NSEC);
    nsec_before(sets, &key)
}

/// What is shown of a name, and not of a wildcard.
fn of_name<'z>(
    sets: &'z BTreeMap<RrKey, Rc<RecordSet>>,
    name: &LowerName,
) -> Result<Shown<'z>, AllocError>
    ensures { IfOk result (λ shown. NsecFor (sets_of sets.now) name.now (option_map lent_set shown.name) ×
        (shown.wildcard ≡ None)) }
{
    let own = name.clone()?;
    let name = nsec_for(sets, own);
    Ok(Shown {
        name,
        wildcard: None,
    })
}

/// What is shown of the key's name, if it does not exist and this is its closest encloser.
fn of_encloser<'z>(
    alloc: Global,
    sets: &'z BTreeMap<RrKey, Rc<RecordSet>>,
    first: &RrKey,
    encloser: &LowerName,
) -> Result<Shown<'z>, AllocError>
    ensures { ¬ (Exists (sets_of sets.now) first.now.name) →
        IsEncloser (sets_of sets.now) first.now.name encloser.now → IfOk result (λ shown.
        ShowsMissing (sets_of sets.now) first.now.name (option_map lent_set shown.name)
        (option_map lent_set shown.wildcard)) }
{
    // That its labels are those of a name is known of a name whose bytes were read.
    let _ = first.name.as_name().as_wire();
    let Some(source) = wildcard_below(alloc, encloser)? else {
        return Ok(none());
    };
    let own = first.name.clone()?;
    let name = nsec_for(sets, own);
    let wildcard = nsec_for(sets, source);
    Ok(Shown { name, wildcard })
}

/// What is shown of the key's name, if it does not exist. No type is below that of the key.
fn of_missing<'z>(
    alloc: Global,
    sets: &'z BTreeMap<RrKey, Rc<RecordSet>>,
    first: &RrKey,
) -> Result<Shown<'z>, AllocError>
    requires least { first.now.record_type ≡ 0 }
    requires qualified { first.now.name.is_fqdn ≡ true }
    ensures { (origin : DomainName) → AreOwners origin (sets_of sets.now) →
        ¬ (Exists (sets_of sets.now) first.now.name) → IfOk result (λ shown.
        ShowsMissing (sets_of sets.now) first.now.name (option_map lent_set shown.name)
        (option_map lent_set shown.wildcard)) }
{
    let Some(encloser) = encloser(sets, first)? else {
        return Ok(none());
    };
    of_encloser(alloc, sets, first, &encloser)
}

/// What is shown if neither the key's name nor a wildcard for it has records of a type. No type is below that of the key.
fn of_no_data<'z>(
    alloc: Global,
    sets: &'z BTreeMap<RrKey, Rc<RecordSet>>,
    first: &RrKey,
) -> Result<Shown<'z>, AllocError>
    requires least { first.now.record_type ≡ 0 }
    requires qualified { first.now.name.is_fqdn ≡ true }
    ensures { (origin : DomainName) → AreOwners origin (sets_of sets.now) →
        AreShown (record { origin = origin; sets = sets_of sets.now }) first.now.name no_data result }
{
    if exists(sets, first) {
        of_name(sets, &first.name)
    } else {
        of_missing(alloc, sets, first)
    }
}

/// The owner name of records, if there are any.
fn owner_of(records: &[Record]) -> Option<&Name>
    ensures { option_copied result ≡ first_name records.now }
{
    match records.first() {
        Some(q) => Some(&q.name),
        None => None,
    }
}

/// Whether there is an RRset under a key.
fn has_set(sets: &BTreeMap<RrKey, Rc<RecordSet>>, key: &RrKey) -> bool
    ensures { result ≡ is_some (rrset (sets_of sets.now) key.now.name key.now.record_type) }
{
    set_under(sets, key).is_some()
}

/// What is shown with a referral to these servers: nothing, if the cut has DS records.
fn of_cut<'z>(
    alloc: Global,
    sets: &'z BTreeMap<RrKey, Rc<RecordSet>>,
    servers: &[Record],
) -> Result<Shown<'z>, AllocError>
    requires { IsZone (sets_of sets.now) }
    ensures { (zone : Zone) (name : DomainName) (k : ℕ) → zone.sets ≡ sets_of sets.now → Delegates zone name k →
        rrset zone.sets (ancestor name k) type_ns ≡ Some servers.now →
        AreShown zone name (referral servers.now) result }
{
    let Some(owner) = owner_of(servers) else {
        return Ok(none());
    };
    let cut = LowerName::new(alloc, owner)?;
    let own = cut.clone()?;
    let key = RrKey::new(own, RecordType::DS);
    if has_set(sets, &key) {
        return Ok(none());
    }
    let name = nsec_for(sets, cut);
    Ok(Shown {
        name,
        wildcard: None,
    })
}

/// The DS RRset that a reply shows with a referral to these servers, if the cut has one (RFC 4035 section 3.1.4). It is
/// in the zone above the cut.
///
/// # Errors
///
/// The only error is that an allocation fails.
pub fn ds_of_cut<'z>(
    alloc: Global,
    sets: &'z BTreeMap<RrKey, Rc<RecordSet>>,
    servers: &[Record],
) -> Result<Option<&'z [Record]>, AllocError>
    requires { IsZone (sets_of sets.now) }
    ensures { (zone : Zone) (name : DomainName) (k : ℕ) → zone.sets ≡ sets_of sets.now → Delegates zone name k →
        rrset zone.sets (ancestor name k) type_ns ≡ Some servers.now →
        IfOk result (λ found. option_copied found ≡ rrset zone.sets (ancestor name k) type_ds) }
{
    let Some(owner) = owner_of(servers) else {
        return Ok(None);
    };
    let cut = LowerName::new(alloc, owner)?;
    let key = RrKey::new(cut, RecordType::DS);
    Ok(set_under(sets, &key))
}

/// Whether the key has this name.
fn is_of(name: &LowerName, key: &RrKey) -> bool
    ensures { result ≡ has_name name.now key.now }
{
    name == &key.name
}

/// Whether the key's name owns records. No type is below that of the key.
fn is_owned(sets: &BTreeMap<RrKey, Rc<RecordSet>>, first: &RrKey) -> bool
    requires { first.now.record_type ≡ 0 }
    ensures some { IsTrue result → 0 < length (records_at first.now.name (sets_of sets.now)) }
    ensures none { result ≡ false → records_at first.now.name (sets_of sets.now) ≡ [] }
{
    let Some((key, set)) = sets.range(first..).next() else {
        return false;
    };
    // That a set has a record is known of one whose records were read.
    let _ = set.records();
    is_of(&first.name, key)
}

/// What is shown if records of any type of the key's name are asked for. No type is below that of the key.
fn of_every<'z>(
    alloc: Global,
    sets: &'z BTreeMap<RrKey, Rc<RecordSet>>,
    first: &RrKey,
) -> Result<Shown<'z>, AllocError>
    requires least { first.now.record_type ≡ 0 }
    requires qualified { first.now.name.is_fqdn ≡ true }
    ensures { (origin : DomainName) → AreOwners origin (sets_of sets.now) →
        AreShown (record { origin = origin; sets = sets_of sets.now }) first.now.name
        (any_of (records_at first.now.name (sets_of sets.now))) result }
{
    if is_owned(sets, first) {
        Ok(none())
    } else {
        of_no_data(alloc, sets, first)
    }
}

/// What is shown if records of any type are asked for at the key's name, for which the wildcard of the other key stands.
/// No type is below that of the key.
fn of_wild_every<'z>(
    alloc: Global,
    sets: &'z BTreeMap<RrKey, Rc<RecordSet>>,
    first: &RrKey,
    source: &RrKey,
) -> Result<Shown<'z>, AllocError>
    requires least { first.now.record_type ≡ 0 }
    requires qualified { first.now.name.is_fqdn ≡ true }
    ensures { (origin : DomainName) → AreOwners origin (sets_of sets.now) →
        AreShown (record { origin = origin; sets = sets_of sets.now }) first.now.name
        (by_wildcard (any_of (records_at source.now.name (sets_of sets.now)))) result }
{
    let wild = source.name.clone()?;
    let start = RrKey::new(wild, RecordType::new(0));
    if is_owned(sets, &start) {
        of_name(sets, &first.name)
    } else {
        of_no_data(alloc, sets, first)
    }
}

/// The NSEC RRsets that a reply shows if this was found for the key's name. No type is below that of the key. With a
/// referral a reply shows the DS RRset of the cut, if it has one, instead (RFC 4035 section 3.1.4).
///
/// # Errors
///
/// The only error is that an allocation fails.
pub fn denials<'z>(
    alloc: Global,
    zone: ZoneView<'z>,
    first: &RrKey,
    found: Found<'z>,
) -> Result<Shown<'z>, AllocError>
    requires least { first.now.record_type ≡ 0 }
    requires qualified { first.now.name.is_fqdn ≡ true }
    requires owners { AreOwners zone.origin.now (sets_of zone.sets.now) }
    requires sets { IsZone (sets_of zone.sets.now) }
    ensures { (t : ℕ) → Answers (viewed zone.entry) first.now.name t
        (outcome_of (sets_of zone.entry.sets.now) first.now.name found.entry) →
        AreShownOf (viewed zone.entry) first.now.name found.entry result }
{
    match found {
        Found::NoName => of_missing(alloc, zone.sets, first),
        Found::NoData => of_no_data(alloc, zone.sets, first),
        Found::Every => of_every(alloc, zone.sets, first),
        Found::WildEvery(source) => of_wild_every(alloc, zone.sets, first, source),
        Found::WildAnswer(_) => of_name(zone.sets, &first.name),
        Found::WildAlias(_) => of_name(zone.sets, &first.name),
        Found::Referral(servers) => of_cut(alloc, zone.sets, servers),
        Found::Answer(_) => Ok(none()),
        Found::Alias(_) => Ok(none()),
        Found::Redirected(_) => Ok(none()),
    }
}
