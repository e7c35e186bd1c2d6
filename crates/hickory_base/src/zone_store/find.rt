//! How the sets of a zone are found.

ghost use Rattle.std.specs.Prelude.{◌≡◌, ◌==◌, false, IfOk, IfSome, Some, None, Err};
ghost use Rattle.std.specs.Option.{option_copied};
ghost use Rattle.std.specs.Map.{lookup};
ghost use Rattle.wire_messages.specs.Numbers.{type_any};
ghost use Rattle.hickory_base.specs.zone_store.ZoneAnswers.{OrMemory, any_answer, set_answer, set_or_denial, zone_answer, is_in_use, records_at};
ghost use Rattle.hickory_base.specs.zone_store.ZoneSets.{is_key, keys_at, sets_of};

use crate::errors::{DnsError, LookupError};
use crate::zone_store::copies::append_copies;
use crate::zone_store::lookup::AuthLookup;
use crate::zone_store::record_set::RecordSet;
use hickory_wire::{Items, LowerName, Record, RecordType, ResponseCode, RrKey};
use std::alloc::{AllocError, Global};
use std::collections::BTreeMap;
use std::rc::Rc;

/// The records under a key.
pub(crate) fn set_under<'m>(
    sets: &'m BTreeMap<RrKey, Rc<RecordSet>>,
    key: &RrKey,
) -> Option<&'m [Record]>
    ensures { option_copied result ≡ lookup (is_key key.now.name key.now.record_type) (sets_of sets.now) }
{
    match sets.get(key) {
        None => None,
        Some(set) => Some(set.records()),
    }
}

/// A share of the set under a key. There is none where too many are counted. It needs no memory.
pub(crate) fn share_under(
    sets: &BTreeMap<RrKey, Rc<RecordSet>>,
    key: &RrKey,
) -> Option<Rc<RecordSet>>
    ensures { IfSome result (λ set. lookup (is_key key.now.name key.now.record_type)
        (sets_of sets.now) ≡ Some set.value) }
{
    match sets.get(key) {
        None => None,
        Some(set) => set.clone().ok(),
    }
}

/// Whether there is a set of the key's name. No type is below that of the key.
pub(crate) fn is_in_use(sets: &BTreeMap<RrKey, Rc<RecordSet>>, first: &RrKey) -> bool
    requires { first.now.record_type ≡ 0 }
    ensures { result ≡ is_in_use first.now.name (sets_of sets.now) }
{
    match sets.range(first..).next() {
        Some((key, _)) => first.name == key.name,
        None => false,
    }
}

/// Copies of all records of the key's name. No type is below that of the key.
pub(crate) fn copies_of_name(
    alloc: Global,
    sets: &BTreeMap<RrKey, Rc<RecordSet>>,
    first: &RrKey,
) -> Result<Vec<Record>, AllocError>
    requires { first.now.record_type ≡ 0 }
    ensures { IfOk result (λ all. all.items ≡ records_at first.now.name (sets_of sets.now)) }
{
    let mut all = Vec::new(alloc);
    for (key, set) in sets.range(first..) {
        if first.name != key.name {
            return Ok(all);
        }
        append_copies(&mut all, set.records())?;
    }
    Ok(all)
}

/// Copies of all keys of the key's name. No type is below that of the key.
pub(crate) fn keys_of_name(
    alloc: Global,
    sets: &BTreeMap<RrKey, Rc<RecordSet>>,
    first: &RrKey,
) -> Result<Vec<RrKey>, AllocError>
    requires { first.now.record_type ≡ 0 }
    ensures { IfOk result (λ keys. keys.items ≡ keys_at first.now.name (sets_of sets.now)) }
{
    let mut keys = Vec::new(alloc);
    for (key, _) in sets.range(first..) {
        if first.name != key.name {
            return Ok(keys);
        }
        keys.push(key.clone()?)?;
    }
    Ok(keys)
}

/// Why there are no records of the type asked for, where the name has others or has none.
fn denial(alloc: Global, is_in_use: bool) -> LookupError
    ensures { Err result ≡ set_or_denial None is_in_use }
{
    if is_in_use {
        LookupError::Net(DnsError::NoRecords {
            response_code: ResponseCode::NO_ERROR,
            authorities: Items::new(alloc),
            soa: None,
        })
    } else {
        LookupError::ResponseCode(ResponseCode::NX_DOMAIN)
    }
}

/// Copies of all records of the key's name. No type is below that of the key.
fn find_any<'m>(
    alloc: Global,
    sets: &'m BTreeMap<RrKey, Rc<RecordSet>>,
    first: &RrKey,
) -> Result<AuthLookup<'m>, LookupError>
    requires { first.now.record_type ≡ 0 }
    ensures { OrMemory (any_answer (sets_of sets.now) first.now.name) result }
{
    if !is_in_use(sets, first) {
        return Err(denial(alloc, false));
    }
    let records = copies_of_name(alloc, sets, first)?;
    Ok(AuthLookup::owned(Items::from_vec(records)))
}

/// The records of the key's name and a type, where they lie. No type is below that of the key, so that the sets of the
/// name stand behind it. It needs no memory.
fn find_set<'m>(
    alloc: Global,
    sets: &'m BTreeMap<RrKey, Rc<RecordSet>>,
    first: &RrKey,
    record_type: RecordType,
) -> Result<AuthLookup<'m>, LookupError>
    requires { first.now.record_type ≡ 0 }
    ensures { result ≡ set_answer (sets_of sets.now) first.now.name record_type }
{
    let mut is_in_use = false;
    for (key, set) in sets.range(first..) {
        if first.name != key.name {
            return Err(denial(alloc, is_in_use));
        }
        if record_type == key.record_type {
            return Ok(AuthLookup::lent(set.records()));
        }
        is_in_use = true;
    }
    Err(denial(alloc, is_in_use))
}

/// What the sets hold for the key's name and a type. No type is below that of the key. Only any type takes memory.
pub(crate) fn find_from<'m>(
    alloc: Global,
    sets: &'m BTreeMap<RrKey, Rc<RecordSet>>,
    first: &RrKey,
    record_type: RecordType,
) -> Result<AuthLookup<'m>, LookupError>
    requires { first.now.record_type ≡ 0 }
    ensures found { OrMemory (zone_answer (sets_of sets.now) first.now.name record_type) result }
    ensures lent { (record_type == type_any) ≡ false →
        result ≡ zone_answer (sets_of sets.now) first.now.name record_type }
{
    if record_type.value() == RecordType::ANY.value() {
        find_any(alloc, sets, first)
    } else {
        find_set(alloc, sets, first, record_type)
    }
}

/// What the sets hold for a name and type.
pub(crate) fn find<'m>(
    alloc: Global,
    sets: &'m BTreeMap<RrKey, Rc<RecordSet>>,
    name: &LowerName,
    record_type: RecordType,
) -> Result<AuthLookup<'m>, LookupError>
    ensures { OrMemory (zone_answer (sets_of sets.now) name.now record_type) result }
{
    let first = RrKey::new(name.clone()?, RecordType::new(0));
    find_from(alloc, sets, &first, record_type)
}
