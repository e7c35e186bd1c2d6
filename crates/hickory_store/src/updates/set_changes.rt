//! Changes of a zone's sets, whole or not at all.

ghost use Rattle.std.specs.Prelude.{◌≡◌, IsSome, None, OnErr, OnOk, false};
ghost use Rattle.std.specs.BTreeMap.{IsUnchanged};
ghost use Rattle.std.specs.Map.{remove_entry};
ghost use Rattle.wire_messages.specs.declared.rr.rr_key.RrKey.{RrKey as Key};
ghost use Rattle.hickory_store.specs.representation.SetChanges.{AllPresent, KeepsKeys, at, equals, is_put, put_all, take_all, undone};

use crate::updates::zone_sets::Sets;
use hickory_base::zone_store::RecordSet;
use hickory_wire::RrKey;
use std::alloc::{AllocError, Global};
use std::rc::Rc;

/// A set that takes the place of what stands under its key, if anything does.
#[derive(Drop)]
pub(crate) struct Put {
    pub(crate) key: RrKey,
    pub(crate) set: Rc<RecordSet>,
}

/// Puts a set under a key that the map does not have.
fn put_absent(sets: &mut Sets, key: RrKey, set: Rc<RecordSet>) -> Result<(), AllocError>
    requires { at sets.old key ≡ None }
    ensures undone { remove_entry (equals key) sets.new.entries ≡ sets.old.entries }
    ensures present { OnOk result (IsSome (at sets.new key)) }
    ensures keeps { KeepsKeys sets.old sets.new }
    ensures others { (k : Key) → equals key k ≡ false → at sets.new k ≡ at sets.old k }
{
    match sets.insert(key, set) {
        Ok(_) => Ok(()),
        Err(_) => Err(AllocError),
    }
}

/// Puts a set under its key where the map does not have it, and notes the key before.
fn put_new<'p>(sets: &mut Sets, put: &'p Put, noted: &mut Vec<&'p RrKey>) -> Result<(), AllocError>
    ensures undone { undone noted.new.items sets.new.entries ≡ undone noted.old.items sets.old.entries }
    ensures present { OnOk result (IsSome (at sets.new put.now.key)) }
    ensures keeps { KeepsKeys sets.old sets.new }
    ensures others { (k : Key) → equals put.now.key k ≡ false → at sets.new k ≡ at sets.old k }
{
    if sets.contains_key(&put.key) {
        return Ok(());
    }
    let key = put.key.clone()?;
    let set = put.set.clone()?;
    noted.push(&put.key)?;
    put_absent(sets, key, set)
}

/// Puts the sets whose keys the map does not have. Where memory is refused, the keys that are noted are those to take
/// out.
fn put_all_new<'p>(
    sets: &mut Sets,
    puts: &'p [Put],
    noted: &mut Vec<&'p RrKey>,
) -> Result<(), AllocError>
    ensures undone { undone noted.new.items sets.new.entries ≡ undone noted.old.items sets.old.entries }
    ensures present { OnOk result (AllPresent puts.now sets.new) }
    ensures others { (k : Key) → is_put puts.now k ≡ false → at sets.new k ≡ at sets.old k }
{
    let mut left = puts;
    while let [put, rest @ ..] = left {
        put_new(sets, put, noted)?;
        left = rest;
    }
    Ok(())
}

/// Takes the keys out, from the last to the first. It needs no memory.
fn undo(sets: &mut Sets, noted: &mut Vec<&RrKey>)
    ensures { sets.new.entries ≡ undone noted.old.items sets.old.entries }
{
    while let Some(key) = noted.pop() {
        sets.remove(key);
    }
}

/// Makes room for all sets. Where memory is refused, the map is as it was.
fn make_room(alloc: Global, sets: &mut Sets, puts: &[Put]) -> Result<(), AllocError>
    ensures present { OnOk result (AllPresent puts.now sets.new) }
    ensures others { OnOk result ((k : Key) → is_put puts.now k ≡ false → at sets.new k ≡ at sets.old k) }
    ensures unchanged { OnErr result (IsUnchanged sets.old sets.new) }
{
    let mut noted = Vec::new(alloc);
    match put_all_new(sets, puts, &mut noted) {
        Ok(()) => Ok(()),
        Err(e) => {
            undo(sets, &mut noted);
            Err(e)
        }
    }
}

/// Puts sets under keys that the map has. It needs no memory.
fn replace_all(sets: &mut Sets, puts: Vec<Put>)
    requires { AllPresent puts.items sets.old }
    ensures { (k : Key) → at sets.new k ≡ put_all puts.items (at sets.old) k }
{
    for put in puts {
        match sets.insert(put.key, put.set) {
            Ok(_) => {}
            Err(_) => unreachable!(),
        }
    }
}

/// Takes keys out. It needs no memory.
fn remove_all(sets: &mut Sets, gone: &[RrKey])
    ensures { (k : Key) → at sets.new k ≡ take_all gone.now (at sets.old) k }
{
    let mut left = gone;
    while let [key, rest @ ..] = left {
        sets.remove(key);
        left = rest;
    }
}

/// Puts the sets under their keys, and takes out the keys that are gone. Where memory is refused, the map is as it was:
/// keys that it does not have go in first, which alone needs memory, and come out again without any.
pub(crate) fn commit(
    alloc: Global,
    sets: &mut Sets,
    puts: Vec<Put>,
    gone: &[RrKey],
) -> Result<(), AllocError>
    ensures done { OnOk result ((k : Key) → at sets.new k ≡ take_all gone.now (put_all puts.items (at sets.old)) k) }
    ensures unchanged { OnErr result (IsUnchanged sets.old sets.new) }
{
    make_room(alloc, sets, &puts)?;
    replace_all(sets, puts);
    remove_all(sets, gone);
    Ok(())
}
