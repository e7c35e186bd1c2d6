//! Records of a zone, as sets by name and type.

ghost use Rattle.std.specs.Prelude.{◌≡◌, ◌∷◌, [], ◌++◌, IfOk, List, None, OnOk, Some};
ghost use Rattle.wire_names.specs.rr.domain.NameOrder.{lower_name};
ghost use Rattle.wire_messages.specs.rr.RecordData.{type_of};
ghost use Rattle.wire_messages.specs.declared.rr.rdata.RData.{RData as Data};
ghost use Rattle.wire_messages.specs.declared.rr.record.Record.{Record as ResourceRecord};
ghost use Rattle.hickory_base.specs.zone_store.ZoneSets.{sets_of};
ghost use Rattle.hickory_store.specs.representation.ZoneSets.{HoldsSets, PutsSet, records_under};

use hickory_base::zone_store::RecordSet;
use hickory_wire::{LowerName, Record, RrKey};
use std::alloc::{AllocError, Global};
use std::collections::BTreeMap;
use std::rc::Rc;

/// Sets by name and type, as a zone has them.
pub(crate) type Sets = BTreeMap<RrKey, Rc<RecordSet>>;

/// The key that a record is under.
fn key_of(alloc: Global, q: &Record) -> Result<RrKey, AllocError>
    ensures { IfOk result (λ key. key ≡ record { name = lower_name q.now.name; record_type = type_of q.now.rdata }) }
{
    let name = LowerName::new(alloc, &q.name)?;
    Ok(RrKey::new(name, q.rdata.record_type()))
}

/// Takes out the records under a key.
fn take_set(alloc: Global, sets: &mut Sets, key: &RrKey) -> Result<Vec<Record>, AllocError>
    ensures records { IfOk result (λ records. records.items ≡ records_under key.now (sets_of sets.old)) }
    ensures others { PutsSet key.now None (sets_of sets.old) (sets_of sets.new) }
{
    match sets.remove(key) {
        // Most sets have one record.
        None => Vec::with_capacity(alloc, 1),
        Some(set) => RecordSet::unshared(alloc, set),
    }
}

/// Puts records under a key.
fn put_set(sets: &mut Sets, key: RrKey, set: Rc<RecordSet>) -> Result<(), AllocError>
    ensures { OnOk result (PutsSet key (Some set.value) (sets_of sets.old) (sets_of sets.new)) }
{
    match sets.insert(key, set) {
        Ok(_) => Ok(()),
        Err(_) => Err(AllocError),
    }
}

/// Puts a record last in its set.
fn put_record(alloc: Global, sets: &mut Sets, q: Record) -> Result<(), AllocError>
    requires { (records : List (ResourceRecord Data)) × HoldsSets records (sets_of sets.old) }
    ensures { OnOk result ((records : List (ResourceRecord Data)) → HoldsSets records (sets_of sets.old) →
        HoldsSets (records ++ q ∷ []) (sets_of sets.new)) }
{
    let key = key_of(alloc, &q)?;
    let mut records = take_set(alloc, sets, &key)?;
    records.push(q)?;
    let set = RecordSet::new(records);
    let shared = Rc::new(alloc, set)?;
    put_set(sets, key, shared)?;
    Ok(())
}

/// The records as sets, each in its order.
pub(crate) fn sets_of_records(alloc: Global, records: Vec<Record>) -> Result<Sets, AllocError>
    ensures { IfOk result (λ sets. HoldsSets records.items (sets_of sets)) }
{
    let mut sets = BTreeMap::new(alloc);
    for q in records {
        put_record(alloc, &mut sets, q)?;
    }
    Ok(sets)
}
