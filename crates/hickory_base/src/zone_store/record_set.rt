//! Records of one name and type.

ghost use Rattle.std.specs.Prelude.{◌≡◌, ◌↔◌, IfOk, IsTrue};
ghost use Rattle.hickory_base.specs.zone_store.RecordSets.{IsRecordSet};

use crate::zone_store::conditions::is_record_set;
use crate::zone_store::copies::append_copies;
use hickory_wire::Record;
use std::alloc::{AllocError, Global};
use std::marker::Model;
use std::rc::Rc;

/// Records of one name and type, at least one (RFC 2181 section 5).
#[derive(Drop)]
pub struct RecordSet {
    records: Vec<Record>,
}

impl Model for RecordSet {
    ghost use Rattle.std.specs.Prelude.{List};
    ghost use Rattle.wire_messages.specs.declared.rr.rdata.RData.{RData};
    ghost use Rattle.wire_messages.specs.declared.rr.record.Record.{Record};

    ghost Value = { List (Record RData) };

    ghost use Rattle.hickory_base.specs.zone_store.RecordSets.{IsRecordSet};

    ghost view = { λ set. set.records.items };

    ghost invariant = { λ set. IsRecordSet set.records.items };
}

impl RecordSet {
    /// Whether these records make a set: they are all of one name and type, and at least one.
    pub fn accepts(records: &[Record]) -> bool
        ensures { IsTrue result ↔ IsRecordSet records.now }
    {
        is_record_set(records)
    }

    /// The set of these records, which `accepts` takes. It needs no memory.
    pub fn new(records: Vec<Record>) -> RecordSet
        requires { IsRecordSet records.items }
        ensures { result ≡ records.items }
    {
        RecordSet { records }
    }

    /// The records, in their order.
    pub fn records(&self) -> &[Record]
        ensures value { result.now ≡ self.now }
        ensures set { IsRecordSet self.now }
    {
        self.records.as_slice()
    }

    /// The records themselves. It needs no memory.
    pub fn into_records(self) -> Vec<Record>
        ensures { result.items ≡ self }
    {
        self.records
    }

    /// The records of a set that may be shared: themselves where it is not, which needs no memory, and else copies.
    pub fn unshared(alloc: Global, set: Rc<RecordSet>) -> Result<Vec<Record>, AllocError>
        ensures { IfOk result (λ records. records.items ≡ set.value) }
    {
        match Rc::try_unwrap(set) {
            Ok(set) => Ok(set.into_records()),
            Err(shared) => {
                let mut copies = Vec::new(alloc);
                append_copies(&mut copies, shared.records())?;
                Ok(copies)
            }
        }
    }
}
