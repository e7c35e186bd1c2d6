//! Lists of records, lent or owned.

ghost use Rattle.std.specs.Prelude.{◌≡◌, [], IfOk};

use crate::zone_store::copies::append_copies;
use hickory_wire::{Items, Record};
use std::alloc::{AllocError, Global};
use std::marker::Model;
use std::{fmt, mem};

/// How records are kept.
#[derive(Drop)]
enum Kept<'z> {
    /// They lie elsewhere, as in a zone.
    Lent(&'z [Record]),
    /// They are a list of their own.
    Owned(Items<Record>),
}

/// Records that lie elsewhere, as in a zone, or are a list of their own.
///
/// A contract sees the records in their order, and nothing of how they are kept.
#[derive(Drop)]
pub struct RecordList<'z> {
    kept: Kept<'z>,
}

impl<'z> Model for RecordList<'z> {
    ghost use Rattle.std.specs.Prelude.{List};
    ghost use Rattle.wire_messages.specs.declared.rr.rdata.RData.{RData};
    ghost use Rattle.wire_messages.specs.declared.rr.record.Record.{Record};

    ghost Value = { List (Record RData) };

    ghost use Rattle.hickory_base.specs.zone_store.RecordLists.{kept_records};

    ghost view = { λ list. kept_records list.kept };
}

impl<'z> RecordList<'z> {
    /// Records that lie elsewhere. It needs no memory.
    pub fn lent(records: &'z [Record]) -> RecordList<'z>
        ensures { result ≡ records.now }
    {
        RecordList {
            kept: Kept::Lent(records),
        }
    }

    /// Records of its own. It needs no memory.
    pub fn owned(records: Items<Record>) -> RecordList<'z>
        ensures { result ≡ records }
    {
        RecordList {
            kept: Kept::Owned(records),
        }
    }

    /// No records. It needs no memory.
    pub fn empty() -> RecordList<'z>
        ensures { result ≡ [] }
    {
        RecordList::lent(&[])
    }

    /// The records, in their order.
    pub fn as_slice(&self) -> &[Record]
        ensures { result.now ≡ self.now }
    {
        match &self.kept {
            Kept::Lent(records) => records,
            Kept::Owned(records) => records.as_slice(),
        }
    }

    /// Takes the records out, and leaves none. It needs no memory.
    pub fn take(&mut self) -> RecordList<'z>
        ensures taken { result ≡ self.old }
        ensures left { self.new ≡ [] }
    {
        mem::replace(self, RecordList::empty())
    }

    /// The records as a list of its own: themselves where they are owned, which needs no memory, and else copies.
    pub fn into_items(self, alloc: Global) -> Result<Items<Record>, AllocError>
        ensures { IfOk result (λ items. items ≡ self.entry) }
    {
        match self.kept {
            Kept::Owned(records) => Ok(records),
            Kept::Lent(records) => {
                let mut copies = Vec::with_capacity(alloc, records.len())?;
                append_copies(&mut copies, records)?;
                Ok(Items::from_vec(copies))
            }
        }
    }
}

/// The records in square brackets.
impl<'z> fmt::Debug for RecordList<'z> {
    fn fmt<W: fmt::Write>(&self, f: &mut fmt::Formatter<W>) -> fmt::Result {
        self.as_slice().fmt(f)
    }
}
