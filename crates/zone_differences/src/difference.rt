//! What an update changes of a zone, and how it stands in a transfer.

ghost use Rattle.std.specs.Prelude.{◌++◌, ◌<◌, ◌^◌, ◌≡◌, OnOk, length};
ghost use Rattle.std.specs.List.{flat_map};
ghost use Rattle.zone_differences.specs.Sequences.{sequence};

use hickory_wire::{Items, Record};
use std::alloc::AllocError;

/// What leads from one version of a zone to the next (RFC 1995 sections 2 and 4): the records that go, and those that
/// come. A record of which the TTL changes goes, and comes.
#[derive(Debug, Drop)]
pub struct Difference {
    /// The SOA record of the version that it leads from.
    pub old_soa: Record,
    /// The other records that go.
    pub deleted: Items<Record>,
    /// The SOA record of the version that it leads to.
    pub new_soa: Record,
    /// The other records that come.
    pub added: Items<Record>,
}

impl Difference {
    /// How many records of a transfer it takes.
    pub fn len(&self) -> usize
        ensures { length (sequence self.now) < 2 ^ 64 → result ≡ length (sequence self.now) }
    {
        let others = self.deleted.len().saturating_add(self.added.len());
        others.saturating_add(2)
    }
}

/// Puts copies of records last. Where memory is refused, those of a front of them may have been put.
pub(crate) fn push_copies(all: &mut Vec<Record>, records: &[Record]) -> Result<(), AllocError>
    ensures { OnOk result (all.new.items ≡ all.old.items ++ records.now) }
{
    for r in records {
        all.push(r.clone()?)?;
    }
    Ok(())
}

/// Puts copies of the records of a difference last, as they stand in a transfer.
fn push_sequence(all: &mut Vec<Record>, difference: &Difference) -> Result<(), AllocError>
    ensures { OnOk result (all.new.items ≡ all.old.items ++ sequence difference.now) }
{
    all.push(difference.old_soa.clone()?)?;
    push_copies(all, difference.deleted.as_slice())?;
    all.push(difference.new_soa.clone()?)?;
    push_copies(all, difference.added.as_slice())
}

/// Puts copies of the records of several differences last, one difference after another.
pub(crate) fn push_sequences(
    all: &mut Vec<Record>,
    differences: &[Difference],
) -> Result<(), AllocError>
    ensures { OnOk result (all.new.items ≡ all.old.items ++ flat_map sequence differences.now) }
{
    for difference in differences {
        push_sequence(all, difference)?;
    }
    Ok(())
}
