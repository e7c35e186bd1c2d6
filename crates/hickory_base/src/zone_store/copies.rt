//! Copies of records.

ghost use Rattle.std.specs.Prelude.{◌≡◌, ◌++◌, OnOk};

use hickory_wire::Record;
use std::alloc::AllocError;

/// Puts copies of the records last. Where memory is refused, those of a front of them may have been put.
pub(crate) fn append_copies(all: &mut Vec<Record>, records: &[Record]) -> Result<(), AllocError>
    ensures { OnOk result (all.new.items ≡ all.old.items ++ records.now) }
{
    for q in records {
        all.push(q.clone()?)?;
    }
    Ok(())
}
