//! Lists as people have them, put on a list of blocked names.

ghost use Rattle.std.specs.Prelude.{◌≡◌, IfOk, OnErr};
ghost use Rattle.name_lists.specs.Adding.{AddsList, AddsSome};

use crate::adapter::{PlainLines, adapt};
use crate::report::ListReport;
use hickory_store::blocklist::{AddError, BlocklistZoneHandler, ListReader};
use std::alloc::{AllocError, Global};
use std::io;

impl ListReader for PlainLines {
    ghost use Rattle.std.specs.Prelude.{Some};

    ghost remaining = { λ lines. Some lines };

    ghost failures = { λ _. 0 };

    fn read(&mut self, buffer: &mut [u8]) -> io::Result<usize> {
        Ok(self.take(buffer))
    }
}

/// Adds the names that the lines of a list give to those of a list of blocked names, and tells what became of the
/// lines.
pub fn add_list(
    alloc: Global,
    list: &mut BlocklistZoneHandler,
    bytes: &[u8],
) -> Result<ListReport, AllocError>
    ensures ok { IfOk result (λ report. AddsList bytes.now list.old.entries list.new.entries report) }
    ensures err { OnErr result (AddsSome bytes.now list.old.entries list.new.entries) }
    ensures kept { list.new ≡ record list.old { entries = list.new.entries } }
{
    let (mut lines, report) = adapt(alloc, bytes)?;
    match list.add(&mut lines) {
        Ok(()) => Ok(report),
        Err(AddError::Io) => unreachable!(),
        Err(AddError::NotUtf8) => unreachable!(),
        Err(AddError::Memory) => Err(AllocError),
    }
}
