//! Where a journal is damaged, or is none.

use crate::files::bytes_of;
use hickory_server::proto::LowerName;
use journal::{is_journal, is_newer, read_entries};
use journal_entries::{EntryPlace, first_wrong};
use std::alloc::Global;
use std::fmt;
use std::rt::Files;

/// Where in its two files a journal has an entry that is no update of the zone.
#[derive(Clone, Copy, Debug, PartialEq, Eq)]
pub struct Damage {
    /// The entry.
    pub entry: EntryPlace,
    /// Whether it is one of the second file.
    pub is_second: bool,
}

impl fmt::Display for Damage {
    fn fmt<W: fmt::Write>(&self, f: &mut fmt::Formatter<W>) -> fmt::Result {
        write!(f, "{}", self.entry)?;
        if self.is_second {
            f.write_str(" of the file '-wal' beside it")?;
        }
        Ok(())
    }
}

/// The entries of a file, if it can be read.
// No clause: no contract says which bytes a file has.
fn entries_of<R: Files + Alloc<A = Global>>(rt: &R, file: &str) -> Option<Vec<Vec<u8>>> {
    let bytes = bytes_of(rt, file).ok()?;
    let found = read_entries(rt.alloc(), &bytes).ok()?;
    Some(found.entries)
}

/// Where the journal at a path is damaged: the first entry, of the file that counts, which may not be in the journal
/// of this zone. It is looked for as far as files and memory give.
// No clause: where a journal is damaged is only reported.
pub fn find_damage<R: Files + Alloc<A = Global>>(
    rt: &R,
    path: &str,
    zone: &LowerName,
) -> Option<Damage> {
    let alloc = rt.alloc();
    let beside = format!(in alloc; "{path}-wal").ok()?;
    let first = entries_of(rt, path)?;
    let second = entries_of(rt, beside.as_str())?;
    let is_second = is_newer(&second, &first);
    let counting = if is_second { &second } else { &first };
    let entry = first_wrong(alloc, counting, zone).ok()??;
    Some(Damage { entry, is_second })
}

/// Whether the file at a path is no journal's, as far as it can be read: of the two files of a journal that is
/// refused it is this one, or else the one beside it.
// No clause: no contract says which bytes a file has.
pub fn is_none_at<R: Files + Alloc<A = Global>>(rt: &R, path: &str) -> bool {
    match bytes_of(rt, path) {
        Ok(bytes) => !is_journal(&bytes),
        Err(_) => false,
    }
}
