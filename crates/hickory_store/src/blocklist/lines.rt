//! What a line of a list says.

ghost use Rattle.std.specs.Prelude.{◌≡◌, ◌↔◌, [], IfOk, IsTrue};
ghost use Rattle.std.specs.Option.{option_copied};
ghost use Rattle.std.specs.Str.{trim};
ghost use Rattle.wire_names.specs.rr.domain.DomainName.{DomainName};
ghost use Rattle.hickory_store.specs.blocklist.ListLines.{Lists, entry_of, name_of};
ghost use Rattle.hickory_store.specs.blocklist.ListReports.{IsLine};
ghost use Rattle.hickory_store.specs.blocklist.Entries.{Tells};

use hickory_wire::{LowerName, Name, NameError};
use std::alloc::{AllocError, Global};

/// What may stand before a name on its line, and a blank between them.
const UNSPECIFIED_ADDRESS: &str = "0.0.0.0";

/// A name that a line lists.
#[derive(Drop)]
pub(crate) struct Listed {
    /// The name, fully qualified.
    pub(crate) name: LowerName,
    /// Whether its first label is `*`.
    pub(crate) is_wildcard: bool,
}

/// What a line has before a comment.
fn entry_of(line: &str) -> &str
    ensures { result.now ≡ entry_of line.now }
{
    match line.split_once('#') {
        Some((entry, _)) => entry.trim(),
        None => line,
    }
}

/// The part of an entry that should be a name.
fn name_of(entry: &str) -> Option<&str>
    ensures { option_copied result ≡ name_of entry.now }
{
    match entry.split_once(' ') {
        Some((address, name)) if address.trim() == UNSPECIFIED_ADDRESS => Some(name),
        Some(_) => None,
        None => Some(entry),
    }
}

/// The name that a line lists, if there is one.
pub(crate) fn read_line(alloc: Global, line: &str) -> Result<Option<Listed>, AllocError>
    ensures { IfOk result (Tells line.now) }
{
    let Some(text) = name_of(entry_of(line)) else {
        return Ok(None);
    };
    let mut name = match Name::from_ascii(alloc, text) {
        Ok(name) => name,
        Err(NameError::Text) => return Ok(None),
        Err(NameError::Memory) => return Err(AllocError),
    };
    name.set_fqdn(true);
    Ok(Some(Listed {
        name: LowerName::new(alloc, &name)?,
        is_wildcard: text.starts_with('*'),
    }))
}

/// What a line of a list says.
#[derive(Clone, Copy, Debug, PartialEq, Eq)]
pub enum ListLine {
    /// It lists a name.
    Name,
    /// Nothing: it is blank, or a comment stands alone on it.
    Nothing,
    /// It lists no name, though something stands there: it is skipped.
    Skipped,
}

/// Whether nothing stands on a line, or nothing before its comment, but white space.
fn is_silent(line: &str) -> bool
    ensures { IsTrue result ↔ (trim (entry_of line.now) ≡ []) }
{
    entry_of(line).trim().is_empty()
}

/// What a line that lists no name says.
fn nameless(line: &str) -> ListLine
    requires { (name : DomainName) → ¬ (Lists line.now name) }
    ensures { IsLine line.now result }
{
    if is_silent(line) {
        ListLine::Nothing
    } else {
        ListLine::Skipped
    }
}

/// What a line says.
pub(crate) fn list_line(alloc: Global, line: &str) -> Result<ListLine, AllocError>
    ensures { IfOk result (IsLine line.now) }
{
    match read_line(alloc, line)? {
        Some(listed) => {
            drop(listed);
            Ok(ListLine::Name)
        }
        None => Ok(nameless(line)),
    }
}
