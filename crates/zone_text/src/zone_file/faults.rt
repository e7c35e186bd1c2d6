//! More faults of a zone file than the first.

ghost use Rattle.std.specs.Prelude.{◌≢◌, ◌≤◌, ◌<◌, ◌⊎◌, ℕ, length, slice_get, IfOk, IfSome};
ghost use Rattle.text_words.specs.Words.{IsRestOfLine};
ghost use Rattle.zone_text.specs.declared.zone_file.entry.Before.{Before as BeforeOf};
ghost use Rattle.zone_text.specs.declared.zone_file.fault.EntryError.TheVariants.{Memory};
ghost use Rattle.zone_text.specs.ZoneFaults.{AreTaken, IsBehindRefused, IsFirstFault, IsToldOf, IsWithin};

use crate::error::ZoneFileError;
use crate::zone_file::entry::Before;
use crate::zone_file::fault::EntryError;
use crate::zone_file::{entry_at, first_entry};
use hickory_wire::{Items, Name};
use std::alloc::{AllocError, Global};
use text_words::{TextError, Words};

/// The most faults that are told of a file.
pub const MOST_FAULTS: usize = 10;

/// Where a line ends: its line feed from this place on, or the end of the text.
fn line_end(text: &[u8], start: usize) -> usize
    requires { start ≤ length text.now }
    ensures { IsRestOfLine text.now start result }
{
    let mut place = start;
    'bytes: while place < text.len() && text[place] != b'\n' {
        place += 1;
    }
    place
}

/// Where the entry begins behind one that is refused, and begins here.
fn behind_refused(alloc: Global, text: &[u8], place: usize) -> Result<usize, AllocError>
    requires { place < length text.now }
    ensures on { IfOk result (λ next. place < next) }
    ensures behind { IfOk result (IsBehindRefused text.now place) }
{
    let mut words = Words::entry(text, place);
    let _fields = match words.rest(alloc) {
        Ok(fields) => fields,
        Err(TextError::Memory) => return Err(AllocError),
        Err(TextError::At { .. }) => return Ok(line_end(text, place) + 1),
    };
    Ok(words.place() + 1)
}

/// The fault of a file of which this is one of an entry, and no want of memory.
fn told_in_file(e: EntryError, text: &[u8]) -> Result<ZoneFileError, AllocError>
    requires { IsWithin 0 (length text.now) e }
    ensures { IfOk result (λ what. (e ≢ Memory) × IsToldOf text.now e what) }
{
    match e {
        EntryError::Memory => Err(AllocError),
        EntryError::At { .. } => Ok(e.in_file(text)),
    }
}

/// The faults of a zone file, in their order, at most ten; none where it has none.
///
/// Each is told of an entry that is none behind what the entries before it leave that are some; one that is refused
/// leaves what it was left. So the first is the one that [`read_zone_bytes`](crate::read_zone_bytes) tells, and one
/// behind it may be there for it alone, as where a `$ORIGIN` is refused.
pub fn zone_file_faults(
    alloc: Global,
    text: &[u8],
    origin: &Name,
) -> Result<Vec<ZoneFileError>, AllocError>
    ensures taken { IfOk result (λ faults. (end : ℕ) × (last : BeforeOf) ×
        AreTaken origin.now text.now end last faults.items × ((length text.now ≤ end) ⊎ (10 ≤ length faults.items))) }
    ensures most { IfOk result (λ faults. length faults.items ≤ 10) }
    ensures first { IfOk result (λ faults. IfSome (slice_get faults.items 0) (IsFirstFault origin.now text.now)) }
{
    let mut faults = Vec::new(alloc);
    let mut before = Before {
        origin: origin.clone()?,
        default_ttl: None,
        owned: 0,
        records: Items::new(alloc),
    };
    let mut place = first_entry(text);
    'entries: while place < text.len() && faults.len() < MOST_FAULTS {
        match entry_at(alloc, text, place, &before) {
            Ok((entry, end)) => {
                before.take(alloc, entry)?;
                place = end + 1;
            }
            Err(e) => {
                faults.push(told_in_file(e, text)?)?;
                place = behind_refused(alloc, text, place)?;
            }
        }
    }
    Ok(faults)
}
