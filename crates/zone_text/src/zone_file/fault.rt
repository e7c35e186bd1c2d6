//! Faults of a zone file by their places.

ghost use Rattle.std.specs.Prelude.{◌≡◌, ◌≤◌, length};
ghost use Rattle.zone_text.specs.declared.zone_file.fault.EntryError.TheVariants.{At, Memory};
ghost use Rattle.zone_text.specs.ZoneFaults.{IsMovedInto, IsPlaced, IsToldOf, IsWithin, error_of};

use crate::error::{ZoneFileError, ZoneFileFault};
use crate::zone_file::fault_word::FaultWord;
use std::alloc::{AllocError, AllocFailed};
use text_words::{TextError, Word, field_end};

/// Why an entry could not be read.
#[derive(Clone, Copy)]
pub(crate) enum EntryError {
    /// Something is wrong with it.
    At {
        /// How many bytes of the file stand before it.
        place: usize,
        /// What is wrong.
        fault: ZoneFileFault,
    },
    /// Memory was refused.
    Memory,
}

/// A fault of a whole field.
pub(crate) fn fault_of(word: &Word<'_>, fault: ZoneFileFault) -> EntryError
    ensures { result ≡ At word.now.start fault }
{
    EntryError::At {
        place: word.start,
        fault,
    }
}

impl From<TextError> for EntryError {
    ghost from_gives = { λ e given. given ≡ error_of e };

    fn from(e: TextError) -> EntryError {
        match e {
            TextError::At { column, fault } => EntryError::At {
                place: column.saturating_sub(1),
                fault: ZoneFileFault::Text(fault),
            },
            TextError::Memory => EntryError::Memory,
        }
    }
}

impl From<AllocError> for EntryError {
    ghost from_gives = { λ _ e. e ≡ Memory };

    fn from(_e: AllocError) -> EntryError {
        EntryError::Memory
    }
}

impl<T: Drop> From<AllocFailed<T>> for EntryError {
    ghost from_gives = { λ _ e. e ≡ Memory };

    fn from(_e: AllocFailed<T>) -> EntryError {
        EntryError::Memory
    }
}

/// Line and column of the byte of a text before which so many stand; the first are 1.
fn line_and_column(text: &[u8], place: usize) -> (usize, usize)
    requires { place ≤ length text.now }
    ensures { IsPlaced text.now place result.0 result.1 }
{
    let mut line = 1;
    let mut start = 0;
    for at in 0..place {
        if text[at] == b'\n' {
            line += 1;
            start = at + 1;
        }
    }
    (line, place - start + 1)
}

impl EntryError {
    /// This fault of an entry that stands from one place to another, told at no place outside of them.
    pub(crate) fn within(self, start: usize, end: usize) -> EntryError
        requires { start ≤ end }
        ensures { IsMovedInto start end self result }
    {
        match self {
            EntryError::At { place, fault } => EntryError::At {
                place: place.max(start).min(end),
                fault,
            },
            EntryError::Memory => EntryError::Memory,
        }
    }

    /// The fault of the zone file that has this text.
    pub(crate) fn in_file(self, text: &[u8]) -> ZoneFileError
        requires { IsWithin 0 (length text.now) self }
        ensures { IsToldOf text.now self result }
    {
        match self {
            EntryError::At { place, fault } => {
                let (line, column) = line_and_column(text, place);
                ZoneFileError::At {
                    line,
                    column,
                    word: FaultWord::new(&text[place..field_end(text, place)]),
                    fault,
                }
            }
            EntryError::Memory => ZoneFileError::Memory,
        }
    }
}
