//! Why the program ends before anything is found.

ghost use Rattle.std.specs.Prelude.{◌<◌, ◌≤◌};

use std::alloc::{AllocError, AllocFailed};
use text_print::PrintError;
use thiserror::Error;

/// Why the program ends before anything is found.
#[derive(Clone, Copy, Debug, PartialEq, Eq, Error)]
pub enum Fault {
    /// An argument is not UTF-8.
    #[error("an argument is not UTF-8")]
    Arguments,
    /// The text for the name of the apex is not a name.
    #[error("not the name of a zone")]
    Origin,
    /// The text for the time is not a number of seconds.
    #[error("not a time in seconds since 1970")]
    Time,
    /// An allocation failed.
    #[error("no memory")]
    Memory,
    /// A record has data without a text form.
    #[error("a record cannot be printed")]
    Record,
    /// The output cannot be written.
    #[error("the output cannot be written")]
    Write,
}

impl Fault {
    /// Its exit status.
    pub fn status(self) -> u8
        ensures { (1 < result) × (result ≤ 5) }
    {
        match self {
            Fault::Arguments | Fault::Origin | Fault::Time => 2,
            Fault::Memory => 3,
            Fault::Write => 4,
            Fault::Record => 5,
        }
    }
}

impl From<PrintError> for Fault {
    fn from(error: PrintError) -> Fault {
        match error {
            PrintError::Memory => Fault::Memory,
            _ => Fault::Record,
        }
    }
}

impl From<AllocError> for Fault {
    fn from(_e: AllocError) -> Fault {
        Fault::Memory
    }
}

impl<T: Drop> From<AllocFailed<T>> for Fault {
    fn from(_e: AllocFailed<T>) -> Fault {
        Fault::Memory
    }
}
