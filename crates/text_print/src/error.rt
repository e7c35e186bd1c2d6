//! What keeps records from being printed.

ghost use Rattle.std.specs.Prelude.{◌≡◌};
ghost use Rattle.text_print.specs.declared.error.PrintError.TheVariants.{Memory};

use std::alloc::AllocError;
use thiserror::Error;

/// Why data are not printed.
#[derive(Clone, Copy, Debug, PartialEq, Eq, Error)]
pub enum PrintError {
    /// Memory was refused.
    #[error("out of memory")]
    Memory,
    /// The data are none that a record is read with: a name in them is not fully qualified, or they are bytes in place
    /// of the form that their type has.
    #[error("the data are not in the form of their type")]
    WrongForm,
    /// The data have more than 65,535 bytes, so that no length tells them (RFC 1035 section 3.2.1).
    #[error("the data have more than 65,535 bytes")]
    DataTooLong,
}

impl From<AllocError> for PrintError {
    ghost from_gives = { λ _ e. e ≡ Memory };

    fn from(_error: AllocError) -> PrintError {
        PrintError::Memory
    }
}
