//! Why a zone is not turned into another one.

ghost use Rattle.std.specs.Prelude.{◌≢◌};
ghost use Rattle.zone_import.specs.declared.error.ImportError.TheVariants as import_error;

use durable_updates::RedoError;
use journal::JournalError;
use std::alloc::{AllocError, AllocFailed};
use thiserror::Error;

/// Why no requests are made that turn a zone into another one.
#[derive(Clone, Copy, Debug, PartialEq, Eq)]
pub(crate) enum RequestFault {
    /// A record does not fit a request.
    TooLong,
    /// They do not lead to the other zone.
    Unreached,
    /// Memory was refused.
    Memory,
}

impl From<AllocError> for RequestFault {
    fn from(_: AllocError) -> RequestFault {
        RequestFault::Memory
    }
}

impl<T: Drop> From<AllocFailed<T>> for RequestFault {
    fn from(_e: AllocFailed<T>) -> RequestFault {
        RequestFault::Memory
    }
}

impl From<RedoError> for RequestFault {
    fn from(e: RedoError) -> RequestFault {
        match e {
            RedoError::Memory => RequestFault::Memory,
            RedoError::Damaged => RequestFault::Unreached,
        }
    }
}

/// Why a zone is not turned into another one. Nothing is done then; but after `Journal(Disk)` it is for the next
/// recovery of the journal to say whether the updates are in it, all or none.
#[derive(Debug, Drop, Error)]
pub enum ImportError {
    /// The serial of the other zone is not above that of this one (RFC 1982 section 3.2).
    #[error("the serial is not above that of the zone")]
    Serial,
    /// A record does not fit a request of 65,535 octets.
    #[error("a record does not fit a request")]
    TooLong,
    /// The updates do not lead to the other zone, as where it has another apex, no NS record there, a record without
    /// data, or other data beside a CNAME.
    #[error("no updates lead to this zone")]
    Unreached,
    /// The journal does not take the updates.
    #[error("{0}")]
    Journal(JournalError),
    /// Memory was refused.
    #[error("out of memory")]
    Memory,
}

impl From<AllocError> for ImportError {
    ghost from_gives = { λ _ e. e ≢ import_error.Serial };

    fn from(_: AllocError) -> ImportError {
        ImportError::Memory
    }
}

impl From<RequestFault> for ImportError {
    ghost from_gives = { λ _ e. e ≢ import_error.Serial };

    fn from(e: RequestFault) -> ImportError {
        match e {
            RequestFault::TooLong => ImportError::TooLong,
            RequestFault::Unreached => ImportError::Unreached,
            RequestFault::Memory => ImportError::Memory,
        }
    }
}

impl From<JournalError> for ImportError {
    ghost from_gives = { λ _ e. e ≢ import_error.Serial };

    fn from(e: JournalError) -> ImportError {
        match e {
            JournalError::Memory => ImportError::Memory,
            other => ImportError::Journal(other),
        }
    }
}
