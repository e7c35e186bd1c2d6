//! Why the program ends before it has done what it was asked for.

ghost use Rattle.std.specs.Prelude.{◌<◌, ◌≤◌};

use durable_updates::RedoError;
use hickory_server::store::file::{RecordsError, ZoneError};
use std::alloc::{AllocError, AllocFailed};
use std::io;
use thiserror::Error;

/// Why the program ends before it has done what it was asked for.
#[derive(Clone, Copy, Debug, PartialEq, Eq, Error)]
pub enum Fault {
    /// An argument is not UTF-8.
    #[error("an argument is not UTF-8")]
    Arguments,
    /// The text for the name of the apex is not a name.
    #[error("not the name of a zone")]
    Origin,
    /// An allocation failed.
    #[error("no memory")]
    Memory,
    /// The output cannot be written.
    #[error("the output cannot be written")]
    Write,
    /// There is no file of this name.
    #[error("there is no such file")]
    Absent,
    /// A file cannot be read, for another reason.
    #[error("the file cannot be read")]
    Unread,
    /// A file is not one of a journal.
    #[error("not a journal")]
    NotAJournal,
    /// One of the two files of a journal is not one of a journal.
    #[error("this file or its '-wal' file is not a journal")]
    OneIsNone,
    /// A file that a zone file includes has a fault, which was reported.
    #[error("a file that it includes has a fault")]
    Included,
    /// A zone file is not the file of a zone.
    #[error("{0}")]
    Zone(ZoneError),
    /// The zone had this serial neither before nor after an entry.
    #[error("the zone never had serial {serial}")]
    NoSerial {
        /// The serial.
        serial: u32,
    },
    /// Another process has the files of a journal open.
    #[error("the journal is in use")]
    InUse,
    /// There is a rollback journal of SQLite for the file.
    #[error("there is a rollback journal of SQLite beside it")]
    Rollback,
    /// A snapshot of the zone does not read back as the zone.
    #[error("a snapshot does not read back as the zone")]
    NoSnapshot,
    /// The snapshot was not written.
    #[error("the snapshot is not written")]
    NotWritten,
    /// The journal does not begin with a snapshot.
    #[error("the journal does not begin with a snapshot: compact it first")]
    NotCompacted,
    /// The serial of a zone file is not above that of the zone.
    #[error("the serial {other} is not above that of the zone, {zone}")]
    NotAbove {
        /// The serial of the zone.
        zone: u32,
        /// The serial of the file.
        other: u32,
    },
    /// A record does not fit into a request for an update.
    #[error("a record does not fit into a request for an update")]
    RecordTooLong,
    /// No updates lead to the zone.
    #[error("no updates lead to this zone")]
    Unreached,
    /// The updates were not written.
    #[error("the updates are not written")]
    UpdatesNotWritten,
    /// An entry is no update of the zone.
    #[error("{0}")]
    Entries(RedoError),
}

impl Fault {
    /// Its exit status.
    pub fn status(self) -> u8
        ensures { (1 < result) × (result ≤ 5) }
    {
        match self {
            Fault::Arguments | Fault::Origin => 2,
            Fault::Memory => 3,
            Fault::Write => 4,
            _ => 5,
        }
    }
}

impl From<AllocError> for Fault {
    fn from(_e: AllocError) -> Fault {
        Fault::Memory
    }
}

impl<T: Drop> From<AllocFailed<T>> for Fault {
    fn from(_e: AllocFailed<T>) -> Fault {
        Fault::Memory
    }
}

impl From<RedoError> for Fault {
    fn from(e: RedoError) -> Fault {
        match e {
            RedoError::Memory => Fault::Memory,
            RedoError::Damaged => Fault::Entries(e),
        }
    }
}

impl From<RecordsError> for Fault {
    fn from(e: RecordsError) -> Fault {
        match e {
            RecordsError::Memory => Fault::Memory,
            other => Fault::Zone(ZoneError::Records(other)),
        }
    }
}

/// The fault of a file that the system does not give.
// No clause: why the system gives no file is only reported.
pub fn fault_of_file(e: &io::Error) -> Fault {
    match e.kind() {
        io::ErrorKind::NotFound | io::ErrorKind::NotADirectory => Fault::Absent,
        io::ErrorKind::OutOfMemory => Fault::Memory,
        _ => Fault::Unread,
    }
}
