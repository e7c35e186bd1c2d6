//! Why the program ends before its input does.

use crate::frames::StreamFault;
use crate::journals::JournalFileFault;
use hickory_server::zone_text::FileRefusal;
use server::settings::SettingFault;
use std::alloc::{AllocError, AllocFailed};
use std::io;
use thiserror::Error;

/// Why a file is not taken.
#[derive(Clone, Copy, Debug, PartialEq, Eq, Error)]
pub enum FileFault {
    /// It cannot be read.
    #[error("{0}")]
    File(FileRefusal),
    /// It is not a file of this kind.
    #[error("{0}")]
    Setting(SettingFault),
    /// A file that it includes has a fault, which was reported.
    #[error("a file that it includes has a fault")]
    Included,
    /// An allocation failed.
    #[error("no memory")]
    Memory,
}

impl From<FileRefusal> for FileFault {
    fn from(e: FileRefusal) -> FileFault {
        match e {
            FileRefusal::Memory => FileFault::Memory,
            other => FileFault::File(other),
        }
    }
}

impl From<SettingFault> for FileFault {
    fn from(e: SettingFault) -> FileFault {
        match e {
            SettingFault::Memory => FileFault::Memory,
            other => FileFault::Setting(other),
        }
    }
}

impl From<AllocError> for FileFault {
    fn from(_e: AllocError) -> FileFault {
        FileFault::Memory
    }
}

/// Why the program ends before its input does. An argument is named by its place, and a file by its place among those
/// of its option.
#[derive(Clone, Copy, Debug, PartialEq, Eq, Error)]
pub enum Fault {
    /// An argument is no text.
    #[error("an argument is not UTF-8")]
    NotUtf8,
    /// The value of an option is not what the option takes.
    #[error("{fault}")]
    Argument {
        /// Which argument it is; the first is 1.
        place: usize,
        /// What is wrong with it.
        fault: SettingFault,
    },
    /// The text before the `=` of `--allow-update` is the name of no zone that is served.
    #[error("there is no --zone of this name")]
    UpdateZone {
        /// Which argument it is; the first is 1.
        place: usize,
    },
    /// The text before the `=` of `--journal` is the name of no zone that takes updates.
    #[error("there is no --allow-update of this zone")]
    JournalZone {
        /// Which argument it is; the first is 1.
        place: usize,
    },
    /// A journal is not taken.
    #[error("{fault}")]
    Journal {
        /// Which journal it is.
        place: usize,
        /// What is wrong with it.
        fault: JournalFileFault,
    },
    /// The updates of lines that were at hand together are not written to a journal.
    #[error("the journal is not written: the updates at hand are not answered")]
    Unwritten {
        /// Which journal it is.
        place: usize,
    },
    /// Two files are given for one zone.
    #[error("the zone is given twice")]
    ZoneTwice {
        /// Which argument it is; the first is 1.
        place: usize,
    },
    /// A zone file is not taken.
    #[error("{fault}")]
    Zone {
        /// Which file of a zone it is.
        place: usize,
        /// What is wrong with it.
        fault: FileFault,
    },
    /// A list of blocked names is not taken.
    #[error("{fault}")]
    List {
        /// Which list it is.
        place: usize,
        /// What is wrong with it.
        fault: FileFault,
    },
    /// The file of keys is not taken.
    #[error("{fault}")]
    Keys {
        /// What is wrong with it.
        fault: FileFault,
    },
    /// The peer's address may not use the server.
    #[error("denied")]
    Denied,
    /// A message is itself a response.
    #[error("a response, which gets no reply")]
    Response,
    /// The bytes of a message begin with none (RFC 1035 section 4.1).
    #[error("unreadable: the bytes begin with no message")]
    Unreadable,
    /// The input gives no message although one is wanted.
    #[error("{0}")]
    Stream(StreamFault),
    /// A line is no transport, address and message.
    #[error("line {number}: not 'udp|tcp ADDRESS HEX'")]
    Line {
        /// Which line it is; the first is 1.
        number: u64,
    },
    /// Memory was refused.
    #[error("no memory")]
    Memory,
    /// The clock cannot be read.
    #[error("the clock cannot be read")]
    Clock,
    /// The input cannot be read.
    #[error("the input cannot be read")]
    Read,
    /// The output takes nothing.
    #[error("the output cannot be written")]
    Write,
}

/// Why an input is served no further. It is no fault of a file, so that it is small.
// speed: served, an address
#[derive(Clone, Copy)]
pub enum Ended {
    /// The peer's address may not use the server.
    Denied,
    /// A message is itself a response.
    Response,
    /// The bytes of a message begin with none (RFC 1035 section 4.1).
    Unreadable,
    /// The input gives no message although one is wanted.
    Stream(StreamFault),
    /// Memory was refused.
    Memory,
    /// The clock cannot be read.
    Clock,
    /// The output takes nothing.
    Write,
}

impl Fault {
    /// Its exit status.
    pub fn status(self) -> u8 {
        match self {
            Fault::Denied | Fault::Response | Fault::Unreadable | Fault::Line { .. } => 1,
            Fault::Stream(StreamFault::Partial | StreamFault::TooLong) => 1,
            Fault::NotUtf8 | Fault::Argument { .. } | Fault::UpdateZone { .. } => 2,
            Fault::JournalZone { .. } | Fault::ZoneTwice { .. } => 2,
            Fault::Memory | Fault::Stream(StreamFault::Memory) => 3,
            Fault::Clock | Fault::Read | Fault::Write => 4,
            Fault::Stream(StreamFault::Read) => 4,
            Fault::Zone { .. } | Fault::List { .. } => 5,
            Fault::Keys { .. } | Fault::Journal { .. } => 5,
            Fault::Unwritten { .. } => 6,
        }
    }

    /// The argument that it is of, if it is of one; the first is 1.
    pub fn argument(self) -> Option<usize> {
        match self {
            Fault::Argument { place, .. } | Fault::UpdateZone { place } => Some(place),
            Fault::JournalZone { place } | Fault::ZoneTwice { place } => Some(place),
            _ => None,
        }
    }

    /// The fault of the value of an option, which is the argument at this place.
    pub fn of_argument(place: usize, fault: SettingFault) -> Fault {
        match fault {
            SettingFault::Memory => Fault::Memory,
            fault => Fault::Argument { place, fault },
        }
    }

    /// The fault of an input that cannot be read.
    // No clause: which error the system gives is only reported.
    pub fn of_input(e: &io::Error) -> Fault {
        match e.kind() {
            io::ErrorKind::OutOfMemory => Fault::Memory,
            _ => Fault::Read,
        }
    }
}

impl From<AllocError> for Fault {
    fn from(_e: AllocError) -> Fault {
        Fault::Memory
    }
}

impl<T: Drop> From<AllocFailed<T>> for Fault {
    fn from(_e: AllocFailed<T>) -> Fault {
        Fault::Memory
    }
}

impl From<StreamFault> for Fault {
    fn from(e: StreamFault) -> Fault {
        Fault::Stream(e)
    }
}

impl From<StreamFault> for Ended {
    fn from(e: StreamFault) -> Ended {
        Ended::Stream(e)
    }
}

impl From<Ended> for Fault {
    #[inline(never)]
    fn from(e: Ended) -> Fault {
        match e {
            Ended::Denied => Fault::Denied,
            Ended::Response => Fault::Response,
            Ended::Unreadable => Fault::Unreadable,
            Ended::Stream(e) => Fault::Stream(e),
            Ended::Memory => Fault::Memory,
            Ended::Clock => Fault::Clock,
            Ended::Write => Fault::Write,
        }
    }
}
