//! Compacting a journal in its two files.

use crate::fault::{Fault, fault_of_file};
use crate::zone::Zone;
use durable_updates::{CompactError, JournalledZone, OpenError, RedoError, SnapshotError};
use journal::{JournalError, RecoverError};
use sqlite_disk::Files;
use sqlite_std_file::{OpenError as FilesError, Unknown, open};

/// Why the two files of a journal are not opened.
// No clause: why it fails is only reported.
pub fn fault_of_files(error: &FilesError) -> Fault {
    match error {
        FilesError::OutOfMemory => Fault::Memory,
        FilesError::Busy => Fault::InUse,
        FilesError::HotJournal => Fault::Rollback,
        FilesError::Io(e) => fault_of_file(e),
    }
}

/// Why a journal is not opened.
// No clause: why it fails is only reported.
pub fn fault_of_opening(error: &OpenError) -> Fault {
    match error {
        OpenError::Journal(RecoverError::Memory) => Fault::Memory,
        OpenError::Journal(RecoverError::NotAJournal) => Fault::OneIsNone,
        OpenError::Journal(RecoverError::Disk(_)) => Fault::Unread,
        OpenError::Entries(RedoError::Memory) => Fault::Memory,
        OpenError::Entries(e) => Fault::Entries(*e),
    }
}

/// Why a journal is not compacted.
// No clause: why it fails is only reported.
fn fault_of_compaction(error: &CompactError) -> Fault {
    match error {
        CompactError::OneFile | CompactError::Held => Fault::NotWritten,
        CompactError::Zone(SnapshotError::Memory) => Fault::Memory,
        CompactError::Zone(SnapshotError::Unreadable) => Fault::NoSnapshot,
        CompactError::Journal(JournalError::Memory) => Fault::Memory,
        CompactError::Journal(_) => Fault::NotWritten,
    }
}

/// Compacts the journal in a file and the one beside it, whose entries are done to this zone.
pub fn compact(rt: &HostRuntime, file: &str, zone: Zone) -> Result<(), Fault> {
    let Files { db, log } = match open(rt, file, Unknown) {
        Ok(files) => files,
        Err(error) => return Err(fault_of_files(&error)),
    };
    let mut zone = match JournalledZone::open_two(rt.alloc(), zone, db, log) {
        Ok(zone) => zone,
        Err((error, _, _)) => return Err(fault_of_opening(&error)),
    };
    match zone.compact(rt.alloc()) {
        Ok(()) => Ok(()),
        Err(error) => Err(fault_of_compaction(&error)),
    }
}
