//! Why a journal refuses, and why a file is not recovered.

use std::io;
use thiserror::Error;

/// Why entries were not added, or not taken out.
#[derive(Debug, Drop, Error)]
pub enum JournalError {
    /// A write has failed before, or the file has 2^60 bytes: the journal takes no entry. Nothing was written.
    #[error("the journal takes no entry")]
    Shut,
    /// An entry has 2^32 bytes or more, or all together 2^60. Nothing was written.
    #[error("the entry is too long")]
    TooLong,
    /// Memory was refused. Nothing was written.
    #[error("out of memory")]
    Memory,
    /// The disk has failed.
    #[error("the disk failed: {0}")]
    Disk(io::Error),
}

/// Why a journal was not recovered from its file.
#[derive(Debug, Drop, Error)]
pub enum RecoverError {
    /// The file is no journal's: none leaves such a one, whatever crashes. Nothing was written.
    #[error("it is no journal")]
    NotAJournal,
    /// Memory was refused. Nothing was written.
    #[error("out of memory")]
    Memory,
    /// The disk has failed.
    #[error("the disk failed: {0}")]
    Disk(io::Error),
}
