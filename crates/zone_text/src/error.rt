//! Why a zone file could not be read.

use crate::zone_file::fault_word::FaultWord;
use hickory_wire::Octets;
use text_words::TextFault;
use thiserror::Error;

/// Why a file that is included is not given.
#[derive(Clone, Copy, Debug, PartialEq, Eq, Error)]
pub enum FileRefusal {
    /// There is no file of this name.
    #[error("there is no such file")]
    Absent,
    /// There is no permission to read it.
    #[error("no permission to read the file")]
    Forbidden,
    /// It is a directory.
    #[error("it is a directory")]
    Folder,
    /// The name is not one of a file: for instance it is not UTF-8.
    #[error("not the name of a file")]
    BadName,
    /// Another reason, or the system gives none.
    #[error("the file cannot be read")]
    Other,
    /// An allocation failed.
    #[error("out of memory")]
    Memory,
}

/// What is wrong with a zone file.
#[derive(Clone, Copy, Debug, PartialEq, Eq, Error)]
pub enum ZoneFileFault {
    /// A field, a quote or a parenthesis is wrong, or a field is missing.
    #[error("{0}")]
    Text(TextFault),
    /// A line begins with `$` and a word other than `$ORIGIN`, `$TTL`, `$INCLUDE` and `$GENERATE`.
    #[error("unknown directive")]
    UnknownDirective,
    /// A line is `$INCLUDE`, and the caller gives no files to include.
    #[error("$INCLUDE is not allowed here")]
    IncludeNotTaken,
    /// Files include one another more than ten levels deep, for instance if one includes itself.
    #[error("$INCLUDE is more than ten levels deep")]
    TooManyFiles,
    /// A file that is included cannot be read.
    #[error("{0}")]
    FileRefused(FileRefusal),
    /// The range of a `$GENERATE` directive is not two numbers of 31 bits with `-` between them, the first not the
    /// greater one, and maybe `/` and a step that is not 0, with at most 65,536 numbers.
    #[error("not a range of numbers")]
    BadRange,
    /// In a field of a `$GENERATE` directive, `${` does not begin the form of a number, or the number with its offset
    /// is below 0 or has more than 31 bits.
    #[error("not the form of a number")]
    BadNumberForm,
    /// The first record has no owner name: its line begins with a blank.
    #[error("no owner name here and no record before")]
    NoOwner,
    /// The first record has no TTL, and there is no `$TTL` before it.
    #[error("no TTL here and no TTL before")]
    NoTtl,
    /// The class is not IN.
    #[error("the class is not IN")]
    ClassNotIn,
    /// Records of the type, such as OPT and ANY, are only in messages (RFC 6895 section 3.1).
    #[error("records of the type cannot be in a zone")]
    NotZoneData,
}

impl ZoneFileFault {
    /// The end of the message: what the field should be, if few words say it.
    fn expected(self) -> &'static str {
        match self {
            ZoneFileFault::UnknownDirective => "; expected $ORIGIN, $TTL, $INCLUDE or $GENERATE",
            ZoneFileFault::BadRange => "; expected FIRST-LAST or FIRST-LAST/STEP",
            ZoneFileFault::BadNumberForm => "; expected ${OFFSET,WIDTH,BASE}",
            ZoneFileFault::Text(TextFault::BadDate) => "; expected YYYYMMDDHHmmSS or seconds",
            _ => "",
        }
    }
}

/// Why a zone file could not be read: what is wrong and where, or an allocation failed.
#[derive(Clone, Copy, Debug, PartialEq, Eq, Error)]
pub enum ZoneFileError {
    /// Something is wrong with the file. The message begins with line and column, so that a program prints the file's
    /// name and a colon directly before it.
    #[error("{line}:{column}: {fault}{word}{expected}", expected = .fault.expected())]
    At {
        /// Which line it begins on; the first is 1. If a field is missing, the line that ends the entry; if a quote or
        /// a parenthesis is not closed, the line on which it opens.
        line: usize,
        /// Which byte of the line it begins with; the first is 1. If a field is missing, the byte after the last one.
        column: usize,
        /// The field from there on, as it is in the file; empty if a field is missing.
        word: FaultWord,
        /// What is wrong.
        fault: ZoneFileFault,
    },
    /// An allocation failed.
    #[error("out of memory")]
    Memory,
}

/// Why a zone file that includes others could not be read: in which file, and what.
#[derive(Drop)]
pub struct IncludedError {
    /// The name of the file that has the fault, as in the directive that includes it; no bytes if it is the first file.
    pub file: Octets,
    /// What is wrong, and where in that file; or an allocation failed.
    pub error: ZoneFileError,
}
