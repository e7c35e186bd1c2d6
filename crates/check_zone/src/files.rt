//! The records of zone files, and why a file is not taken.

ghost use Rattle.std.specs.Prelude.{◌<◌, ◌≤◌, IfOk};
ghost use Rattle.check_zone.specs.Checking.{AreRecordsOf};

use crate::places::{Places, places_of};
use std::alloc::{AllocError, Global};
use std::rt::Files;
use std::{fs, io, str};
use thiserror::Error;
use wire_messages::rr::record::Record;
use wire_names::rr::domain::name::Name;
use wire_names::values::items::Items;
use zone_text::{FileOpener, FileRefusal, IncludedError, read_zone_with_files};

/// Why a zone file is not taken, but for what is wrong in it.
#[derive(Clone, Copy, Debug, PartialEq, Eq, Error)]
pub enum FileFault {
    /// The system does not give it.
    #[error("{0}")]
    Refused(FileRefusal),
    /// It has no SOA record at the apex, where its serial is wanted.
    #[error("no SOA record at the apex has a serial")]
    NoSerial,
    /// Memory was refused.
    #[error("no memory")]
    Memory,
}

impl FileFault {
    /// The status that tells it.
    pub fn status(self) -> u8
        ensures { (1 < result) × (result ≤ 5) }
    {
        match self {
            FileFault::Memory => 3,
            _ => 5,
        }
    }
}

/// Why the system does not give a file.
// No clause: why the system gives no file is only reported.
fn refusal_of(e: &io::Error) -> FileRefusal {
    match e.kind() {
        io::ErrorKind::NotFound | io::ErrorKind::NotADirectory => FileRefusal::Absent,
        io::ErrorKind::PermissionDenied => FileRefusal::Forbidden,
        io::ErrorKind::IsADirectory => FileRefusal::Folder,
        io::ErrorKind::OutOfMemory => FileRefusal::Memory,
        _ => FileRefusal::Other,
    }
}

/// The bytes of a file.
// No clause: no contract says which bytes a file has.
pub fn read_bytes<R: Files + Alloc<A = Global>>(rt: &R, file: &str) -> Result<Vec<u8>, FileFault> {
    match fs::read(rt, file) {
        Ok(bytes) => Ok(bytes),
        Err(e) => match refusal_of(&e) {
            FileRefusal::Memory => Err(FileFault::Memory),
            refusal => Err(FileFault::Refused(refusal)),
        },
    }
}

/// The files of the system, by their paths; those that do not begin with `/` are below the folder that the program runs
/// in.
#[derive(Drop)]
pub struct SystemFiles<'a, R> {
    rt: &'a R,
}

impl<R: Files + Alloc<A = Global>> FileOpener for SystemFiles<'_, R> {
    ghost opens = { λ _ _ _. Unit {0} };

    ghost refuses = { λ _ _ _. Unit {0} };

    fn open(&self, _alloc: Global, file: &[u8]) -> Result<Vec<u8>, FileRefusal> {
        let Ok(path) = str::from_utf8(file) else {
            return Err(FileRefusal::BadName);
        };
        match fs::read(self.rt, path) {
            Ok(bytes) => Ok(bytes),
            Err(e) => Err(refusal_of(&e)),
        }
    }
}

/// The records that the bytes of a zone file have, and the files that it includes.
pub fn records_of<R: Files + Alloc<A = Global>>(
    rt: &R,
    origin: &Name,
    bytes: &[u8],
) -> Result<Items<Record>, IncludedError>
    ensures { IfOk result (AreRecordsOf origin.now bytes.now) }
{
    read_zone_with_files(rt.alloc(), bytes, origin, &SystemFiles { rt })
}

/// Where the records of these bytes of a zone file stand, and those of the files that it includes.
// No clause: places are only printed.
pub fn places_in<R: Files + Alloc<A = Global>>(rt: &R, bytes: &[u8]) -> Result<Places, AllocError> {
    places_of(rt.alloc(), &SystemFiles { rt }, bytes)
}
