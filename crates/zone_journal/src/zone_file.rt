//! Zone files, with the files that they include (RFC 1035 section 5.1).

ghost use Rattle.std.specs.Prelude.{IfOk};
ghost use Rattle.zone_journal.specs.Zones.{IsZoneOfFiles};

use crate::fault::{Fault, fault_of_file};
use hickory_base::zone_store::{AxfrPolicy, InMemoryZoneHandler, ZoneType};
use hickory_server::store::file::{ZoneError, zone_of_records};
use hickory_server::zone_text::{
    FileOpener, FileRefusal, IncludedError, ZoneFileError, read_zone_with_files,
};
use hickory_wire::Name;
use std::alloc::Global;
use std::rt::Files;
use std::{fs, io, str};

/// Why the system does not give a file that is included.
// No clause: why the system gives no file is only reported.
fn refusal_of(e: &io::Error) -> FileRefusal {
    match e.kind() {
        io::ErrorKind::NotFound | io::ErrorKind::NotADirectory => FileRefusal::Absent,
        io::ErrorKind::PermissionDenied => FileRefusal::Forbidden,
        io::ErrorKind::IsADirectory => FileRefusal::Folder,
        io::ErrorKind::OutOfMemory => FileRefusal::Memory,
        _ => FileRefusal::Other,
    }
}

/// The files of the system by their paths, of which one that does not begin with `/` is below the folder that the
/// program runs in.
#[derive(Drop)]
struct FilesByPath<'a, R> {
    rt: &'a R,
}

impl<R: Files + Alloc<A = Global>> FileOpener for FilesByPath<'_, R> {
    // What a disk holds is outside: any bytes may stand in a file, and any reason refuse it.
    ghost opens = { λ _ _ _. Unit {0} };

    ghost refuses = { λ _ _ _. Unit {0} };

    fn open(&self, _alloc: Global, file: &[u8]) -> Result<Vec<u8>, FileRefusal> {
        let Ok(path) = str::from_utf8(file) else {
            return Err(FileRefusal::BadName);
        };
        match fs::read(self.rt, path) {
            Ok(bytes) => Ok(bytes),
            Err(e) => Err(refusal_of(&e)),
        }
    }
}

/// The fault of a zone file. One of a file that it includes is told on the standard error, by the name of that file.
// No clause: why a zone file is refused is only reported.
fn fault_of_zone<R: Eprint>(rt: &R, refused: &IncludedError) -> Fault {
    match (refused.error, str::from_utf8(refused.file.as_slice())) {
        (ZoneFileError::Memory, _) => Fault::Memory,
        (fault, Ok(name)) if !name.is_empty() => {
            let _ = eprintln!(rt; "zone_journal: {name}:{fault}");
            Fault::Included
        }
        (fault, _) => Fault::Zone(ZoneError::Text(fault)),
    }
}

/// The zone of this apex that the bytes of a zone file have with the files that it includes. A fault in one of these is
/// told on the standard error.
fn zone_with<R: Eprint + Alloc<A = Global>, O: FileOpener>(
    rt: &R,
    files: &O,
    origin: &Name,
    bytes: &[u8],
) -> Result<InMemoryZoneHandler, Fault>
    ensures { IfOk result (IsZoneOfFiles (O.opens files.now) origin.now bytes.now) }
{
    let (alloc, kind, policy) = (rt.alloc(), ZoneType::Primary, AxfrPolicy::Deny);
    let records = match read_zone_with_files(alloc, bytes, origin, files) {
        Ok(records) => records,
        Err(refused) => return Err(fault_of_zone(rt, &refused)),
    };
    match zone_of_records(alloc, origin, records.into_vec(), kind, policy) {
        Ok(zone) => Ok(zone),
        Err(e) => Err(Fault::from(e)),
    }
}

/// The zone of this apex that a zone file has with the files that it includes. A fault in one of these is told on the
/// standard error.
// No clause: no contract says which bytes a file has. `zone_with` says which zone they are.
pub fn read_zone_of<R: Files + Eprint + Alloc<A = Global>>(
    rt: &R,
    origin: &Name,
    file: &str,
) -> Result<InMemoryZoneHandler, Fault> {
    match fs::read(rt, file) {
        Ok(bytes) => zone_with(rt, &FilesByPath { rt }, origin, bytes.as_slice()),
        Err(e) => Err(fault_of_file(&e)),
    }
}
