//! Files as they are read, and why they cannot be.

use hickory_server::zone_text::{FileOpener, FileRefusal};
use std::alloc::Global;
use std::rt::Files;
use std::{fs, io, str};

/// The fault that the system reports.
// No clause: why the system gives no file is only reported.
pub fn fault_of(e: &io::Error) -> FileRefusal {
    match e.kind() {
        io::ErrorKind::NotFound | io::ErrorKind::NotADirectory => FileRefusal::Absent,
        io::ErrorKind::PermissionDenied => FileRefusal::Forbidden,
        io::ErrorKind::IsADirectory => FileRefusal::Folder,
        io::ErrorKind::OutOfMemory => FileRefusal::Memory,
        _ => FileRefusal::Other,
    }
}

/// The bytes of a file.
// No clause: no contract says which bytes a file has.
pub fn bytes_of<R: Files + Alloc<A = Global>>(rt: &R, file: &str) -> Result<Vec<u8>, FileRefusal> {
    fs::read(rt, file).map_err(|e| fault_of(&e))
}

/// The files of the system by their paths. A path that does not begin with `/` starts at the working directory.
#[derive(Drop)]
pub struct FilesByPath<'a, R> {
    /// The runtime.
    pub rt: &'a R,
}

impl<R: Files + Alloc<A = Global>> FileOpener for FilesByPath<'_, R> {
    // No contract can say what a disk holds: a file may have any bytes, and may be refused for any reason.
    ghost opens = { λ _ _ _. Unit {0} };

    ghost refuses = { λ _ _ _. Unit {0} };

    fn open(&self, _alloc: Global, file: &[u8]) -> Result<Vec<u8>, FileRefusal> {
        let Ok(path) = str::from_utf8(file) else {
            return Err(FileRefusal::BadName);
        };
        bytes_of(self.rt, path)
    }
}
