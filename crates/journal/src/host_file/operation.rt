//! What is to be done to a file.

/// What is to be done to a file, by whoever owns it.
#[derive(Debug, Drop)]
pub enum Operation {
    /// Write these bytes at a place, as `pwrite` does: all of them, and zeros between the end of the file and the
    /// place.
    Write { at: usize, bytes: Vec<u8> },
    /// Give the file this length, as `ftruncate` does: bytes that come are zero.
    SetLen(usize),
    /// Have on the disk all that was done before, as `fdatasync` does.
    Sync,
}
