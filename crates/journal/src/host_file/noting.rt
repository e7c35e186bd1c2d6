//! What reading, writing and noting do to the contents and the operations of a file.

ghost use Rattle.std.specs.Prelude.{◌≡◌, ◌+◌, ◌-◌, ◌<◌, ◌≤◌, ◌^◌, ◌∷◌, ◌++◌, [], length, take, drop, replicate, min, vec_len, vec_capacity, OnOk, OnErr, is_ok, false};
ghost use Rattle.sqlite_disk.specs.Events.{overlaid, padded};
ghost use Rattle.sqlite_disk.specs.Refusal.{finds_no_room};
ghost use Rattle.journal.specs.host_file.Reads.{IsRead};

use crate::host_file::operation::Operation;
use std::alloc::AllocError;
use std::io;

/// Reads bytes at a place of the contents. Where they end before, the buffer stays.
pub(crate) fn read(file: &[u8], at: usize, buf: &mut [u8]) -> io::Result<()>
    ensures { IsRead file.now at buf.old result buf.new }
{
    if at > file.len() || buf.len() > file.len() - at {
        return Err(io::ErrorKind::UnexpectedEof.into());
    }
    buf.copy_from_slice(&file[at..at + buf.len()]);
    Ok(())
}

/// Puts zeros behind the contents up to a place.
fn lengthen(file: &mut Vec<u8>, end: usize) -> Result<(), AllocError>
    ensures ok { OnOk result (file.new.items ≡ file.old.items ++ replicate (end - length file.old.items) 0) }
    ensures err { OnErr result (file.new.items ≡ file.old.items) }
{
    if end > file.len() {
        file.resize(end, 0)?;
    }
    Ok(())
}

/// Puts bytes at a place.
fn put(file: &mut [u8], at: usize, bytes: &[u8])
    requires { at + length bytes.now ≤ length file.old }
    ensures { file.new ≡ take at file.old ++ (bytes.now ++ drop (at + length bytes.now) file.old) }
{
    file[at..at + bytes.len()].copy_from_slice(bytes);
}

/// Writes bytes at a place of the contents.
pub(crate) fn overwrite(file: &mut Vec<u8>, at: usize, bytes: &[u8]) -> Result<(), AllocError>
    ensures ok { OnOk result (file.new.items ≡ overlaid file.old.items at bytes.now) }
    ensures place { OnOk result (at + length bytes.now < 2 ^ 64) }
    ensures err { OnErr result (file.new.items ≡ file.old.items) }
{
    let end = at.checked_add(bytes.len()).ok_or(AllocError)?;
    lengthen(file, end)?;
    put(file, at, bytes);
    Ok(())
}

/// Gives the contents a length.
pub(crate) fn resize(file: &mut Vec<u8>, len: usize) -> Result<(), AllocError>
    ensures ok { OnOk result (file.new.items ≡ padded file.old.items len) }
    ensures err { OnErr result (file.new.items ≡ file.old.items) }
{
    file.resize(len, 0)
}

/// Notes an operation, for which there is room.
pub(crate) fn note(operations: &mut Vec<Operation>, operation: Operation)
    requires { vec_len operations.old < vec_capacity operations.old }
    ensures { operations.new.items ≡ operations.old.items ++ operation ∷ [] }
{
    let _ = operations.push(operation);
}

/// Counts a call for which memory was refused.
pub(crate) fn count(outcome: Result<(), AllocError>, faults: &mut u64) -> io::Result<()>
    ensures variant { is_ok result ≡ is_ok outcome }
    ensures kind { finds_no_room result ≡ false }
    ensures ok { OnOk result (faults.new ≡ faults.old) }
    ensures err { OnErr result (faults.new ≡ min (faults.old + 1) (2 ^ 64 - 1)) }
{
    if outcome.is_err() {
        *faults = faults.saturating_add(1);
        return Err(io::ErrorKind::OutOfMemory.into());
    }
    Ok(())
}
