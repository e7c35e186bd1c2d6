//! Opening a journal that a crash may have left.

ghost use Rattle.std.specs.Prelude.{◌≡◌, ◌≢◌, ◌⊎◌, ◌<◌, ◌≤◌, IsFalse, slice_index, List, ℕ, IfErr, IfOk, IsTrue, OnOk, length};
ghost use Rattle.sqlite_disk.specs.Disk.{Only};
ghost use Rattle.journal.specs.Errors.{is_refusal};
ghost use Rattle.journal.specs.Frames.{StandsFor};
ghost use Rattle.journal.specs.JournalFile.{IsJournal};
ghost use Rattle.journal.specs.Read.{IsSplit};
ghost use Rattle.journal.specs.Recovery.{IsLeftAlone, Recovers};
ghost use Rattle.journal.specs.Settled.{IsAtRest};

use crate::error::RecoverError;
use crate::reading::{Recovered, is_journal, read_frames};
use crate::writing::put;
use sqlite_disk::Disk;
use std::alloc::Global;
use std::io;

/// All the bytes of a file.
fn read_all<D: Disk>(alloc: Global, disk: &mut D) -> Result<Vec<u8>, RecoverError>
    requires { IsTrue (D.is_usable disk.old) }
    ensures bytes { IfOk result (λ bytes. IsTrue (D.is_clean disk.new) → bytes.items ≡ D.seen disk.old) }
    ensures seen { D.seen disk.new ≡ D.seen disk.old }
    ensures usable { IsTrue (D.is_usable disk.new) }
    ensures crash { (c : List ℕ) → D.may_leave disk.new c → D.may_leave disk.old c }
    ensures clean { IsTrue (D.is_clean disk.new) → IsTrue (D.is_clean disk.old) }
    ensures failed { IfErr result (λ e. IsFalse (is_refusal e)) }
{
    let len = disk.len().map_err(RecoverError::Disk)?;
    let mut bytes = Vec::new(alloc);
    if bytes.resize(len, 0).is_err() {
        return Err(RecoverError::Memory);
    }
    disk.read_at(0, &mut bytes).map_err(RecoverError::Disk)?;
    Ok(bytes)
}

/// Whether a gate stands at a place that is closed. Where it is all that the file has, a crash may have torn it, so
/// that it has to be 0.
fn is_closed(bytes: &[u8], end: usize) -> bool
    ensures closed { IsTrue result → (end < length bytes.now) × (slice_index bytes.now end ≢ 1) ×
        ((1 < length bytes.now) ⊎ (slice_index bytes.now 0 ≡ 0)) }
    ensures open { IsFalse result → end < length bytes.now → (slice_index bytes.now end ≡ 1) ⊎ (length bytes.now ≤ 1) }
{
    end < bytes.len() && bytes[end] != 1 && (bytes.len() > 1 || bytes[0] == 0)
}

/// Sees that a closed gate stands behind the frames.
fn close<D: Disk>(disk: &mut D, bytes: &[u8], end: usize) -> io::Result<()>
    requires usable { IsTrue (D.is_usable disk.old) }
    ensures settled { OnOk result ((entries : List (List ℕ)) → IsJournal bytes.now → IsSplit bytes.now entries end →
        D.seen disk.old ≡ bytes.now → Only (D.seen disk.old) (D.may_leave disk.old) →
        IsAtRest D.seen D.may_leave disk.new end entries) }
    ensures clean { D.is_clean disk.new ≡ D.is_clean disk.old }
    ensures crash { (entries : List (List ℕ)) → IsSplit bytes.now entries end → D.seen disk.old ≡ bytes.now →
        Only (D.seen disk.old) (D.may_leave disk.old) → (c : List ℕ) → D.may_leave disk.new c → StandsFor c entries }
    ensures journal { (entries : List (List ℕ)) → IsJournal bytes.now → IsSplit bytes.now entries end →
        D.seen disk.old ≡ bytes.now → Only (D.seen disk.old) (D.may_leave disk.old) → (c : List ℕ) →
        D.may_leave disk.new c → IsJournal c }
{
    if is_closed(bytes, end) {
        return Ok(());
    }
    put(disk, end, &[0])?;
    Ok(())
}

/// Reads the entries of a file that a crash may have left, and sees that its gate is closed: `Journal::new` makes a
/// journal of the file and the place. An empty file has no entries. It may crash too. It takes memory for the whole
/// file twice, and writes at most one byte, with one sync.
///
/// A file that is no journal's is refused, and stays as it is. None that a journal was in is: not where a crash leaves
/// each byte of a torn write old or new, as `sqlite_std_file::Unknown` supposes.
pub fn recover<D: Disk>(alloc: Global, disk: &mut D) -> Result<Recovered, RecoverError>
    requires usable { IsTrue (D.is_usable disk.old) }
    // After a restart, what is read is what is on the disk.
    requires restarted { Only (D.seen disk.old) (D.may_leave disk.old) }
    ensures recovers { Recovers D.seen D.may_leave D.is_clean disk.old result disk.new }

    // What is no journal's file is refused, and left alone; a journal's file never is.
    ensures refused { IfErr result (λ e. IsTrue (is_refusal e) → IsTrue (D.is_clean disk.new) →
        IsJournal (D.seen disk.old) → ⊥) }
    ensures unwritten { IfErr result (λ e. IsTrue (is_refusal e) → IsLeftAlone D.seen D.may_leave disk.old disk.new) }
{
    let bytes = read_all(alloc, disk)?;
    if !is_journal(&bytes) {
        return Err(RecoverError::NotAJournal);
    }
    let Ok(found) = read_frames(alloc, &bytes) else {
        return Err(RecoverError::Memory);
    };
    close(disk, &bytes, found.end).map_err(RecoverError::Disk)?;
    Ok(found)
}
