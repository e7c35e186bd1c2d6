//! What is written of entries, and in which order.

ghost use Rattle.std.specs.Prelude.{◌≡◌, ◌⊎◌, ◌+◌, ◌^◌, ◌<◌, ◌++◌, ◌∷◌, [], List, ℕ, IfOk, IsErr, IsFalse, IsTrue, OnOk, length};
ghost use Rattle.std.specs.Int.{w32, to_be_bytes};
ghost use Rattle.sqlite_disk.specs.Disk.{CountsFault, Follows, Holds, Mixed, Only, Torn};
ghost use Rattle.journal.specs.Frames.{AreSmall, IsBeforeOrAfter, IsSmall, StandsFor};
ghost use Rattle.journal.specs.JournalFile.{IsJournal, Mixes};
ghost use Rattle.journal.specs.Read.{contents};
ghost use Rattle.journal.specs.Settled.{IsAtRest, IsOpened, IsStaged, behind_gate};

use sqlite_disk::Disk;
use std::alloc::{AllocError, Global};
use std::io;

/// Whether each of these lengths fits in a frame.
pub(crate) fn are_small(entries: &[Vec<u8>]) -> bool
    ensures small { IsTrue result → AreSmall (contents entries.now) }
    ensures large { IsFalse result → AreSmall (contents entries.now) → ⊥ }
{
    let mut rest = entries;
    while let [entry, others @ ..] = rest {
        if entry.len() >= 1 << 32 {
            return false;
        }
        rest = others;
    }
    true
}

/// Puts the length of an entry and its bytes at the end.
fn push_entry(bytes: &mut Vec<u8>, entry: &[u8]) -> Result<(), AllocError>
    requires { IsSmall entry.now }
    ensures { OnOk result (bytes.new.items ≡ bytes.old.items ++ (to_be_bytes w32 (length entry.now) ++ entry.now)) }
{
    let len = entry.len() as u32;
    bytes.extend_from_slice(&len.to_be_bytes())?;
    bytes.extend_from_slice(entry)?;
    Ok(())
}

/// What stands behind the gate of the first of these entries.
pub(crate) fn behind_gate(
    alloc: Global,
    first: &[u8],
    others: &[Vec<u8>],
) -> Result<Vec<u8>, AllocError>
    requires first { IsSmall first.now }
    requires others { AreSmall (contents others.now) }
    ensures { IfOk result (λ bytes. bytes.items ≡ behind_gate first.now (contents others.now)) }
{
    let mut bytes = Vec::new(alloc);
    push_entry(&mut bytes, first)?;
    let mut rest = others;
    while let [entry, others @ ..] = rest {
        bytes.push(1)?;
        push_entry(&mut bytes, entry)?;
        rest = others;
    }
    bytes.push(0)?;
    Ok(bytes)
}

/// Writes bytes at a place, on the disk.
pub(crate) fn put<D: Disk>(disk: &mut D, at: usize, bytes: &[u8]) -> io::Result<()>
    requires usable { IsTrue (D.is_usable disk.old) }
    ensures written { OnOk result (0 < length bytes.now → Holds (D.seen disk.new) at bytes.now) }
    ensures durable { OnOk result (Only (D.seen disk.new) (D.may_leave disk.new)) }
    ensures others { Torn at (length bytes.now) (D.seen disk.old) (D.seen disk.new) }
    ensures usable { OnOk result (IsTrue (D.is_usable disk.new)) }
    ensures clean { D.is_clean disk.new ≡ D.is_clean disk.old }
    ensures faults { CountsFault result (D.faults disk.old) (D.faults disk.new) }
    ensures crash { Follows (Torn at (length bytes.now)) (D.may_leave disk.old) (D.may_leave disk.new) }
    ensures mixed { IsTrue (D.is_mixing disk.old) → at + length bytes.now < 2 ^ 64 →
        Follows (Mixed at bytes.now) (D.may_leave disk.old) (D.may_leave disk.new) }
{
    disk.write_at(at, bytes)?;
    disk.sync()?;
    Ok(())
}

/// Puts entries behind the closed gate, on the disk.
fn stage<D: Disk>(disk: &mut D, end: usize, bytes: &[u8]) -> io::Result<()>
    requires usable { IsTrue (D.is_usable disk.old) }
    requires place { end < 2 ^ 60 }
    ensures staged { OnOk result ((entries : List (List ℕ)) (first : List ℕ) (others : List (List ℕ)) →
        IsAtRest D.seen D.may_leave disk.old end entries → bytes.now ≡ behind_gate first others →
        IsStaged D.seen D.may_leave disk.new end entries first others) }
    ensures usable { OnOk result (IsTrue (D.is_usable disk.new)) }
    ensures clean { D.is_clean disk.new ≡ D.is_clean disk.old }
    ensures faults { CountsFault result (D.faults disk.old) (D.faults disk.new) }
    // A crash leaves what was there before.
    ensures crash { (entries : List (List ℕ)) → IsAtRest D.seen D.may_leave disk.old end entries → (c : List ℕ) →
        D.may_leave disk.new c → StandsFor c entries }
    ensures journal { (entries : List (List ℕ)) → IsAtRest D.seen D.may_leave disk.old end entries → (c : List ℕ) →
        D.may_leave disk.new c → IsJournal c }
{
    put(disk, end + 1, bytes)?;
    Ok(())
}

/// Opens the gate before the entries that stand behind it.
fn open_gate<D: Disk>(disk: &mut D, end: usize) -> io::Result<()>
    requires usable { IsTrue (D.is_usable disk.old) }
    requires place { end < 2 ^ 60 }
    ensures opened { OnOk result ((entries : List (List ℕ)) (first : List ℕ) (others : List (List ℕ)) →
        IsStaged D.seen D.may_leave disk.old end entries first others →
        IsOpened D.seen D.may_leave disk.new entries first others) }
    ensures clean { D.is_clean disk.new ≡ D.is_clean disk.old }
    ensures faults { CountsFault result (D.faults disk.old) (D.faults disk.new) }
    // A crash leaves what was there before, with these entries or without.
    ensures crash { (entries : List (List ℕ)) (first : List ℕ) (others : List (List ℕ)) → AreSmall (first ∷ others) →
        IsStaged D.seen D.may_leave disk.old end entries first others → (c : List ℕ) → D.may_leave disk.new c →
        IsBeforeOrAfter entries (first ∷ others) c }
    ensures journal { Mixes D.is_mixing → (entries : List (List ℕ)) (first : List ℕ) (others : List (List ℕ)) →
        AreSmall (first ∷ others) → IsStaged D.seen D.may_leave disk.old end entries first others → (c : List ℕ) →
        D.may_leave disk.new c → IsJournal c }
{
    put(disk, end, &[1])?;
    Ok(())
}

/// Stages entries, and then opens their gate.
pub(crate) fn write<D: Disk>(disk: &mut D, end: usize, bytes: &[u8]) -> io::Result<()>
    requires usable { IsTrue (D.is_usable disk.old) }
    requires place { end < 2 ^ 60 }
    ensures opened { OnOk result ((entries : List (List ℕ)) (first : List ℕ) (others : List (List ℕ)) →
        IsAtRest D.seen D.may_leave disk.old end entries → bytes.now ≡ behind_gate first others →
        IsOpened D.seen D.may_leave disk.new entries first others) }
    ensures clean { D.is_clean disk.new ≡ D.is_clean disk.old }
    ensures faults { CountsFault result (D.faults disk.old) (D.faults disk.new) }
    ensures crash { (entries : List (List ℕ)) (first : List ℕ) (others : List (List ℕ)) → AreSmall (first ∷ others) →
        IsAtRest D.seen D.may_leave disk.old end entries → bytes.now ≡ behind_gate first others → (c : List ℕ) →
        D.may_leave disk.new c → IsBeforeOrAfter entries (first ∷ others) c }
    ensures journal { Mixes D.is_mixing → (entries : List (List ℕ)) (first : List ℕ) (others : List (List ℕ)) →
        AreSmall (first ∷ others) → IsAtRest D.seen D.may_leave disk.old end entries →
        bytes.now ≡ behind_gate first others → (c : List ℕ) → D.may_leave disk.new c → IsJournal c }
{
    stage(disk, end, bytes)?;
    open_gate(disk, end)?;
    Ok(())
}

/// Closes the first gate of a file that has entries.
pub(crate) fn close_first<D: Disk>(disk: &mut D) -> io::Result<()>
    requires usable { IsTrue (D.is_usable disk.old) }
    ensures cleared { OnOk result ((end : ℕ) (entries : List (List ℕ)) →
        IsAtRest D.seen D.may_leave disk.old end entries → 0 < end → IsAtRest D.seen D.may_leave disk.new 0 []) }
    ensures clean { D.is_clean disk.new ≡ D.is_clean disk.old }
    ensures faults { CountsFault result (D.faults disk.old) (D.faults disk.new) }
    // A crash leaves what was there before, or nothing.
    ensures crash { (end : ℕ) (entries : List (List ℕ)) → IsAtRest D.seen D.may_leave disk.old end entries → 0 < end →
        (c : List ℕ) → D.may_leave disk.new c → StandsFor c entries ⊎ StandsFor c [] }
    ensures journal { Mixes D.is_mixing → (end : ℕ) (entries : List (List ℕ)) →
        IsAtRest D.seen D.may_leave disk.old end entries → 0 < end → (c : List ℕ) → D.may_leave disk.new c →
        IsJournal c }
{
    put(disk, 0, &[0])?;
    Ok(())
}
