//! What a file stands for.

ghost use Rattle.std.specs.Prelude.{◌≡◌, ◌↔◌, ◌≤◌, ◌<◌, ◌^◌, ◌++◌, List, ℕ, IfOk, IfSome, IfNone, IsTrue, None, drop, length, take};
ghost use Rattle.std.specs.Int.{w32, from_be_bytes};
ghost use Rattle.journal.specs.Frames.{frame, IsEnd, IsSmall, StandsFor};
ghost use Rattle.journal.specs.JournalFile.{IsJournal};
ghost use Rattle.journal.specs.Read.{contents, IsSplit};

use std::alloc::{AllocError, Global};

/// The entries of a journal, and where the gate behind them stands.
#[derive(Drop)]
pub struct Recovered {
    /// The entries, the first that was added first.
    pub entries: Vec<Vec<u8>>,
    /// Where the gate stands.
    pub end: usize,
}

/// The length that stands behind a gate.
fn len_at(bytes: &[u8]) -> usize
    requires { 5 ≤ length bytes.now }
    ensures value { result ≡ from_be_bytes w32 (take 4 (drop 1 bytes.now)) }
    ensures range { result < 2 ^ 32 }
{
    u32::from_be_bytes([bytes[1], bytes[2], bytes[3], bytes[4]]) as usize
}

/// The entry of the frame that the bytes begin with, if they begin with a whole one, and what stands behind it.
fn first_entry(bytes: &[u8]) -> Option<(&[u8], &[u8])>
    ensures some { IfSome result (λ found. IsSmall found.0.now × (bytes.now ≡ frame found.0.now ++ found.1.now)) }
    ensures shorter { IfSome result (λ found. length found.1.now < length bytes.now) }
    ensures none { result ≡ None → IsEnd bytes.now }
{
    if bytes.len() < 5 || bytes[0] != 1 {
        return None;
    }
    let len = len_at(bytes);
    if bytes.len() - 5 < len {
        return None;
    }
    Some((&bytes[5..5 + len], &bytes[5 + len..]))
}

/// Whether bytes are those of a journal's file, as it is at any moment of its life, a crash at any point included. A
/// text is none, nor is a file of another program, unless it begins with a 0 or happens to begin with a whole entry; a
/// file of one byte is taken for a journal of which no more was written.
pub fn is_journal(bytes: &[u8]) -> bool
    ensures { IsTrue result ↔ IsJournal bytes.now }
{
    bytes.len() <= 1 || bytes[0] == 0 || first_entry(bytes).is_some()
}

/// The entries of the whole frames at the front, and where these end.
pub(crate) fn read_frames(alloc: Global, bytes: &[u8]) -> Result<Recovered, AllocError>
    ensures { IfOk result (λ found. IsSplit bytes.now (contents found.entries.items) found.end) }
{
    let mut entries = Vec::new(alloc);
    let mut rest = bytes;
    while let Some((entry, behind)) = first_entry(rest) {
        entries.push(entry.to_vec(alloc)?)?;
        rest = behind;
    }
    Ok(Recovered {
        entries,
        end: bytes.len() - rest.len(),
    })
}

/// The entries of a journal in the bytes of its file, and where its gate stands. Unlike `recover` it needs no disk, and
/// writes nothing, and it does not ask whether the file is a journal's: `is_journal` does. It takes memory for the
/// entries.
pub fn read_entries(alloc: Global, bytes: &[u8]) -> Result<Recovered, AllocError>
    ensures stands { IfOk result (λ found. StandsFor bytes.now (contents found.entries.items)) }
    ensures split { IfOk result (λ found. IsSplit bytes.now (contents found.entries.items) found.end) }
{
    match read_frames(alloc, bytes) {
        Ok(found) => Ok(found),
        Err(e) => Err(e),
    }
}
