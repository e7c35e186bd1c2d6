//! The notes of a small message, which take no memory.

ghost use Rattle.std.specs.Prelude.{◌≡◌, ◌<◌, ◌≤◌, ◌==◌, ◌++◌, ◌∷◌, [], length, take};

use crate::serialize::writing::compression_table::Note;
use std::marker::Model;

/// So many notes fit. As many are searched one by one, which is cheaper there than to link them.
pub(crate) const LIST_LEN: usize = 16;

/// A list of notes that lie in the value itself.
///
/// Contracts speak of it as the list.
#[derive(Drop)]
pub(crate) struct NoteList<'n> {
    // The list is the first `len` of them.
    notes: [Note<'n>; LIST_LEN],
    len: usize,
}

impl<'n> Model for NoteList<'n> {
    ghost use Rattle.std.specs.Prelude.{◌≡◌, ◌≤◌, List, length, take};
    ghost use Rattle.wire_writing.specs.declared.serialize.writing.compression_table.Note.{Note};

    ghost Value = { List Note };

    ghost view = { λ list. take list.len list.notes };

    ghost invariant = { λ list. (list.len ≤ 16) × (length list.notes ≡ 16) };
}

impl<'n> NoteList<'n> {
    /// A list without notes.
    pub(crate) fn new() -> NoteList<'n>
        ensures { result ≡ [] }
    {
        let blank = Note {
            suffix: &[],
            place: 0,
            before: 0,
        };
        NoteList {
            notes: [blank; LIST_LEN],
            len: 0,
        }
    }

    /// The notes.
    #[inline(always)]
    pub(crate) fn as_slice(&self) -> &[Note<'n>]
        ensures value { result.now ≡ self.now }
        ensures fits { length result.now ≤ 16 }
    {
        &self.notes[..self.len]
    }

    /// Whether no other note fits.
    #[inline(always)]
    pub(crate) fn is_full(&self) -> bool
        ensures { result ≡ (length self.now == 16) }
    {
        self.len == LIST_LEN
    }

    /// Adds a note behind the others.
    #[inline(always)]
    pub(crate) fn push(&mut self, note: Note<'n>)
        requires { length self.old < 16 }
        ensures { self.new ≡ self.old ++ note.entry ∷ [] }
    {
        let len = self.len;
        self.notes[len] = note;
        self.len = len + 1;
    }

    /// Keeps the first so many notes.
    pub(crate) fn truncate(&mut self, len: usize)
        ensures { self.new ≡ take len self.old }
    {
        if len < self.len {
            self.len = len;
        }
    }
}
