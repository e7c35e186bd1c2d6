//! The names that stand in a message while it is written, for pointers to them (RFC 1035 section 4.1.4).

ghost use Rattle.std.specs.Prelude.{◌≡◌, ℕ, ◌<◌, ◌++◌, ◌∷◌, [], length, take, replicate, OnOk, OnErr, IfOk, IfSome, None};
ghost use Rattle.wire_names.specs.rr.domain.DomainName.{IsWire, cut};
ghost use Rattle.wire_writing.specs.representation.Noted.{Notes, IsPlace, first_place, IsNotedAt};
ghost use Rattle.wire_writing.specs.representation.NameTable.{pairs, bucket, AreApart, AreLinked};
ghost use Rattle.wire_writing.specs.representation.QuestionNames.{ends_from};

use crate::serialize::writing::note_list::{LIST_LEN, NoteList};
use crate::serialize::writing::question_name::{QUESTION_PLACE, QuestionName};
use std::alloc::{AllocError, Global};
use std::hash::{FoldHasher, Hasher};
use std::marker::Model;
use wire_names::values::same_bytes::are_same;

// The last labels of a name in wire form, without the end byte, and the place in the message where they stand.
#[derive(Clone, Copy)]
pub(crate) struct Note<'n> {
    pub(crate) suffix: &'n [u8],
    pub(crate) place: u16,
    // Where the notes are linked, how many of them end with the one before it in its bucket, or 0 where it is the first
    // there.
    pub(crate) before: u16,
}

// A name in wire form, without the end byte, and the place where it was noted.
#[derive(Clone, Copy)]
struct KeptName<'n> {
    wire: &'n [u8],
    place: u16,
}

// The notes that are linked lie in so many buckets.
const BUCKETS: usize = 1024;

/// The names that were noted, each once, with the place where it stands, letter case kept.
///
/// Contracts speak of it as the list of the notes in the order of noting.
#[derive(Drop)]
pub struct CompressionTable<'n> {
    // The notes of the question's name, of which none is made.
    asked: QuestionName<'n>,
    // The notes behind those while they are searched one by one. They lie in the table itself, so that a small reply
    // takes no memory for them.
    first: NoteList<'n>,
    // The notes once they are linked, in memory.
    notes: Vec<Note<'n>>,
    // For each bucket, how many notes end with its last one, or 0 where it has none. Empty while the notes are searched
    // one by one.
    lasts: Vec<u16>,
    // The owner name that was written last: the records of an RRset have the same, and names in their data often end in
    // it.
    last_owner: Option<KeptName<'n>>,
    // The end of a name that a search found last, as the name of the zone, in which most names of a message end.
    last_target: Option<KeptName<'n>>,
    // How many notes to have memory for once they are linked.
    expected: usize,
    alloc: Global,
}

impl<'n> Model for CompressionTable<'n> {
    ghost use Rattle.wire_writing.specs.representation.Noted.{Notes};
    ghost use Rattle.std.specs.Prelude.{◌++◌};

    ghost Value = { Notes };

    ghost use Rattle.wire_writing.specs.representation.NameTable.{pairs, IsTable, IsStored};

    ghost view = { λ table. table.asked ++ pairs (table.first ++ table.notes.items) };

    ghost invariant = { λ table.
        IsTable table.asked (table.first ++ table.notes.items) table.last_owner table.last_target table.lasts.items
        × IsStored table.first table.notes.items table.lasts.items };
}

/// The bucket of a suffix.
fn bucket_of(suffix: &[u8]) -> usize
    ensures is { result ≡ bucket suffix.now }
    ensures below { result < 1024 }
{
    let mut hasher = FoldHasher::default();
    hasher.write(suffix);
    (hasher.finish() % BUCKETS as u64) as usize
}

/// The bucket of a suffix, which may be known.
#[inline(always)]
fn known_bucket(in_bucket: Option<usize>, suffix: &[u8]) -> usize
    requires { IfSome in_bucket (λ b. b ≡ bucket suffix.now) }
    ensures is { result ≡ bucket suffix.now }
    ensures below { result < 1024 }
{
    match in_bucket {
        Some(known) => known,
        None => bucket_of(suffix),
    }
}

/// The first place of the suffix among the notes. Those of other lengths, or with other first bytes, cost no call.
#[inline(never)]
fn find_in(notes: &[Note<'_>], suffix: &[u8]) -> Option<u16>
    ensures { result ≡ first_place suffix.now (pairs notes.now) }
{
    for note in notes {
        if are_same(note.suffix, suffix) {
            return Some(note.place);
        }
    }
    None
}

/// The first place of the suffix among the notes of one bucket, from its last one on.
#[inline(always)]
fn find_linked(notes: &[Note<'_>], lasts: &[u16], in_bucket: usize, suffix: &[u8]) -> Option<u16>
    requires linked { AreLinked notes.now lasts.now }
    requires apart { AreApart (pairs notes.now) }
    requires in_bucket { in_bucket ≡ bucket suffix.now }
    ensures { result ≡ first_place suffix.now (pairs notes.now) }
{
    let mut last = usize::from(lasts[in_bucket]);
    while last > 0 {
        let Note {
            suffix: noted,
            place,
            before,
        } = notes[last - 1];
        if are_same(noted, suffix) {
            return Some(place);
        }
        last = usize::from(before);
    }
    None
}

/// Puts a note behind the others, and makes it the last one of its bucket.
#[inline(always)]
fn push_linked<'n>(
    notes: &mut Vec<Note<'n>>,
    lasts: &mut [u16],
    in_bucket: usize,
    suffix: &'n [u8],
    place: u16,
) -> Result<(), AllocError>
    requires linked { AreLinked notes.old.items lasts.old }
    requires in_bucket { in_bucket ≡ bucket suffix.now }
    ensures ok { OnOk result (pairs notes.new.items ≡ pairs notes.old.items ++ (suffix.now, place) ∷ []) }
    ensures err { OnErr result (pairs notes.new.items ≡ pairs notes.old.items) }
    ensures linked { AreLinked notes.new.items lasts.new }
{
    // There are never so many: each note has a place of its own, and a pointer reaches no more than 2^14 of them.
    if notes.len() >= usize::from(u16::MAX) {
        return Err(AllocError);
    }
    notes.reserve(1)?;
    notes.push_reserved(Note {
        suffix,
        place,
        before: lasts[in_bucket],
    });
    lasts[in_bucket] = notes.len() as u16;
    Ok(())
}

/// These notes, linked in buckets of which none had any, with memory for as many as are expected.
fn link<'n>(
    alloc: Global,
    expected: usize,
    notes: &[Note<'n>],
    lasts: &mut [u16],
) -> Result<Vec<Note<'n>>, AllocError>
    requires { lasts.old ≡ replicate 1024 0 }
    ensures same { IfOk result (λ linked. pairs linked.items ≡ pairs notes.now) }
    ensures linked { IfOk result (λ linked. AreLinked linked.items lasts.new) }
{
    let mut linked = Vec::with_capacity(alloc, expected.max(4 * LIST_LEN))?;
    for note in notes {
        push_linked(
            &mut linked,
            lasts,
            bucket_of(note.suffix),
            note.suffix,
            note.place,
        )?;
    }
    Ok(linked)
}

/// Takes back the notes behind the first so many, the last one first, so that each bucket ends in the one before.
fn unlink(notes: &mut Vec<Note<'_>>, lasts: &mut [u16], mark: usize)
    requires { AreLinked notes.old.items lasts.old }
    ensures notes { notes.new.items ≡ take mark notes.old.items }
    ensures linked { AreLinked notes.new.items lasts.new }
{
    while notes.len() > mark {
        if let Some(note) = notes.pop() {
            lasts[bucket_of(note.suffix)] = note.before;
        }
    }
}

impl<'n> CompressionTable<'n> {
    /// A table without notes. It takes no memory.
    pub fn new(alloc: Global) -> CompressionTable<'n>
        ensures { result ≡ [] }
    {
        CompressionTable {
            asked: QuestionName::none(),
            first: NoteList::new(),
            notes: Vec::new(alloc),
            lasts: Vec::new(alloc),
            last_owner: None,
            last_target: None,
            expected: 0,
            alloc,
        }
    }

    /// Notes the name of a question, which stands in full behind the header, and each of its ends, where nothing was
    /// noted. The whole name is kept. It costs no step for an end: what may end as the name does is compared with it.
    #[inline(always)]
    pub(crate) fn begin(&mut self, wire: &'n [u8], count: usize)
        requires none { self.old ≡ [] }
        requires wire { IsWire wire.now }
        requires count { count ≡ length (cut wire.now) }
        ensures { self.new ≡ ends_from 12 (cut wire.now) }
    {
        self.asked = QuestionName::new(wire, count);
        if count > 0 {
            self.last_owner = Some(KeptName {
                wire,
                place: QUESTION_PLACE as u16,
            });
        }
    }

    /// Tells how many notes may come, so that linking them takes the memory for all at once. It takes none itself.
    #[inline(always)]
    pub(crate) fn expect(&mut self, count: usize)
        ensures { self.new ≡ self.old }
    {
        self.expected = count;
    }

    /// How many notes there are, for `take_back`.
    pub(crate) fn mark(&self) -> usize
        ensures { result ≡ length self.now }
    {
        let made = if self.lasts.is_empty() {
            self.first.as_slice().len()
        } else {
            self.notes.len()
        };
        self.asked.len() + made
    }

    /// The bucket of a suffix, for `find` and `note`, where the table has come to use buckets.
    pub(crate) fn bucket(&self, suffix: &[u8]) -> Option<usize>
        ensures { IfSome result (λ b. b ≡ bucket suffix.now) }
    {
        if self.lasts.is_empty() {
            None
        } else {
            Some(bucket_of(suffix))
        }
    }

    /// The place where the suffix was noted, letter case kept. Its bucket is computed where it is not given.
    #[inline(always)]
    pub(crate) fn find(&self, in_bucket: Option<usize>, suffix: &[u8]) -> Option<u16>
        requires { IfSome in_bucket (λ b. b ≡ bucket suffix.now) }
        ensures found { result ≡ first_place suffix.now self.now }
        ensures in_range { IfSome result (λ place. IsPlace place) }
    {
        if let Some(place) = self.asked.find(suffix) {
            return Some(place);
        }
        if self.lasts.is_empty() {
            find_in(self.first.as_slice(), suffix)
        } else {
            let in_bucket = known_bucket(in_bucket, suffix);
            find_linked(&self.notes, &self.lasts, in_bucket, suffix)
        }
    }

    /// The place of this name where it is the owner name or the target that was kept last, letter case kept. It costs
    /// no hash and no search.
    #[inline(always)]
    pub(crate) fn known_place(&self, wire: &[u8]) -> Option<u16>
        ensures found { IfSome result (λ place. IsNotedAt self.now wire.now place) }
        ensures in_range { IfSome result (λ place. IsPlace place) }
    {
        if let Some(owner) = self.last_owner {
            if are_same(owner.wire, wire) {
                return Some(owner.place);
            }
        }
        if let Some(target) = self.last_target {
            if are_same(target.wire, wire) {
                return Some(target.place);
            }
        }
        None
    }

    /// Keeps a name that was noted, to be asked for before any search: as the owner name of a record, or as the end of
    /// another name.
    pub(crate) fn keep(&mut self, is_owner: bool, wire: &'n [u8], place: u16)
        requires { IsNotedAt self.old wire.now place }
        ensures { self.new ≡ self.old }
    {
        let kept = Some(KeptName { wire, place });
        if is_owner {
            self.last_owner = kept;
        } else {
            self.last_target = kept;
        }
    }

    /// Notes a suffix among linked notes. They are linked first where they are not.
    #[inline(never)]
    fn note_linked(
        &mut self,
        in_bucket: Option<usize>,
        suffix: &'n [u8],
        place: u16,
    ) -> Result<(), AllocError>
        requires in_bucket { IfSome in_bucket (λ b. b ≡ bucket suffix.now) }
        requires fresh { first_place suffix.now self.old ≡ None }
        requires in_range { IsPlace place }
        ensures ok { OnOk result (self.new ≡ self.old ++ (suffix.now, place) ∷ []) }
        ensures err { OnErr result (self.new ≡ self.old) }
    {
        let in_bucket = known_bucket(in_bucket, suffix);
        if !self.lasts.is_empty() {
            push_linked(&mut self.notes, &mut self.lasts, in_bucket, suffix, place)?;
            return Ok(());
        }
        let mut lasts = vec![in self.alloc; 0u16; BUCKETS]?;
        let mut notes = link(self.alloc, self.expected, self.first.as_slice(), &mut lasts)?;
        push_linked(&mut notes, &mut lasts, in_bucket, suffix, place)?;
        self.first.truncate(0);
        self.notes = notes;
        self.lasts = lasts;
        Ok(())
    }

    /// Notes a suffix that was not noted before. Its bucket is computed where it is not given.
    #[inline(always)]
    pub(crate) fn note(
        &mut self,
        in_bucket: Option<usize>,
        suffix: &'n [u8],
        place: u16,
    ) -> Result<(), AllocError>
        requires in_bucket { IfSome in_bucket (λ b. b ≡ bucket suffix.now) }
        requires fresh { first_place suffix.now self.old ≡ None }
        requires in_range { IsPlace place }
        ensures ok { OnOk result (self.new ≡ self.old ++ (suffix.now, place) ∷ []) }
        ensures err { OnErr result (self.new ≡ self.old) }
    {
        if !self.lasts.is_empty() {
            let in_bucket = known_bucket(in_bucket, suffix);
            push_linked(&mut self.notes, &mut self.lasts, in_bucket, suffix, place)?;
            return Ok(());
        }
        if self.first.is_full() {
            return self.note_linked(in_bucket, suffix, place);
        }
        self.first.push(Note {
            suffix,
            place,
            before: 0,
        });
        Ok(())
    }

    /// Takes back what was noted since the mark. It takes no memory.
    pub(crate) fn take_back(&mut self, mark: usize)
        ensures { self.new ≡ take mark self.old }
    {
        self.last_owner = None;
        self.last_target = None;
        let made = mark.saturating_sub(self.asked.len());
        self.asked.truncate(mark);
        if self.lasts.is_empty() {
            self.first.truncate(made);
        } else {
            unlink(&mut self.notes, &mut self.lasts, made);
        }
    }
}
