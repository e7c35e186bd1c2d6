//! The name of a question as the notes of its ends, of which none is made: what ends as it does is found by its bytes
//! (RFC 1035 section 4.1.4).

ghost use Rattle.std.specs.Prelude.{◌≡◌, ℕ, ◌<◌, ◌≤◌, [], length, take, drop};
ghost use Rattle.wire_names.specs.rr.domain.DomainName.{IsWire, cut};
ghost use Rattle.wire_writing.specs.representation.Noted.{first_place};
ghost use Rattle.wire_writing.specs.representation.QuestionNames.{ends_from};

use std::marker::Model;
use wire_names::values::same_bytes::are_same;

/// Where the questions begin: behind the header.
pub(crate) const QUESTION_PLACE: usize = 12;

/// The name of a question that stands in full behind the header.
///
/// Contracts speak of it as the notes of its ends, or of the first so many of these.
#[derive(Drop)]
pub(crate) struct QuestionName<'n> {
    // The name in wire form, without the end byte.
    wire: &'n [u8],
    // The ends that begin with so many of its labels are notes, from the whole name on.
    count: usize,
}

impl<'n> Model for QuestionName<'n> {
    ghost use Rattle.wire_writing.specs.representation.Noted.{Notes};

    ghost Value = { Notes };

    ghost use Rattle.std.specs.Prelude.{◌≤◌, length, take};
    ghost use Rattle.wire_names.specs.rr.domain.DomainName.{IsWire, cut};
    ghost use Rattle.wire_writing.specs.representation.QuestionNames.{ends_from};

    ghost view = { λ name. take name.count (ends_from 12 (cut name.wire.now)) };

    ghost invariant = { λ name. IsWire name.wire.now × (name.count ≤ length (cut name.wire.now)) };
}

/// The place of the end of the name that begins there, if it begins with one of the first so many labels. The labels
/// before it are gone through by their lengths.
#[inline(never)]
fn place_of_end(wire: &[u8], count: usize, start: usize) -> Option<u16>
    requires wire { IsWire wire.now }
    requires count { count ≤ length (cut wire.now) }
    requires start { start ≤ length wire.now }
    ensures { result ≡ first_place (drop start wire.now) (take count (ends_from 12 (cut wire.now))) }
{
    let mut place = 0;
    let mut passed = 0;
    while place < start {
        place += 1 + usize::from(wire[place]);
        passed += 1;
    }
    if place > start || passed >= count {
        return None;
    }
    Some((QUESTION_PLACE + start) as u16)
}

impl<'n> QuestionName<'n> {
    /// No name.
    pub(crate) fn none() -> QuestionName<'n>
        ensures { result ≡ [] }
    {
        QuestionName {
            wire: &[],
            count: 0,
        }
    }

    /// The name of these bytes, which are so many labels.
    #[inline(always)]
    pub(crate) fn new(wire: &'n [u8], count: usize) -> QuestionName<'n>
        requires wire { IsWire wire.now }
        requires count { count ≡ length (cut wire.now) }
        ensures { result ≡ ends_from 12 (cut wire.now) }
    {
        QuestionName { wire, count }
    }

    /// How many of its ends are notes.
    #[inline(always)]
    pub(crate) fn len(&self) -> usize
        ensures value { result ≡ length self.now }
        ensures small { result < 128 }
    {
        self.count
    }

    /// The place where the name ends in these bytes, letter case kept. What does not end as it does costs a comparison.
    #[inline(always)]
    pub(crate) fn find(&self, suffix: &[u8]) -> Option<u16>
        ensures { result ≡ first_place suffix.now self.now }
    {
        let len = self.wire.len();
        if suffix.len() > len {
            return None;
        }
        let start = len - suffix.len();
        if !are_same(&self.wire[start..], suffix) {
            return None;
        }
        place_of_end(self.wire, self.count, start)
    }

    /// Keeps the first so many notes.
    pub(crate) fn truncate(&mut self, len: usize)
        ensures { self.new ≡ take len self.old }
    {
        if len < self.count {
            self.count = len;
        }
    }
}
