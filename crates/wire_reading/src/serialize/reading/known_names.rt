//! What the names of a message lead to, kept by place, so that a place that many names lead through is walked once.

ghost use Rattle.std.specs.Prelude.{◌≡◌, ◌≤◌, ℕ, List, length, drop, Some, IfOk, IfSome, slice_get};
ghost use Rattle.wire_reading.specs.representation.KnownNames.{IsRest, Holds, AreRests, labels_of};

use crate::serialize::reading::name_reader::{LABEL_LIMIT, POINTER_BITS};
use std::alloc::{AllocError, Global};
use std::marker::Model;

/// Compression pointers lead to places below this one, since they have 14 bits for it (RFC 1035, section 4.1.4).
const POINTER_END: usize = 16_384;

/// The rest of a name that stands at a place.
#[derive(Clone, Copy)]
pub(crate) struct Rest {
    // From where its labels stand among all that are kept,
    from: usize,
    // and up to where.
    until: usize,
    // Its run of labels may begin here or at any later place: a pointer that ends it leads to a place before this one.
    least: usize,
}

/// The rests of names that were read from a message, by the places where they stand.
///
/// Contracts see the bytes of the message.
#[derive(Drop)]
pub(crate) struct KnownNames<'a> {
    bytes: &'a [u8],
    rests: Vec<Option<Rest>>,
    labels: Vec<u8>,
}

impl<'a> Model for KnownNames<'a> {
    ghost use Rattle.std.specs.Prelude.{List, ℕ};
    ghost use Rattle.wire_reading.specs.representation.KnownNames.{AreRests};

    ghost Value = { List ℕ };

    ghost view = { λ names. names.bytes.now };

    ghost invariant = { λ names. AreRests names.bytes.now names.labels.items names.rests.items };
}

/// The rest that is noted at a place.
fn rest_at(rests: &Vec<Option<Rest>>, place: usize) -> Option<Rest>
    ensures { IfSome result (λ rest. slice_get rests.now.items place ≡ Some (Some rest)) }
{
    rests.get(place).copied()?
}

/// Where the run of labels at a place may begin at the earliest: behind the place that the pointer which ends it leads
/// to.
fn least_start(bytes: &[u8], rests: &Vec<Option<Rest>>, place: usize) -> usize
    requires kept { (labels : List ℕ) × AreRests bytes.now labels rests.now.items }
    requires rest { (wire : List ℕ) × IsRest bytes.now place place wire }
    ensures within { result ≤ place }
    ensures rest { (wire : List ℕ) → IsRest bytes.now place place wire → IsRest bytes.now result place wire }
{
    let mut at = place;
    'labels: loop {
        if let Some(rest) = rest_at(rests, at) {
            return rest.least.min(place);
        }
        let high = usize::from(bytes[at]);
        if high == 0 {
            return 0;
        }
        if high >= LABEL_LIMIT {
            return (high - POINTER_BITS) * 256 + usize::from(bytes[at + 1]) + 1;
        }
        at = at + 1 + high;
    }
}

/// Notes the rest at a place that a pointer can lead to. Answers whether none was noted there before.
fn note(rests: &mut Vec<Option<Rest>>, place: usize, rest: Rest) -> bool
    ensures { (bytes labels : List ℕ) → AreRests bytes labels rests.old.items → Holds bytes labels place rest →
        AreRests bytes labels rests.new.items }
{
    if place >= rests.len() {
        return true;
    }
    if rests[place].is_some() {
        return false;
    }
    rests[place] = Some(rest);
    true
}

/// Notes the rest at each place from one on, up to one that is noted. The labels there are those that are kept from
/// `first` on.
fn note_rests(
    bytes: &[u8],
    labels: &[u8],
    first: usize,
    place: usize,
    rests: &mut Vec<Option<Rest>>,
)
    requires kept { AreRests bytes.now labels.now rests.old.items }
    requires within { first ≤ length labels.now }
    requires rest { IsRest bytes.now place place (drop first labels.now) }
    ensures { AreRests bytes.now labels.now rests.new.items }
{
    let mut from = first;
    let mut place = place;
    let mut least = least_start(bytes, rests, place);
    'places: loop {
        let rest = Rest {
            from,
            until: labels.len(),
            least,
        };
        if !note(rests, place, rest) {
            return;
        }
        let high = usize::from(bytes[place]);
        if high == 0 {
            return;
        }
        if high < LABEL_LIMIT {
            place = place + 1 + high;
            from = from + 1 + high;
        } else {
            place = (high - POINTER_BITS) * 256 + usize::from(bytes[place + 1]);
            least = least_start(bytes, rests, place);
        }
    }
}

/// The labels of a rest, among all that are kept.
fn labels_of(labels: &[u8], rest: Rest) -> &[u8]
    requires order { rest.from ≤ rest.until }
    requires within { rest.until ≤ length labels.now }
    ensures { result.now ≡ labels_of labels.now rest }
{
    &labels[rest.from..rest.until]
}

impl<'a> KnownNames<'a> {
    /// Nothing is known of the message yet.
    pub(crate) fn new(alloc: Global, bytes: &'a [u8]) -> Result<KnownNames<'a>, AllocError>
        ensures { IfOk result (λ names. names ≡ bytes.now) }
    {
        let places = bytes.len().min(POINTER_END);
        Ok(KnownNames {
            bytes,
            rests: vec![in alloc; None; places]?,
            labels: Vec::new(alloc),
        })
    }

    /// The labels in wire form of the rest at a place, where it is known and its run of labels may begin at `start`.
    pub(crate) fn rest(&self, start: usize, place: usize) -> Option<&[u8]>
        ensures { IfSome result (λ wire. IsRest self.now start place wire.now) }
    {
        let rest = rest_at(&self.rests, place)?;
        if start < rest.least {
            return None;
        }
        Some(labels_of(&self.labels, rest))
    }

    /// Keeps what the name at a place leads to.
    pub(crate) fn keep(&mut self, place: usize, wire: &[u8]) -> Result<(), AllocError>
        requires { IsRest self.old place place wire.now }
        ensures { self.new ≡ self.old }
    {
        let first = self.labels.len();
        self.labels.extend_from_slice(wire)?;
        note_rests(self.bytes, &self.labels, first, place, &mut self.rests);
        Ok(())
    }
}
