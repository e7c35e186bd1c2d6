//! Where bytes are kept that are mostly few, as those of a name.

ghost use Rattle.std.specs.Prelude.{◌≡◌, ◌≤◌, [], ◌+◌, ◌-◌, length, take, drop, map, replicate, false, IsTrue, IfOk, OnOk, OnErr};
ghost use Rattle.std.specs.Char.{to_ascii_lowercase};
ghost use Rattle.std.specs.Cmp.Lexicographic.{slice_cmp};
ghost use Rattle.std.specs.Ordering.{nat_cmp};
ghost use Rattle.wire_names.specs.representation.NameBytes.{wire_bytes};
ghost use Rattle.wire_names.specs.representation.OrderKey.{word_behind};
ghost use Rattle.wire_names.specs.serialize.layout.Bytes.{AreBytes};

use crate::values::words::{WORD_LEN, compare_bytes, word_at};
use std::alloc::{AllocError, Global};
use std::cmp::Ordering;
use std::marker::Model;

/// So many bytes take no memory of their own. Most names and most question sections are no longer.
pub(crate) const SHORT_LEN: usize = 30;

/// A few bytes in an array. Behind them it is zero, so that they can be compared without a look at how many they are.
#[derive(Drop)]
pub(crate) struct ShortBytes {
    bytes: [u8; SHORT_LEN],
    len: u8,
}

impl Model for ShortBytes {
    ghost use Rattle.std.specs.Prelude.{List, ℕ, take, drop, replicate, ◌≤◌, ◌-◌, ◌≡◌};

    ghost Value = { List ℕ };

    ghost view = { λ short. take short.len short.bytes };

    ghost invariant = { λ short. (short.len ≤ 30) × (drop short.len short.bytes ≡ replicate (30 - short.len) 0) };
}

/// An array with ASCII letters in lower case. With two bytes more it is two vectors, and nothing is left over for a
/// loop.
#[inline(always)]
fn lowered_array(bytes: &[u8; SHORT_LEN]) -> [u8; SHORT_LEN]
    ensures { result ≡ map to_ascii_lowercase bytes.now }
{
    let mut wide = [0; SHORT_LEN + 2];
    wide[..SHORT_LEN].copy_from_slice(bytes);
    wide.make_ascii_lowercase();
    let mut lowered = [0; SHORT_LEN];
    lowered.copy_from_slice(&wide[..SHORT_LEN]);
    lowered
}

/// Arrays compared eight bytes at a time, two of them twice.
#[inline(always)]
fn compare_words(a: &[u8; SHORT_LEN], b: &[u8; SHORT_LEN]) -> Ordering
    ensures { result ≡ slice_cmp nat_cmp a.now b.now }
{
    let (x, y) = (word_at(a, 0), word_at(b, 0));
    if x != y {
        return x.cmp(&y);
    }
    let (x, y) = (word_at(a, 8), word_at(b, 8));
    if x != y {
        return x.cmp(&y);
    }
    let (x, y) = (word_at(a, 16), word_at(b, 16));
    if x != y {
        return x.cmp(&y);
    }
    word_at(a, 22).cmp(&word_at(b, 22))
}

impl ShortBytes {
    /// No bytes.
    pub(crate) fn new() -> ShortBytes
        ensures { result ≡ [] }
    {
        ShortBytes {
            bytes: [0; SHORT_LEN],
            len: 0,
        }
    }

    /// The first bytes of an array that is zero behind them.
    #[inline(always)]
    pub(crate) fn from_array(bytes: [u8; SHORT_LEN], len: usize) -> ShortBytes
        requires fits { len ≤ 30 }
        requires behind { drop len bytes ≡ replicate (30 - len) 0 }
        ensures { result ≡ take len bytes }
    {
        ShortBytes {
            bytes,
            len: len as u8,
        }
    }

    fn from_slice(bytes: &[u8]) -> ShortBytes
        requires { length bytes.now ≤ 30 }
        ensures { result ≡ bytes.now }
    {
        let mut short = [0; SHORT_LEN];
        short[..bytes.len()].copy_from_slice(bytes);
        ShortBytes {
            bytes: short,
            len: bytes.len() as u8,
        }
    }

    /// Puts other bytes in the place of these.
    fn set(&mut self, bytes: &[u8])
        requires { length bytes.now ≤ 30 }
        ensures { self.new ≡ bytes.now }
    {
        self.bytes = [0; SHORT_LEN];
        self.bytes[..bytes.len()].copy_from_slice(bytes);
        self.len = bytes.len() as u8;
    }

    fn as_slice(&self) -> &[u8]
        ensures { result.now ≡ self.now }
    {
        &self.bytes[..usize::from(self.len)]
    }

    fn copied(&self) -> ShortBytes
        ensures { result ≡ self.now }
    {
        ShortBytes {
            bytes: self.bytes,
            len: self.len,
        }
    }

    /// Puts other bytes in the place of these, with ASCII letters in lower case.
    #[inline(always)]
    fn set_lowered(&mut self, source: &ShortBytes)
        ensures { self.new ≡ map to_ascii_lowercase source.now }
    {
        self.bytes = lowered_array(&source.bytes);
        self.len = source.len;
    }

    /// A copy with ASCII letters in lower case.
    fn lowered(&self) -> ShortBytes
        ensures { result ≡ map to_ascii_lowercase self.now }
    {
        let mut bytes = self.bytes;
        bytes.make_ascii_lowercase();
        ShortBytes {
            bytes,
            len: self.len,
        }
    }

    /// Puts its ASCII letters into lower case.
    fn make_lowercase(&mut self)
        ensures { self.new ≡ map to_ascii_lowercase self.old }
    {
        self.bytes.make_ascii_lowercase();
    }

    /// Takes the first bytes away.
    fn remove_front(&mut self, count: usize)
        requires { count ≤ length self.old }
        ensures { self.new ≡ drop count self.old }
    {
        let rest = ShortBytes::from_slice(&self.bytes[count..usize::from(self.len)]);
        *self = rest;
    }

    /// Leaves the first bytes alone.
    fn truncate(&mut self, len: usize)
        requires { len ≤ length self.old }
        ensures { self.new ≡ take len self.old }
    {
        if len < usize::from(self.len) {
            self.bytes[len..].fill(0);
            self.len = len as u8;
        }
    }

    /// The eight bytes from a place on as a number.
    #[inline(always)]
    fn word_from(&self, place: usize) -> u64
        requires { place + 8 ≤ 30 }
        ensures is { result ≡ word_behind place self.now }
        ensures bytes { AreBytes self.now }
    {
        word_at(&self.bytes, place)
    }

    /// Compares them as lists of bytes compare: the first bytes that differ decide, and where none do, the lengths.
    #[inline(always)]
    fn compare(&self, other: &ShortBytes) -> Ordering
        ensures { result ≡ slice_cmp nat_cmp self.now other.now }
    {
        match compare_words(&self.bytes, &other.bytes) {
            Ordering::Equal => self.len.cmp(&other.len),
            decided => decided,
        }
    }
}

/// The bytes of a name: in the value itself where they are few, and else on the heap.
///
/// Contracts speak of the bytes as `wire_bytes`.
#[derive(Drop)]
pub(crate) enum Wire {
    /// At most 30 bytes.
    Short(ShortBytes),
    /// Any number of bytes.
    Long(Vec<u8>),
}

/// A copy of bytes with ASCII letters in lower case.
fn lowered(bytes: &Vec<u8>) -> Result<Vec<u8>, AllocError>
    ensures { IfOk result (λ copy. copy.items ≡ map to_ascii_lowercase bytes.now.items) }
{
    let mut copy = bytes.clone()?;
    copy.make_ascii_lowercase();
    Ok(copy)
}

/// Takes the first bytes away.
fn remove_front(bytes: &mut Vec<u8>, count: usize)
    requires { count ≤ length bytes.old.items }
    ensures { bytes.new.items ≡ drop count bytes.old.items }
{
    bytes.copy_within(count.., 0);
    let rest = bytes.len() - count;
    bytes.truncate(rest);
}

/// The eight bytes from a place on as a number, with zeros behind the end.
#[inline(never)]
fn padded_word(bytes: &[u8], place: usize) -> u64
    ensures is { result ≡ word_behind place bytes.now }
    ensures bytes { AreBytes bytes.now }
{
    let rest = &bytes[place.min(bytes.len())..];
    if rest.len() >= WORD_LEN {
        return word_at(rest, 0);
    }
    let mut padded = [0; WORD_LEN];
    padded[..rest.len()].copy_from_slice(rest);
    word_at(&padded, 0)
}

impl Wire {
    /// A copy of bytes.
    pub(crate) fn from_slice(alloc: Global, bytes: &[u8]) -> Result<Wire, AllocError>
        ensures { IfOk result (λ wire. wire_bytes wire ≡ bytes.now) }
    {
        if bytes.len() <= SHORT_LEN {
            return Ok(Wire::Short(ShortBytes::from_slice(bytes)));
        }
        Ok(Wire::Long(Vec::from_slice(alloc, bytes)?))
    }

    /// A copy of bytes in the place of others. Where memory is refused, those stay.
    #[inline(always)]
    pub(crate) fn set(&mut self, alloc: Global, bytes: &[u8]) -> Result<(), AllocError>
        ensures done { OnOk result (wire_bytes self.new ≡ bytes.now) }
        ensures kept { OnErr result (self.new ≡ self.old) }
    {
        if bytes.len() <= SHORT_LEN {
            if let Wire::Short(short) = self {
                short.set(bytes);
                return Ok(());
            }
        }
        self.set_any(alloc, bytes)
    }

    /// Puts any bytes in the place of these: many of them on the heap, where these are if there is room.
    // speed: served, an address of 120 labels
    #[inline(never)]
    fn set_any(&mut self, alloc: Global, bytes: &[u8]) -> Result<(), AllocError>
        ensures done { OnOk result (wire_bytes self.new ≡ bytes.now) }
        ensures kept { OnErr result (self.new ≡ self.old) }
    {
        if let Wire::Long(own) = self {
            if bytes.len() > SHORT_LEN && bytes.len() <= own.capacity() {
                own.clear();
                return own.extend_from_slice(bytes);
            }
        }
        *self = Wire::from_slice(alloc, bytes)?;
        Ok(())
    }

    /// Puts bytes with ASCII letters in lower case in the place of these, where both are few. Returns whether it did.
    #[inline(always)]
    pub(crate) fn set_lowered(&mut self, source: &Wire) -> bool
        ensures done { IsTrue result → wire_bytes self.new ≡ map to_ascii_lowercase (wire_bytes source.now) }
        ensures kept { result ≡ false → self.new ≡ self.old }
    {
        let Wire::Short(source) = source else {
            return false;
        };
        let Wire::Short(own) = self else {
            return false;
        };
        own.set_lowered(source);
        true
    }

    /// Puts any bytes with ASCII letters in lower case in the place of these. Where memory is refused, these stay.
    pub(crate) fn set_any_lowered(&mut self, alloc: Global, source: &Wire) -> Result<(), AllocError>
        ensures done { OnOk result (wire_bytes self.new ≡ map to_ascii_lowercase (wire_bytes source.now)) }
        ensures kept { OnErr result (self.new ≡ self.old) }
    {
        self.set_any(alloc, source.as_slice())?;
        match self {
            Wire::Short(own) => own.make_lowercase(),
            Wire::Long(own) => own.make_ascii_lowercase(),
        }
        Ok(())
    }

    /// The bytes.
    pub(crate) fn as_slice(&self) -> &[u8]
        ensures { result.now ≡ wire_bytes self.now }
    {
        match self {
            Wire::Short(bytes) => bytes.as_slice(),
            Wire::Long(bytes) => bytes.as_slice(),
        }
    }

    /// A copy.
    pub(crate) fn copied(&self) -> Result<Wire, AllocError>
        ensures { IfOk result (λ copy. wire_bytes copy ≡ wire_bytes self.now) }
    {
        match self {
            Wire::Short(bytes) => Ok(Wire::Short(bytes.copied())),
            Wire::Long(bytes) => Ok(Wire::Long(bytes.clone()?)),
        }
    }

    /// A copy with ASCII letters in lower case.
    pub(crate) fn lowered(&self) -> Result<Wire, AllocError>
        ensures { IfOk result (λ copy. wire_bytes copy ≡ map to_ascii_lowercase (wire_bytes self.now)) }
    {
        match self {
            Wire::Short(bytes) => Ok(Wire::Short(bytes.lowered())),
            Wire::Long(bytes) => Ok(Wire::Long(lowered(bytes)?)),
        }
    }

    /// Takes the first bytes away.
    pub(crate) fn remove_front(&mut self, count: usize)
        requires { count ≤ length (wire_bytes self.old) }
        ensures { wire_bytes self.new ≡ drop count (wire_bytes self.old) }
    {
        match self {
            Wire::Short(bytes) => bytes.remove_front(count),
            Wire::Long(bytes) => remove_front(bytes, count),
        }
    }

    /// Compares them as lists of bytes compare.
    #[inline(always)]
    pub(crate) fn compare(&self, other: &Wire) -> Ordering
        ensures { result ≡ slice_cmp nat_cmp (wire_bytes self.now) (wire_bytes other.now) }
    {
        if let Wire::Short(bytes) = self {
            if let Wire::Short(others) = other {
                return bytes.compare(others);
            }
        }
        compare_bytes(self.as_slice(), other.as_slice())
    }

    /// The eight bytes from a place on as a number, with zeros behind the end.
    #[inline(always)]
    pub(crate) fn word_from(&self, place: usize) -> u64
        ensures is { result ≡ word_behind place (wire_bytes self.now) }
        ensures bytes { AreBytes (wire_bytes self.now) }
    {
        if let Wire::Short(short) = self {
            if place <= SHORT_LEN - WORD_LEN {
                return short.word_from(place);
            }
        }
        padded_word(self.as_slice(), place)
    }

    /// Leaves the first bytes alone.
    pub(crate) fn truncate(&mut self, len: usize)
        requires { len ≤ length (wire_bytes self.old) }
        ensures { wire_bytes self.new ≡ take len (wire_bytes self.old) }
    {
        match self {
            Wire::Short(bytes) => bytes.truncate(len),
            Wire::Long(bytes) => bytes.truncate(len),
        }
    }
}
