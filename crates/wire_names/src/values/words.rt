//! Bytes read several at a time.

ghost use Rattle.std.specs.Prelude.{◌≡◌, ◌+◌, ◌≤◌, length, take, drop};
ghost use Rattle.std.specs.Cmp.Lexicographic.{slice_cmp};
ghost use Rattle.std.specs.Ordering.{nat_cmp};
ghost use Rattle.std.specs.Slice.Scan.{big_endian};
ghost use Rattle.wire_names.specs.serialize.layout.Bytes.{AreBytes};

use std::cmp::Ordering;

/// How many bytes are read at once.
pub(crate) const WORD_LEN: usize = 8;

/// The eight bytes from a place on as a number, the first one highest: such numbers compare as the bytes do.
pub(crate) fn word_at(bytes: &[u8], place: usize) -> u64
    requires { place + 8 ≤ length bytes.now }
    ensures is { result ≡ big_endian 0 (take 8 (drop place bytes.now)) }
    ensures bytes { AreBytes bytes.now }
{
    u64::from_be_bytes([
        bytes[place],
        bytes[place + 1],
        bytes[place + 2],
        bytes[place + 3],
        bytes[place + 4],
        bytes[place + 5],
        bytes[place + 6],
        bytes[place + 7],
    ])
}

/// Bytes compared as such, words at a time: the first that differ decide, and where none do, the lengths.
pub(crate) fn compare_bytes(a: &[u8], b: &[u8]) -> Ordering
    ensures { result ≡ slice_cmp nat_cmp a.now b.now }
{
    let both = a.len().min(b.len());
    if both < WORD_LEN {
        return a.iter().cmp(b.iter());
    }
    let last = both - WORD_LEN;
    let mut place = 0;
    loop {
        let x = word_at(a, place);
        let y = word_at(b, place);
        if x != y {
            return x.cmp(&y);
        }
        if place == last {
            return a.len().cmp(&b.len());
        }
        // The last word may begin among bytes that were compared before, which are equal.
        place = last.min(place + WORD_LEN);
    }
}
