//! Bytes that are compared eight at a time, as names are while a message is written.

ghost use Rattle.std.specs.Prelude.{◌≡◌, ◌↔◌, ◌≤◌, length, take, IsTrue};

use crate::values::words::{WORD_LEN, word_at};

/// Whether their first eight bytes are the same, where they have as many.
#[inline(always)]
fn may_be_same(a: &[u8], b: &[u8]) -> bool
    requires { length a.now ≡ length b.now }
    ensures front { 8 ≤ length a.now → IsTrue result → take 8 a.now ≡ take 8 b.now }
    ensures same { a.now ≡ b.now → IsTrue result }
{
    a.len() < WORD_LEN || word_at(a, 0) == word_at(b, 0)
}

/// Whether bytes of one length are the same behind the first eight. The last eight are compared at once, with some of
/// those before them a second time.
#[inline(always)]
fn have_same_rest(a: &[u8], b: &[u8]) -> bool
    requires len { length a.now ≡ length b.now }
    requires front { 8 ≤ length a.now → take 8 a.now ≡ take 8 b.now }
    ensures { IsTrue result ↔ (a.now ≡ b.now) }
{
    if a.len() < WORD_LEN {
        return a == b;
    }
    let last = a.len() - WORD_LEN;
    let mut place = WORD_LEN;
    while place < last {
        if word_at(a, place) != word_at(b, place) {
            return false;
        }
        place += WORD_LEN;
    }
    word_at(a, last) == word_at(b, last)
}

/// Whether both have the same bytes. What is told apart by its length or its first bytes costs no call.
#[inline(always)]
pub fn are_same(a: &[u8], b: &[u8]) -> bool
    ensures { IsTrue result ↔ (a.now ≡ b.now) }
{
    a.len() == b.len() && may_be_same(a, b) && have_same_rest(a, b)
}
