//! Names in wire form, compared label by label.

ghost use Rattle.std.specs.Prelude.{◌≡◌, ◌+◌, ◌<◌, ◌≤◌, ℕ, length, reverse, slice_index, take, drop};
ghost use Rattle.std.specs.Ordering.{nat_cmp};
ghost use Rattle.std.specs.Cmp.Lexicographic.{slice_cmp};
ghost use Rattle.wire_names.specs.rr.domain.DomainName.{IsWire, cut, label_offset};
ghost use Rattle.wire_names.specs.rr.domain.NameOrder.{label_cmp};

use std::cmp::Ordering;

/// More labels than any name has: each takes two bytes at least, and a name has at most 255.
const MAX_LABELS: usize = 128;

fn compare_labels(a: &[u8], b: &[u8]) -> Ordering
    ensures { result ≡ label_cmp a.now b.now }
{
    // Labels mostly differ in no letter case, and bytes are compared faster than letters.
    if a == b {
        return Ordering::Equal;
    }
    a.iter()
        .map(|x| x.to_ascii_lowercase())
        .cmp(b.iter().map(|x| x.to_ascii_lowercase()))
}

/// Where the length byte of each label stands; returns how many labels there are.
fn label_starts(wire: &[u8], starts: &mut [u8; MAX_LABELS]) -> usize
    requires { IsWire wire.now }
    ensures count { result ≡ length (cut wire.now) }
    ensures few { result ≤ 128 }
    ensures starts { (k : ℕ) → k < result → slice_index starts.new k ≡ label_offset (cut wire.now) k }
{
    let mut count = 0;
    let mut place = 0;
    while place < wire.len() {
        starts[count] = place as u8;
        place += 1 + usize::from(wire[place]);
        count += 1;
    }
    count
}

/// The label whose length byte stands at a place.
fn label_at(wire: &[u8], start: u8) -> &[u8]
    requires within { start < length wire.now }
    requires fits { start + 1 + slice_index wire.now start ≤ length wire.now }
    ensures { result.now ≡ take (slice_index wire.now start) (drop (start + 1) wire.now) }
{
    let first = usize::from(start) + 1;
    let count = usize::from(wire[usize::from(start)]);
    &wire[first..first + count]
}

/// The labels compared from the last one on.
pub(crate) fn compare_from_last(a: &[u8], b: &[u8]) -> Ordering
    requires a { IsWire a.now }
    requires b { IsWire b.now }
    ensures { result ≡ slice_cmp label_cmp (reverse (cut a.now)) (reverse (cut b.now)) }
{
    let mut a_starts = [0; MAX_LABELS];
    let mut b_starts = [0; MAX_LABELS];
    let mut i = label_starts(a, &mut a_starts);
    let mut j = label_starts(b, &mut b_starts);
    'labels: while i > 0 && j > 0 {
        i -= 1;
        j -= 1;
        let order = compare_labels(label_at(a, a_starts[i]), label_at(b, b_starts[j]));
        if order != Ordering::Equal {
            return order;
        }
    }
    i.cmp(&j)
}
