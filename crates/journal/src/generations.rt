//! Two files in turns, of which the one with the higher generation counts.

ghost use Rattle.std.specs.Prelude.{◌≡◌, ◌≤◌, ◌<◌, ◌↔◌, IsTrue, length, take};
ghost use Rattle.std.specs.Int.{from_be_bytes, w64};
ghost use Rattle.journal.specs.Generations.{generation_of};
ghost use Rattle.journal.specs.Read.{contents};

/// The number in the first eight bytes.
fn number(bytes: &[u8]) -> u64
    requires { 8 ≤ length bytes.now }
    ensures { result ≡ from_be_bytes w64 (take 8 bytes.now) }
{
    u64::from_be_bytes([
        bytes[0], bytes[1], bytes[2], bytes[3], bytes[4], bytes[5], bytes[6], bytes[7],
    ])
}

/// The generation of a file, by the entries that `recover` found in it: the number that its first entry is, in eight
/// bytes, which `Journal::replace` puts there; 0 where the first entry is of another length, or there is none.
pub fn generation(entries: &[Vec<u8>]) -> u64
    ensures { result ≡ generation_of (contents entries.now) }
{
    let [first, ..] = entries else {
        return 0;
    };
    if first.len() != 8 {
        return 0;
    }
    number(first)
}

/// Whether a file has a higher generation than another one, by the entries that `recover` found in each: where the
/// second of two files has one than the first, its entries count, and the first is the next to be replaced; else it is
/// the other way round.
pub fn is_newer(entries: &[Vec<u8>], others: &[Vec<u8>]) -> bool
    ensures { IsTrue result ↔ (generation_of (contents others.now) < generation_of (contents entries.now)) }
{
    generation(others) < generation(entries)
}
