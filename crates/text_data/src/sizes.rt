//! Sizes and precisions (RFC 1876 section 2).

ghost use Rattle.std.specs.Prelude.{◌≡◌, ◌≤◌, false, IfNone, IfOk, IfSome, OnErr};
ghost use Rattle.text_data.specs.LocationText.{AreSizes, HasNone, IsSize, IsSizeOctet};

use crate::decimals::metres;
use text_words::{TextError, TextFault, Word};

/// The greatest size, in hundredths of a metre.
const MOST: u64 = 9_000_000_000;

/// The size, the horizontal and the vertical precision where none is told: 1 m, 10,000 m and 10 m (RFC 1876 section 3).
const USUAL: [u8; 3] = [0x12, 0x16, 0x13];

/// The octet of a size: its first digit, and how many digits stand behind it.
#[tactic(auto, using(crate::proofs::SizeOctets::last_digit))]
fn size_octet(cents: u64) -> u8
    requires { cents ≤ 9000000000 }
    ensures { IsSizeOctet cents result }
{
    let mut base = cents;
    for exponent in 0..9u8 {
        if base < 10 {
            return 16 * base as u8 + exponent;
        }
        base /= 10;
    }
    16 * base as u8 + 9
}

/// The octet of the size that a text is.
fn size_of(text: &[u8]) -> Option<u8>
    ensures value { IfSome result (IsSize text.now) }
    ensures none { IfNone result (HasNone (IsSize text.now)) }
{
    let cents = metres(text)?;
    if cents > MOST {
        return None;
    }
    Some(size_octet(cents))
}

/// The octet of the size that a word is.
fn size(word: &Word<'_>) -> Result<u8, TextError>
    ensures spelled { IfOk result (λ octet. (word.now.quoted ≡ false) × IsSize word.now.bytes.now octet) }
    ensures refused { OnErr result (HasNone (λ octet. (word.now.quoted ≡ false) × IsSize word.now.bytes.now octet)) }
{
    let bad = word.fault(TextFault::BadNumber);
    if word.quoted {
        return Err(bad);
    }
    match size_of(word.bytes) {
        Some(octet) => Ok(octet),
        None => Err(bad),
    }
}

/// The octets of a size, a horizontal and a vertical precision, of which those at the end may be left out.
pub(crate) fn sizes(words: &[Word<'_>]) -> Result<[u8; 3], TextError>
    ensures spelled { IfOk result (AreSizes words.now) }
    ensures refused { OnErr result (HasNone (AreSizes words.now)) }
{
    match words {
        [] => Ok(USUAL),
        [first] => Ok([size(first)?, USUAL[1], USUAL[2]]),
        [first, second] => Ok([size(first)?, size(second)?, USUAL[2]]),
        [first, second, third] => Ok([size(first)?, size(second)?, size(third)?]),
        [_, _, _, more, ..] => Err(more.fault(TextFault::TooMuchText)),
    }
}
