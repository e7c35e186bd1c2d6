//! Altitudes (RFC 1876 section 2).

ghost use Rattle.std.specs.Prelude.{◌≡◌, ◌↔◌, ◌<◌, false, get_or, length, IfNone, IfOk, IfSome, IsTrue, OnErr};
ghost use Rattle.text_data.specs.LocationText.{HasNone, IsAbove, IsAltitude, IsBelow};

use crate::decimals::metres;
use text_words::{TextError, TextFault, Word};

/// The hundredths of a metre from the lowest altitude to the spheroid, which lies 100,000 metres above it.
const SPHEROID: u64 = 10_000_000;

/// An altitude above the spheroid, in hundredths of a metre from the lowest one on.
fn above(text: &[u8]) -> Option<u32>
    ensures value { IfSome result (IsAbove text.now) }
    ensures none { IfNone result (HasNone (IsAbove text.now)) }
{
    let cents = metres(text)?;
    match u32::try_from(cents + SPHEROID) {
        Ok(height) => Some(height),
        Err(_) => None,
    }
}

/// An altitude below the spheroid, of which the metres below it are told, in hundredths of a metre from the lowest one
/// on.
fn below(text: &[u8]) -> Option<u32>
    ensures value { IfSome result (IsBelow text.now) }
    ensures none { IfNone result (HasNone (IsBelow text.now)) }
{
    let cents = metres(text)?;
    if cents > SPHEROID {
        return None;
    }
    Some((SPHEROID - cents) as u32)
}

/// Whether a minus sign stands first.
fn is_negative(text: &[u8]) -> bool
    ensures first { IsTrue result ↔ (get_or text.now 0 0 ≡ 45) }
    ensures some { IsTrue result → 0 < length text.now }
{
    !text.is_empty() && text[0] == b'-'
}

/// The altitude that a text is, in hundredths of a metre from the lowest one on.
fn altitude_of(text: &[u8]) -> Option<u32>
    ensures value { IfSome result (IsAltitude text.now) }
    ensures none { IfNone result (HasNone (IsAltitude text.now)) }
{
    if is_negative(text) {
        return below(&text[1..]);
    }
    above(text)
}

/// The altitude that a word is, in hundredths of a metre from the lowest one on.
pub(crate) fn altitude(word: &Word<'_>) -> Result<u32, TextError>
    ensures spelled { IfOk result (λ height. (word.now.quoted ≡ false) × IsAltitude word.now.bytes.now height) }
    ensures refused { OnErr result
        (HasNone (λ height. (word.now.quoted ≡ false) × IsAltitude word.now.bytes.now height)) }
{
    let bad = word.fault(TextFault::BadNumber);
    if word.quoted {
        return Err(bad);
    }
    match altitude_of(word.bytes) {
        Some(height) => Ok(height),
        None => Err(bad),
    }
}
