//! Angles: degrees, minutes and seconds (RFC 1876 section 3).

ghost use Rattle.std.specs.Prelude.{◌≡◌, ◌<◌, ◌^◌, ℕ, false, IfNone, IfOk, IfSome, OnErr};
ghost use Rattle.text_data.specs.LocationText.{HasNone, IsAngle, IsDecimal, IsMinutes, IsSeconds};

use crate::decimals::decimal;
use text_words::{TextError, TextFault, Word, fault_at};

/// The minutes below 60 that a word is.
fn minutes(word: &Word<'_>) -> Result<u32, TextError>
    ensures spelled { IfOk result (IsMinutes word.now) }
    ensures refused { OnErr result (HasNone (IsMinutes word.now)) }
{
    let number = word.number()?;
    if number > 59 {
        return Err(word.fault(TextFault::NumberOutOfRange));
    }
    Ok(number)
}

/// The seconds below 60 that a text is, in thousandths.
fn seconds_of(text: &[u8]) -> Option<u64>
    ensures value { IfSome result (λ n. IsDecimal 3 text.now n × (n < 60000)) }
    ensures none { IfNone result (HasNone (λ n. IsDecimal 3 text.now n × (n < 60000))) }
{
    let number = decimal(text, 3)?;
    if number >= 60_000 {
        return None;
    }
    Some(number)
}

/// The seconds below 60 that a word is, in thousandths.
fn seconds(word: &Word<'_>) -> Result<u64, TextError>
    ensures spelled { IfOk result (IsSeconds word.now) }
    ensures refused { OnErr result (HasNone (IsSeconds word.now)) }
{
    let bad = word.fault(TextFault::BadNumber);
    if word.quoted {
        return Err(bad);
    }
    match seconds_of(word.bytes) {
        Some(number) => Ok(number),
        None => Err(bad),
    }
}

/// The angle that words are, in thousandths of a second: degrees, minutes and seconds, of which the last two may be
/// left out. `end` is the place where a word is missing.
pub(crate) fn angle(words: &[Word<'_>], end: usize) -> Result<u64, TextError>
    ensures spelled { IfOk result (IsAngle words.now) }
    ensures refused { OnErr result ((n : ℕ) → IsAngle words.now n → n < 2 ^ 32 → ⊥) }
{
    match words {
        [] => Err(fault_at(end, TextFault::MissingField)),
        [first] => Ok(3_600_000 * u64::from(first.number()?)),
        [first, second] => {
            let degrees = 3_600_000 * u64::from(first.number()?);
            Ok(degrees + 60_000 * u64::from(minutes(second)?))
        }
        [first, second, third] => {
            let degrees = 3_600_000 * u64::from(first.number()?);
            let minutes = 60_000 * u64::from(minutes(second)?);
            Ok(degrees + minutes + seconds(third)?)
        }
        [_, _, _, more, ..] => Err(more.fault(TextFault::TooMuchText)),
    }
}
