//! Times in text.

ghost use Rattle.std.specs.Prelude.{◌≡◌, ℕ, ◌+◌, ◌-◌, ◌*◌, ◌<◌, ◌≤◌, ◌^◌, false, unwrap_or, IfNone, IfOk, IfSome, OnErr};
ghost use Rattle.std.specs.Char.{IsAsciiDigit};
ghost use Rattle.text_words.specs.Spelling.{IsNoNumberWord, IsNoTime, IsNumber, SpellsTime, SpellsUnits, unit_seconds};

use crate::error::{TextError, TextFault};
use crate::words::{Word, are_digits};

/// The TTL of a field: a decimal number of seconds.
pub fn ttl_of(word: &Word<'_>) -> Result<u32, TextError>
    ensures ttl { IfOk result (λ n. (word.now.quoted ≡ false) × IsNumber word.now.bytes.now n × (n < 2 ^ 32)) }
    ensures refused { OnErr result (IsNoNumberWord word.now) }
{
    match word.number() {
        Err(
            TextError::At {
                column,
                fault: TextFault::BadNumber,
            },
        ) => Err(TextError::At {
            column,
            fault: TextFault::NotATtl,
        }),
        answer => answer,
    }
}

/// How many seconds a unit of a zone file has: a second, minute, hour, day or week.
fn unit_seconds(unit: u8) -> Option<u64>
    ensures { result ≡ unit_seconds unit }
{
    match unit.to_ascii_lowercase() {
        b's' => Some(1),
        b'm' => Some(60),
        b'h' => Some(3_600),
        b'd' => Some(86_400),
        b'w' => Some(604_800),
        _ => None,
    }
}

/// The number that a digit behind a number, or behind none, makes.
fn with_digit(number: Option<u32>, digit: u8) -> Option<u32>
    requires { IsAsciiDigit digit }
    ensures number { IfSome result (λ n. n ≡ unwrap_or number 0 * 10 + (digit - 48)) }
    ensures none { IfNone result (2 ^ 32 ≤ unwrap_or number 0 * 10 + (digit - 48)) }
{
    let tens = number.unwrap_or(0).checked_mul(10)?;
    tens.checked_add(u32::from(digit - b'0'))
}

/// The sum of numbers with a unit behind each.
fn units(word: &Word<'_>) -> Result<u64, TextError>
    ensures units { IfOk result (SpellsUnits word.now.bytes.now) }
    ensures refused { OnErr result ((n : ℕ) → SpellsUnits word.now.bytes.now n → n < 2 ^ 32 → ⊥) }
{
    let not_a_ttl = word.fault(TextFault::NotATtl);
    let too_great = word.fault(TextFault::NumberOutOfRange);
    let mut sum = 0u64;
    let mut number = None;
    for byte in word.bytes {
        if byte.is_ascii_digit() {
            number = Some(with_digit(number, *byte).ok_or(too_great)?);
        } else {
            let seconds = unit_seconds(*byte).ok_or(not_a_ttl)?;
            let count = number.ok_or(not_a_ttl)?;
            sum = sum
                .checked_add(u64::from(count) * seconds)
                .ok_or(too_great)?;
            number = None;
        }
    }
    match number {
        Some(_) => Err(not_a_ttl),
        None => Ok(sum),
    }
}

/// The seconds of a field of a zone file: a number of them, or numbers with a unit behind each, as `90`, `1h30m` or
/// `2W`.
pub fn seconds_of(word: &Word<'_>) -> Result<u32, TextError>
    ensures time { IfOk result (λ n. (word.now.quoted ≡ false) × SpellsTime word.now.bytes.now n × (n < 2 ^ 32)) }
    ensures refused { OnErr result (IsNoTime word.now) }
{
    if word.quoted || word.bytes.is_empty() {
        return Err(word.fault(TextFault::NotATtl));
    }
    if are_digits(word.bytes) {
        let seconds = ttl_of(word)?;
        return Ok(seconds);
    }
    let sum = units(word)?;
    match u32::try_from(sum) {
        Ok(seconds) => Ok(seconds),
        Err(_) => Err(word.fault(TextFault::NumberOutOfRange)),
    }
}
