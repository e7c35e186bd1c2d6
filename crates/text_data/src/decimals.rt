//! Decimal numbers with digits behind a dot.

ghost use Rattle.std.specs.Prelude.{◌≡◌, ◌≤◌, ◌<◌, ◌*◌, ◌^◌, ℕ, IfNone, IfSome};
ghost use Rattle.text_data.specs.LocationText.{HasNone, IsDecimal, IsFraction, IsMetres, without_metres};

use text_words::{cut_at, number_of_digits};

/// A power of ten of at most three digits behind the first.
fn power_of_ten(exponent: usize) -> u64
    requires { exponent ≤ 3 }
    ensures value { result ≡ 10 ^ exponent }
    ensures small { result ≤ 1000 }
{
    match exponent {
        0 => 1,
        1 => 10,
        2 => 100,
        _ => 1000,
    }
}

/// The digits behind a dot, in units of the last of so many places.
fn fraction(digits: &[u8], places: usize) -> Option<u64>
    requires { places ≤ 3 }
    ensures value { IfSome result (IsFraction places digits.now) }
    ensures small { IfSome result (λ part. part < 1000 * 2 ^ 32) }
    ensures none { IfNone result (HasNone (IsFraction places digits.now)) }
{
    let len = digits.len();
    if len == 0 {
        return Some(0);
    }
    if len > places {
        return None;
    }
    let number = number_of_digits(digits)?;
    Some(u64::from(number) * power_of_ten(places - len))
}

/// A decimal number with at most so many digits behind its dot, in units of the last of these places.
pub(crate) fn decimal(text: &[u8], places: usize) -> Option<u64>
    requires some { 2 ≤ places }
    requires few { places ≤ 3 }
    ensures value { IfSome result (IsDecimal places text.now) }
    ensures small { IfSome result (λ n. n < 2 ^ 60) }
    ensures none { IfNone result ((n : ℕ) → IsDecimal places text.now n → n < 100 * 2 ^ 32 → ⊥) }
{
    let (front, behind) = cut_at(text, b'.');
    let whole = number_of_digits(front)?;
    let part = fraction(behind, places)?;
    Some(u64::from(whole) * power_of_ten(places) + part)
}

/// A text without the letter of metres, which may stand last.
fn without_metres(text: &[u8]) -> &[u8]
    ensures { result.now ≡ without_metres text.now }
{
    let len = text.len();
    if len == 0 {
        return text;
    }
    if text[len - 1] == b'm' {
        return &text[..len - 1];
    }
    text
}

/// Metres in hundredths, with or without their letter.
pub(crate) fn metres(text: &[u8]) -> Option<u64>
    ensures value { IfSome result (IsMetres text.now) }
    ensures small { IfSome result (λ cents. cents < 2 ^ 60) }
    ensures none { IfNone result ((cents : ℕ) → IsMetres text.now cents → cents < 100 * 2 ^ 32 → ⊥) }
{
    decimal(without_metres(text), 2)
}
