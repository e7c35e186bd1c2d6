//! The forms of numbers in a `$GENERATE` directive.

ghost use Rattle.std.specs.Prelude.{◌≡◌, ◌^◌, ◌<◌, ◌++◌, [], ◌∷◌, if◌then◌else◌, nat_lt, Some, None, OnOk, IfOk, MatchOption};
ghost use Rattle.std.specs.Fmt.{digit_glyph};
ghost use Rattle.std.specs.Str.Parse.{without_leading_sign};
ghost use Rattle.zone_text.specs.Numbered.{base_in, base_last, base_of, form_of, moved, nibbles, nibbles_len, number_text, padded, width_in};

use crate::zone_file::number_range::{NUMBER_BOUND, number_below, parts};
use std::alloc::{AllocError, Global};
use std::format;

/// The base that a number is written in.
#[derive(Clone, Copy)]
pub(crate) enum NumberBase {
    /// `d`
    Decimal,
    /// `o`
    Octal,
    /// `x`
    Hex,
    /// `X`
    UpperHex,
    /// `n`: hexadecimal digits, the last first, with dots between them.
    Nibbles,
    /// `N`
    UpperNibbles,
}

/// How a number is written.
#[derive(Clone, Copy)]
pub(crate) struct NumberForm {
    /// Whether the offset is taken from the number, and not added to it.
    less: bool,
    offset: u32,
    /// How many bytes it has at least, at most 127.
    width: u32,
    base: NumberBase,
}

/// One more than the greatest width.
const WIDTH_BOUND: u32 = 128;

/// Digits without the sign before them.
fn unsigned(text: &[u8]) -> &[u8]
    ensures { result.now ≡ without_leading_sign text.now }
{
    match text {
        [b'-' | b'+', digits @ ..] => digits,
        _ => text,
    }
}

/// The base of a letter.
fn base_of(text: &[u8]) -> Option<NumberBase>
    ensures { result ≡ base_of text.now }
{
    match text {
        [b'd'] => Some(NumberBase::Decimal),
        [b'o'] => Some(NumberBase::Octal),
        [b'x'] => Some(NumberBase::Hex),
        [b'X'] => Some(NumberBase::UpperHex),
        [b'n'] => Some(NumberBase::Nibbles),
        [b'N'] => Some(NumberBase::UpperNibbles),
        _ => None,
    }
}

/// The base that stands behind the width, or decimal.
fn base_last(text: Option<&[u8]>) -> Option<NumberBase>
    ensures { MatchOption text.entry (result ≡ base_last None) (λ text. result ≡ base_last (Some text.now)) }
{
    match text {
        Some(text) => base_of(text),
        None => Some(NumberBase::Decimal),
    }
}

/// The form that a text in braces is.
pub(crate) fn form_of(text: &[u8]) -> Option<NumberForm>
    ensures { result ≡ form_of text.now }
{
    let (front, behind) = parts(text, b',');
    let less = front.starts_with(b"-");
    let offset = number_below(NUMBER_BOUND, unsigned(front))?;
    let Some(behind) = behind else {
        return Some(NumberForm {
            less,
            offset,
            width: 0,
            base: NumberBase::Decimal,
        });
    };
    let (width, last) = parts(behind, b',');
    Some(NumberForm {
        less,
        offset,
        width: number_below(WIDTH_BOUND, width)?,
        base: base_last(last)?,
    })
}

/// The glyph of a hexadecimal digit.
fn glyph(upper: bool, digit: u8) -> u8
    requires { digit < 16 }
    ensures { result ≡ digit_glyph upper digit }
{
    if digit < 10 {
        b'0' + digit
    } else if upper {
        b'A' + (digit - 10)
    } else {
        b'a' + (digit - 10)
    }
}

/// Puts a hexadecimal digit behind other bytes, and a dot behind it where more than one byte is left.
fn put_nibble(upper: bool, left: usize, digit: u8, bytes: &mut Vec<u8>) -> Result<(), AllocError>
    requires { digit < 16 }
    ensures { OnOk result (bytes.new.items ≡ bytes.old.items ++
        (if nat_lt 1 left then digit_glyph upper digit ∷ 46 ∷ [] else digit_glyph upper digit ∷ [])) }
{
    bytes.push(glyph(upper, digit))?;
    if left > 1 {
        bytes.push(b'.')?;
    }
    Ok(())
}

/// Puts hexadecimal digits behind other bytes, the last first, with dots between them: so many bytes.
fn put_nibbles(upper: bool, len: usize, number: u32, bytes: &mut Vec<u8>) -> Result<(), AllocError>
    ensures { OnOk result (bytes.new.items ≡ bytes.old.items ++ nibbles upper len number) }
{
    let mut left = len;
    let mut rest = number;
    'digits: while left > 0 {
        put_nibble(upper, left, (rest % 16) as u8, bytes)?;
        rest /= 16;
        left = left.saturating_sub(2);
    }
    Ok(())
}

/// Puts digits behind other bytes, with zeros before them where the width is greater.
fn put_padded(digits: &[u8], width: u32, bytes: &mut Vec<u8>) -> Result<(), AllocError>
    ensures { OnOk result (bytes.new.items ≡ bytes.old.items ++ padded width digits.now) }
{
    let zeros = (width as usize).saturating_sub(digits.len());
    'zeros: for _ in 0..zeros {
        bytes.push(b'0')?;
    }
    bytes.extend_from_slice(digits)
}

/// How many bytes nibbles have: all digits and dots between them, or as many as the width.
fn nibbles_len(alloc: Global, width: u32, number: u32) -> Result<usize, AllocError>
    ensures { IfOk result (λ len. len ≡ nibbles_len width number) }
{
    let digits = format!(in alloc; "{number:x}")?;
    Ok((width as usize).max((2 * digits.len()).saturating_sub(1)))
}

/// Puts nibbles behind other bytes, as many as the number has or the width asks for.
fn put_wide_nibbles(
    alloc: Global,
    upper: bool,
    width: u32,
    number: u32,
    bytes: &mut Vec<u8>,
) -> Result<(), AllocError>
    ensures { OnOk result (bytes.new.items ≡ bytes.old.items ++ nibbles upper (nibbles_len width number) number) }
{
    let len = nibbles_len(alloc, width, number)?;
    put_nibbles(upper, len, number, bytes)
}

impl NumberForm {
    /// A number with the offset, where it has 31 bits and is not below 0.
    pub(crate) fn moved(self, number: u32) -> Option<u32>
        requires { number < 2 ^ 31 }
        ensures { result ≡ moved self number }
    {
        if self.less {
            return number.checked_sub(self.offset);
        }
        match number.checked_add(self.offset) {
            Some(sum) if sum < NUMBER_BOUND => Some(sum),
            _ => None,
        }
    }

    /// Puts a number behind other bytes, in this base and of at least this width.
    pub(crate) fn put(
        self,
        alloc: Global,
        number: u32,
        bytes: &mut Vec<u8>,
    ) -> Result<(), AllocError>
        ensures { OnOk result (bytes.new.items ≡ bytes.old.items ++ number_text self.base self.width number) }
    {
        let width = self.width;
        match self.base {
            NumberBase::Decimal => put_padded(
                format!(in alloc; "{number}")?.as_bytes(),
                width,
                bytes,
            ),
            NumberBase::Octal => put_padded(
                format!(in alloc; "{number:o}")?.as_bytes(),
                width,
                bytes,
            ),
            NumberBase::Hex => put_padded(
                format!(in alloc; "{number:x}")?.as_bytes(),
                width,
                bytes,
            ),
            NumberBase::UpperHex => put_padded(
                format!(in alloc; "{number:X}")?.as_bytes(),
                width,
                bytes,
            ),
            NumberBase::Nibbles => put_wide_nibbles(alloc, false, width, number, bytes),
            NumberBase::UpperNibbles => put_wide_nibbles(alloc, true, width, number, bytes),
        }
    }
}
