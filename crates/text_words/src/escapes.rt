//! Bytes that are spelled in text.

ghost use Rattle.std.specs.Prelude.{◌≡◌, ◌≢◌, ◌≤◌, ◌<◌, ◌+◌, ℕ, [], ◌∷◌, false, true, take, get_or, length, IfErr, IfNone, IfOk, IfSome, OnErr, OnOk};
ghost use Rattle.text_words.specs.declared.error.TextError.TheVariants.{Memory};
ghost use Rattle.text_words.specs.Spelling.{HasNoFirstByte, IsNoString, IsString, Puts, SpellsNoBytes};
ghost use Rattle.text_words.specs.Spelling.{IsNumber, Spells, SpellsByte, any_byte};

use crate::error::{TextError, TextFault};
use crate::words::Word;

/// A byte that stands in a text, as itself or escaped.
#[derive(Clone, Copy)]
pub(crate) struct SpelledByte {
    /// The byte.
    pub(crate) byte: u8,
    /// Whether it stands there as itself, and so may have a meaning of its own.
    pub(crate) is_bare: bool,
    /// How many bytes of the text spell it.
    pub(crate) len: usize,
    ghost some: { 0 < len },
}

/// The byte of three decimal digits.
fn byte_of(hundreds: u8, tens: u8, ones: u8) -> Option<u8>
    ensures value { IfSome result (IsNumber (hundreds ∷ tens ∷ ones ∷ [])) }
    ensures small { IfSome result (λ byte. byte < 256) }
    ensures none { IfNone result ((byte : ℕ) → IsNumber (hundreds ∷ tens ∷ ones ∷ []) byte → byte < 256 → ⊥) }
{
    if !tens.is_ascii_digit() || !ones.is_ascii_digit() || !hundreds.is_ascii_digit() {
        return None;
    }
    let value = 100 * u16::from(hundreds - b'0')
        + 10 * u16::from(tens - b'0')
        + u16::from(ones - b'0');
    u8::try_from(value).ok()
}

/// The byte that is spelled by a backslash and what stands behind it.
fn escaped_byte(behind: &[u8]) -> Option<SpelledByte>
    ensures within { IfSome result (λ spelled. spelled.len ≤ 1 + length behind.now) }
    ensures spelled { IfSome result
        (λ spelled. SpellsByte (take spelled.len (92 ∷ behind.now)) spelled.byte spelled.is_bare) }
    ensures escaped { IfSome result (λ spelled. spelled.is_bare ≡ false) }
    ensures none { IfNone result (HasNoFirstByte (92 ∷ behind.now)) }
{
    let byte = *behind.first()?;
    if !byte.is_ascii_digit() {
        return Some(SpelledByte {
            byte,
            is_bare: false,
            len: 2,
        });
    }
    if behind.len() < 3 {
        return None;
    }
    Some(SpelledByte {
        byte: byte_of(byte, behind[1], behind[2])?,
        is_bare: false,
        len: 4,
    })
}

/// The byte that the text begins with, where its escape is whole (RFC 1035 section 5.1).
pub(crate) fn first_byte(text: &[u8]) -> Option<SpelledByte>
    ensures within { IfSome result (λ spelled. spelled.len ≤ length text.now) }
    ensures spelled { IfSome result (λ spelled. SpellsByte (take spelled.len text.now) spelled.byte spelled.is_bare) }
    ensures bare { IfSome result (λ spelled. spelled.is_bare ≡ true → get_or text.now 0 0 ≡ spelled.byte) }
    ensures none { IfNone result (HasNoFirstByte text.now) }
{
    let [first, behind @ ..] = text else {
        return None;
    };
    if *first != b'\\' {
        return Some(SpelledByte {
            byte: *first,
            is_bare: true,
            len: 1,
        });
    }
    escaped_byte(behind)
}

/// The most bytes that a character string has (RFC 1035 section 3.3).
pub const MAX_STRING_LEN: usize = 255;

/// Spells out a character string, and tells its length.
pub fn read_string(word: &Word<'_>, string: &mut [u8; MAX_STRING_LEN]) -> Result<usize, TextError>
    ensures short { IfOk result (λ len. len ≤ 255) }
    ensures sized { IfOk result (λ len. length (take len string.new) ≡ len) }
    ensures spelled { IfOk result (λ len. Spells any_byte word.now.bytes.now (take len string.new)) }
    ensures refused { OnErr result (IsNoString word.now) }
{
    let text = word.bytes;
    let mut place = 0;
    let mut len = 0;
    'bytes: while place < text.len() {
        let Some(spelled) = first_byte(&text[place..]) else {
            return Err(word.fault_within(place, TextFault::BadEscape));
        };
        if len == MAX_STRING_LEN {
            return Err(word.fault(TextFault::StringTooLong));
        }
        string[len] = spelled.byte;
        len += 1;
        place += spelled.len;
    }
    Ok(len)
}

/// Puts the bytes that a word spells behind others.
pub fn put_spelled(word: &Word<'_>, bytes: &mut Vec<u8>) -> Result<(), TextError>
    ensures put { OnOk result (Puts (Spells any_byte word.now.bytes.now) bytes.old.items bytes.new.items) }
    ensures refused { IfErr result (λ e. e ≢ Memory → SpellsNoBytes word.now) }
{
    let text = word.bytes;
    let mut place = 0;
    'bytes: while place < text.len() {
        let Some(spelled) = first_byte(&text[place..]) else {
            return Err(word.fault_within(place, TextFault::BadEscape));
        };
        bytes.push(spelled.byte)?;
        place += spelled.len;
    }
    Ok(())
}

/// Puts the character string that a word spells behind other bytes: its length, and so many bytes.
pub fn put_string(word: &Word<'_>, bytes: &mut Vec<u8>) -> Result<(), TextError>
    ensures put { OnOk result (Puts (IsString word.now) bytes.old.items bytes.new.items) }
    ensures refused { IfErr result (λ e. e ≢ Memory → IsNoString word.now) }
{
    let mut string = [0; MAX_STRING_LEN];
    let len = read_string(word, &mut string)?;
    bytes.push(len as u8)?;
    bytes.extend_from_slice(&string[..len])?;
    Ok(())
}
