//! Addresses of the OSI network layer (RFC 1706 section 5).

ghost use Rattle.std.specs.Prelude.{◌≡◌, ◌≢◌, ◌≤◌, ◌⊎◌, true, false, get_or, length, Ok, Option, IfErr, IfOk, OnOk};
ghost use Rattle.hex.specs.Hex.{decode_of};
ghost use Rattle.wire_names.specs.rr.domain.DomainName.{DomainName};
ghost use Rattle.record_text.specs.declared.data.field.Field.TheVariants as field;
ghost use Rattle.text_words.specs.declared.error.TextError.TheVariants.{Memory};
ghost use Rattle.text_words.specs.Spelling.{Puts};
ghost use Rattle.record_text.specs.RecordText.{HasNone, IsField};
ghost use Rattle.record_text.specs.Groups.{without_dots};

use hex::FromHexError;
use std::alloc::{AllocError, Global};
use text_words::{TextError, TextFault, Word};

/// A text without its dots.
fn without_dots(alloc: Global, text: &[u8]) -> Result<Vec<u8>, AllocError>
    ensures { IfOk result (λ digits. digits.items ≡ without_dots text.now) }
{
    let mut digits = Vec::new(alloc);
    for byte in text {
        if *byte != b'.' {
            digits.push(*byte)?;
        }
    }
    Ok(digits)
}

/// The bytes of digits with dots anywhere among them, behind `0x`.
fn octets_of(alloc: Global, word: &Word<'_>, digits: &[u8]) -> Result<Vec<u8>, TextError>
    ensures spelled { IfOk result (λ octets. decode_of (without_dots digits.now) ≡ Ok octets.items) }
    ensures refused { IfErr result
        (λ e. e ≢ Memory → HasNone (λ octets. decode_of (without_dots digits.now) ≡ Ok octets)) }
{
    let digits = without_dots(alloc, digits)?;
    match hex::decode(alloc, digits.as_slice()) {
        Ok(octets) => Ok(octets),
        Err(FromHexError::OutOfMemory) => Err(TextError::Memory),
        Err(_) => Err(word.fault(TextFault::BadHex)),
    }
}

/// Whether a text begins with `0x`, the letter in either case.
fn begins_so(text: &[u8]) -> bool
    ensures zero { result ≡ true → get_or text.now 0 0 ≡ 48 }
    ensures is_x { result ≡ true → (get_or text.now 1 0 ≡ 120) ⊎ (get_or text.now 1 0 ≡ 88) }
    ensures long { result ≡ true → 2 ≤ length text.now }
    ensures other { result ≡ false → get_or text.now 0 0 ≡ 48 → (get_or text.now 1 0 ≡ 120) ⊎
        (get_or text.now 1 0 ≡ 88) → ⊥ }
{
    text.len() >= 2 && text[0] == b'0' && (text[1] == b'x' || text[1] == b'X')
}

/// Puts an address of the OSI network layer behind other bytes: `0x`, and hexadecimal digits with dots anywhere among
/// them.
pub(crate) fn put_nsap(alloc: Global, word: &Word<'_>, data: &mut Vec<u8>) -> Result<(), TextError>
    ensures put { OnOk result ((origin : Option DomainName) →
        Puts (IsField origin field.Nsap word.now) «data».old.items «data».new.items) }
    ensures refused { IfErr result (λ e. e ≢ Memory → (origin : Option DomainName) →
        HasNone (IsField origin field.Nsap word.now)) }
{
    let bad = word.fault(TextFault::BadHex);
    if word.quoted || !begins_so(word.bytes) {
        return Err(bad);
    }
    let octets = octets_of(alloc, word, &word.bytes[2..])?;
    if octets.is_empty() {
        return Err(bad);
    }
    data.extend_from_slice(octets.as_slice())?;
    Ok(())
}
