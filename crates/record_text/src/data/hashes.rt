//! Salts and hashes of names (RFC 5155 section 3.3).

ghost use Rattle.std.specs.Prelude.{◌≡◌, ◌≢◌, ◌<◌, ◌≤◌, ◌^◌, Option, IfErr, IfNone, IfOk, IfSome, OnOk};
ghost use Rattle.std.specs.Char.{digit_value};
ghost use Rattle.wire_names.specs.rr.domain.DomainName.{DomainName};
ghost use Rattle.record_text.specs.declared.data.field.Field.TheVariants as field;
ghost use Rattle.text_words.specs.declared.error.TextError.TheVariants.{Memory};
ghost use Rattle.text_words.specs.Spelling.{Puts};
ghost use Rattle.record_text.specs.RecordText.{HasNone, IsField};
ghost use Rattle.record_text.specs.Groups.{IsBase32, IsLastGroup, SpellsBase32, last_group};

use hex::FromHexError;
use std::alloc::Global;
use text_words::{TextError, TextFault, Word};

/// Puts a salt behind other bytes: its length, and so many bytes; `-` is none.
pub(crate) fn put_salt(alloc: Global, word: &Word<'_>, data: &mut Vec<u8>) -> Result<(), TextError>
    ensures put { OnOk result ((origin : Option DomainName) →
        Puts (IsField origin field.Salt word.now) «data».old.items «data».new.items) }
    ensures refused { IfErr result (λ e. e ≢ Memory → (origin : Option DomainName) →
        HasNone (IsField origin field.Salt word.now)) }
{
    if word.quoted {
        return Err(word.fault(TextFault::BadHex));
    }
    if word.bytes == b"-".as_slice() {
        data.push(0)?;
        return Ok(());
    }
    let salt = match hex::decode(alloc, word.bytes) {
        Ok(salt) => salt,
        Err(FromHexError::OutOfMemory) => return Err(TextError::Memory),
        Err(_) => return Err(word.fault(TextFault::BadHex)),
    };
    if salt.len() > 255 {
        return Err(word.fault(TextFault::StringTooLong));
    }
    data.push(salt.len() as u8)?;
    data.extend_from_slice(salt.as_slice())?;
    Ok(())
}

/// The value of a digit in base 32.
fn digit_of(digit: u8) -> Option<u8>
    ensures value { IfSome result (λ value. (digit_value digit ≡ value) × (value < 32)) }
    ensures none { IfNone result (32 ≤ digit_value digit) }
{
    match digit {
        b'0'..=b'9' => Some(digit - b'0'),
        b'A'..=b'V' => Some(digit - b'A' + 10),
        b'a'..=b'v' => Some(digit - b'a' + 10),
        _ => None,
    }
}

/// The number that digits in base 32 are.
fn number_of_group(digits: &[u8]) -> Option<u64>
    ensures value { IfSome result (IsBase32 digits.now) }
    ensures none { IfNone result (HasNone (λ n. IsBase32 digits.now n × (n < 2 ^ 64))) }
{
    let mut number = 0u64;
    for digit in digits {
        let value = digit_of(*digit)?;
        number = number.checked_mul(32)?.checked_add(u64::from(value))?;
    }
    Some(number)
}

/// How many bytes a last group of so many digits makes, and by how much its number is greater than the one that these
/// make.
fn last_group(count: usize) -> Option<(usize, u64)>
    ensures value { result ≡ last_group count }
    ensures few { IfSome result (λ last. last.0 ≤ 8) }
    ensures some { IfSome result (λ last. 0 < last.1) }
{
    match count {
        2 => Some((1, 4)),
        4 => Some((2, 16)),
        5 => Some((3, 2)),
        7 => Some((4, 8)),
        _ => None,
    }
}

/// Puts the bytes behind others that the digits behind whole groups are, if there are some.
fn put_last(digits: &[u8], bad: TextError, bytes: &mut Vec<u8>) -> Result<(), TextError>
    ensures put { OnOk result (Puts (IsLastGroup digits.now) bytes.old.items bytes.new.items) }
    ensures refused { IfErr result (λ e. e ≢ Memory → HasNone (IsLastGroup digits.now)) }
{
    if digits.is_empty() {
        return Ok(());
    }
    let (count, greater) = last_group(digits.len()).ok_or(bad)?;
    let number = number_of_group(digits).ok_or(bad)?;
    if number % greater != 0 {
        return Err(bad);
    }
    bytes.extend_from_slice(&(number / greater).to_be_bytes()[8 - count..])?;
    Ok(())
}

/// The bytes of a word in base 32, without padding: digits in groups of eight, and a last one of 2, 4, 5 or 7.
fn base32(alloc: Global, word: &Word<'_>) -> Result<Vec<u8>, TextError>
    ensures spelled { IfOk result (λ bytes. SpellsBase32 word.now.bytes.now bytes.items) }
    ensures refused { IfErr result (λ e. e ≢ Memory → HasNone (SpellsBase32 word.now.bytes.now)) }
{
    let bad = word.fault(TextFault::BadBase32);
    let text = word.bytes;
    let mut bytes = Vec::new(alloc);
    let mut place = 0;
    'groups: while text.len() - place >= 8 {
        let number = number_of_group(&text[place..place + 8]).ok_or(bad)?;
        bytes.extend_from_slice(&number.to_be_bytes()[3..])?;
        place += 8;
    }
    put_last(&text[place..], bad, &mut bytes)?;
    Ok(bytes)
}

/// Puts a hash behind other bytes: its length, and so many bytes.
pub(crate) fn put_hash(alloc: Global, word: &Word<'_>, data: &mut Vec<u8>) -> Result<(), TextError>
    ensures put { OnOk result ((origin : Option DomainName) →
        Puts (IsField origin field.Hash word.now) «data».old.items «data».new.items) }
    ensures refused { IfErr result (λ e. e ≢ Memory → (origin : Option DomainName) →
        HasNone (IsField origin field.Hash word.now)) }
{
    if word.quoted {
        return Err(word.fault(TextFault::BadBase32));
    }
    let hash = base32(alloc, word)?;
    if hash.len() > 255 {
        return Err(word.fault(TextFault::StringTooLong));
    }
    data.push(hash.len() as u8)?;
    data.extend_from_slice(hash.as_slice())?;
    Ok(())
}
