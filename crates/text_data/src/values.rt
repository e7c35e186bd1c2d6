//! The values of service parameters (RFC 9460 section 7).

ghost use Rattle.std.specs.Prelude.{◌≡◌, ◌≢◌, ◌<◌, ◌^◌, [], List, ℕ, IfErr, IfOk, OnErr};
ghost use Rattle.base64.specs.Engines.{standard};
ghost use Rattle.base64.specs.GeneralPurpose.{IsBytes, encode_of};
ghost use Rattle.text_words.specs.declared.error.TextError.TheVariants.{Memory};
ghost use Rattle.text_words.specs.Spelling.{IsNumber, Spells, any_byte};
ghost use Rattle.text_data.specs.declared.kinds.ValueKind.TheVariants as value;
ghost use Rattle.text_data.specs.ServiceText.{HasNone, IsValue};

use crate::items::items;
use crate::keys::{are_distinct, keys_in_order, listed_keys};
use crate::kinds::{ItemKind, ValueKind};
use base64::DecodeAllocError;
use base64::engine::general_purpose::STANDARD;
use std::alloc::Global;
use text_words::word_laws::words_spell_once;
use text_words::{TextError, TextFault, Word, number_of_digits, put_spelled};

/// A value: the keys that it says are mandatory, and its bytes.
#[derive(Drop)]
pub(crate) struct Value {
    pub(crate) listed: Vec<u16>,
    pub(crate) octets: Vec<u8>,
}

/// The bytes that a text within a word spells.
fn spelled(alloc: Global, word: &Word<'_>, text: &[u8]) -> Result<Vec<u8>, TextError>
    ensures spelled { IfOk result (λ bytes. Spells any_byte text.now bytes.items) }
    ensures refused { IfErr result (λ e. e ≢ Memory → HasNone (Spells any_byte text.now)) }
{
    let part = Word {
        bytes: text,
        start: word.start,
        quoted: false,
    };
    let mut bytes = Vec::new(alloc);
    match put_spelled(&part, &mut bytes) {
        Ok(()) => Ok(bytes),
        Err(TextError::Memory) => Err(TextError::Memory),
        Err(_) => Err(word.fault(TextFault::BadEscape)),
    }
}

/// A value that lists no keys.
fn without_keys(alloc: Global, octets: Vec<u8>) -> Value
    ensures listed { result.listed.items ≡ [] }
    ensures octets { result.octets.items ≡ octets.items }
{
    Value {
        listed: Vec::new(alloc),
        octets,
    }
}

/// The number of 16 bits that a text is.
fn number_of(word: &Word<'_>, text: &[u8]) -> Result<u16, TextError>
    ensures number { IfOk result (λ n. IsNumber text.now n × (n < 2 ^ 16)) }
    ensures refused { OnErr result (HasNone (λ n. IsNumber text.now n × (n < 2 ^ 16))) }
{
    let Some(number) = number_of_digits(text) else {
        return Err(word.fault(TextFault::BadNumber));
    };
    match u16::try_from(number) {
        Ok(number) => Ok(number),
        Err(_) => Err(word.fault(TextFault::NumberOutOfRange)),
    }
}

/// The bytes whose encoding in base 64 a text is.
fn decoded(alloc: Global, word: &Word<'_>, text: &[u8]) -> Result<Vec<u8>, TextError>
    ensures bytes { IfOk result (λ octets. IsBytes octets.items × (text.now ≡ encode_of standard octets.items)) }
    ensures refused { IfErr result
        (λ e. e ≢ Memory → HasNone (λ octets. IsBytes octets × (text.now ≡ encode_of standard octets))) }
{
    match STANDARD.decode(alloc, text) {
        Ok(octets) => Ok(octets),
        Err(DecodeAllocError::OutOfMemory) => Err(TextError::Memory),
        Err(_) => Err(word.fault(TextFault::BadBase64)),
    }
}

/// Keys that are mandatory.
fn keys(alloc: Global, word: &Word<'_>, text: &[u8]) -> Result<Value, TextError>
    ensures is { IfOk result (λ v. IsValue value.Keys text.now v.listed.items v.octets.items) }
    ensures refused { IfErr result (λ e. e ≢ Memory → (listed : List ℕ) →
        HasNone (IsValue value.Keys text.now listed)) }
{
    let listed = listed_keys(alloc, word, text)?;
    let is_set = are_distinct(listed.as_slice());
    if is_set {
        let octets = keys_in_order(alloc, listed.as_slice())?;
        return Ok(Value { listed, octets });
    }
    Err(word.fault(TextFault::WrongData))
}

/// Identifiers of protocols.
fn protocols(alloc: Global, word: &Word<'_>, text: &[u8]) -> Result<Value, TextError>
    ensures is { IfOk result (λ v. IsValue value.Protocols text.now v.listed.items v.octets.items) }
    ensures refused { IfErr result (λ e. e ≢ Memory → (listed : List ℕ) →
        HasNone (IsValue value.Protocols text.now listed)) }
{
    // What a text spells, it spells in one way.
    words_spell_once();
    let bytes = spelled(alloc, word, text)?;
    let octets = items(alloc, ItemKind::Protocol, word, bytes.as_slice())?;
    Ok(without_keys(alloc, octets))
}

/// No value.
fn nothing(alloc: Global, word: &Word<'_>, text: &[u8]) -> Result<Value, TextError>
    ensures is { IfOk result (λ v. IsValue value.Nothing text.now v.listed.items v.octets.items) }
    ensures refused { IfErr result (λ e. e ≢ Memory → (listed : List ℕ) →
        HasNone (IsValue value.Nothing text.now listed)) }
{
    let len = text.len();
    if len > 0 {
        return Err(word.fault(TextFault::WrongData));
    }
    Ok(without_keys(alloc, Vec::new(alloc)))
}

/// A number of 16 bits.
fn number16(alloc: Global, word: &Word<'_>, text: &[u8]) -> Result<Value, TextError>
    ensures is { IfOk result (λ v. IsValue value.Number16 text.now v.listed.items v.octets.items) }
    ensures refused { IfErr result (λ e. e ≢ Memory → (listed : List ℕ) →
        HasNone (IsValue value.Number16 text.now listed)) }
{
    let number = number_of(word, text)?;
    let octets = Vec::from_slice(alloc, &number.to_be_bytes())?;
    Ok(without_keys(alloc, octets))
}

/// IPv4 addresses.
fn ipv4(alloc: Global, word: &Word<'_>, text: &[u8]) -> Result<Value, TextError>
    ensures is { IfOk result (λ v. IsValue value.Ipv4 text.now v.listed.items v.octets.items) }
    ensures refused { IfErr result (λ e. e ≢ Memory → (listed : List ℕ) →
        HasNone (IsValue value.Ipv4 text.now listed)) }
{
    let octets = items(alloc, ItemKind::Ipv4, word, text)?;
    Ok(without_keys(alloc, octets))
}

/// Bytes in base 64.
fn base64(alloc: Global, word: &Word<'_>, text: &[u8]) -> Result<Value, TextError>
    ensures is { IfOk result (λ v. IsValue value.Base64 text.now v.listed.items v.octets.items) }
    ensures refused { IfErr result (λ e. e ≢ Memory → (listed : List ℕ) →
        HasNone (IsValue value.Base64 text.now listed)) }
{
    let octets = decoded(alloc, word, text)?;
    Ok(without_keys(alloc, octets))
}

/// IPv6 addresses.
fn ipv6(alloc: Global, word: &Word<'_>, text: &[u8]) -> Result<Value, TextError>
    ensures is { IfOk result (λ v. IsValue value.Ipv6 text.now v.listed.items v.octets.items) }
    ensures refused { IfErr result (λ e. e ≢ Memory → (listed : List ℕ) →
        HasNone (IsValue value.Ipv6 text.now listed)) }
{
    let octets = items(alloc, ItemKind::Ipv6, word, text)?;
    Ok(without_keys(alloc, octets))
}

/// Bytes, at least one.
fn some_bytes(alloc: Global, word: &Word<'_>, text: &[u8]) -> Result<Value, TextError>
    ensures is { IfOk result (λ v. IsValue value.Text text.now v.listed.items v.octets.items) }
    ensures refused { IfErr result (λ e. e ≢ Memory → (listed : List ℕ) →
        HasNone (IsValue value.Text text.now listed)) }
{
    // What a text spells, it spells in one way.
    words_spell_once();
    let octets = spelled(alloc, word, text)?;
    let len = octets.len();
    if len > 0 {
        return Ok(without_keys(alloc, octets));
    }
    Err(word.fault(TextFault::WrongData))
}

/// Bytes.
fn any_bytes(alloc: Global, word: &Word<'_>, text: &[u8]) -> Result<Value, TextError>
    ensures is { IfOk result (λ v. IsValue value.Bytes text.now v.listed.items v.octets.items) }
    ensures refused { IfErr result (λ e. e ≢ Memory → (listed : List ℕ) →
        HasNone (IsValue value.Bytes text.now listed)) }
{
    let octets = spelled(alloc, word, text)?;
    Ok(without_keys(alloc, octets))
}

/// The value that a text is.
pub(crate) fn value_of(
    alloc: Global,
    kind: ValueKind,
    word: &Word<'_>,
    text: &[u8],
) -> Result<Value, TextError>
    ensures is { IfOk result (λ v. IsValue kind text.now v.listed.items v.octets.items) }
    ensures refused { IfErr result (λ e. e ≢ Memory → (listed : List ℕ) → HasNone (IsValue kind text.now listed)) }
{
    match kind {
        ValueKind::Keys => keys(alloc, word, text),
        ValueKind::Protocols => protocols(alloc, word, text),
        ValueKind::Nothing => nothing(alloc, word, text),
        ValueKind::Number16 => number16(alloc, word, text),
        ValueKind::Ipv4 => ipv4(alloc, word, text),
        ValueKind::Base64 => base64(alloc, word, text),
        ValueKind::Ipv6 => ipv6(alloc, word, text),
        ValueKind::Text => some_bytes(alloc, word, text),
        ValueKind::Bytes => any_bytes(alloc, word, text),
    }
}
