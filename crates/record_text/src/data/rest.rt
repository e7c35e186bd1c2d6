//! What the words behind the fields stand for.

ghost use Rattle.std.specs.Prelude.{◌≡◌, ◌≢◌, IfErr, IfOk, OnOk};
ghost use Rattle.std.specs.Option.{option_copied};
ghost use Rattle.hex.specs.Hex.{decode_of};
ghost use Rattle.text_words.specs.declared.error.TextError.TheVariants.{Memory};
ghost use Rattle.text_words.specs.Spelling.{Puts};
ghost use Rattle.record_text.specs.RecordText.{AreStrings, ArePlain, HasNone, IsBase64, IsRest, bytes_of};

use crate::data::field::Rest;
use crate::data::gateway::put_gateway;
use crate::data::host_identity::put_host;
use crate::data::ports::put_ports;
use crate::data::prefixes::put_prefixes;
use crate::data::relay::put_relay;
use crate::data::types::{put_low_types, put_types};
use base64::DecodeAllocError;
use base64::engine::general_purpose::STANDARD;
use hex::FromHexError;
use hickory_wire::Name;
use std::alloc::Global;
use text_data::{put_location, put_parameters};
use text_words::{TextError, TextFault, Word, fault_at, put_string};

/// A fault of words together, at the first of them.
fn first_fault(words: &[Word<'_>], fault: TextFault) -> TextError {
    fault_at(words.first().map_or(0, |word| word.start), fault)
}

/// The bytes of words in no quotes, one behind the other.
pub(crate) fn joined(
    alloc: Global,
    words: &[Word<'_>],
    fault: TextFault,
) -> Result<Vec<u8>, TextError>
    ensures plain { OnOk result (ArePlain words.now) }
    ensures bytes { IfOk result (λ bytes. bytes.items ≡ bytes_of words.now) }
    ensures refused { IfErr result (λ e. e ≢ Memory → ¬ (ArePlain words.now)) }
{
    let mut bytes = Vec::new(alloc);
    for word in words {
        if word.quoted {
            return Err(word.fault(fault));
        }
        bytes.extend_from_slice(word.bytes)?;
    }
    Ok(bytes)
}

/// The bytes that hexadecimal digits are.
pub(crate) fn hex_bytes(alloc: Global, words: &[Word<'_>]) -> Result<Vec<u8>, TextError>
    ensures spelled { IfOk result (λ bytes. ArePlain words.now × (decode_of (bytes_of words.now) ≡ Ok bytes.items)) }
    ensures refused { IfErr result
        (λ e. e ≢ Memory → HasNone (λ octets. ArePlain words.now × (decode_of (bytes_of words.now) ≡ Ok octets))) }
{
    let digits = joined(alloc, words, TextFault::BadHex)?;
    match hex::decode(alloc, digits.as_slice()) {
        Ok(bytes) => Ok(bytes),
        Err(FromHexError::OutOfMemory) => Err(TextError::Memory),
        Err(_) => Err(first_fault(words, TextFault::BadHex)),
    }
}

/// Puts the bytes that hexadecimal digits are behind others.
fn put_hex(alloc: Global, words: &[Word<'_>], data: &mut Vec<u8>) -> Result<(), TextError>
    ensures put { OnOk result (ArePlain words.now ×
        Puts (λ octets. decode_of (bytes_of words.now) ≡ Ok octets) «data».old.items «data».new.items) }
    ensures refused { IfErr result
        (λ e. e ≢ Memory → HasNone (λ octets. ArePlain words.now × (decode_of (bytes_of words.now) ≡ Ok octets))) }
{
    let bytes = hex_bytes(alloc, words)?;
    data.extend_from_slice(bytes.as_slice())?;
    Ok(())
}

/// Puts the bytes behind others whose encoding in base 64 the words are. `end` is the place where a word is missing.
pub(crate) fn put_base64(
    alloc: Global,
    words: &[Word<'_>],
    end: usize,
    data: &mut Vec<u8>,
) -> Result<(), TextError>
    ensures put { OnOk result (Puts (IsBase64 words.now) «data».old.items «data».new.items) }
    ensures refused { IfErr result (λ e. e ≢ Memory → HasNone (IsBase64 words.now)) }
{
    if words.is_empty() {
        return Err(fault_at(end, TextFault::MissingField));
    }
    let text = joined(alloc, words, TextFault::BadBase64)?;
    match STANDARD.decode(alloc, text.as_slice()) {
        Ok(bytes) => {
            data.extend_from_slice(bytes.as_slice())?;
            Ok(())
        }
        Err(DecodeAllocError::OutOfMemory) => Err(TextError::Memory),
        Err(_) => Err(first_fault(words, TextFault::BadBase64)),
    }
}

/// Puts character strings behind others.
fn put_strings(words: &[Word<'_>], data: &mut Vec<u8>) -> Result<(), TextError>
    ensures put { OnOk result (Puts (AreStrings words.now) «data».old.items «data».new.items) }
    ensures refused { IfErr result (λ e. e ≢ Memory → HasNone (AreStrings words.now)) }
{
    for word in words {
        put_string(word, data)?;
    }
    Ok(())
}

/// Puts the bytes behind others that the words behind the fields stand for. `end` is the place where a word is missing.
pub(crate) fn put_rest(
    alloc: Global,
    rest: Rest,
    words: &[Word<'_>],
    end: usize,
    origin: Option<&Name>,
    data: &mut Vec<u8>,
) -> Result<(), TextError>
    ensures put { OnOk result (Puts (IsRest (option_copied origin.entry) rest words.now) «data».old.items
        «data».new.items) }
    ensures refused { IfErr result (λ e. e ≢ Memory → HasNone (IsRest (option_copied origin.entry) rest words.now)) }
{
    match (rest, words.first()) {
        (Rest::Nothing, None) => Ok(()),
        (Rest::Nothing, Some(word)) => Err(word.fault(TextFault::TooMuchText)),
        (Rest::Generic, Some(word)) => Err(word.fault(TextFault::NoTextForm)),
        (Rest::Types, _) => put_types(alloc, words, data),
        (Rest::ServiceParameters, _) => put_parameters(alloc, words, data),
        (Rest::Services, _) => put_ports(alloc, words, data),
        (Rest::Prefixes, _) => put_prefixes(alloc, words, data),
        (Rest::Gateway, _) => put_gateway(alloc, words, end, origin, data),
        (Rest::LowTypes, _) => put_low_types(alloc, words, data),
        (Rest::Location, _) => put_location(words, end, data),
        (Rest::Relay, _) => put_relay(alloc, words, end, origin, data),
        (Rest::HostIdentity, _) => put_host(alloc, words, end, origin, data),
        (Rest::Generic, None) => Err(fault_at(end, TextFault::MissingField)),
        (Rest::Strings, None) => Err(fault_at(end, TextFault::MissingField)),
        (Rest::Hex, None) => Err(fault_at(end, TextFault::MissingField)),
        (Rest::Strings, Some(_)) => put_strings(words, data),
        (Rest::Hex, Some(_)) => put_hex(alloc, words, data),
        (Rest::Base64, _) => put_base64(alloc, words, end, data),
    }
}
