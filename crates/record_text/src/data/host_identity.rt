//! The identity of a host (RFC 8005).

ghost use Rattle.std.specs.Prelude.{◌≡◌, ◌≢◌, List, IfErr, IfOk, OnErr, OnOk};
ghost use Rattle.std.specs.Option.{option_copied};
ghost use Rattle.text_words.specs.declared.error.TextError.TheVariants.{Memory};
ghost use Rattle.record_text.specs.declared.data.field.Rest.TheVariants as rest;
ghost use Rattle.text_words.specs.Spelling.{Puts};
ghost use Rattle.record_text.specs.RecordText.{AreNames, HasNone, IsIdentity, IsKey, IsRest, IsTag};

use crate::data::fields::{number8, put_name};
use base64::DecodeAllocError;
use base64::engine::general_purpose::STANDARD;
use hex::FromHexError;
use hickory_wire::Name;
use std::alloc::Global;
use text_words::{TextError, TextFault, Word, fault_at};

/// The tag of a host: 1 to 255 bytes.
fn tag_of(alloc: Global, word: &Word<'_>) -> Result<Vec<u8>, TextError>
    ensures spelled { IfOk result (λ tag. IsTag word.now tag.items) }
    ensures refused { IfErr result (λ e. e ≢ Memory → HasNone (IsTag word.now)) }
{
    let bad = word.fault(TextFault::BadHex);
    if word.quoted {
        return Err(bad);
    }
    let tag = match hex::decode(alloc, word.bytes) {
        Ok(tag) => tag,
        Err(FromHexError::OutOfMemory) => return Err(TextError::Memory),
        Err(_) => return Err(bad),
    };
    if tag.is_empty() {
        return Err(bad);
    }
    if tag.len() > 255 {
        return Err(word.fault(TextFault::StringTooLong));
    }
    Ok(tag)
}

/// The key of a host: 1 to 65,535 bytes.
fn key_of(alloc: Global, word: &Word<'_>) -> Result<Vec<u8>, TextError>
    ensures spelled { IfOk result (λ key. IsKey word.now key.items) }
    ensures refused { IfErr result (λ e. e ≢ Memory → HasNone (IsKey word.now)) }
{
    let bad = word.fault(TextFault::BadBase64);
    if word.quoted {
        return Err(bad);
    }
    let key = match STANDARD.decode(alloc, word.bytes) {
        Ok(key) => key,
        Err(DecodeAllocError::OutOfMemory) => return Err(TextError::Memory),
        Err(_) => return Err(bad),
    };
    if key.is_empty() {
        return Err(bad);
    }
    if key.len() > 65_535 {
        return Err(word.fault(TextFault::DataTooLong));
    }
    Ok(key)
}

/// Puts names behind other bytes, one a word.
fn put_names(
    alloc: Global,
    words: &[Word<'_>],
    origin: Option<&Name>,
    data: &mut Vec<u8>,
) -> Result<(), TextError>
    ensures put { OnOk result (Puts (AreNames (option_copied origin.entry) words.now) «data».old.items
        «data».new.items) }
    ensures refused { IfErr result (λ e. e ≢ Memory → HasNone (AreNames (option_copied origin.entry) words.now)) }
{
    for word in words {
        put_name(alloc, word, origin, data)?;
    }
    Ok(())
}

/// Puts the identity of a host behind other bytes.
fn put_identity(
    alloc: Global,
    first: &Word<'_>,
    second: &Word<'_>,
    third: &Word<'_>,
    servers: &[Word<'_>],
    origin: Option<&Name>,
    data: &mut Vec<u8>,
) -> Result<(), TextError>
    ensures put { OnOk result (Puts (IsIdentity (option_copied origin.entry) first.now second.now third.now servers.now)
        «data».old.items «data».new.items) }
    ensures refused { IfErr result
        (λ e. e ≢ Memory → HasNone (IsIdentity (option_copied origin.entry) first.now second.now third.now
        servers.now)) }
{
    let algorithm = number8(first)?;
    let tag = tag_of(alloc, second)?;
    let key = key_of(alloc, third)?;
    data.push(tag.len() as u8)?;
    data.push(algorithm)?;
    data.extend_from_slice(&(key.len() as u16).to_be_bytes())?;
    data.extend_from_slice(tag.as_slice())?;
    data.extend_from_slice(key.as_slice())?;
    put_names(alloc, servers, origin, data)
}

/// Puts the identity of a host behind other bytes: an algorithm, a tag, a key, and names of servers. `end` is the place
/// where a word is missing.
pub(crate) fn put_host(
    alloc: Global,
    words: &[Word<'_>],
    end: usize,
    origin: Option<&Name>,
    data: &mut Vec<u8>,
) -> Result<(), TextError>
    ensures put { OnOk result (Puts (IsRest (option_copied origin.entry) rest.HostIdentity words.now) «data».old.items
        «data».new.items) }
    ensures refused { IfErr result
        (λ e. e ≢ Memory → HasNone (IsRest (option_copied origin.entry) rest.HostIdentity words.now)) }
{
    match words {
        [first, second, third, servers @ ..] => {
            put_identity(alloc, first, second, third, servers, origin, data)
        }
        _ => Err(fault_at(end, TextFault::MissingField)),
    }
}
