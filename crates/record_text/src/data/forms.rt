//! Data in the form of their type.

ghost use Rattle.std.specs.Prelude.{◌≡◌, ◌≢◌, ◌<◌, [], ◌∷◌, length, IfErr, IfOk};
ghost use Rattle.std.specs.Option.{option_copied};
ghost use Rattle.std.specs.List.{AllByRecursion, flat_map};
ghost use Rattle.wire_messages.specs.rr.RecordData.{character_string, type_of};
ghost use Rattle.wire_messages.specs.serialize.layout.FieldRanges.{IsInRange};
ghost use Rattle.wire_messages.specs.serialize.layout.RecordLayout.{IsFormed};
ghost use Rattle.wire_messages.specs.serialize.writing.FullForm.{data_octets};
ghost use Rattle.text_words.specs.declared.error.TextError.TheVariants.{Memory};
ghost use Rattle.text_words.specs.Spelling.{IsString};
ghost use Rattle.record_text.specs.RecordText.{AreOctetsOf, AreStrings, HasNone, IsData};

use crate::data::fields::{ipv4, ipv6, number16, put_fields};
use crate::data::rest::put_rest;
use crate::data::table::row_of;
use hickory_wire::{Boxed, Items, MX, Name, Octets, RData, RecordType, SOA};
use std::alloc::Global;
use text_words::{
    MAX_STRING_LEN, TextError, TextFault, Word, absolute_name, fault_at, read_string, seconds_of,
};

/// A mail exchange.
fn mail_exchange(
    alloc: Global,
    preference: &Word<'_>,
    exchange: &Word<'_>,
    origin: Option<&Name>,
) -> Result<RData, TextError>
    ensures form { IfOk result (λ rdata. type_of rdata ≡ 15) }
    ensures formed { IfOk result IsFormed }
    ensures spelled { IfOk result (λ rdata. IsData (option_copied origin.entry) 15 (preference.now ∷ exchange.now ∷ [])
        (data_octets rdata)) }
    ensures refused { IfErr result
        (λ e. e ≢ Memory → HasNone (IsData (option_copied origin.entry) 15 (preference.now ∷ exchange.now ∷ []))) }
{
    let preference = number16(preference)?;
    let exchange = absolute_name(alloc, exchange, origin)?;
    Ok(RData::MX(MX {
        preference,
        exchange,
    }))
}

/// The start of a zone: two names, a number and four times.
fn start_of_authority(
    alloc: Global,
    words: &[Word<'_>],
    origin: Option<&Name>,
) -> Result<RData, TextError>
    requires { length words.now ≡ 7 }
    ensures form { IfOk result (λ rdata. type_of rdata ≡ 6) }
    ensures formed { IfOk result IsFormed }
    ensures spelled { IfOk result (λ rdata. IsData (option_copied origin.entry) 6 words.now (data_octets rdata)) }
    ensures refused { IfErr result (λ e. e ≢ Memory → HasNone (IsData (option_copied origin.entry) 6 words.now)) }
{
    let mname = absolute_name(alloc, &words[0], origin)?;
    let rname = absolute_name(alloc, &words[1], origin)?;
    let serial = words[2].number()?;
    let refresh = seconds_of(&words[3])?;
    let retry = seconds_of(&words[4])?;
    let expire = seconds_of(&words[5])?;
    let minimum = seconds_of(&words[6])?;
    let soa = SOA {
        mname,
        rname,
        serial,
        refresh,
        retry,
        expire,
        minimum,
    };
    Ok(RData::SOA(Boxed::new(alloc, soa)?))
}

/// The character string of a word.
fn string(alloc: Global, word: &Word<'_>) -> Result<Octets, TextError>
    ensures short { IfOk result (λ bytes. length bytes < 256) }
    ensures spelled { IfOk result (λ bytes. IsString word.now (character_string bytes)) }
    ensures refused { IfErr result (λ e. e ≢ Memory → HasNone (IsString word.now)) }
{
    let mut bytes = [0; MAX_STRING_LEN];
    let len = read_string(word, &mut bytes)?;
    Ok(Octets::from_slice(alloc, &bytes[..len])?)
}

/// Character strings, one a word.
fn strings(alloc: Global, words: &[Word<'_>]) -> Result<Items<Octets>, TextError>
    ensures short { IfOk result (AllByRecursion (λ text. length text < 256)) }
    ensures spelled { IfOk result (λ strings. AreStrings words.now (flat_map character_string strings)) }
    ensures refused { IfErr result (λ e. e ≢ Memory → HasNone (AreStrings words.now)) }
{
    let mut strings = Items::new(alloc);
    for word in words {
        strings.push(string(alloc, word)?)?;
    }
    Ok(strings)
}

/// Data of a type that has no form of its own, as bytes, which may be none.
fn as_bytes(
    alloc: Global,
    record_type: RecordType,
    words: &[Word<'_>],
    end: usize,
    origin: Option<&Name>,
) -> Result<RData, TextError>
    ensures kept { IfOk result (AreOctetsOf record_type) }
    ensures range { IfOk result IsInRange }
    ensures spelled { IfOk result (λ rdata. IsData (option_copied origin.entry) record_type words.now
        (data_octets rdata)) }
    ensures refused { IfErr result
        (λ e. e ≢ Memory → HasNone (IsData (option_copied origin.entry) record_type words.now)) }
{
    let Some(row) = row_of(record_type.value()) else {
        let place = words.first().map_or(end, |word| word.start);
        return Err(fault_at(place, TextFault::NoTextForm));
    };
    let mut bytes = Vec::new(alloc);
    let behind = put_fields(alloc, row.fields, words, end, origin, &mut bytes)?;
    put_rest(alloc, row.rest, behind, end, origin, &mut bytes)?;
    if bytes.is_empty() {
        return Ok(RData::Update0(record_type));
    }
    Ok(RData::Unknown {
        code: record_type,
        bytes: Octets::from_vec(bytes),
    })
}

/// Data in the form of their type. Where they have not as many words as that, the table tells the first fault.
pub(crate) fn data_in_form(
    alloc: Global,
    record_type: RecordType,
    words: &[Word<'_>],
    end: usize,
    origin: Option<&Name>,
) -> Result<RData, TextError>
    ensures form { IfOk result (λ rdata. type_of rdata ≡ record_type) }
    ensures formed { IfOk result IsFormed }
    ensures spelled { IfOk result (λ rdata. IsData (option_copied origin.entry) record_type words.now
        (data_octets rdata)) }
    ensures refused { IfErr result
        (λ e. e ≢ Memory → HasNone (IsData (option_copied origin.entry) record_type words.now)) }
{
    match (record_type, words) {
        (RecordType::A, [word]) => Ok(RData::A(ipv4(word)?)),
        (RecordType::AAAA, [word]) => Ok(RData::AAAA(ipv6(word)?)),
        (RecordType::NS, [word]) => Ok(RData::NS(absolute_name(alloc, word, origin)?)),
        (RecordType::CNAME, [word]) => Ok(RData::CNAME(absolute_name(alloc, word, origin)?)),
        (RecordType::PTR, [word]) => Ok(RData::PTR(absolute_name(alloc, word, origin)?)),
        (RecordType::MX, [preference, exchange]) => {
            mail_exchange(alloc, preference, exchange, origin)
        }
        (RecordType::SOA, [_, _, _, _, _, _, _]) => start_of_authority(alloc, words, origin),
        (RecordType::TXT, [_, ..]) => Ok(RData::TXT(strings(alloc, words)?)),
        _ => as_bytes(alloc, record_type, words, end, origin),
    }
}
