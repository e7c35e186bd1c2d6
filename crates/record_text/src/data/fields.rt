//! Fields that one word stands for, as bytes.

ghost use Rattle.std.specs.Prelude.{◌≡◌, ◌≢◌, ◌<◌, ◌^◌, false, List, [], ◌∷◌, IfErr, IfOk, OnErr, OnOk, Option};
ghost use Rattle.std.specs.Option.{option_copied};
ghost use Rattle.std.specs.Net.Grammar.{IsIpv4Text, IsIpv6Text};
ghost use Rattle.wire_names.specs.rr.domain.DomainName.{DomainName};
ghost use Rattle.wire_messages.specs.rr.Addresses.{IsIpv6};
ghost use Rattle.record_text.specs.declared.data.field.Field.TheVariants as field;
ghost use Rattle.text_words.specs.declared.error.TextError.TheVariants.{Memory};
ghost use Rattle.text_words.specs.declared.words.Word.{Word};
ghost use Rattle.text_words.specs.Spelling.{Puts};
ghost use Rattle.record_text.specs.RecordText.{AreFieldsBefore, HasNone, IsField};
ghost use Rattle.text_words.specs.Spelling.{IsNumber};

use crate::data::field::Field;
use crate::data::hashes::{put_hash, put_salt};
use crate::data::hex_groups::{put_eui48, put_eui64, put_locator64};
use crate::data::mnemonics::{put_named8, put_named16};
use crate::data::moment::moment;
use crate::data::nsap::put_nsap;
use crate::data::table::type_of;
use crate::generic::byte_count;
use hickory_wire::Name;
use std::alloc::Global;
use std::net::{Ipv4Addr, Ipv6Addr};
use text_words::{
    TextError, TextFault, Word, absolute_name, fault_at, put_spelled, put_string, seconds_of,
};

/// The IPv4 address that a word is.
pub(crate) fn ipv4(word: &Word<'_>) -> Result<Ipv4Addr, TextError>
    ensures spelled { IfOk result (λ address. (word.now.quoted ≡ false) × IsIpv4Text word.now.bytes.now address) }
    ensures refused { OnErr result
        (HasNone (λ address. (word.now.quoted ≡ false) × IsIpv4Text word.now.bytes.now address)) }
{
    let bad = word.fault(TextFault::BadAddress);
    if word.quoted {
        return Err(bad);
    }
    match Ipv4Addr::parse_ascii(word.bytes) {
        Ok(address) => Ok(address),
        Err(_) => Err(bad),
    }
}

/// The IPv6 address that a word is.
pub(crate) fn ipv6(word: &Word<'_>) -> Result<Ipv6Addr, TextError>
    ensures range { IfOk result IsIpv6 }
    ensures spelled { IfOk result (λ address. (word.now.quoted ≡ false) × IsIpv6Text word.now.bytes.now address) }
    ensures refused { OnErr result
        (HasNone (λ address. (word.now.quoted ≡ false) × IsIpv6Text word.now.bytes.now address)) }
{
    let bad = word.fault(TextFault::BadAddress);
    if word.quoted {
        return Err(bad);
    }
    match Ipv6Addr::parse_ascii(word.bytes) {
        Ok(address) => {
            let len = byte_count(&address.octets());
            prove!(len == 16);
            Ok(address)
        }
        Err(_) => Err(bad),
    }
}

/// The number of 8 bits that a word is.
pub(crate) fn number8(word: &Word<'_>) -> Result<u8, TextError>
    ensures spelled { IfOk result (λ n. (word.now.quoted ≡ false) × IsNumber word.now.bytes.now n × (n < 2 ^ 8)) }
    ensures refused { OnErr result
        (HasNone (λ n. (word.now.quoted ≡ false) × IsNumber word.now.bytes.now n × (n < 2 ^ 8))) }
{
    let number = word.number()?;
    match u8::try_from(number) {
        Ok(number) => Ok(number),
        Err(_) => Err(word.fault(TextFault::NumberOutOfRange)),
    }
}

/// The number of 16 bits that a word is.
pub(crate) fn number16(word: &Word<'_>) -> Result<u16, TextError>
    ensures spelled { IfOk result (λ n. (word.now.quoted ≡ false) × IsNumber word.now.bytes.now n × (n < 2 ^ 16)) }
    ensures refused { OnErr result
        (HasNone (λ n. (word.now.quoted ≡ false) × IsNumber word.now.bytes.now n × (n < 2 ^ 16))) }
{
    let number = word.number()?;
    match u16::try_from(number) {
        Ok(number) => Ok(number),
        Err(_) => Err(word.fault(TextFault::NumberOutOfRange)),
    }
}

/// Puts a number of 8 bits behind other bytes.
pub(crate) fn put_number8(word: &Word<'_>, data: &mut Vec<u8>) -> Result<(), TextError>
    ensures put { OnOk result ((origin : Option DomainName) →
        Puts (IsField origin field.Number8 word.now) «data».old.items «data».new.items) }
    ensures refused { IfErr result (λ e. e ≢ Memory → (origin : Option DomainName) →
        HasNone (IsField origin field.Number8 word.now)) }
{
    let number = number8(word)?;
    data.push(number)?;
    Ok(())
}

/// Puts a number of 16 bits behind other bytes.
pub(crate) fn put_number16(word: &Word<'_>, data: &mut Vec<u8>) -> Result<(), TextError>
    ensures put { OnOk result ((origin : Option DomainName) →
        Puts (IsField origin field.Number16 word.now) «data».old.items «data».new.items) }
    ensures refused { IfErr result (λ e. e ≢ Memory → (origin : Option DomainName) →
        HasNone (IsField origin field.Number16 word.now)) }
{
    let number = number16(word)?;
    data.extend_from_slice(&number.to_be_bytes())?;
    Ok(())
}

fn put_number32(word: &Word<'_>, data: &mut Vec<u8>) -> Result<(), TextError>
    ensures put { OnOk result ((origin : Option DomainName) →
        Puts (IsField origin field.Number32 word.now) «data».old.items «data».new.items) }
    ensures refused { IfErr result (λ e. e ≢ Memory → (origin : Option DomainName) →
        HasNone (IsField origin field.Number32 word.now)) }
{
    let number = word.number()?;
    data.extend_from_slice(&number.to_be_bytes())?;
    Ok(())
}

fn put_time(word: &Word<'_>, data: &mut Vec<u8>) -> Result<(), TextError>
    ensures put { OnOk result ((origin : Option DomainName) →
        Puts (IsField origin field.Time word.now) «data».old.items «data».new.items) }
    ensures refused { IfErr result (λ e. e ≢ Memory → (origin : Option DomainName) →
        HasNone (IsField origin field.Time word.now)) }
{
    let seconds = seconds_of(word)?;
    data.extend_from_slice(&seconds.to_be_bytes())?;
    Ok(())
}

pub(crate) fn put_name(
    alloc: Global,
    word: &Word<'_>,
    origin: Option<&Name>,
    data: &mut Vec<u8>,
) -> Result<(), TextError>
    ensures put { OnOk result (Puts (IsField (option_copied origin.entry) field.Name word.now) «data».old.items
        «data».new.items) }
    ensures refused { IfErr result
        (λ e. e ≢ Memory → HasNone (IsField (option_copied origin.entry) field.Name word.now)) }
{
    let name = absolute_name(alloc, word, origin)?;
    data.extend_from_slice(name.as_wire())?;
    data.push(0)?;
    Ok(())
}

fn put_ipv4(word: &Word<'_>, data: &mut Vec<u8>) -> Result<(), TextError>
    ensures put { OnOk result ((origin : Option DomainName) →
        Puts (IsField origin field.Ipv4 word.now) «data».old.items «data».new.items) }
    ensures refused { IfErr result (λ e. e ≢ Memory → (origin : Option DomainName) →
        HasNone (IsField origin field.Ipv4 word.now)) }
{
    let address = ipv4(word)?;
    data.extend_from_slice(&address.octets())?;
    Ok(())
}

fn put_ipv6(word: &Word<'_>, data: &mut Vec<u8>) -> Result<(), TextError>
    ensures put { OnOk result ((origin : Option DomainName) →
        Puts (IsField origin field.Ipv6 word.now) «data».old.items «data».new.items) }
    ensures refused { IfErr result (λ e. e ≢ Memory → (origin : Option DomainName) →
        HasNone (IsField origin field.Ipv6 word.now)) }
{
    let address = ipv6(word)?;
    data.extend_from_slice(&address.octets())?;
    Ok(())
}

fn put_type(word: &Word<'_>, data: &mut Vec<u8>) -> Result<(), TextError>
    ensures put { OnOk result ((origin : Option DomainName) →
        Puts (IsField origin field.RecordType word.now) «data».old.items «data».new.items) }
    ensures refused { IfErr result (λ e. e ≢ Memory → (origin : Option DomainName) →
        HasNone (IsField origin field.RecordType word.now)) }
{
    let record_type = type_of(word)?;
    data.extend_from_slice(&record_type.value().to_be_bytes())?;
    Ok(())
}

fn put_moment(word: &Word<'_>, data: &mut Vec<u8>) -> Result<(), TextError>
    ensures put { OnOk result ((origin : Option DomainName) →
        Puts (IsField origin field.Moment word.now) «data».old.items «data».new.items) }
    ensures refused { IfErr result (λ e. e ≢ Memory → (origin : Option DomainName) →
        HasNone (IsField origin field.Moment word.now)) }
{
    let seconds = moment(word)?;
    data.extend_from_slice(&seconds.to_be_bytes())?;
    Ok(())
}

/// Asks whether a word is the dot that stands where there is no gateway, for no bytes.
fn no_gateway(word: &Word<'_>) -> Result<(), TextError>
    ensures dot { OnOk result ((word.now.quoted ≡ false) × (word.now.bytes.now ≡ 46 ∷ [])) }
    ensures refused { OnErr result ((word.now.quoted ≡ false) → (word.now.bytes.now ≡ 46 ∷ []) → ⊥) }
{
    let bad = word.fault(TextFault::BadName);
    if word.quoted {
        return Err(bad);
    }
    if word.bytes == b".".as_slice() {
        Ok(())
    } else {
        Err(bad)
    }
}

/// Puts the bytes of a field behind others.
pub(crate) fn put_field(
    alloc: Global,
    field: Field,
    word: &Word<'_>,
    origin: Option<&Name>,
    data: &mut Vec<u8>,
) -> Result<(), TextError>
    ensures put { OnOk result (Puts (IsField (option_copied origin.entry) field word.now) «data».old.items
        «data».new.items) }
    ensures refused { IfErr result (λ e. e ≢ Memory → HasNone (IsField (option_copied origin.entry) field word.now)) }
{
    match field {
        Field::Number8 => put_number8(word, data),
        Field::Number16 => put_number16(word, data),
        Field::Number32 => put_number32(word, data),
        Field::Named8(names) => put_named8(names, word, data),
        Field::Named16(names) => put_named16(names, word, data),
        Field::Time => put_time(word, data),
        Field::Name => put_name(alloc, word, origin, data),
        Field::String => put_string(word, data),
        Field::Text => put_spelled(word, data),
        Field::Ipv4 => put_ipv4(word, data),
        Field::Ipv6 => put_ipv6(word, data),
        Field::RecordType => put_type(word, data),
        Field::Moment => put_moment(word, data),
        Field::Salt => put_salt(alloc, word, data),
        Field::Hash => put_hash(alloc, word, data),
        Field::Eui48 => put_eui48(word, data),
        Field::Eui64 => put_eui64(word, data),
        Field::Locator64 => put_locator64(word, data),
        Field::NoGateway => no_gateway(word),
        Field::Nsap => put_nsap(alloc, word, data),
    }
}

/// Puts the bytes of fields behind others, and tells the words behind those that stand for them. `end` is the place
/// where a word is missing.
pub(crate) fn put_fields<'a, 'w>(
    alloc: Global,
    fields: &[Field],
    words: &'w [Word<'a>],
    end: usize,
    origin: Option<&Name>,
    data: &mut Vec<u8>,
) -> Result<&'w [Word<'a>], TextError>
    ensures put { IfOk result (λ behind.
        Puts (AreFieldsBefore (option_copied origin.entry) fields.now words.now behind.now) «data».old.items
        «data».new.items) }
    ensures refused { IfErr result (λ e. e ≢ Memory → (behind : List Word) →
        HasNone (AreFieldsBefore (option_copied origin.entry) fields.now words.now behind)) }
{
    let mut place = 0;
    for field in fields {
        let Some(word) = words.get(place) else {
            return Err(fault_at(end, TextFault::MissingField));
        };
        put_field(alloc, *field, word, origin, data)?;
        place += 1;
    }
    Ok(&words[place..])
}
