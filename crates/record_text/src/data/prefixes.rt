//! Lists of address prefixes (RFC 3123).

ghost use Rattle.std.specs.Prelude.{if◌then◌else◌, ◌≡◌, ◌≢◌, ◌≤◌, ◌<◌, ◌+◌, ℕ, false, take, length, IfErr, IfOk, OnErr, OnOk};
ghost use Rattle.text_words.specs.declared.error.TextError.TheVariants.{Memory};
ghost use Rattle.text_words.specs.Spelling.{IsNoNumber, IsNumber, Puts};
ghost use Rattle.record_text.specs.RecordText.{HasNone};
ghost use Rattle.record_text.specs.Prefixes.{ArePrefixes, IsAddressOf, IsPrefixOf, SpellsPrefix, address_bits, is_negated, trimmed, without_mark};

use std::alloc::Global;
use std::net::{Ipv4Addr, Ipv6Addr};
use text_words::{TextError, TextFault, Word, cut_at, number_of_digits};

/// Whether `!` stands first, and what stands behind it.
fn without_mark(text: &[u8]) -> (bool, &[u8])
    ensures negated { result.0 ≡ is_negated text.now }
    ensures behind { result.1.now ≡ without_mark text.now }
{
    if text.is_empty() || text[0] != b'!' {
        return (false, text);
    }
    (true, &text[1..])
}

/// How many octets are left without those at the end that are 0, where the octets before a place leave so many, and the
/// one there counts too.
fn longer(octets: &[u8], place: usize, len: usize) -> usize
    requires place { place < length octets.now }
    requires before { take len octets.now ≡ trimmed (take place octets.now) }
    requires within { len ≤ place }
    ensures within { result ≤ place + 1 }
    ensures rest { take result octets.now ≡ trimmed (take (place + 1) octets.now) }
{
    if octets[place] == 0 {
        return len;
    }
    place + 1
}

/// How many octets are left without those at their end that are 0.
fn trimmed_len(octets: &[u8]) -> usize
    ensures within { result ≤ length octets.now }
    ensures rest { take result octets.now ≡ trimmed octets.now }
{
    let mut len = 0;
    for place in 0..octets.len() {
        len = longer(octets, place, len);
    }
    len
}

/// The octets of an IPv4 address.
fn ipv4_of(alloc: Global, text: &[u8], word: &Word<'_>) -> Result<Vec<u8>, TextError>
    ensures spelled { IfOk result (λ address. IsAddressOf 1 text.now address.items) }
    ensures small { IfOk result (λ address. length address.items ≤ 16) }
    ensures refused { IfErr result (λ e. e ≢ Memory → HasNone (IsAddressOf 1 text.now)) }
{
    match Ipv4Addr::parse_ascii(text) {
        Ok(address) => {
            let mut octets = Vec::new(alloc);
            octets.extend_from_slice(&address.octets())?;
            Ok(octets)
        }
        Err(_) => Err(word.fault(TextFault::BadAddress)),
    }
}

/// The octets of an IPv6 address.
fn ipv6_of(alloc: Global, text: &[u8], word: &Word<'_>) -> Result<Vec<u8>, TextError>
    ensures spelled { IfOk result (λ address. IsAddressOf 2 text.now address.items) }
    ensures small { IfOk result (λ address. length address.items ≤ 16) }
    ensures refused { IfErr result (λ e. e ≢ Memory → HasNone (IsAddressOf 2 text.now)) }
{
    match Ipv6Addr::parse_ascii(text) {
        Ok(address) => {
            let mut octets = Vec::new(alloc);
            octets.extend_from_slice(&address.octets())?;
            Ok(octets)
        }
        Err(_) => Err(word.fault(TextFault::BadAddress)),
    }
}

/// The octets of an address of a family.
fn address_of(
    alloc: Global,
    family: u32,
    text: &[u8],
    word: &Word<'_>,
) -> Result<Vec<u8>, TextError>
    ensures family { OnOk result (family ≤ 2) }
    ensures spelled { IfOk result (λ address. IsAddressOf family text.now address.items) }
    ensures small { IfOk result (λ address. length address.items ≤ 16) }
    ensures refused { IfErr result (λ e. e ≢ Memory → HasNone (IsAddressOf family text.now)) }
{
    match family {
        1 => ipv4_of(alloc, text, word),
        2 => ipv6_of(alloc, text, word),
        _ => Err(word.fault(TextFault::BadAddress)),
    }
}

/// The number of 32 bits that digits are.
fn number_of(digits: &[u8], word: &Word<'_>) -> Result<u32, TextError>
    ensures number { IfOk result (IsNumber digits.now) }
    ensures refused { OnErr result (IsNoNumber digits.now) }
{
    match number_of_digits(digits) {
        Some(number) => Ok(number),
        None => Err(word.fault(TextFault::BadAddress)),
    }
}

/// How many bits an address of a family has.
fn address_bits(family: u32) -> u32
    ensures value { result ≡ address_bits family }
    ensures small { result ≤ 128 }
{
    if family == 1 { 32 } else { 128 }
}

/// The parts of a prefix.
#[derive(Drop)]
struct Prefix {
    family: u32,
    bits: u32,
    address: Vec<u8>,
}

/// The parts of a prefix that a text is, behind `!`.
fn prefix_of(alloc: Global, text: &[u8], word: &Word<'_>) -> Result<Prefix, TextError>
    ensures spelled { IfOk result (λ p. IsPrefixOf text.now p.family p.bits p.address.items) }
    ensures family { IfOk result (λ p. p.family ≤ 2) }
    ensures bits { IfOk result (λ p. p.bits ≤ 128) }
    ensures small { IfOk result (λ p. length p.address.items ≤ 16) }
    ensures refused { IfErr result (λ e. e ≢ Memory → (family bits : ℕ) → HasNone (IsPrefixOf text.now family bits)) }
{
    let (family, behind) = cut_at(text, b':');
    let (address, bits) = cut_at(behind, b'/');
    let family = number_of(family, word)?;
    let address = address_of(alloc, family, address, word)?;
    let bits = number_of(bits, word)?;
    if bits > address_bits(family) {
        return Err(word.fault(TextFault::NumberOutOfRange));
    }
    Ok(Prefix {
        family,
        bits,
        address,
    })
}

/// So many octets that are told of an address, and 128 more where the prefix is negated.
fn told_len(is_negated: bool, len: usize) -> u8
    requires { len ≤ 16 }
    ensures { result ≡ len + (if is_negated then 128 else 0) }
{
    let len = len as u8;
    if is_negated { len + 128 } else { len }
}

/// Puts the prefix that a text is behind other bytes.
fn put_text(
    alloc: Global,
    text: &[u8],
    word: &Word<'_>,
    data: &mut Vec<u8>,
) -> Result<(), TextError>
    ensures put { OnOk result (Puts (SpellsPrefix text.now) «data».old.items «data».new.items) }
    ensures refused { IfErr result (λ e. e ≢ Memory → HasNone (SpellsPrefix text.now)) }
{
    let (is_negated, behind) = without_mark(text);
    let prefix = prefix_of(alloc, behind, word)?;
    let len = trimmed_len(prefix.address.as_slice());
    data.extend_from_slice(&(prefix.family as u16).to_be_bytes())?;
    data.push(prefix.bits as u8)?;
    data.push(told_len(is_negated, len))?;
    data.extend_from_slice(&prefix.address.as_slice()[..len])?;
    Ok(())
}

/// Puts a prefix that a word is behind other bytes.
fn put_prefix(alloc: Global, word: &Word<'_>, data: &mut Vec<u8>) -> Result<(), TextError>
    ensures plain { OnOk result (word.now.quoted ≡ false) }
    ensures put { OnOk result (Puts (SpellsPrefix word.now.bytes.now) «data».old.items «data».new.items) }
    ensures refused { IfErr result (λ e. e ≢ Memory → word.now.quoted ≡ false →
        HasNone (SpellsPrefix word.now.bytes.now)) }
{
    if word.quoted {
        return Err(word.fault(TextFault::BadAddress));
    }
    put_text(alloc, word.bytes, word, data)
}

/// Puts prefixes behind other bytes, one a word.
pub(crate) fn put_prefixes(
    alloc: Global,
    words: &[Word<'_>],
    data: &mut Vec<u8>,
) -> Result<(), TextError>
    ensures put { OnOk result (Puts (ArePrefixes words.now) «data».old.items «data».new.items) }
    ensures refused { IfErr result (λ e. e ≢ Memory → HasNone (ArePrefixes words.now)) }
{
    for word in words {
        put_prefix(alloc, word, data)?;
    }
    Ok(())
}
