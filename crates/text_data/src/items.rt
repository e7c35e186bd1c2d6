//! The items of lists (RFC 9460 appendix A.1).

ghost use Rattle.std.specs.Prelude.{◌≡◌, ◌≢◌, ◌≤◌, ◌<◌, ◌+◌, ◌-◌, ◌==◌, ◌&&◌, ◌||◌, ◌++◌, not, [], ◌∷◌, false, Some, None, length, drop, take, IfErr, IfOk, OnErr, OnOk};
ghost use Rattle.text_words.specs.declared.error.TextError.TheVariants.{Memory};
ghost use Rattle.text_words.specs.Spelling.{Puts};
ghost use Rattle.text_data.specs.declared.kinds.ItemKind.TheVariants as item;
ghost use Rattle.text_data.specs.ServiceText.{AreItems, HasNone, IsItem, item_bytes, list_items, own_byte};

use crate::kinds::ItemKind;
use std::alloc::{AllocError, Global};
use std::net::{Ipv4Addr, Ipv6Addr};
use text_words::{TextError, TextFault, Word};

/// Whether a byte of a list parts items.
fn ends_item(is_escaped: bool, byte: u8) -> bool
    ensures { result ≡ (not is_escaped && (byte == 44)) }
{
    !is_escaped && byte == b','
}

/// Whether a byte escapes the next.
fn escapes_next(is_escaped: bool, byte: u8) -> bool
    ensures { result ≡ (not is_escaped && (byte == 92)) }
{
    !is_escaped && byte == b'\\'
}

/// Whether a byte is escaped that may not be.
fn is_wrong(is_escaped: bool, byte: u8) -> bool
    ensures { result ≡ (is_escaped && not ((byte == 44) || (byte == 92))) }
{
    is_escaped && byte != b',' && byte != b'\\'
}

/// Puts the byte behind others that a byte of an item stands for, if it stands for one.
fn put_own(is_escaped: bool, byte: u8, bytes: &mut Vec<u8>) -> Result<(), AllocError>
    ensures { OnOk result (bytes.new.items ≡ bytes.old.items ++ own_byte is_escaped byte) }
{
    if escapes_next(is_escaped, byte) {
        return Ok(());
    }
    bytes.push(byte)?;
    Ok(())
}

/// Where an item of a list ends that begins here: before the next comma that no backslash escapes, or with the text.
pub(crate) fn item_end(text: &[u8], start: usize) -> usize
    requires { start ≤ length text.now }
    ensures on { start ≤ result }
    ensures within { result ≤ length text.now }
    ensures more { result < length text.now →
        list_items false (drop start text.now) ≡ take (result - start) (drop start text.now) ∷ list_items false
        (drop (result + 1) text.now) }
    ensures last { result ≡ length text.now →
        list_items false (drop start text.now) ≡ take (result - start) (drop start text.now) ∷ [] }
{
    let mut is_escaped = false;
    for end in start..text.len() {
        let byte = text[end];
        if ends_item(is_escaped, byte) {
            return end;
        }
        is_escaped = escapes_next(is_escaped, byte);
    }
    text.len()
}

/// The bytes of an item.
fn item_bytes(alloc: Global, word: &Word<'_>, text: &[u8]) -> Result<Vec<u8>, TextError>
    ensures bytes { IfOk result (λ bytes. item_bytes false text.now ≡ Some bytes.items) }
    ensures refused { IfErr result (λ e. e ≢ Memory → item_bytes false text.now ≡ None) }
{
    let bad = word.fault(TextFault::WrongData);
    let mut bytes = Vec::new(alloc);
    let mut is_escaped = false;
    for byte in text {
        if is_wrong(is_escaped, *byte) {
            return Err(bad);
        }
        put_own(is_escaped, *byte, &mut bytes)?;
        is_escaped = escapes_next(is_escaped, *byte);
    }
    if is_escaped {
        return Err(bad);
    }
    Ok(bytes)
}

/// Puts the identifier of a protocol behind other bytes: its length, and so many bytes.
fn put_protocol(
    alloc: Global,
    word: &Word<'_>,
    text: &[u8],
    octets: &mut Vec<u8>,
) -> Result<(), TextError>
    ensures put { OnOk result (Puts (IsItem item.Protocol text.now) octets.old.items octets.new.items) }
    ensures refused { IfErr result (λ e. e ≢ Memory → HasNone (IsItem item.Protocol text.now)) }
{
    let bytes = item_bytes(alloc, word, text)?;
    let len = bytes.len();
    if len == 0 {
        return Err(word.fault(TextFault::WrongData));
    }
    if len > 255 {
        return Err(word.fault(TextFault::StringTooLong));
    }
    octets.push(len as u8)?;
    octets.extend_from_slice(bytes.as_slice())?;
    Ok(())
}

/// Puts an IPv4 address behind other bytes.
fn put_ipv4(word: &Word<'_>, text: &[u8], octets: &mut Vec<u8>) -> Result<(), TextError>
    ensures put { OnOk result (Puts (IsItem item.Ipv4 text.now) octets.old.items octets.new.items) }
    ensures refused { IfErr result (λ e. e ≢ Memory → HasNone (IsItem item.Ipv4 text.now)) }
{
    match Ipv4Addr::parse_ascii(text) {
        Ok(address) => {
            octets.extend_from_slice(&address.octets())?;
            Ok(())
        }
        Err(_) => Err(word.fault(TextFault::BadAddress)),
    }
}

/// Puts an IPv6 address behind other bytes.
fn put_ipv6(word: &Word<'_>, text: &[u8], octets: &mut Vec<u8>) -> Result<(), TextError>
    ensures put { OnOk result (Puts (IsItem item.Ipv6 text.now) octets.old.items octets.new.items) }
    ensures refused { IfErr result (λ e. e ≢ Memory → HasNone (IsItem item.Ipv6 text.now)) }
{
    match Ipv6Addr::parse_ascii(text) {
        Ok(address) => {
            octets.extend_from_slice(&address.octets())?;
            Ok(())
        }
        Err(_) => Err(word.fault(TextFault::BadAddress)),
    }
}

/// Puts an item behind other bytes.
fn put_item(
    alloc: Global,
    kind: ItemKind,
    word: &Word<'_>,
    text: &[u8],
    octets: &mut Vec<u8>,
) -> Result<(), TextError>
    ensures put { OnOk result (Puts (IsItem kind text.now) octets.old.items octets.new.items) }
    ensures refused { IfErr result (λ e. e ≢ Memory → HasNone (IsItem kind text.now)) }
{
    match kind {
        ItemKind::Protocol => put_protocol(alloc, word, text, octets),
        ItemKind::Ipv4 => put_ipv4(word, text, octets),
        ItemKind::Ipv6 => put_ipv6(word, text, octets),
    }
}

/// What the items of a list stand for, one behind the other.
pub(crate) fn items(
    alloc: Global,
    kind: ItemKind,
    word: &Word<'_>,
    text: &[u8],
) -> Result<Vec<u8>, TextError>
    ensures are { IfOk result (λ octets. AreItems kind (list_items false text.now) octets.items) }
    ensures refused { IfErr result (λ e. e ≢ Memory → HasNone (AreItems kind (list_items false text.now))) }
{
    let mut octets = Vec::new(alloc);
    let mut place = 0;
    'items: loop {
        let end = item_end(text, place);
        put_item(alloc, kind, word, &text[place..end], &mut octets)?;
        if end == text.len() {
            return Ok(octets);
        }
        place = end + 1;
    }
}
