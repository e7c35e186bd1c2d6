//! Sets of types as bytes (RFC 4034 section 4.1.2).

ghost use Rattle.std.specs.Prelude.{◌≡◌, ◌==◌, ◌<◌, ◌≤◌, ◌+◌, ◌*◌, ◌^◌, ◌++◌, ◌≢◌, false, IfErr, IfOk, OnErr, OnOk};
ghost use Rattle.std.specs.List.{list_any};
ghost use Rattle.text_words.specs.declared.error.TextError.TheVariants.{Memory};
ghost use Rattle.text_words.specs.Spelling.{Puts};
ghost use Rattle.record_text.specs.RecordText.{AreLowTypes, AreTypes, HasNone, IsLowTypeSet, IsTypeSet, SpellsLowType};
ghost use Rattle.record_text.specs.TypeBitmaps.{bitmap, bitmap_len, bitmap_octet, type_bit, window_len, window_octets, windows};

use crate::data::fields::number16;
use crate::data::table::type_of;
use std::alloc::{AllocError, Global};
use text_words::{TextError, TextFault, Word};

/// Whether a type is among some.
fn has_type(types: &[u16], number: u16) -> bool
    ensures { result ≡ list_any (λ t. t == number) types.now }
{
    types.iter().any(|t| *t == number)
}

/// A bit of this weight where a type is among some.
fn type_bit(types: &[u16], number: u16, weight: u8) -> u8
    ensures value { result ≡ type_bit types.now number weight }
    ensures small { result ≤ weight }
{
    if has_type(types, number) { weight } else { 0 }
}

/// The byte of eight types, from this one on.
fn bitmap_octet(types: &[u16], first: u16) -> u8
    requires { first ≤ 65528 }
    ensures { result ≡ bitmap_octet types.now first }
{
    let high = type_bit(types, first, 128)
        + type_bit(types, first + 1, 64)
        + type_bit(types, first + 2, 32)
        + type_bit(types, first + 3, 16);
    let low = type_bit(types, first + 4, 8)
        + type_bit(types, first + 5, 4)
        + type_bit(types, first + 6, 2)
        + type_bit(types, first + 7, 1);
    high + low
}

/// How many bytes the bitmap of a window has.
fn window_len(types: &[u16], window: u16) -> u16
    ensures value { result ≡ window_len types.now window }
    ensures small { result ≤ 32 }
{
    let mut len = 0;
    for number in types {
        if *number / 256 == window {
            len = len.max(*number % 256 / 8 + 1);
        }
    }
    len
}

/// Puts bytes of a bitmap behind others, the first of them that of this type.
pub(crate) fn put_bitmap(
    types: &[u16],
    first: u16,
    len: u16,
    data: &mut Vec<u8>,
) -> Result<(), AllocError>
    requires { first + 8 * len ≤ 65536 }
    ensures { OnOk result («data».new.items ≡ «data».old.items ++ bitmap types.now first len) }
{
    for octet in 0..len {
        data.push(bitmap_octet(types, first + 8 * octet))?;
    }
    Ok(())
}

/// Puts a window behind others, where it has types.
fn put_window(types: &[u16], window: u16, data: &mut Vec<u8>) -> Result<(), AllocError>
    requires { window < 256 }
    ensures { OnOk result («data».new.items ≡ «data».old.items ++ window_octets types.now window) }
{
    let len = window_len(types, window);
    if len == 0 {
        return Ok(());
    }
    data.push(window as u8)?;
    data.push(len as u8)?;
    put_bitmap(types, 256 * window, len, data)
}

/// Puts the windows below one behind other bytes.
fn put_windows(types: &[u16], count: u16, data: &mut Vec<u8>) -> Result<(), AllocError>
    requires { count ≤ 256 }
    ensures { OnOk result («data».new.items ≡ «data».old.items ++ windows types.now count) }
{
    for window in 0..count {
        put_window(types, window, data)?;
    }
    Ok(())
}

/// The numbers of the types that words are.
fn numbers(alloc: Global, words: &[Word<'_>]) -> Result<Vec<u16>, TextError>
    ensures spelled { IfOk result (λ numbers. AreTypes words.now numbers.items) }
    ensures refused { IfErr result (λ e. e ≢ Memory → HasNone (AreTypes words.now)) }
{
    let mut numbers = Vec::new(alloc);
    for word in words {
        numbers.push(type_of(word)?.value())?;
    }
    Ok(numbers)
}

/// Puts the set of types that words are behind other bytes.
pub(crate) fn put_types(
    alloc: Global,
    words: &[Word<'_>],
    data: &mut Vec<u8>,
) -> Result<(), TextError>
    ensures put { OnOk result (Puts (IsTypeSet words.now) «data».old.items «data».new.items) }
    ensures refused { IfErr result (λ e. e ≢ Memory → HasNone (IsTypeSet words.now)) }
{
    let types = numbers(alloc, words)?;
    put_windows(types.as_slice(), 256, data)?;
    Ok(())
}

/// How many bytes a bitmap has that goes to the byte of the greatest of some numbers.
pub(crate) fn bitmap_len(numbers: &[u16]) -> u16
    ensures value { result ≡ bitmap_len numbers.now }
    ensures small { result ≤ 8192 }
{
    let mut len = 0;
    for number in numbers {
        len = len.max(*number / 8 + 1);
    }
    len
}

/// The number of the type that a word is, by its name or by the number alone.
fn type_or_number(word: &Word<'_>) -> Result<u16, TextError>
    ensures spelled { IfOk result (λ number. (word.now.quoted ≡ false) × SpellsLowType word.now.bytes.now number) }
    ensures refused { OnErr result
        (HasNone (λ number. (word.now.quoted ≡ false) × SpellsLowType word.now.bytes.now number × (number < 2 ^ 16))) }
{
    match type_of(word) {
        Ok(found) => Ok(found.value()),
        Err(unknown) => match number16(word) {
            Ok(number) => Ok(number),
            Err(_) => Err(unknown),
        },
    }
}

/// The number of a type from 1 to 127 that a word is.
fn low_type(word: &Word<'_>) -> Result<u16, TextError>
    ensures spelled { IfOk result (λ number. (word.now.quoted ≡ false) × SpellsLowType word.now.bytes.now number ×
        (0 < number) × (number < 128)) }
    ensures refused { OnErr result
        (HasNone (λ number. (word.now.quoted ≡ false) × SpellsLowType word.now.bytes.now number × (0 < number) ×
        (number < 128))) }
{
    let number = type_or_number(word)?;
    if number == 0 || number > 127 {
        return Err(word.fault(TextFault::NumberOutOfRange));
    }
    Ok(number)
}

/// The numbers of the types from 1 to 127 that words are.
fn low_types(alloc: Global, words: &[Word<'_>]) -> Result<Vec<u16>, TextError>
    ensures spelled { IfOk result (λ numbers. AreLowTypes words.now numbers.items) }
    ensures refused { IfErr result (λ e. e ≢ Memory → HasNone (AreLowTypes words.now)) }
{
    let mut numbers = Vec::new(alloc);
    for word in words {
        numbers.push(low_type(word)?)?;
    }
    Ok(numbers)
}

/// Puts the set of types from 1 to 127 that words are behind other bytes (RFC 2535 section 5.2).
pub(crate) fn put_low_types(
    alloc: Global,
    words: &[Word<'_>],
    data: &mut Vec<u8>,
) -> Result<(), TextError>
    ensures put { OnOk result (Puts (IsLowTypeSet words.now) «data».old.items «data».new.items) }
    ensures refused { IfErr result (λ e. e ≢ Memory → HasNone (IsLowTypeSet words.now)) }
{
    let types = low_types(alloc, words)?;
    put_bitmap(types.as_slice(), 0, bitmap_len(types.as_slice()), data)?;
    Ok(())
}
