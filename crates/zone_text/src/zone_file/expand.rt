//! Words with a number for their dollar signs, as a `$GENERATE` directive has them.

ghost use Rattle.std.specs.Prelude.{◌≡◌, ◌≢◌, ◌^◌, ◌<◌, ◌+◌, ◌++◌, ℕ, List, Some, None, length, IfErr, IfOk, MatchOption};
ghost use Rattle.record_text.specs.RecordText.{HasNone};
ghost use Rattle.zone_text.specs.Numbered.{IsNumbered, dollar, escaped, form_of, front_of, formed, part_before, part_behind};
ghost use Rattle.zone_text.specs.declared.zone_file.fault.EntryError.TheVariants.{Memory};

use crate::error::ZoneFileFault;
use crate::zone_file::fault::{EntryError, fault_of};
use crate::zone_file::number_form::form_of;
use crate::zone_file::number_range::parts;
use std::alloc::{AllocError, Global};
use std::format;
use text_words::Word;

/// Puts the number in the form that stands behind `${`, and tells what stands behind the `}`. `None` where that is no
/// form, or the number is none of 31 bits.
fn put_formed<'a>(
    alloc: Global,
    number: u32,
    text: &'a [u8],
    bytes: &mut Vec<u8>,
) -> Result<Option<&'a [u8]>, AllocError>
    requires { number < 2 ^ 31 }
    ensures put { IfOk result (λ found.
        MatchOption found (formed number (form_of (part_before 125 text.now)) (part_behind 125 text.now) ≡ None)
        (λ behind. (own : List ℕ) × (formed number (form_of (part_before 125 text.now))
        (part_behind 125 text.now) ≡ Some (own, behind.now)) × (bytes.new.items ≡ bytes.old.items ++ own) ×
        (length behind.now < length text.now))) }
{
    let (front, behind) = parts(text, b'}');
    let Some(form) = form_of(front) else {
        return Ok(None);
    };
    let Some(behind) = behind else {
        return Ok(None);
    };
    let Some(moved) = form.moved(number) else {
        return Ok(None);
    };
    form.put(alloc, moved, bytes)?;
    Ok(Some(behind))
}

/// Puts what a dollar sign stands for that stands before a text, and tells what stands behind.
fn put_dollar<'a>(
    alloc: Global,
    number: u32,
    text: &'a [u8],
    bytes: &mut Vec<u8>,
) -> Result<Option<&'a [u8]>, AllocError>
    requires { number < 2 ^ 31 }
    ensures put { IfOk result (λ found. MatchOption found (dollar number text.now ≡ None) (λ behind. (own : List ℕ) ×
        (dollar number text.now ≡ Some (own, behind.now)) × (bytes.new.items ≡ bytes.old.items ++ own) ×
        (length behind.now < length text.now + 1))) }
{
    match text {
        [b'$', behind @ ..] => {
            bytes.push(b'$')?;
            Ok(Some(behind))
        }
        [b'{', behind @ ..] => put_formed(alloc, number, behind, bytes),
        _ => {
            bytes.extend_from_slice(format!(in alloc; "{number}")?.as_bytes())?;
            Ok(Some(text))
        }
    }
}

/// Puts a backslash that stands before a text and the byte behind it, and tells what stands behind.
fn put_escaped<'a>(
    quoted: bool,
    text: &'a [u8],
    bytes: &mut Vec<u8>,
) -> Result<&'a [u8], AllocError>
    ensures put { IfOk result (λ behind. (own : List ℕ) × (escaped quoted text.now ≡ Some (own, behind.now)) ×
        (bytes.new.items ≡ bytes.old.items ++ own) × (length behind.now < length text.now + 1)) }
{
    match text {
        [] => {
            bytes.push(b'\\')?;
            Ok(text)
        }
        [byte, behind @ ..] => {
            if !quoted || *byte != b'"' {
                bytes.push(b'\\')?;
            }
            bytes.push(*byte)?;
            Ok(behind)
        }
    }
}

/// Puts what the front of a text stands for, and tells what stands behind. `None` where it stands for nothing.
fn put_front<'a>(
    alloc: Global,
    quoted: bool,
    number: u32,
    text: &'a [u8],
    bytes: &mut Vec<u8>,
) -> Result<Option<&'a [u8]>, AllocError>
    requires { number < 2 ^ 31 }
    ensures put { IfOk result (λ found. MatchOption found (front_of quoted number text.now ≡ None)
        (λ behind. (own : List ℕ) × (front_of quoted number text.now ≡ Some (own, behind.now)) ×
        (bytes.new.items ≡ bytes.old.items ++ own) × (length behind.now < length text.now))) }
{
    match text {
        [] => Ok(None),
        [b'$', behind @ ..] => put_dollar(alloc, number, behind, bytes),
        [b'\\', behind @ ..] => {
            let behind = put_escaped(quoted, behind, bytes)?;
            Ok(Some(behind))
        }
        [byte, behind @ ..] => {
            bytes.push(*byte)?;
            Ok(Some(behind))
        }
    }
}

/// The bytes of a field with a number for its dollar signs.
pub(crate) fn numbered(alloc: Global, word: &Word<'_>, number: u32) -> Result<Vec<u8>, EntryError>
    requires { number < 2 ^ 31 }
    ensures numbered { IfOk result (λ bytes. IsNumbered word.now.quoted number word.now.bytes.now bytes.items) }
    ensures refused { IfErr result (λ e. e ≢ Memory → HasNone (IsNumbered word.now.quoted number word.now.bytes.now)) }
{
    let mut bytes = Vec::new(alloc);
    let mut rest = word.bytes;
    'fronts: while !rest.is_empty() {
        let Some(behind) = put_front(alloc, word.quoted, number, rest, &mut bytes)? else {
            return Err(fault_of(word, ZoneFileFault::BadNumberForm));
        };
        rest = behind;
    }
    Ok(bytes)
}
