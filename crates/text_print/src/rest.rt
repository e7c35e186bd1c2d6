//! What stands behind the fields of data, printed behind text, with a space before each word.

ghost use Rattle.std.specs.Prelude.{◌≡◌, length, string_bytes, IfOk, IsTrue};
ghost use Rattle.text_print.specs.PrintedData.{IsPrintedRest, PutsWords};
ghost use Rattle.record_text.specs.declared.data.field.Rest.TheVariants.{Base64, Hex, Strings};

use crate::fields::put_string;
use base64::engine::general_purpose::STANDARD;
use record_text::Rest;
use std::alloc::{AllocError, Global};

/// Puts character strings, at least one.
fn put_strings(data: &[u8], out: &mut String) -> Result<bool, AllocError>
    ensures { IfOk result (λ is. IsTrue is →
        PutsWords (λ printed. IsPrintedRest Strings printed «data».now) (string_bytes out.old) (string_bytes out.new)) }
{
    let mut place = 0;
    'strings: while place < data.len() {
        let Some(len) = put_string(&data[place..], out)? else {
            return Ok(false);
        };
        place += len;
    }
    Ok(place > 0)
}

/// Puts bytes as hexadecimal digits, at least one byte.
fn put_hex(alloc: Global, data: &[u8], out: &mut String) -> Result<bool, AllocError>
    ensures { IfOk result (λ is. IsTrue is →
        PutsWords (λ printed. IsPrintedRest Hex printed «data».now) (string_bytes out.old) (string_bytes out.new)) }
{
    if data.is_empty() {
        return Ok(false);
    }
    let digits = hex::encode_upper(alloc, data)?;
    write!(out, " {digits}")?;
    Ok(true)
}

/// Puts bytes in base 64, at least one byte.
fn put_base64(data: &[u8], out: &mut String) -> Result<bool, AllocError>
    ensures { IfOk result (λ is. IsTrue is →
        PutsWords (λ printed. IsPrintedRest Base64 printed «data».now) (string_bytes out.old) (string_bytes out.new)) }
{
    if data.is_empty() {
        return Ok(false);
    }
    out.push_str(" ")?;
    STANDARD.encode_string(data, out)?;
    Ok(true)
}

/// Puts what stands behind the fields, and tells whether the data are of its kind. Other kinds are not printed, and
/// data that have them stand in the form that is one for all types.
pub(crate) fn put_rest(
    alloc: Global,
    rest: Rest,
    data: &[u8],
    out: &mut String,
) -> Result<bool, AllocError>
    ensures { IfOk result (λ is. IsTrue is →
        PutsWords (λ printed. IsPrintedRest rest printed «data».now) (string_bytes out.old) (string_bytes out.new)) }
{
    match rest {
        Rest::Nothing => Ok(data.is_empty()),
        Rest::Strings => put_strings(data, out),
        Rest::Hex => put_hex(alloc, data, out),
        Rest::Base64 => put_base64(data, out),
        _ => Ok(false),
    }
}
