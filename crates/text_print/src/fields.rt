//! The fields that data begin with, each printed as one word behind text, with a space before it.
//!
//! Each function tells how many bytes of the data the field takes, or `None` where they do not begin with one.

ghost use Rattle.std.specs.Prelude.{◌<◌, ◌≤◌, ◌^◌, [], ◌∷◌, length, string_bytes, IfOk, IfSome, IsTrue};
ghost use Rattle.std.specs.List.{AllByRecursion};
ghost use Rattle.std.specs.Int.{w16, w32, to_be_bytes};
ghost use Rattle.text_print.specs.PrintedData.{IsWordByte, PutsNumber, TakesField, TakesFields};
ghost use Rattle.record_text.specs.declared.data.field.Field.TheVariants.{Ipv4, Ipv6, Name, RecordType, String as StringField, Text};

use crate::text::{put_bare, put_label, put_number, put_quoted, put_type};
use record_text::Field;
use std::alloc::AllocError;
use std::net::{Ipv4Addr, Ipv6Addr};

/// The most bytes that a label has (RFC 1035 section 2.3.4).
const MAX_LABEL_LEN: usize = 63;

/// The most bytes that the labels of a name have, without its end byte (RFC 1035 section 2.3.4).
const MAX_LABELS_LEN: usize = 254;

/// Puts a number of 8 bits.
fn put_number8(data: &[u8], out: &mut String) -> Result<Option<usize>, AllocError>
    ensures { IfOk result (λ len. IfSome len
        (PutsNumber (λ n. n ∷ []) (2 ^ 8) «data».now (string_bytes out.old) (string_bytes out.new))) }
{
    let [number, ..] = data else {
        return Ok(None);
    };
    put_number(u32::from(*number), out)?;
    Ok(Some(1))
}

/// Puts a number of 16 bits.
fn put_number16(data: &[u8], out: &mut String) -> Result<Option<usize>, AllocError>
    ensures { IfOk result (λ len. IfSome len
        (PutsNumber (to_be_bytes w16) (2 ^ 16) «data».now (string_bytes out.old) (string_bytes out.new))) }
{
    let Some(octets) = data.first_chunk::<2>() else {
        return Ok(None);
    };
    put_number(u32::from(u16::from_be_bytes(*octets)), out)?;
    Ok(Some(2))
}

/// Puts a number of 32 bits.
fn put_number32(data: &[u8], out: &mut String) -> Result<Option<usize>, AllocError>
    ensures { IfOk result (λ len. IfSome len
        (PutsNumber (to_be_bytes w32) (2 ^ 32) «data».now (string_bytes out.old) (string_bytes out.new))) }
{
    let Some(octets) = data.first_chunk::<4>() else {
        return Ok(None);
    };
    put_number(u32::from_be_bytes(*octets), out)?;
    Ok(Some(4))
}

/// Puts a name in full: its labels with a dot behind each, or a dot alone.
fn put_name(data: &[u8], out: &mut String) -> Result<Option<usize>, AllocError>
    ensures { IfOk result (TakesField Name «data».now (string_bytes out.old) (string_bytes out.new)) }
{
    out.push_str(" ")?;
    let mut place = 0;
    'labels: while place < data.len() {
        let len = usize::from(data[place]);
        if len == 0 {
            if place == 0 {
                out.push_str(".")?;
            }
            return Ok(Some(place + 1));
        }
        if len > MAX_LABEL_LEN || len > data.len() - place - 1 || place + 1 + len > MAX_LABELS_LEN {
            return Ok(None);
        }
        let end = place + 1 + len;
        put_label(&data[place + 1..end], out)?;
        place = end;
    }
    Ok(None)
}

/// Puts a character string, in quotes.
pub(crate) fn put_string(data: &[u8], out: &mut String) -> Result<Option<usize>, AllocError>
    ensures some { IfOk result (λ len. IfSome len (λ n. 0 < n)) }
    ensures put { IfOk result (TakesField StringField «data».now (string_bytes out.old) (string_bytes out.new)) }
{
    let [len, behind @ ..] = data else {
        return Ok(None);
    };
    let len = usize::from(*len);
    if len > behind.len() {
        return Ok(None);
    }
    put_quoted(&behind[..len], out)?;
    Ok(Some(1 + len))
}

/// Whether a byte is a letter or a digit.
fn is_word_byte(byte: u8) -> bool
    ensures { IsTrue result → IsWordByte byte }
{
    matches!(byte, b'0'..=b'9' | b'A'..=b'Z' | b'a'..=b'z')
}

/// Whether bytes are letters and digits, at least one.
fn is_word(bytes: &[u8]) -> bool
    ensures some { IsTrue result → 0 < length bytes.now }
    ensures each { IsTrue result → AllByRecursion IsWordByte bytes.now }
{
    if bytes.is_empty() {
        return false;
    }
    for byte in bytes {
        if !is_word_byte(*byte) {
            return false;
        }
    }
    true
}

/// Puts a character string that is a field: in no quotes where it is of letters and digits, as the tag of a CAA record
/// stands (RFC 8659 section 4.1.1).
fn put_string_field(data: &[u8], out: &mut String) -> Result<Option<usize>, AllocError>
    ensures { IfOk result (TakesField StringField «data».now (string_bytes out.old) (string_bytes out.new)) }
{
    let [len, behind @ ..] = data else {
        return Ok(None);
    };
    let len = usize::from(*len);
    if len > behind.len() {
        return Ok(None);
    }
    if !is_word(&behind[..len]) {
        return put_string(data, out);
    }
    put_bare(&behind[..len], out)?;
    Ok(Some(1 + len))
}

/// Puts all bytes as text in quotes.
fn put_text(data: &[u8], out: &mut String) -> Result<Option<usize>, AllocError>
    ensures { IfOk result (TakesField Text «data».now (string_bytes out.old) (string_bytes out.new)) }
{
    put_quoted(data, out)?;
    Ok(Some(data.len()))
}

/// Puts an IPv4 address.
fn put_ipv4(data: &[u8], out: &mut String) -> Result<Option<usize>, AllocError>
    ensures { IfOk result (TakesField Ipv4 «data».now (string_bytes out.old) (string_bytes out.new)) }
{
    let Some(octets) = data.first_chunk::<4>() else {
        return Ok(None);
    };
    let address = Ipv4Addr::from(*octets);
    write!(out, " {address}")?;
    Ok(Some(4))
}

/// Puts an IPv6 address.
fn put_ipv6(data: &[u8], out: &mut String) -> Result<Option<usize>, AllocError>
    ensures { IfOk result (TakesField Ipv6 «data».now (string_bytes out.old) (string_bytes out.new)) }
{
    let Some(octets) = data.first_chunk::<16>() else {
        return Ok(None);
    };
    let address = Ipv6Addr::from(*octets);
    write!(out, " {address}")?;
    Ok(Some(16))
}

/// Puts a type.
fn put_record_type(data: &[u8], out: &mut String) -> Result<Option<usize>, AllocError>
    ensures { IfOk result (TakesField RecordType «data».now (string_bytes out.old) (string_bytes out.new)) }
{
    let Some(octets) = data.first_chunk::<2>() else {
        return Ok(None);
    };
    put_type(u16::from_be_bytes(*octets), out)?;
    Ok(Some(2))
}

/// Puts a field. Fields of the other kinds are not printed, and data that have them stand in the form that is one for
/// all types.
fn put_field(field: Field, data: &[u8], out: &mut String) -> Result<Option<usize>, AllocError>
    ensures { IfOk result (TakesField field «data».now (string_bytes out.old) (string_bytes out.new)) }
{
    match field {
        Field::Number8 => put_number8(data, out),
        Field::Named8(_) => put_number8(data, out),
        Field::Number16 => put_number16(data, out),
        Field::Named16(_) => put_number16(data, out),
        Field::Number32 => put_number32(data, out),
        Field::Time => put_number32(data, out),
        Field::Moment => put_number32(data, out),
        Field::Name => put_name(data, out),
        Field::String => put_string_field(data, out),
        Field::Text => put_text(data, out),
        Field::Ipv4 => put_ipv4(data, out),
        Field::Ipv6 => put_ipv6(data, out),
        Field::RecordType => put_record_type(data, out),
        _ => Ok(None),
    }
}

/// Puts fields, one behind the other.
pub(crate) fn put_fields(
    fields: &[Field],
    data: &[u8],
    out: &mut String,
) -> Result<Option<usize>, AllocError>
    ensures within { IfOk result (λ len. IfSome len (λ n. n ≤ length «data».now)) }
    ensures put { IfOk result (TakesFields fields.now «data».now (string_bytes out.old) (string_bytes out.new)) }
{
    let mut place = 0;
    for field in fields {
        let Some(len) = put_field(*field, &data[place..], out)? else {
            return Ok(None);
        };
        place += len;
    }
    Ok(Some(place))
}
