//! A line for a query.

ghost use Rattle.std.specs.Prelude.{◌≡◌, ◌≤◌, ◌<◌, ◌++◌, IfOk, OnOk, drop, get_or, length, string_bytes};
ghost use Rattle.std.specs.Fmt.{decimal};
ghost use Rattle.std.specs.Net.Text.{ip_text};
ghost use Rattle.server_reports.specs.QueryLines.{back_text, code_text, front_text, number_at, query_line, question_text, reply_code, spaced};

use crate::names::put_name;
use crate::words::{class_text, code_text, transport_text, type_text};
use std::alloc::{AllocError, Global};
use std::net::IpAddr;

/// The byte at a place, 0 where there is none.
fn byte_at(bytes: &[u8], place: usize) -> u8
    ensures { result ≡ get_or bytes.now place 0 }
{
    if place < bytes.len() { bytes[place] } else { 0 }
}

/// The number of 16 bits at a place.
fn number_at(bytes: &[u8], place: usize) -> u16
    requires { place < 18446744073709551615 }
    ensures { result ≡ number_at bytes.now place }
{
    256 * u16::from(byte_at(bytes, place)) + u16::from(byte_at(bytes, place + 1))
}

/// Two words with a blank between.
fn spaced(alloc: Global, a: &str, b: &str) -> Result<String, AllocError>
    ensures { IfOk result (λ text. string_bytes text ≡ spaced a.now b.now) }
{
    let mut text = String::from_str(alloc, a)?;
    text.push_str(" ")?;
    text.push_str(b)?;
    Ok(text)
}

/// An address.
fn address_text(alloc: Global, address: IpAddr) -> Result<String, AllocError>
    ensures { IfOk result (λ text. string_bytes text ≡ ip_text address) }
{
    format!(in alloc; "{address}")
}

/// A number.
fn number_text(alloc: Global, number: u64) -> Result<String, AllocError>
    ensures { IfOk result (λ text. string_bytes text ≡ decimal number) }
{
    format!(in alloc; "{number}")
}

/// When a query came, and from where; what stands before the name.
fn front_text(alloc: Global, now: u64, address: IpAddr, stream: bool) -> Result<String, AllocError>
    ensures { IfOk result (λ text. string_bytes text ≡ front_text now address stream) }
{
    let time = number_text(alloc, now)?;
    let address = address_text(alloc, address)?;
    let from = spaced(alloc, address.as_str(), transport_text(stream))?;
    let both = spaced(alloc, time.as_str(), from.as_str())?;
    spaced(alloc, both.as_str(), "")
}

/// The class and the type behind a name that takes so many bytes.
fn question_text(alloc: Global, body: &[u8], len: usize) -> Result<String, AllocError>
    requires { len ≤ length body.now }
    ensures { IfOk result (λ text. string_bytes text ≡ question_text body.now len) }
{
    let kind = type_text(alloc, number_at(body, len))?;
    let class = class_text(alloc, number_at(body, len + 2))?;
    spaced(alloc, class.as_str(), kind.as_str())
}

/// The code of a reply, and a number.
fn outcome_text(alloc: Global, reply: &[u8], size: usize) -> Result<String, AllocError>
    ensures { IfOk result (λ text. string_bytes text ≡ spaced (code_text (reply_code reply.now)) (decimal size)) }
{
    let code = code_text(alloc, byte_at(reply, 3) % 16)?;
    let size = number_text(alloc, size as u64)?;
    spaced(alloc, code.as_str(), size.as_str())
}

/// What stands behind the name, which takes so many bytes.
fn back_text(
    alloc: Global,
    body: &[u8],
    len: usize,
    reply: &[u8],
    size: usize,
) -> Result<String, AllocError>
    requires { len ≤ length body.now }
    ensures { IfOk result (λ text. string_bytes text ≡ back_text body.now len reply.now size) }
{
    let question = question_text(alloc, body, len)?;
    let outcome = outcome_text(alloc, reply, size)?;
    let both = spaced(alloc, question.as_str(), outcome.as_str())?;
    spaced(alloc, "", both.as_str())
}

/// What stands behind the header of a message.
fn body_of(message: &[u8]) -> &[u8]
    ensures { result.now ≡ drop 12 message.now }
{
    match message {
        [_, _, _, _, _, _, _, _, _, _, _, _, body @ ..] => body,
        _ => &[],
    }
}

/// Puts a line last that tells a query, which came at a moment (seconds since 1970) from an address over a stream or as
/// a datagram, by its first question, and a reply to it by its code and a number of bytes. After an error a part of the
/// line may have been put, without its end.
pub fn put_query_line(
    alloc: Global,
    now: u64,
    address: IpAddr,
    stream: bool,
    query: &[u8],
    reply: &[u8],
    size: usize,
    line: &mut Vec<u8>,
) -> Result<(), AllocError>
    ensures { OnOk result (line.new.items ≡ line.old.items ++ query_line now address stream query.now reply.now size) }
{
    let front = front_text(alloc, now, address, stream)?;
    line.extend_from_slice(front.as_bytes())?;
    let body = body_of(query);
    let len = put_name(body, line)?;
    let back = back_text(alloc, body, len, reply, size)?;
    line.extend_from_slice(back.as_bytes())?;
    line.push(b'\n')?;
    Ok(())
}
