//! Messages and what becomes of them, as lines of text.

ghost use Rattle.std.specs.Prelude.{◌≡◌, ◌++◌, ◌∷◌, [], IfOk, IfSome, Ok};
ghost use Rattle.hex.specs.Hex.{decode_of};
ghost use Rattle.wire_names.specs.HexLines.{hex_lines};
ghost use Rattle.zone_serve.specs.Lines.{AreWords, IsLineOf, IsTransport, answer_lines};
ghost use Rattle.zone_serve.specs.Peers.{IsPeerText};

use crate::peer;
use hickory_server::proto::{Octets, Protocol};
use hickory_server::server::Answer;
use std::alloc::{AllocError, Global};
use std::net::IpAddr;
use std::str;
use wire_names::hex_lines::{bytes_of, lines_of};

/// A message as a line has it.
#[derive(Drop)]
pub struct LineMessage {
    /// The transport that it came over.
    pub protocol: Protocol,
    /// The address that it came from.
    pub address: IpAddr,
    /// Its bytes.
    pub bytes: Vec<u8>,
}

/// The answer to a line that is no message.
pub const BAD_LINE: &[u8] = b"bad line\n";

/// The transport of this name.
fn transport_named(name: &str) -> Option<Protocol>
    ensures { IfSome result (IsTransport name.now) }
{
    match name {
        "udp" => Some(Protocol::Udp),
        "tcp" => Some(Protocol::Tcp),
        _ => None,
    }
}

/// The words of a text that has three.
fn three_words(text: &str) -> Option<(&str, &str, &str)>
    ensures { IfSome result (λ words. AreWords text.now words.0.now words.1.now words.2.now) }
{
    let mut words = text.split_ascii_whitespace();
    let first = words.next()?;
    let second = words.next()?;
    let third = words.next()?;
    match words.next() {
        None => Some((first, second, third)),
        Some(_) => None,
    }
}

/// The message of these three words.
fn message_of(
    alloc: Global,
    transport: &str,
    address: &str,
    digits: &str,
) -> Result<Option<LineMessage>, AllocError>
    ensures { IfOk result (λ message. IfSome message (λ it. IsTransport transport.now it.protocol ×
        IsPeerText address.now it.address × (decode_of digits.now ≡ Ok it.bytes.items))) }
{
    let (Some(protocol), Some(address)) = (transport_named(transport), peer::address(address))
    else {
        return Ok(None);
    };
    match bytes_of(alloc, digits.as_bytes())? {
        None => Ok(None),
        Some(bytes) => Ok(Some(LineMessage {
            protocol,
            address,
            bytes,
        })),
    }
}

/// The message that a line has, or `None` if it has none: `udp` or `tcp`, the address that the message came
/// from, and its bytes in hex digits, with blanks between them.
pub fn read_line(alloc: Global, line: &[u8]) -> Result<Option<LineMessage>, AllocError>
    ensures { IfOk result (λ message. IfSome message (IsLineOf line.now)) }
{
    let Ok(text) = str::from_utf8(line) else {
        return Ok(None);
    };
    let Some((transport, address, digits)) = three_words(text) else {
        return Ok(None);
    };
    message_of(alloc, transport, address, digits)
}

/// A line of hex digits for each of some replies, and an empty one.
fn reply_lines(alloc: Global, replies: &[Octets]) -> Result<Vec<u8>, AllocError>
    ensures { IfOk result (λ lines. lines.items ≡ hex_lines replies.now ++ 10 ∷ []) }
{
    let mut lines = lines_of(alloc, replies)?;
    lines.push(b'\n')?;
    Ok(lines)
}

/// The lines that say what became of a message: a line of hex digits for each reply and an empty one, or a word.
pub fn answer_lines(alloc: Global, answer: &Answer) -> Result<Vec<u8>, AllocError>
    ensures { IfOk result (λ lines. lines.items ≡ answer_lines answer.now) }
{
    match answer {
        Answer::Denied => b"denied\n".to_vec(alloc),
        Answer::Response => b"response\n".to_vec(alloc),
        Answer::Unreadable => b"unreadable\n".to_vec(alloc),
        Answer::Replies(replies) => reply_lines(alloc, replies.as_slice()),
    }
}
