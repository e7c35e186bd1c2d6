//! The reply to a message whose header can be read and whose body cannot.

ghost use Rattle.std.specs.Prelude.{◌≡◌, ◌<◌, ◌≤◌, IfErr, IfOk, MatchOption, length};
ghost use Rattle.wire_messages.specs.serialize.layout.HeaderLayout.{HeaderAt};
ghost use Rattle.hickory_server.specs.server.FormErrors.{IsFormError, IsHeaderAlone};

use crate::server::answer::Answer;
use crate::server::serve::ServeError;
use crate::server::writing::{encoded_bare, error_metadata};
use hickory_wire::{Header, Items, Metadata, Octets, ResponseCode};
use std::alloc::{AllocError, Global};
use wire_reading::serialize::reading::decoder::BinDecoder;

/// How many bytes any client takes (RFC 1035 section 4.2.1).
const LEAST_LIMIT: u16 = 512;

/// The header of a message, unless the message is shorter than a header.
fn header_of(bytes: &[u8]) -> Option<Header>
    ensures { MatchOption result (length bytes.now < 12) (HeaderAt bytes.now) }
{
    let mut decoder = BinDecoder::new(bytes);
    match decoder.read_header() {
        Ok(header) => Some(header),
        Err(_) => None,
    }
}

/// The bytes of a message that is only this header.
fn header_alone(alloc: Global, metadata: Metadata) -> Result<Octets, AllocError>
    ensures { IfOk result (IsHeaderAlone metadata) }
{
    encoded_bare(alloc, metadata, &[], 0, None, LEAST_LIMIT)
}

/// FORMERR to a message. A message that is shorter than a header gets no reply.
fn replied(alloc: Global, bytes: &[u8]) -> Result<Answer, AllocError>
    ensures { 12 ≤ length bytes.now → IfOk result (IsFormError bytes.now) }
{
    let Some(header) = header_of(bytes) else {
        return Ok(Answer::Unreadable);
    };
    let metadata = error_metadata(&header.metadata, ResponseCode::FORM_ERR);
    let mut replies = Items::new(alloc);
    replies.push(header_alone(alloc, metadata)?)?;
    Ok(Answer::Replies(replies))
}

/// FORMERR to a message whose body cannot be read: a header with the identifier and the opcode of the message, and
/// nothing else.
///
/// # Errors
///
/// `Memory` says that there was no memory for the reply.
#[inline(never)]
pub fn form_error(alloc: Global, bytes: &[u8]) -> Result<Answer, ServeError>
    requires { 12 ≤ length bytes.now }
    ensures ok { IfOk result (IsFormError bytes.now) }
    ensures err { IfErr result (λ e. e ≡ ServeError.Memory) }
{
    match replied(alloc, bytes) {
        Ok(answer) => Ok(answer),
        Err(_) => Err(ServeError::Memory),
    }
}
