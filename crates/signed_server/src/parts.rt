//! The messages of a signed reply over a stream, each with room for its TSIG record.

ghost use Rattle.std.specs.Prelude.{◌≡◌, ◌↔◌, ◌++◌, List, ℕ, Contains, IfOk, IsTrue, MatchOption, false};
ghost use Rattle.signed_server.specs.SharedReplies.{AreParts, AreSharedOut, CannotBeSent, Fits, FitsUncut, HasNoParts, HasNoRoom, HasOnlyAnswers, IsEncoding, IsInParts, IsPart, IsSharedOut, LacksRoom, has_tc};

use hickory_base::message_request::MessageRequest;
use hickory_base::server::Request;
use hickory_server::server::rules::asks_for_transfer;
use hickory_server::server::writing::{Contents, encoded};
use hickory_wire::{Octets, ProtoError, Protocol, Record};
use std::alloc::{AllocError, Global};
use tsig::has_room;

/// How many bytes the header of a message has (RFC 1035 section 4.1.1).
const HEADER_LEN: usize = 12;

/// Whether a message has room for its TSIG record.
pub(crate) fn fits(message: &Octets, limit: u16) -> bool
    ensures { IsTrue result ↔ Fits limit message.now }
{
    message.len() <= usize::from(limit) && has_room(message.as_slice())
}

/// Whether a message has TC (RFC 1035 section 4.1.1).
fn has_tc(message: &[u8]) -> bool
    ensures { result ≡ has_tc message.now }
{
    match message.get(2) {
        Some(flags) => *flags / 2 % 2 == 1,
        None => false,
    }
}

/// Whether a message has room for its TSIG record, and no TC.
fn fits_uncut(message: &Octets, limit: u16) -> bool
    ensures { IsTrue result ↔ FitsUncut limit message.now }
{
    fits(message, limit) && !has_tc(message.as_slice())
}

/// The bytes of a message of these answers, with the header, the questions and the OPT record of another message, as
/// far as there is room.
fn with_answers<'x>(
    alloc: Global,
    message: &'x MessageRequest,
    answers: &'x [Record],
    limit: u16,
) -> Result<Octets, AllocError>
    ensures { IfOk result (IsEncoding limit message.now answers.now) }
{
    let count = message.queries.len() as u16;
    let edns = message.edns.as_ref();
    let contents = Contents {
        metadata: message.metadata,
        question: message.queries.as_bytes(),
        question_count: count,
        edns,
        answers,
        authorities: &[],
        soa: &[],
        additionals: &[],
        signature: None,
    };
    encoded(alloc, &contents, limit)
}

/// The bytes of a message of all these answers, if there is room for them.
fn part(
    alloc: Global,
    message: &MessageRequest,
    answers: &[Record],
    limit: u16,
) -> Result<Option<Octets>, AllocError>
    ensures { IfOk result (λ made.
        MatchOption made (HasNoRoom limit message.now answers.now) (IsPart limit message.now answers.now)) }
{
    let bytes = with_answers(alloc, message, answers, limit)?;
    if bytes.len() > HEADER_LEN && fits_uncut(&bytes, limit) {
        Ok(Some(bytes))
    } else {
        Ok(None)
    }
}

/// Appends messages of these answers: one message, or those of the first half and those of the second. The result is
/// false if there is no room for one of the answers.
fn put_parts(
    alloc: Global,
    message: &MessageRequest,
    answers: &[Record],
    limit: u16,
    out: &mut Vec<Octets>,
) -> Result<bool, AllocError>
    ensures put { IfOk result (λ done. IsTrue done → (parts : List (List ℕ)) ×
        AreParts limit message.now answers.now parts × (out.new.items ≡ out.old.items ++ parts)) }
    ensures lacking { IfOk result (λ done. done ≡ false → LacksRoom limit message.now answers.now) }
{
    if let Some(bytes) = part(alloc, message, answers, limit)? {
        out.push(bytes)?;
        return Ok(true);
    }
    if answers.len() < 2 {
        return Ok(false);
    }
    let (front, back) = answers.split_at(answers.len() / 2);
    if !put_parts(alloc, message, front, limit, out)? {
        return Ok(false);
    }
    put_parts(alloc, message, back, limit, out)
}

/// Appends the messages of a message that has only answers. The result is false if it has other records, or if there is
/// no room for one of the answers.
fn put_answers(
    alloc: Global,
    message: &MessageRequest,
    limit: u16,
    out: &mut Vec<Octets>,
) -> Result<bool, AllocError>
    ensures put { IfOk result (λ done. IsTrue done → (parts : List (List ℕ)) × HasOnlyAnswers message.now ×
        AreParts limit message.now message.now.answers parts × (out.new.items ≡ out.old.items ++ parts)) }
    ensures lacking { IfOk result (λ done. done ≡ false → HasOnlyAnswers message.now →
        LacksRoom limit message.now message.now.answers) }
{
    if !message.authorities.as_slice().is_empty() || !message.additionals.as_slice().is_empty() {
        return Ok(false);
    }
    put_parts(alloc, message, message.answers.as_slice(), limit, out)
}

/// Appends the messages of a reply to a transfer that has no room for its TSIG record. The result is false if it cannot
/// be sent.
fn put_transfer(
    alloc: Global,
    request: &Request,
    reply: Octets,
    limit: u16,
    out: &mut Vec<Octets>,
) -> Result<bool, AllocError>
    ensures put { IfOk result (λ done. IsTrue done → (parts : List (List ℕ)) × IsInParts limit reply parts ×
        (out.new.items ≡ out.old.items ++ parts)) }
    ensures lacking { IfOk result (λ done. done ≡ false → HasNoParts limit reply) }
{
    let read = Request::from_bytes(alloc, reply.into_vec(), request.src(), Protocol::Tcp);
    let done = match &read {
        Ok(reply) => put_answers(alloc, reply.message(), limit, out),
        Err(ProtoError::Memory) => Err(AllocError),
        Err(_) => Ok(false),
    };
    drop(read);
    done
}

/// Appends the messages that a reply is sent in. The result is false if it cannot be sent.
fn put_shared(
    alloc: Global,
    request: &Request,
    reply: Octets,
    limit: u16,
    out: &mut Vec<Octets>,
) -> Result<bool, AllocError>
    ensures put { IfOk result (λ done. IsTrue done → (parts : List (List ℕ)) ×
        IsSharedOut limit request.now.message reply parts × (out.new.items ≡ out.old.items ++ parts)) }
    ensures lacking { IfOk result (λ done. done ≡ false → CannotBeSent limit request.now.message reply) }
{
    if fits_uncut(&reply, limit) {
        out.push(reply)?;
        return Ok(true);
    }
    if !asks_for_transfer(request.message()) {
        return Ok(false);
    }
    put_transfer(alloc, request, reply, limit, out)
}

/// The messages that replies over a stream are sent in, each with room for its TSIG record. None if one of the replies
/// cannot be sent.
pub(crate) fn shared_out(
    alloc: Global,
    request: &Request,
    replies: Vec<Octets>,
    limit: u16,
) -> Result<Option<Vec<Octets>>, AllocError>
    ensures { IfOk result (λ made. MatchOption made
        ((reply : List ℕ) × Contains replies.items reply × CannotBeSent limit request.now.message reply)
        (λ messages. AreSharedOut limit request.now.message replies.items messages.items)) }
{
    let mut messages = Vec::new(alloc);
    for reply in replies {
        if !put_shared(alloc, request, reply, limit, &mut messages)? {
            return Ok(None);
        }
    }
    Ok(Some(messages))
}
