//! The replies to signed requests.

ghost use Rattle.std.specs.Prelude.{◌≡◌, ◌≢◌, ◌↔◌, ◌∷◌, [], All, IfOk, IsTrue, List, ℕ};
ghost use Rattle.std.specs.List.{AllZip};
ghost use Rattle.hickory_server.specs.server.Written.{IsBare};
ghost use Rattle.tsig.specs.Stripping.{IsStripped};
ghost use Rattle.signed_server.specs.SharedReplies.{Fits};
ghost use Rattle.signed_server.specs.SignedAnswers.{AreSentSigned, AreToBeSigned, IsRefused, message_limit, refusal_code, reply_limit, truncated};

use crate::chains::signed;
use crate::parts::{fits, shared_out};
use hickory_base::message_request::MessageRequest;
use hickory_base::server::Request;
use hickory_server::server::Rules;
use hickory_server::server::writing::{bare, error_metadata};
use hickory_wire::{Items, Metadata, Octets, Protocol, ResponseCode};
use std::alloc::{AllocError, Global};
use tsig::{Judgement, Keys, room, stripped};

/// How many bytes a reply has at most, its signature with it.
fn reply_limit(rules: &Rules, request: &Request) -> u16
    ensures { result ≡ reply_limit rules.now request.now }
{
    match request.protocol() {
        Protocol::Udp => rules.datagram_limit(request),
        _ => u16::MAX,
    }
}

/// What is left of it for the message.
fn message_limit(keys: &Keys, judgement: &Judgement, rules: &Rules, request: &Request) -> u16
    ensures { result ≡ message_limit keys.now judgement.now rules.now request.now }
{
    let record = room(keys, judgement) as u16;
    reply_limit(rules, request).saturating_sub(record).max(12)
}

/// Replies without the signatures that they may have.
fn all_stripped(alloc: Global, replies: Items<Octets>) -> Result<Vec<Octets>, AllocError>
    ensures { IfOk result (λ messages. AllZip IsStripped replies messages.items) }
{
    let mut messages = Vec::new(alloc);
    for reply in replies.into_vec() {
        messages.push(stripped(alloc, reply)?)?;
    }
    Ok(messages)
}

/// Whether all messages have room for their TSIG records.
fn all_fit(messages: &[Octets], limit: u16) -> bool
    ensures { IsTrue result ↔ All (Fits limit) messages.now }
{
    for message in messages {
        if !fits(message, limit) {
            return false;
        }
    }
    true
}

/// The header of a reply that says that the whole is to be had over TCP.
fn truncated(request: &Metadata) -> Metadata
    ensures { result ≡ truncated request.now }
{
    let mut metadata = Metadata::response_from_request(request);
    metadata.truncation = true;
    metadata
}

/// One message of the question, with this header.
fn only_bare(
    alloc: Global,
    request: &MessageRequest,
    metadata: Metadata,
    limit: u16,
) -> Result<Vec<Octets>, AllocError>
    ensures { IfOk result (λ messages. (bytes : List ℕ) × IsBare limit request.now metadata bytes ×
        (messages.items ≡ bytes ∷ [])) }
{
    let mut one = Vec::new(alloc);
    one.push(bare(alloc, request, metadata, limit)?)?;
    Ok(one)
}

/// The messages that are signed in the place of replies over UDP.
fn datagrams_to_be_signed(
    alloc: Global,
    request: &Request,
    limit: u16,
    replies: Items<Octets>,
) -> Result<Vec<Octets>, AllocError>
    requires { request.now.protocol ≡ Protocol.Udp }
    ensures { IfOk result (λ messages. AreToBeSigned limit request.now replies messages.items) }
{
    let messages = all_stripped(alloc, replies)?;
    if all_fit(&messages, limit) {
        return Ok(messages);
    }
    let message = request.message();
    only_bare(alloc, message, truncated(&message.metadata), limit)
}

/// The messages that are signed in the place of replies over a stream.
fn stream_to_be_signed(
    alloc: Global,
    request: &Request,
    limit: u16,
    replies: Items<Octets>,
) -> Result<Vec<Octets>, AllocError>
    requires { request.now.protocol ≢ Protocol.Udp }
    ensures { IfOk result (λ messages. AreToBeSigned limit request.now replies messages.items) }
{
    let stripped = all_stripped(alloc, replies)?;
    if let Some(messages) = shared_out(alloc, request, stripped, limit)? {
        return Ok(messages);
    }
    let message = request.message();
    let failure = error_metadata(&message.metadata, ResponseCode::SERV_FAIL);
    only_bare(alloc, message, failure, limit)
}

/// The messages that are signed in the place of replies.
fn to_be_signed(
    alloc: Global,
    request: &Request,
    limit: u16,
    replies: Items<Octets>,
) -> Result<Vec<Octets>, AllocError>
    ensures { IfOk result (λ messages. AreToBeSigned limit request.now replies messages.items) }
{
    match request.protocol() {
        Protocol::Udp => datagrams_to_be_signed(alloc, request, limit, replies),
        _ => stream_to_be_signed(alloc, request, limit, replies),
    }
}

/// What leaves in the place of replies to a request that was judged so.
pub(crate) fn sent(
    alloc: Global,
    keys: &Keys,
    judgement: &Judgement,
    rules: &Rules,
    request: &Request,
    now: u64,
    replies: Items<Octets>,
) -> Result<Items<Octets>, AllocError>
    ensures { IfOk result (AreSentSigned keys.now rules.now
        (record { request = request.now; judgement = judgement.now; now = now }) replies) }
{
    let limit = message_limit(keys, judgement, rules, request);
    let messages = to_be_signed(alloc, request, limit, replies)?;
    signed(alloc, keys, judgement, messages, now)
}

/// The response code of a reply to a request whose signature is bad.
fn refusal_code(judgement: &Judgement) -> ResponseCode
    ensures { result ≡ refusal_code judgement.now }
{
    match judgement {
        Judgement::Signed { .. } => ResponseCode::NOT_AUTH,
        _ => ResponseCode::FORM_ERR,
    }
}

/// What leaves for a request whose signature is bad.
pub(crate) fn refused(
    alloc: Global,
    keys: &Keys,
    judgement: &Judgement,
    rules: &Rules,
    request: &Request,
    now: u64,
) -> Result<Items<Octets>, AllocError>
    ensures { IfOk result (IsRefused keys.now rules.now
        (record { request = request.now; judgement = judgement.now; now = now })) }
{
    let limit = message_limit(keys, judgement, rules, request);
    let message = request.message();
    let metadata = error_metadata(&message.metadata, refusal_code(judgement));
    let messages = only_bare(alloc, message, metadata, limit)?;
    signed(alloc, keys, judgement, messages, now)
}
