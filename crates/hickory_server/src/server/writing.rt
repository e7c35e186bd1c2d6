//! How a reply is written.

ghost use Rattle.std.specs.Prelude.{◌≡◌, IfOk, None, Some};
ghost use Rattle.std.specs.Option.{option_copied};
ghost use Rattle.hickory_wire.specs.serialize.writing.ReplyParts.{ReplyEncoded};
ghost use Rattle.hickory_base.specs.responses.Responses.{error_metadata};
ghost use Rattle.hickory_catalog.specs.replies.ReplyEdns.{reply_edns};
ghost use Rattle.hickory_server.specs.server.Written.{IsBare, IsEncoding, bare_message, said};

use hickory_base::message_request::MessageRequest;
use hickory_wire::{
    Edns, Header, Metadata, Octets, Record, ReplyParts, ResponseCode, TSIG, encode_message_parts_in,
};
use std::alloc::{AllocError, Global};

/// What a reply says.
#[derive(Drop)]
pub struct Contents<'a> {
    /// Its header without the counts.
    pub metadata: Metadata,
    /// The bytes of its questions.
    pub question: &'a [u8],
    /// The number of its questions.
    pub question_count: u16,
    /// What its OPT record says, if it has one.
    pub edns: Option<&'a Edns>,
    /// The records of its answer section.
    pub answers: &'a [Record],
    /// The records of its authority section.
    pub authorities: &'a [Record],
    /// The SOA record after them, if it is not among them.
    pub soa: &'a [Record],
    /// The records of its additional section without OPT and TSIG.
    pub additionals: &'a [Record],
    /// Its TSIG record.
    pub signature: Option<&'a Record<TSIG>>,
}

/// Puts the bytes of a reply in the place of others, with as many records as fit the limit, and gives their header. TC
/// says that one is left out.
// speed: served, an address
#[inline(always)]
pub(crate) fn encode_in(
    bytes: &mut Vec<u8>,
    contents: &Contents<'_>,
    limit: u16,
) -> Result<Header, AllocError>
    ensures { IfOk result (λ header. ReplyEncoded limit (said contents.now) bytes.new.items header) }
{
    let parts = ReplyParts {
        metadata: contents.metadata,
        question: contents.question,
        question_count: contents.question_count,
        edns: contents.edns,
        answers: contents.answers.iter(),
        authorities: contents.authorities.iter(),
        soa: contents.soa.iter(),
        additionals: contents.additionals.iter(),
        signature: contents.signature,
    };
    match encode_message_parts_in(bytes, limit, parts) {
        Ok(header) => Ok(header),
        Err(_) => Err(AllocError),
    }
}

/// The header and the bytes of a reply, with as many records as fit the limit.
pub(crate) fn encoded_with_header(
    alloc: Global,
    contents: &Contents<'_>,
    limit: u16,
) -> Result<(Header, Octets), AllocError>
    ensures { IfOk result (λ made. ReplyEncoded limit (said contents.now) made.1 made.0) }
{
    let mut bytes = Vec::new(alloc);
    let header = encode_in(&mut bytes, contents, limit)?;
    Ok((header, Octets::from_vec(bytes)))
}

/// The bytes of a reply, with as many records as fit the limit.
pub fn encoded(alloc: Global, contents: &Contents<'_>, limit: u16) -> Result<Octets, AllocError>
    ensures { IfOk result (IsEncoding limit (said contents.now)) }
{
    match encoded_with_header(alloc, contents, limit) {
        Ok(made) => Ok(made.1),
        Err(e) => Err(e),
    }
}

/// The bytes of a reply without records, except for its OPT record, within a limit.
pub(crate) fn encoded_bare<'x>(
    alloc: Global,
    metadata: Metadata,
    question: &'x [u8],
    question_count: u16,
    edns: Option<&'x Edns>,
    limit: u16,
) -> Result<Octets, AllocError>
    ensures { IfOk result
        (IsEncoding limit (bare_message metadata question.now question_count (option_copied edns.entry))) }
{
    let contents = Contents {
        metadata,
        question,
        question_count,
        edns,
        answers: &[],
        authorities: &[],
        soa: &[],
        additionals: &[],
        signature: None,
    };
    encoded(alloc, &contents, limit)
}

/// What the OPT record of a reply says to one that says this (RFC 6891 section 7).
fn answered_edns(alloc: Global, asked: &Edns) -> Edns
    ensures { Some result ≡ reply_edns None (Some asked.now) }
{
    let mut edns = Edns::new(alloc);
    edns.set_max_payload(asked.max_payload());
    edns.set_dnssec_ok(asked.dnssec_ok());
    edns
}

/// What the OPT record of a reply says, if its request has one.
pub fn edns_of(alloc: Global, message: &MessageRequest) -> Option<Edns>
    ensures { result ≡ reply_edns None message.now.edns }
{
    match &message.edns {
        None => None,
        Some(asked) => Some(answered_edns(alloc, asked)),
    }
}

/// The bytes of a message of this header, with the questions of a request, an OPT record if the request has one, and
/// nothing else, within a limit.
pub fn bare(
    alloc: Global,
    message: &MessageRequest,
    metadata: Metadata,
    limit: u16,
) -> Result<Octets, AllocError>
    ensures { IfOk result (IsBare limit message.now metadata) }
{
    let edns = edns_of(alloc, message);
    let count = message.queries.len() as u16;
    let question = message.queries.as_bytes();
    let made = encoded_bare(alloc, metadata, question, count, edns.as_ref(), limit);
    drop(edns);
    made
}

/// The header of a reply with this response code.
pub fn error_metadata(request: &Metadata, code: ResponseCode) -> Metadata
    ensures { result ≡ error_metadata request.now code }
{
    let mut metadata = Metadata::response_from_request(request);
    metadata.response_code = code;
    metadata
}
