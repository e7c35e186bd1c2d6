//! Handing replies to a sink.

ghost use Rattle.std.specs.Prelude.{◌≡◌, IfOk, IfErr};
ghost use Rattle.std.specs.Iterator.{IsFinite};
ghost use Rattle.std.specs.Option.{option_copied};
ghost use Rattle.wire_messages.specs.serialize.writing.Reply.{Reply};
ghost use Rattle.hickory_base.specs.responses.Responses.{GivesBy, IsReplyOf, header_of};
ghost use Rattle.hickory_catalog.specs.replies.Replies.{contents_of, error_reply, plain_reply};
ghost use Rattle.hickory_catalog.specs.replies.Sending.{Fails, Sends, Takes, failure_header};
ghost use Rattle.hickory_catalog.specs.transfers.Transfers.{message_of_transfer};

use crate::authoritative::authoritative_metadata;
use crate::contents::{ReplyContents, response};
use crate::edns::set_high_code;
use hickory_base::message_request::MessageRequest;
use hickory_base::message_response::MessageResponse;
use hickory_base::server::{RecordRef, ResponseHandler, ResponseInfo};
use hickory_wire::{
    Boxed, Edns, Header, HeaderCounts, MessageType, Metadata, Record, ResponseCode, TSIG,
};
use std::alloc::Global;

/// What is told where the sink failed: ServFail, with the id and the opcode of the request.
#[inline(never)]
fn failure(request: &Metadata) -> ResponseInfo
    ensures { header_of result ≡ failure_header request.now }
{
    let mut metadata = Metadata::new(request.id, MessageType::Response, request.op_code);
    metadata.response_code = ResponseCode::SERV_FAIL;
    ResponseInfo::from(Header {
        metadata,
        counts: HeaderCounts {
            queries: 0,
            answers: 0,
            authorities: 0,
            additionals: 0,
        },
    })
}

/// Hands a response over, once. The answer tells what the sink tells of it, or where the sink fails that it failed.
#[inline(always)]
fn send_once<'q, 'a, R, A, N, S, D>(
    sink: &mut R,
    alloc: Global,
    request: &Metadata,
    response: MessageResponse<'q, 'a, A, N, S, D>,
) -> Result<ResponseInfo, ResponseInfo>
where
    R: ResponseHandler,
    A: Iterator + Drop,
    A::Item: RecordRef,
    N: Iterator + Drop,
    N::Item: RecordRef,
    S: Iterator + Drop,
    S::Item: RecordRef,
    D: Iterator + Drop,
    D::Item: RecordRef,
    requires answers { A.can_next response.answers × IsFinite (A.remaining response.answers) }
    requires authorities { N.can_next response.authorities × IsFinite (N.remaining response.authorities) }
    requires soa { S.can_next response.soa × IsFinite (S.remaining response.soa) }
    requires additionals { D.can_next response.additionals × IsFinite (D.remaining response.additionals) }
    // The reply that is sent is the one that the response determines.
    ensures taken { IfOk result (λ info. (reply : Reply) →
        ((r : Reply) → IsReplyOf (GivesBy A.next_gives A.Item.record_of) (GivesBy N.next_gives N.Item.record_of)
        (GivesBy S.next_gives S.Item.record_of) (GivesBy D.next_gives D.Item.record_of) response.entry r → r ≡ reply)
        → Takes R.ResponseHandler sink.old sink.new reply (header_of info)) }
    ensures failed { IfErr result (λ info. (reply : Reply) →
        ((r : Reply) → IsReplyOf (GivesBy A.next_gives A.Item.record_of) (GivesBy N.next_gives N.Item.record_of)
        (GivesBy S.next_gives S.Item.record_of) (GivesBy D.next_gives D.Item.record_of) response.entry r → r ≡ reply)
        → Fails R.ResponseHandler request.now sink.old sink.new reply (header_of info)) }
{
    match sink.send_response(alloc, response) {
        Ok(info) => Ok(info),
        Err(_) => Err(failure(request)),
    }
}

/// What is told of a reply, whether the sink took it or failed.
fn told(handed: Result<ResponseInfo, ResponseInfo>) -> ResponseInfo
    ensures taken { IfOk handed (λ info. result ≡ info) }
    ensures failed { IfErr handed (λ info. result ≡ info) }
{
    match handed {
        Ok(info) => info,
        Err(info) => info,
    }
}

/// Hands a reply over that says this, with this EDNS, signed or not.
pub(crate) fn send_contents<R: ResponseHandler>(
    sink: &mut R,
    alloc: Global,
    request: &MessageRequest,
    edns: Option<&Edns>,
    contents: &ReplyContents<'_>,
    signature: Option<Boxed<Record<TSIG>>>,
) -> ResponseInfo
    ensures { Sends R.ResponseHandler request.now.metadata sink.old sink.new
        (record (plain_reply request.now (option_copied edns.entry) (contents_of contents.now))
        { signature = signature }) (header_of result) }
{
    let mut response = response(request, edns, contents);
    response.signature = signature;
    told(send_once(sink, alloc, &request.metadata, response))
}

/// Hands over a reply of this metadata and these records where they lie, with this EDNS and without a signature.
#[inline(always)]
pub(crate) fn send_lent<R: ResponseHandler>(
    sink: &mut R,
    alloc: Global,
    request: &MessageRequest,
    edns: Option<&Edns>,
    metadata: Metadata,
    answers: &[Record],
    authorities: &[Record],
    additionals: &[Record],
) -> ResponseInfo
    ensures { Sends R.ResponseHandler request.now.metadata sink.old sink.new
        (plain_reply request.now (option_copied edns.entry)
        (record {
          metadata = metadata;
          answers = answers.now;
          authorities = authorities.now;
          additionals =
              additionals.now;
        })) (header_of result) }
{
    match sink.send_lent(
        alloc,
        &request.queries,
        edns,
        metadata,
        answers,
        authorities,
        additionals,
    ) {
        Ok(info) => info,
        Err(_) => failure(&request.metadata),
    }
}

/// Hands over the records of one reply of a transfer, with this EDNS. The answer tells what the sink tells of it, or
/// where the sink fails that it failed.
pub(crate) fn send_records<R: ResponseHandler>(
    sink: &mut R,
    alloc: Global,
    request: &MessageRequest,
    edns: Option<&Edns>,
    records: &[Record],
) -> Result<ResponseInfo, ResponseInfo>
    ensures taken { IfOk result (λ info. Takes R.ResponseHandler sink.old sink.new
        (message_of_transfer request.now (option_copied edns.entry) records.now) (header_of info)) }
    ensures failed { IfErr result (λ info. Fails R.ResponseHandler request.now.metadata sink.old sink.new
        (message_of_transfer request.now (option_copied edns.entry) records.now) (header_of info)) }
{
    let metadata = authoritative_metadata(&request.metadata, ResponseCode::NO_ERROR);
    match sink.send_lent(alloc, &request.queries, edns, metadata, records, &[], &[]) {
        Ok(sent) => Ok(sent),
        Err(_) => Err(failure(&request.metadata)),
    }
}

/// Hands an error reply over, with this EDNS: a response code, and no records.
#[inline(never)]
pub(crate) fn send_error<R: ResponseHandler>(
    sink: &mut R,
    alloc: Global,
    request: &MessageRequest,
    edns: &mut Option<Edns>,
    code: ResponseCode,
) -> ResponseInfo
    ensures { Sends R.ResponseHandler request.now.metadata sink.old sink.new (error_reply request.now edns.old code)
        (header_of result) }
{
    set_high_code(code, edns);
    let contents = ReplyContents::error(&request.metadata, code);
    send_contents(sink, alloc, request, edns.as_ref(), &contents, None)
}
