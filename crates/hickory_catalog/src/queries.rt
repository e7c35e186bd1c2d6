//! From a query to its replies.

ghost use Rattle.std.specs.Prelude.{◌≡◌, ◌==◌, ◌<◌, ◌^◌, ◌∷◌, [], ℕ, true, false, List, Option, IfOk, IfErr, IfSome, IfNone, IsSome, IsTrue, None, Some, length, slice_get};
ghost use Rattle.wire_messages.specs.Numbers.{type_axfr};
ghost use Rattle.wire_messages.specs.serialize.writing.Reply.{Reply};
ghost use Rattle.wire_messages.specs.declared.rr.tsig.TSigResponseContext.{TSigResponseContext};
ghost use Rattle.hickory_base.specs.zone_store.Lookups.{Flow, result_of, whole_answer, whole_reply};
ghost use Rattle.hickory_base.specs.requests.Requests.{information};
ghost use Rattle.hickory_base.specs.responses.Responses.{header_of};
ghost use Rattle.hickory_catalog.specs.queries.Forwarded.{forwarded_contents};
ghost use Rattle.hickory_catalog.specs.queries.Queries.{GivenReplies, HandlerReply, QueryReplies, ReplyByType, ZoneReplies, ZoneReply, consult_options, is_out_of_memory, whole_contents};
ghost use Rattle.hickory_catalog.specs.replies.Replies.{Contents, contents_of, unsigned_reply};
ghost use Rattle.hickory_catalog.specs.replies.Sending.{IsUntouched, Sends, SendsInOrder};
ghost use Rattle.hickory_catalog.specs.requests.Server.{server_of};
ghost use Rattle.hickory_catalog.specs.replies.Signing.{SignedReply};
ghost use Rattle.hickory_catalog.specs.queries.Transcripts.{ChainAnswers, Consulted, options_of, wants_memory};
ghost use Rattle.hickory_catalog.specs.transfers.Transfers.{transfer_contents};
ghost use Rattle.hickory_catalog.specs.transfers.WholeTransfers.{ChainTransfers};

use crate::authoritative::authoritative_contents;
use crate::catalog::Catalog;
use crate::chains::{
    ChainAnswer, Given, all_leave, chain_answer, is_memory, options_of, unanswered,
};
use crate::contents::ReplyContents;
use crate::edns::set_high_code;
use crate::forwarded::forwarded_contents;
use crate::sending::{send_error, send_lent};
use crate::signer::ReplySigner;
use crate::signing::{send_signed, send_with_signature};
use crate::transfer_replies::send_transfer;
use crate::transfers::{ask_for_transfer, split_records, transfer_contents};
use hickory_base::errors::{CatalogError, LookupError};
use hickory_base::message_request::MessageRequest;
use hickory_base::server::{Request, RequestInfo, ResponseHandler, ResponseInfo};
use hickory_base::zone_store::{
    AuthLookup, LookupControlFlow, LookupOptions, WholeReply, ZoneHandler, ZoneTransfer, ZoneType,
};
use hickory_wire::{Edns, LowerQuery, Metadata, RecordType, ResponseCode, TSigResponseContext};
use std::alloc::Global;
use std::mem;

/// A query of a zone, with what it takes to answer it.
#[derive(Drop)]
pub(crate) struct ZoneQuery<'q, S: ReplySigner, H: ZoneHandler> {
    /// The catalog, which signs its replies.
    pub(crate) catalog: &'q Catalog<S, H>,
    /// The handlers of the zone.
    pub(crate) chain: &'q [H],
    pub(crate) alloc: Global,
    /// The request.
    pub(crate) request: &'q Request,
    /// Its one question.
    pub(crate) query: &'q LowerQuery,
    /// The moment of the call, in seconds since 1970.
    pub(crate) moment: u64,
}

/// Whether an answer says that memory was refused.
fn is_out_of_memory<T>(outcome: &Result<T, LookupError>) -> bool
    ensures { result ≡ is_out_of_memory outcome.now }
{
    match outcome {
        Ok(_) => false,
        Err(e) => is_memory(e),
    }
}

/// What a handler that asks elsewhere replies to what the chain answered in the end, which is taken out.
fn external_contents<'z, H: ZoneHandler>(
    handler: &H,
    alloc: Global,
    request: &Request,
    query: &LowerQuery,
    outcome: &mut Result<AuthLookup<'z>, LookupError>,
) -> Result<ReplyContents<'z>, CatalogError>
    ensures replied { IfOk result (λ contents. contents_of contents ≡ forwarded_contents request.now.message query.now
        (H.validates_dnssec handler.now) outcome.old) }
    ensures refused { IfErr result (λ e. e ≡ CatalogError.Memory) }
{
    let validates = handler.can_validate_dnssec();
    let outcome = mem::replace(outcome, Ok(AuthLookup::Empty));
    let contents = forwarded_contents(alloc, request.message(), query, validates, outcome)?;
    Ok(contents)
}

/// The metadata of a reply that a handler has whole.
fn whole_metadata(request: &Metadata, reply: &WholeReply<'_>) -> Metadata
    ensures says { result ≡ (whole_contents request.now reply.now).metadata }
    ensures in_range { reply.now.response_code < 2 ^ 12 }
{
    // That a code has twelve bits is known of one whose number was looked at.
    let _ = reply.response_code.value();
    let mut metadata = Metadata::response_from_request(request);
    metadata.authoritative = reply.authoritative;
    metadata.response_code = reply.response_code;
    metadata
}

/// What a reply says that a handler has whole, whose records are taken out.
fn whole_contents<'z>(request: &Metadata, reply: &mut WholeReply<'z>) -> ReplyContents<'z>
    ensures says { contents_of result ≡ whole_contents request.now reply.old }
    ensures in_range { reply.old.response_code < 2 ^ 12 }
{
    let mut contents = ReplyContents::bare(whole_metadata(request, reply));
    contents.answers = reply.answers.take();
    contents.authorities = reply.authorities.take();
    contents.additionals = reply.additionals.take();
    contents
}

/// Hands over a reply that a handler has whole, with this EDNS and without a signature. Its records stay where they
/// lie.
#[inline(always)]
fn send_whole<R: ResponseHandler>(
    alloc: Global,
    request: &MessageRequest,
    edns: &mut Option<Edns>,
    whole: &WholeReply<'_>,
    sink: &mut R,
) -> ResponseInfo
    ensures sent { Sends R.ResponseHandler request.now.metadata sink.old sink.new
        (unsigned_reply request.now edns.old (whole_contents request.now.metadata whole.now)) (header_of result) }
    ensures in_range { whole.now.response_code < 2 ^ 12 }
{
    let metadata = whole_metadata(&request.metadata, whole);
    set_high_code(metadata.response_code, edns);
    send_lent(
        sink,
        alloc,
        request,
        edns.as_ref(),
        metadata,
        whole.answers.as_slice(),
        whole.authorities.as_slice(),
        whole.additionals.as_slice(),
    )
}

/// Answers by a reply that a handler has whole, whose records are taken out, signed as this context has it.
#[inline(never)]
fn answer_whole_signed<S: ReplySigner, R: ResponseHandler>(
    signer: &S,
    alloc: Global,
    request: &MessageRequest,
    edns: &mut Option<Edns>,
    whole: &mut WholeReply<'_>,
    context: &TSigResponseContext,
    sink: &mut R,
) -> Result<ResponseInfo, CatalogError>
    ensures replied { IfOk result (λ info. (reply : Reply) × (whole.old.response_code < 2 ^ 12) ×
        SignedReply (S.signature_for signer.now) request.now edns.old (whole_contents request.now.metadata whole.old)
        (Some context.entry.now) reply ×
        Sends R.ResponseHandler request.now.metadata sink.old sink.new reply (header_of info)) }
    ensures refused { IfErr result (λ e. (e ≡ CatalogError.Memory) × IsUntouched R.ResponseHandler sink.old sink.new) }
{
    let contents = whole_contents(&request.metadata, whole);
    let told = send_with_signature(signer, alloc, request, edns, &contents, context, sink);
    drop(contents);
    told
}

/// Answers by a reply that a handler has whole. Its records stay where they lie, but where it is signed.
fn answer_whole<S: ReplySigner, R: ResponseHandler>(
    signer: &S,
    alloc: Global,
    request: &MessageRequest,
    edns: &mut Option<Edns>,
    whole: &mut WholeReply<'_>,
    context: &Option<TSigResponseContext>,
    sink: &mut R,
) -> Result<ResponseInfo, CatalogError>
    ensures replied { IfOk result (λ info. (reply : Reply) × (whole.old.response_code < 2 ^ 12) ×
        SignedReply (S.signature_for signer.now) request.now edns.old (whole_contents request.now.metadata whole.old)
        context.now reply ×
        Sends R.ResponseHandler request.now.metadata sink.old sink.new reply (header_of info)) }
    ensures refused { IfErr result (λ e. (e ≡ CatalogError.Memory) × IsUntouched R.ResponseHandler sink.old sink.new) }
{
    match context {
        Some(context) => { answer_whole_signed(signer, alloc, request, edns, whole, context, sink) }
        None => Ok(send_whole(alloc, request, edns, whole, sink)),
    }
}

/// What the handler that was asked replies to what the chain answered in the end, whose records may be taken out, where
/// that is not the whole reply.
fn handler_contents<'z, H: ZoneHandler>(
    handler: &'z H,
    alloc: Global,
    request: &Request,
    query: &LowerQuery,
    outcome: &mut Result<AuthLookup<'z>, LookupError>,
) -> Result<ReplyContents<'z>, CatalogError>
    ensures replied { IfOk result (λ contents. (is_out_of_memory outcome.old ≡ false) ×
        ReplyByType H.ZoneHandler handler.now (H.zone_type_of handler.now)
        (record { request = request.now; query = query.now }) outcome.old (contents_of contents)) }
    ensures refused { IfErr result (λ e. e ≡ CatalogError.Memory) }
{
    if is_out_of_memory(outcome) {
        return Err(CatalogError::Memory);
    }
    match handler.zone_type() {
        ZoneType::Primary | ZoneType::Secondary => {
            authoritative_contents(handler, alloc, request, query, outcome)
        }
        ZoneType::External => external_contents(handler, alloc, request, query, outcome),
    }
}

/// Answers to what a chain answered in the end, whose records may be taken out, where the handler at this place was
/// asked and that is not the whole reply.
#[inline(never)]
fn answer_by_contents<'q, S: ReplySigner, H: ZoneHandler, R: ResponseHandler>(
    asked: &ZoneQuery<'q, S, H>,
    place: usize,
    outcome: &mut Result<AuthLookup<'q>, LookupError>,
    context: &Option<TSigResponseContext>,
    edns: &mut Option<Edns>,
    sink: &mut R,
) -> Result<ResponseInfo, CatalogError>
    requires place { place < length asked.now.chain.now }
    requires other { whole_reply outcome.old ≡ None }
    ensures replied { IfOk result (λ info. (handler : H) × (contents : Contents) × (reply : Reply) ×
        (slice_get asked.now.chain.now place ≡ Some handler) × (is_out_of_memory outcome.old ≡ false) ×
        HandlerReply H.ZoneHandler handler (H.zone_type_of handler)
        (record { request = asked.now.request.now; query = asked.now.query.now }) outcome.old contents ×
        SignedReply (S.signature_for asked.now.catalog.now.signer) asked.now.request.now.message edns.old contents
        context.now reply ×
        Sends R.ResponseHandler asked.now.request.now.message.metadata sink.old sink.new reply (header_of info)) }
    ensures refused { IfErr result (λ e. (e ≡ CatalogError.Memory) × IsUntouched R.ResponseHandler sink.old sink.new) }
{
    let handler = &asked.chain[place];
    let contents = handler_contents(handler, asked.alloc, asked.request, asked.query, outcome)?;
    let told = send_signed(
        &asked.catalog.signer,
        asked.alloc,
        asked.request.message(),
        edns,
        &contents,
        context,
        sink,
    );
    drop(contents);
    told
}

/// Answers to what a chain answered in the end, whose records may be taken out, where the handler at this place was
/// asked.
#[inline(always)]
fn answer_outcome<'q, S: ReplySigner, H: ZoneHandler, R: ResponseHandler>(
    asked: &ZoneQuery<'q, S, H>,
    place: usize,
    outcome: &mut Result<AuthLookup<'q>, LookupError>,
    context: &Option<TSigResponseContext>,
    edns: &mut Option<Edns>,
    sink: &mut R,
) -> Result<ResponseInfo, CatalogError>
    requires { place < length asked.now.chain.now }
    ensures replied { IfOk result (λ info. (handler : H) × (contents : Contents) × (reply : Reply) ×
        (slice_get asked.now.chain.now place ≡ Some handler) × (is_out_of_memory outcome.old ≡ false) ×
        HandlerReply H.ZoneHandler handler (H.zone_type_of handler)
        (record { request = asked.now.request.now; query = asked.now.query.now }) outcome.old contents ×
        SignedReply (S.signature_for asked.now.catalog.now.signer) asked.now.request.now.message edns.old contents
        context.now reply ×
        Sends R.ResponseHandler asked.now.request.now.message.metadata sink.old sink.new reply (header_of info)) }
    ensures refused { IfErr result (λ e. (e ≡ CatalogError.Memory) × IsUntouched R.ResponseHandler sink.old sink.new) }
{
    match outcome {
        Ok(AuthLookup::Whole(whole)) => answer_whole(
            &asked.catalog.signer,
            asked.alloc,
            asked.request.message(),
            edns,
            whole,
            context,
            sink,
        ),
        other => answer_by_contents(asked, place, other, context, edns, sink),
    }
}

/// Answers to what a handler gave for a transfer, in one reply.
fn answer_transferred<S: ReplySigner, R: ResponseHandler>(
    signer: &S,
    alloc: Global,
    request: &Request,
    edns: &mut Option<Edns>,
    outcome: Result<ZoneTransfer, LookupError>,
    context: &Option<TSigResponseContext>,
    sink: &mut R,
) -> Result<ResponseInfo, CatalogError>
    ensures replied { IfOk result (λ info. (reply : Reply) × (is_out_of_memory outcome ≡ false) ×
        SignedReply (S.signature_for signer.now) request.now.message edns.old
        (transfer_contents request.now.message.metadata outcome) context.now reply ×
        Sends R.ResponseHandler request.now.message.metadata sink.old sink.new reply (header_of info)) }
    ensures refused { IfErr result (λ e. (e ≡ CatalogError.Memory) × IsUntouched R.ResponseHandler sink.old sink.new) }
{
    if is_out_of_memory(&outcome) {
        drop(outcome);
        return Err(CatalogError::Memory);
    }
    let contents = transfer_contents(request.metadata(), outcome);
    let told = send_signed(
        signer,
        alloc,
        request.message(),
        edns,
        &contents,
        context,
        sink,
    );
    drop(contents);
    told
}

/// Answers to what a handler gave for a transfer, in as many replies as it takes.
fn answer_given<S: ReplySigner, R: ResponseHandler>(
    signer: &S,
    alloc: Global,
    request: &Request,
    edns: &mut Option<Edns>,
    outcome: Result<ZoneTransfer, LookupError>,
    context: &Option<TSigResponseContext>,
    sink: &mut R,
) -> Result<ResponseInfo, CatalogError>
    ensures replied { IfOk result (λ info. (replies : List Reply) ×
        GivenReplies (S.signature_for signer.now) request.now edns.old outcome context.now replies ×
        SendsInOrder R.ResponseHandler request.now.message.metadata sink.old sink.new replies (header_of info)) }
    ensures refused { IfErr result (λ e. (e ≡ CatalogError.Memory) × IsUntouched R.ResponseHandler sink.old sink.new) }
{
    if let Some(records) = split_records(request.protocol(), &outcome, context) {
        let told = send_transfer(sink, alloc, request.message(), edns, records);
        drop(outcome);
        return Ok(told);
    }
    answer_transferred(signer, alloc, request, edns, outcome, context, sink)
}

/// Answers by a transfer of a zone, which its handlers give, and hands the replies over, with this EDNS.
pub(crate) fn give_transfer<S: ReplySigner, H: ZoneHandler, R: ResponseHandler>(
    asked: &ZoneQuery<'_, S, H>,
    edns: &mut Option<Edns>,
    sink: &mut R,
) -> Result<ResponseInfo, CatalogError>
    ensures replied { IfOk result (λ info. (replies : List Reply) ×
        ChainTransfers (server_of H.ZoneHandler S.signature_for asked.now.catalog.now) asked.now.chain.now
        asked.now.request.now edns.old asked.now.moment replies ×
        SendsInOrder R.ResponseHandler asked.now.request.now.message.metadata sink.old sink.new replies
        (header_of info)) }
    ensures refused { IfErr result (λ e. (e ≡ CatalogError.Memory) × IsUntouched R.ResponseHandler sink.old sink.new) }
{
    let alloc = asked.alloc;
    let request = asked.request;
    match ask_for_transfer(asked.chain, alloc, request, asked.moment) {
        None => {
            let message = request.message();
            Ok(send_error(sink, alloc, message, edns, ResponseCode::SERV_FAIL))
        }
        Some((outcome, context)) => {
            let signer = &asked.catalog.signer;
            let told = answer_given(signer, alloc, request, edns, outcome, &context, sink);
            drop(context);
            told
        }
    }
}

/// Answers a transfer of a zone by its handlers, and hands its replies over, with this EDNS.
#[inline(never)]
fn answer_transfer<S: ReplySigner, H: ZoneHandler, R: ResponseHandler>(
    asked: &ZoneQuery<'_, S, H>,
    edns: &mut Option<Edns>,
    sink: &mut R,
) -> Result<ResponseInfo, CatalogError>
    requires { (asked.now.query.now.query_type == type_axfr) ≡ true }
    ensures replied { IfOk result (λ info. (replies : List Reply) ×
        ZoneReplies (server_of H.ZoneHandler S.signature_for asked.now.catalog.now) asked.now.chain.now
        (record { request = asked.now.request.now; query = asked.now.query.now }) edns.old asked.now.moment replies ×
        SendsInOrder R.ResponseHandler asked.now.request.now.message.metadata sink.old sink.new replies
        (header_of info)) }
    ensures refused { IfErr result (λ e. (e ≡ CatalogError.Memory) × IsUntouched R.ResponseHandler sink.old sink.new) }
{
    give_transfer(asked, edns, sink)
}

/// Answers to what the chain of a zone answered, at this place if it did, and hands the reply over, with this EDNS. The
/// records of the answer may be taken out.
#[inline(always)]
fn answer_chained<'q, S: ReplySigner, H: ZoneHandler, R: ResponseHandler>(
    asked: &ZoneQuery<'q, S, H>,
    place: usize,
    given: &mut Given<'q>,
    edns: &mut Option<Edns>,
    sink: &mut R,
) -> Result<ResponseInfo, CatalogError>
    requires lookup { (asked.now.query.now.query_type == type_axfr) ≡ false }
    requires skipped { result_of given.old.0 ≡ None → (behind : ℕ) × (context : Option TSigResponseContext) ×
        ChainAnswers H.ZoneHandler asked.now.request.now (information asked.now.request.now asked.now.query.now)
        (consult_options edns.old) asked.now.chain.now
        (record { place = behind; given = (given.old.0, context) }) }
    requires answered { IsSome (result_of given.old.0) →
        ChainAnswers H.ZoneHandler asked.now.request.now (information asked.now.request.now asked.now.query.now)
        (consult_options edns.old) asked.now.chain.now (record { place = place; given = given.old }) }
    requires place { IsSome (result_of given.old.0) → place < length asked.now.chain.now }
    ensures replied { IfOk result (λ info. (reply : Reply) ×
        ZoneReply (server_of H.ZoneHandler S.signature_for asked.now.catalog.now) asked.now.chain.now
        (record { request = asked.now.request.now; query = asked.now.query.now }) edns.old asked.now.moment reply ×
        Sends R.ResponseHandler asked.now.request.now.message.metadata sink.old sink.new reply (header_of info)) }
    ensures refused { IfErr result (λ e. (e ≡ CatalogError.Memory) × IsUntouched R.ResponseHandler sink.old sink.new) }
{
    match &mut given.0 {
        LookupControlFlow::Skip => Ok(send_error(
            sink,
            asked.alloc,
            asked.request.message(),
            edns,
            ResponseCode::SERV_FAIL,
        )),
        LookupControlFlow::Continue(outcome) => {
            answer_outcome(asked, place, outcome, &given.1, edns, sink)
        }
        LookupControlFlow::Break(outcome) => {
            answer_outcome(asked, place, outcome, &given.1, edns, sink)
        }
    }
}

/// Answers a query of a zone of one handler, but for a transfer, by what the handler finds, and hands the reply over,
/// with this EDNS. Nobody else is there to be consulted, and the answer stays where the handler puts it.
#[inline(never)]
fn answer_searched<'q, S: ReplySigner, H: ZoneHandler, R: ResponseHandler>(
    asked: &ZoneQuery<'q, S, H>,
    handler: &'q H,
    edns: &mut Option<Edns>,
    sink: &mut R,
) -> Result<ResponseInfo, CatalogError>
    requires lookup { (asked.now.query.now.query_type == type_axfr) ≡ false }
    requires alone { asked.now.chain.now ≡ handler.now ∷ [] }
    ensures replied { IfOk result (λ info. (reply : Reply) ×
        ZoneReply (server_of H.ZoneHandler S.signature_for asked.now.catalog.now) asked.now.chain.now
        (record { request = asked.now.request.now; query = asked.now.query.now }) edns.old asked.now.moment reply ×
        Sends R.ResponseHandler asked.now.request.now.message.metadata sink.old sink.new reply (header_of info)) }
    ensures refused { IfErr result (λ e. (e ≡ CatalogError.Memory) × IsUntouched R.ResponseHandler sink.old sink.new) }
{
    let request = asked.request;
    let options = options_of(request);
    answer_chained(
        asked,
        0,
        &mut handler.search(asked.alloc, request, options),
        edns,
        sink,
    )
}

/// Answers a query by the whole reply that a handler puts in the place of this one, and hands it over, with this EDNS.
/// `None` says that the handler puts none, and that nothing was handed over.
#[inline(always)]
fn answer_put<'q, S: ReplySigner, H: ZoneHandler, R: ResponseHandler>(
    asked: &ZoneQuery<'q, S, H>,
    handler: &'q H,
    edns: &mut Option<Edns>,
    sink: &mut R,
    whole: &mut WholeReply<'q>,
) -> Option<ResponseInfo>
    ensures gives { IfSome result (λ _. H.search_gives handler.now asked.now.request.now
        (options_of asked.now.request.now)
        (whole_answer whole.new) None) }
    ensures in_range { IfSome result (λ _. whole.new.response_code < 2 ^ 12) }
    ensures sent { IfSome result (λ info.
        Sends R.ResponseHandler asked.now.request.now.message.metadata sink.old sink.new
        (unsigned_reply asked.now.request.now.message edns.old
        (whole_contents asked.now.request.now.message.metadata whole.new))
        (header_of info)) }
    ensures unput { IfNone result ((sink.new ≡ sink.old) × (edns.new ≡ edns.old)) }
{
    let request = asked.request;
    if !handler.search_whole(asked.alloc, request, options_of(request), whole) {
        return None;
    }
    Some(send_whole(asked.alloc, request.message(), edns, whole, sink))
}

/// Answers a query of a zone of one handler, but for a transfer, and hands the reply over, with this EDNS. Nobody else
/// is there to be consulted, and a whole reply is put where it is sent from.
fn answer_alone<'q, S: ReplySigner, H: ZoneHandler, R: ResponseHandler>(
    asked: &ZoneQuery<'q, S, H>,
    handler: &'q H,
    edns: &mut Option<Edns>,
    sink: &mut R,
) -> Result<ResponseInfo, CatalogError>
    requires lookup { (asked.now.query.now.query_type == type_axfr) ≡ false }
    requires alone { asked.now.chain.now ≡ handler.now ∷ [] }
    ensures replied { IfOk result (λ info. (reply : Reply) ×
        ZoneReply (server_of H.ZoneHandler S.signature_for asked.now.catalog.now) asked.now.chain.now
        (record { request = asked.now.request.now; query = asked.now.query.now }) edns.old asked.now.moment reply ×
        Sends R.ResponseHandler asked.now.request.now.message.metadata sink.old sink.new reply (header_of info)) }
    ensures refused { IfErr result (λ e. (e ≡ CatalogError.Memory) × IsUntouched R.ResponseHandler sink.old sink.new) }
{
    // speed: served, an address. A whole reply is not wrapped, moved and dropped on its way.
    if let Some(told) = answer_put(asked, handler, edns, sink, &mut unanswered()) {
        return Ok(told);
    }
    answer_searched(asked, handler, edns, sink)
}

/// Answers a query of a zone by its handlers, but for a transfer, and hands the reply over, with this EDNS. What they
/// answer is put in this place.
fn answer_in_place<'q, S: ReplySigner, H: ZoneHandler, R: ResponseHandler>(
    asked: &ZoneQuery<'q, S, H>,
    edns: &mut Option<Edns>,
    sink: &mut R,
    answer: &mut ChainAnswer<'q>,
) -> Result<ResponseInfo, CatalogError>
    requires lookup { (asked.now.query.now.query_type == type_axfr) ≡ false }
    requires unsigned { answer.old.given.1 ≡ None }
    ensures replied { IfOk result (λ info. (reply : Reply) ×
        ZoneReply (server_of H.ZoneHandler S.signature_for asked.now.catalog.now) asked.now.chain.now
        (record { request = asked.now.request.now; query = asked.now.query.now }) edns.old asked.now.moment reply ×
        Sends R.ResponseHandler asked.now.request.now.message.metadata sink.old sink.new reply (header_of info)) }
    ensures refused { IfErr result (λ e. (e ≡ CatalogError.Memory) × IsUntouched R.ResponseHandler sink.old sink.new) }
{
    let alloc = asked.alloc;
    let request = asked.request;
    let info = RequestInfo::new(
        request.src(),
        request.protocol(),
        request.metadata(),
        asked.query,
    );
    let options = LookupOptions::from_edns(edns.as_ref());
    chain_answer(asked.chain, alloc, request, &info, options, answer);
    answer_chained(asked, answer.place, &mut answer.given, edns, sink)
}

/// Whether handlers leave any answer to a query as it is, where it is replied to with this EDNS.
#[inline(always)]
fn others_leave<S: ReplySigner, H: ZoneHandler>(
    asked: &ZoneQuery<'_, S, H>,
    others: &[H],
    edns: &Option<Edns>,
) -> bool
    ensures { IsTrue result → (given : Flow × Option TSigResponseContext) → wants_memory given.0 ≡ false →
        Consulted H.ZoneHandler (information asked.now.request.now asked.now.query.now)
        (consult_options edns.now) others.now given given }
{
    let request = asked.request;
    let info = RequestInfo::new(
        request.src(),
        request.protocol(),
        request.metadata(),
        asked.query,
    );
    all_leave(others, &info, LookupOptions::from_edns(edns.as_ref()))
}

/// Answers a query of a zone of other chains, but for a transfer, and hands the reply over, with this EDNS.
#[inline(never)]
fn answer_by_chain<S: ReplySigner, H: ZoneHandler, R: ResponseHandler>(
    asked: &ZoneQuery<'_, S, H>,
    edns: &mut Option<Edns>,
    sink: &mut R,
) -> Result<ResponseInfo, CatalogError>
    requires { (asked.now.query.now.query_type == type_axfr) ≡ false }
    ensures replied { IfOk result (λ info. (reply : Reply) ×
        ZoneReply (server_of H.ZoneHandler S.signature_for asked.now.catalog.now) asked.now.chain.now
        (record { request = asked.now.request.now; query = asked.now.query.now }) edns.old asked.now.moment reply ×
        Sends R.ResponseHandler asked.now.request.now.message.metadata sink.old sink.new reply (header_of info)) }
    ensures refused { IfErr result (λ e. (e ≡ CatalogError.Memory) × IsUntouched R.ResponseHandler sink.old sink.new) }
{
    // speed: served, an address past a block list. What is lent is made where it stays.
    answer_in_place(asked, edns, sink, &mut ChainAnswer::unasked())
}

/// Answers a query of a zone of several handlers, but for a transfer, and hands the reply over, with this EDNS.
#[inline(never)]
fn answer_by_several<'q, S: ReplySigner, H: ZoneHandler, R: ResponseHandler>(
    asked: &ZoneQuery<'q, S, H>,
    first: &'q H,
    others: &'q [H],
    edns: &mut Option<Edns>,
    sink: &mut R,
) -> Result<ResponseInfo, CatalogError>
    requires lookup { (asked.now.query.now.query_type == type_axfr) ≡ false }
    requires chain { asked.now.chain.now ≡ first.now ∷ others.now }
    ensures replied { IfOk result (λ info. (reply : Reply) ×
        ZoneReply (server_of H.ZoneHandler S.signature_for asked.now.catalog.now) asked.now.chain.now
        (record { request = asked.now.request.now; query = asked.now.query.now }) edns.old asked.now.moment reply ×
        Sends R.ResponseHandler asked.now.request.now.message.metadata sink.old sink.new reply (header_of info)) }
    ensures refused { IfErr result (λ e. (e ≡ CatalogError.Memory) × IsUntouched R.ResponseHandler sink.old sink.new) }
{
    if !others_leave(asked, others, edns) {
        return answer_by_chain(asked, edns, sink);
    }
    // speed: served, an address past a block list. A whole reply that the others leave is sent from where it is put.
    if let Some(told) = answer_put(asked, first, edns, sink, &mut unanswered()) {
        return Ok(told);
    }
    answer_by_chain(asked, edns, sink)
}

/// Answers a query of a zone, but for a transfer, by its handlers, and hands the reply over, with this EDNS.
fn answer_lookup<S: ReplySigner, H: ZoneHandler, R: ResponseHandler>(
    asked: &ZoneQuery<'_, S, H>,
    edns: &mut Option<Edns>,
    sink: &mut R,
) -> Result<ResponseInfo, CatalogError>
    requires { (asked.now.query.now.query_type == type_axfr) ≡ false }
    ensures replied { IfOk result (λ info. (reply : Reply) ×
        ZoneReply (server_of H.ZoneHandler S.signature_for asked.now.catalog.now) asked.now.chain.now
        (record { request = asked.now.request.now; query = asked.now.query.now }) edns.old asked.now.moment reply ×
        Sends R.ResponseHandler asked.now.request.now.message.metadata sink.old sink.new reply (header_of info)) }
    ensures refused { IfErr result (λ e. (e ≡ CatalogError.Memory) × IsUntouched R.ResponseHandler sink.old sink.new) }
{
    match asked.chain {
        [handler] => answer_alone(asked, handler, edns, sink),
        [first, others @ ..] => answer_by_several(asked, first, others, edns, sink),
        [] => answer_by_chain(asked, edns, sink),
    }
}

/// Answers a query by a chain that is given, and hands the replies over, with this EDNS.
// speed: served, an address. It does not call `answer_lookup`, so that its one caller has that inlined.
#[inline(never)]
pub(crate) fn answer_by_given<S: ReplySigner, H: ZoneHandler, R: ResponseHandler>(
    asked: &ZoneQuery<'_, S, H>,
    edns: &mut Option<Edns>,
    sink: &mut R,
) -> Result<ResponseInfo, CatalogError>
    ensures replied { IfOk result (λ info. (replies : List Reply) ×
        ZoneReplies (server_of H.ZoneHandler S.signature_for asked.now.catalog.now) asked.now.chain.now
        (record { request = asked.now.request.now; query = asked.now.query.now }) edns.old asked.now.moment replies ×
        SendsInOrder R.ResponseHandler asked.now.request.now.message.metadata sink.old sink.new replies
        (header_of info)) }
    ensures refused { IfErr result (λ e. (e ≡ CatalogError.Memory) × IsUntouched R.ResponseHandler sink.old sink.new) }
{
    if asked.query.query_type().value() == RecordType::AXFR.value() {
        answer_transfer(asked, edns, sink)
    } else {
        answer_by_chain(asked, edns, sink)
    }
}

/// Answers a query, and hands the replies over, with this EDNS.
pub(crate) fn answer_query<S: ReplySigner, H: ZoneHandler, R: ResponseHandler>(
    catalog: &Catalog<S, H>,
    alloc: Global,
    request: &Request,
    edns: &mut Option<Edns>,
    now: u64,
    sink: &mut R,
) -> Result<ResponseInfo, CatalogError>
    ensures replied { IfOk result (λ info. (replies : List Reply) ×
        QueryReplies (server_of H.ZoneHandler S.signature_for catalog.now) request.now edns.old now replies ×
        SendsInOrder R.ResponseHandler request.now.message.metadata sink.old sink.new replies (header_of info)) }
    ensures refused { IfErr result (λ e. (e ≡ CatalogError.Memory) × IsUntouched R.ResponseHandler sink.old sink.new) }
{
    let message = request.message();
    let info = match request.request_info() {
        Ok(info) => info,
        Err(_) => return Ok(send_error(sink, alloc, message, edns, ResponseCode::FORM_ERR)),
    };
    match catalog.find(info.query.name())? {
        None => Ok(send_error(sink, alloc, message, edns, ResponseCode::REFUSED)),
        Some(chain) => {
            let asked = ZoneQuery {
                catalog,
                chain: chain.as_slice(),
                alloc,
                request,
                query: info.query,
                moment: now,
            };
            if info.query.query_type().value() == RecordType::AXFR.value() {
                answer_transfer(&asked, edns, sink)
            } else {
                answer_lookup(&asked, edns, sink)
            }
        }
    }
}
