//! From a dynamic update to its one reply (RFC 2136).

ghost use Rattle.std.specs.Prelude.{◌≡◌, ◌<◌, ◌^◌, ℕ, IfOk, IfErr, Some};
ghost use Rattle.std.specs.Option.{option_copied};
ghost use Rattle.wire_messages.specs.serialize.writing.Reply.{Reply};
ghost use Rattle.hickory_base.specs.responses.Responses.{header_of};
ghost use Rattle.hickory_catalog.specs.replies.Replies.{contents_of};
ghost use Rattle.hickory_catalog.specs.replies.Sending.{IsUntouched, Sends};
ghost use Rattle.hickory_catalog.specs.requests.Server.{server_of};
ghost use Rattle.hickory_catalog.specs.replies.Signing.{SignedReply};
ghost use Rattle.hickory_catalog.specs.updates.Updates.{ChainUpdated, HandlerUpdated, UpdateLeaves, UpdateReply, fault_after, update_code, update_contents, updated_zone};

use crate::catalog::Catalog;
use crate::contents::ReplyContents;
use crate::sending::send_error;
use crate::signer::ReplySigner;
use crate::signing::send_signed;
use hickory_base::errors::{CatalogError, UpdateFault};
use hickory_base::server::{Request, ResponseHandler, ResponseInfo};
use hickory_base::zone_store::{ZoneHandler, ZoneType};
use hickory_wire::{
    Edns, LowerName, MessageType, Metadata, OpCode, RecordType, ResponseCode, TSigResponseContext,
};
use std::alloc::Global;

/// What becomes of an update of a zone.
#[derive(Drop)]
pub(crate) enum ZoneUpdate {
    /// There is no zone of this apex.
    NoZone,
    /// The zone has no handler.
    NoHandler,
    /// The first handler of the zone answers, with what a signer of the reply has to know.
    Answered(Result<bool, UpdateFault>, Option<TSigResponseContext>),
}

/// The name of the zone that a request is to update, where its question names one.
fn updated_zone(request: &Request) -> Option<&LowerName>
    ensures { option_copied result ≡ updated_zone request.now }
{
    match request.request_info() {
        Ok(info) => {
            if info.query.query_type().value() == RecordType::SOA.value() {
                Some(info.query.name())
            } else {
                None
            }
        }
        Err(_) => None,
    }
}

/// Asks a handler for an update. Only a primary one takes it.
fn update_handler<H: ZoneHandler>(
    handler: &mut H,
    alloc: Global,
    request: &Request,
    now: u64,
) -> (Result<bool, UpdateFault>, Option<TSigResponseContext>)
    ensures { HandlerUpdated H.ZoneHandler (H.zone_type_of handler.old) (request.now, now) handler.old result
        handler.new }
{
    match handler.zone_type() {
        ZoneType::Primary => handler.update(alloc, request, now),
        ZoneType::Secondary => (Err(UpdateFault::Code(ResponseCode::NOT_IMP)), None),
        ZoneType::External => (Err(UpdateFault::Code(ResponseCode::NOT_AUTH)), None),
    }
}

/// Asks the first handler of a chain for an update, if there is one.
pub(crate) fn update_chain<H: ZoneHandler>(
    chain: &mut Vec<H>,
    alloc: Global,
    request: &Request,
    now: u64,
) -> Option<(Result<bool, UpdateFault>, Option<TSigResponseContext>)>
    ensures { ChainUpdated H.ZoneHandler (request.now, now) chain.old.items result chain.new.items }
{
    if chain.is_empty() {
        return None;
    }
    let first = &mut chain[0];
    Some(update_handler(first, alloc, request, now))
}

/// The response code of a handler's answer, but for want of memory.
fn update_code(answer: &Result<bool, UpdateFault>) -> Option<ResponseCode>
    ensures { result ≡ update_code answer.now }
{
    match answer {
        Ok(_) => Some(ResponseCode::NO_ERROR),
        Err(UpdateFault::Code(code)) => Some(*code),
        Err(UpdateFault::Memory) => None,
    }
}

/// What the reply to an update says, for the id of the request.
fn update_contents<'z>(id: u16, code: ResponseCode) -> ReplyContents<'z>
    ensures { contents_of result ≡ update_contents id code }
{
    let mut metadata = Metadata::new(id, MessageType::Response, OpCode::UPDATE);
    metadata.response_code = code;
    ReplyContents::bare(metadata)
}

/// The fault that says that memory was refused after a handler gave this answer.
fn fault_after(answer: &Result<bool, UpdateFault>) -> CatalogError
    ensures { result ≡ fault_after answer.now }
{
    match answer {
        Ok(_) => CatalogError::MemoryAfterUpdate,
        Err(_) => CatalogError::Memory,
    }
}

/// Answers to what a handler answered to an update, and hands the reply over, with this EDNS.
fn answer_updated<S: ReplySigner, R: ResponseHandler>(
    signer: &S,
    alloc: Global,
    request: &Request,
    edns: &mut Option<Edns>,
    answer: &Result<bool, UpdateFault>,
    context: &Option<TSigResponseContext>,
    sink: &mut R,
) -> Result<ResponseInfo, CatalogError>
    ensures replied { IfOk result (λ info. (reply : Reply) × (code : ℕ) × (update_code answer.now ≡ Some code) ×
        (code < 2 ^ 12) ×
        SignedReply (S.signature_for signer.now) request.now.message edns.old
        (update_contents request.now.message.metadata.id code) context.now reply ×
        Sends R.ResponseHandler request.now.message.metadata sink.old sink.new reply (header_of info)) }
    ensures refused { IfErr result (λ e. (e ≡ fault_after answer.now) ×
        IsUntouched R.ResponseHandler sink.old sink.new) }
{
    let Some(code) = update_code(answer) else {
        return Err(CatalogError::Memory);
    };
    let contents = update_contents(request.metadata().id, code);
    let message = request.message();
    let told = send_signed(signer, alloc, message, edns, &contents, context, sink);
    drop(contents);
    match told {
        Ok(info) => Ok(info),
        Err(_) => Err(fault_after(answer)),
    }
}

/// Answers an update, and hands the reply over, with this EDNS.
#[inline(never)]
pub(crate) fn answer_update<S: ReplySigner, H: ZoneHandler, R: ResponseHandler>(
    catalog: &mut Catalog<S, H>,
    alloc: Global,
    request: &Request,
    edns: &mut Option<Edns>,
    now: u64,
    sink: &mut R,
) -> Result<ResponseInfo, CatalogError>
    ensures replied { IfOk result (λ info. (reply : Reply) ×
        UpdateReply (server_of H.ZoneHandler S.signature_for catalog.old) request.now edns.old now reply
        catalog.new.zones ×
        Sends R.ResponseHandler request.now.message.metadata sink.old sink.new reply (header_of info)) }
    ensures refused { IfErr result
        (λ e. UpdateLeaves (server_of H.ZoneHandler S.signature_for catalog.old) request.now now e catalog.new.zones ×
        IsUntouched R.ResponseHandler sink.old sink.new) }
    ensures others { catalog.new ≡ record catalog.old { zones = catalog.new.zones } }
{
    let message = request.message();
    let Some(name) = updated_zone(request) else {
        return Ok(send_error(sink, alloc, message, edns, ResponseCode::FORM_ERR));
    };
    match catalog.zones.update(alloc, name, request, now) {
        ZoneUpdate::NoZone => Ok(send_error(sink, alloc, message, edns, ResponseCode::NOT_AUTH)),
        ZoneUpdate::NoHandler => {
            Ok(send_error(sink, alloc, message, edns, ResponseCode::SERV_FAIL))
        }
        ZoneUpdate::Answered(answer, context) => {
            let signer = &catalog.signer;
            let told = answer_updated(signer, alloc, request, edns, &answer, &context, sink);
            drop(context);
            told
        }
    }
}
