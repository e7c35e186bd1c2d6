//! Signing replies, and handing them over.

ghost use Rattle.std.specs.Prelude.{◌≡◌, ◌≢◌, [], IfOk, IfErr, OnOk, Some, None};
ghost use Rattle.std.specs.Option.{option_copied};
ghost use Rattle.hickory_wire.specs.serialize.writing.Encoder.{IsSameVector, max_size, written_bytes};
ghost use Rattle.wire_messages.specs.serialize.writing.Reply.{Reply};
ghost use Rattle.hickory_wire.specs.serialize.writing.ReplyParts.{CannotBeWritten};
ghost use Rattle.wire_writing.specs.serialize.writing.Writing.{Fronts, Written};
ghost use Rattle.hickory_base.specs.responses.Responses.{header_of};
ghost use Rattle.hickory_catalog.specs.replies.Replies.{contents_of, plain_reply};
ghost use Rattle.hickory_catalog.specs.replies.Sending.{IsUntouched, Sends};
ghost use Rattle.hickory_catalog.specs.replies.Signing.{IsSignatureOf, SignedReply};

use crate::contents::{ReplyContents, response};
use crate::edns::set_high_code;
use crate::sending::{send_contents, send_error};
use crate::signer::{ReplySigner, SignError};
use hickory_base::errors::CatalogError;
use hickory_base::message_request::MessageRequest;
use hickory_base::server::{ResponseHandler, ResponseInfo};
use hickory_wire::{
    BinEncoder, Boxed, Edns, ProtoError, Record, ResponseCode, TSIG, TSigResponseContext,
};
use std::alloc::Global;

/// Writes a reply that has no signature. The encoder must be empty.
fn emit(
    encoder: &mut BinEncoder<'_>,
    request: &MessageRequest,
    edns: Option<&Edns>,
    contents: &ReplyContents<'_>,
) -> Result<ResponseInfo, ProtoError>
    requires { written_bytes encoder.old ≡ [] }
    ensures same_vector { IsSameVector encoder.old encoder.new }
    ensures written { OnOk result ((fronts : Fronts) ×
        Written (max_size encoder.old) (plain_reply request.now (option_copied edns.entry) (contents_of contents.now))
        (written_bytes encoder.new) fronts) }
    ensures refused { IfErr result (λ e. e ≢ ProtoError.Memory →
        CannotBeWritten (max_size encoder.old)
        (plain_reply request.now (option_copied edns.entry) (contents_of contents.now)) e) }
{
    response(request, edns, contents).destructive_emit(encoder)
}

/// The bytes of a reply that has no signature, within 65,535.
fn written(
    alloc: Global,
    request: &MessageRequest,
    edns: Option<&Edns>,
    contents: &ReplyContents<'_>,
) -> Result<Vec<u8>, ProtoError>
    ensures written { IfOk result (λ bytes. (fronts : Fronts) ×
        Written 65535 (plain_reply request.now (option_copied edns.entry) (contents_of contents.now)) bytes.items
        fronts) }
    ensures refused { IfErr result (λ e. e ≢ ProtoError.Memory →
        CannotBeWritten 65535 (plain_reply request.now (option_copied edns.entry) (contents_of contents.now)) e) }
{
    let mut bytes = Vec::new(alloc);
    emit(
        &mut BinEncoder::new(alloc, &mut bytes),
        request,
        edns,
        contents,
    )?;
    Ok(bytes)
}

/// Why a reply that cannot be written is not signed: only want of memory is told as such.
fn writing_error(e: ProtoError) -> SignError
    ensures memory { e ≡ ProtoError.Memory → result ≡ SignError.Memory }
    ensures failed { e ≢ ProtoError.Memory → result ≡ SignError.Failed }
{
    match e {
        ProtoError::Memory => SignError::Memory,
        _ => SignError::Failed,
    }
}

/// The signature of a reply, which has none yet.
fn signature<S: ReplySigner>(
    signer: &S,
    alloc: Global,
    request: &MessageRequest,
    edns: Option<&Edns>,
    contents: &ReplyContents<'_>,
    context: &TSigResponseContext,
) -> Result<Boxed<Record<TSIG>>, SignError>
    ensures signed { IfOk result (λ signature. IsSignatureOf (S.signature_for signer.now) context.entry.now
        (plain_reply request.now (option_copied edns.entry) (contents_of contents.now)) (Some signature)) }
    ensures failed { IfErr result (λ e. e ≢ SignError.Memory →
        IsSignatureOf (S.signature_for signer.now) context.entry.now
        (plain_reply request.now (option_copied edns.entry) (contents_of contents.now)) None) }
{
    match written(alloc, request, edns, contents) {
        Ok(bytes) => signer.sign(alloc, context, bytes.as_slice()),
        Err(e) => Err(writing_error(e)),
    }
}

/// Hands over the reply that says this, with this EDNS, signed as this context has it. Where it cannot be signed, the
/// reply is ServFail without a signature.
#[inline(never)]
pub(crate) fn send_with_signature<S: ReplySigner, R: ResponseHandler>(
    signer: &S,
    alloc: Global,
    request: &MessageRequest,
    edns: &mut Option<Edns>,
    contents: &ReplyContents<'_>,
    context: &TSigResponseContext,
    sink: &mut R,
) -> Result<ResponseInfo, CatalogError>
    ensures replied { IfOk result (λ info. (reply : Reply) ×
        SignedReply (S.signature_for signer.now) request.now edns.old (contents_of contents.now)
        (Some context.entry.now) reply ×
        Sends R.ResponseHandler request.now.metadata sink.old sink.new reply (header_of info)) }
    ensures refused { IfErr result (λ e. (e ≡ CatalogError.Memory) × IsUntouched R.ResponseHandler sink.old sink.new) }
{
    set_high_code(contents.metadata.response_code, edns);
    match signature(signer, alloc, request, edns.as_ref(), contents, context) {
        Ok(made) => Ok(send_contents(sink, alloc, request, edns.as_ref(), contents, Some(made))),
        Err(SignError::Failed) => Ok(send_error(
            sink,
            alloc,
            request,
            edns,
            ResponseCode::SERV_FAIL,
        )),
        Err(SignError::Memory) => Err(CatalogError::Memory),
    }
}

/// Hands a reply to the sink, signed where the answer came with a context.
#[inline(always)]
pub(crate) fn send_signed<S: ReplySigner, R: ResponseHandler>(
    signer: &S,
    alloc: Global,
    request: &MessageRequest,
    edns: &mut Option<Edns>,
    contents: &ReplyContents<'_>,
    context: &Option<TSigResponseContext>,
    sink: &mut R,
) -> Result<ResponseInfo, CatalogError>
    ensures replied { IfOk result (λ info. (reply : Reply) ×
        SignedReply (S.signature_for signer.now) request.now edns.old (contents_of contents.now) context.now reply ×
        Sends R.ResponseHandler request.now.metadata sink.old sink.new reply (header_of info)) }
    ensures refused { IfErr result (λ e. (e ≡ CatalogError.Memory) × IsUntouched R.ResponseHandler sink.old sink.new) }
{
    match context {
        Some(context) => {
            send_with_signature(signer, alloc, request, edns, contents, context, sink)
        }
        None => {
            set_high_code(contents.metadata.response_code, edns);
            Ok(send_contents(sink, alloc, request, edns.as_ref(), contents, None))
        }
    }
}
