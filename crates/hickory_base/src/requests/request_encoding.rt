//! Requests in bytes (RFC 1035 section 4.1).

ghost use Rattle.std.specs.Prelude.{◌≡◌, ◌≢◌, ◌↔◌, ◌+◌, ◌<◌, [], length, IfOk, IfErr, OnErr, false};
ghost use Rattle.hickory_base.specs.requests.RequestForm.{questions_form, written_form};
ghost use Rattle.hickory_wire.specs.serialize.writing.Encoder.{IsSameVector, max_size, written_bytes};
ghost use Rattle.hickory_wire.specs.serialize.writing.ReplyParts.{CannotBeWritten, ReplyWritten};
ghost use Rattle.wire_messages.specs.declared.op.header.Header.{Header as MessageHeader};

use crate::requests::message_request::MessageRequest;
use crate::responses::message_response::borrowed;
use crate::server::Request;
use hickory_wire::{
    BinEncoder, Edns, Header, LowerQuery, Octets, ProtoError, Protocol, Record, ReplyParts,
    emit_message_parts,
};
use std::alloc::{AllocError, Global};
use std::net::SocketAddr;

/// Questions one behind the other, each written from its query, its name in lower case.
fn question_bytes(alloc: Global, queries: &[LowerQuery]) -> Result<Vec<u8>, AllocError>
    ensures { IfOk result (λ bytes. bytes.items ≡ questions_form queries.now) }
{
    let mut bytes = Vec::new(alloc);
    for query in queries {
        query.emit(&mut bytes)?;
    }
    Ok(bytes)
}

impl MessageRequest {
    /// Writes the message: header, questions, and five lists of records, each cut only before a record that in full
    /// passes the encoder's limit (RFC 1035 sections 4.1.1 and 4.2.1). Each question is written anew from its query,
    /// with its name in lower case.
    ///
    /// The encoder must be empty. The answer is the header as it was written: TC is set where a list was cut, and the
    /// counts are of what was written. `MaxSizeExceeded` says that header and questions pass the limit,
    /// `CharacterDataTooLong` and `DataTooLong` that a record was reached that has no form in bytes. After an `Err` the
    /// encoder's bytes are empty.
    pub fn emit(&self, encoder: &mut BinEncoder<'_>) -> Result<Header, ProtoError>
        requires { written_bytes encoder.old ≡ [] }
        ensures same_vector { IsSameVector encoder.old encoder.new }
        ensures limit { max_size encoder.new ≡ max_size encoder.old }
        ensures written { IfOk result (ReplyWritten (max_size encoder.old) (written_form self.now)
            (written_bytes encoder.new)) }
        ensures too_large { IfErr result (λ e. e ≢ ProtoError.Memory →
            (e ≡ ProtoError.MaxSizeExceeded) ↔
            (max_size encoder.old < 12 + length (questions_form self.now.queries.queries))) }
        ensures refused { IfErr result (λ e. e ≢ ProtoError.Memory →
            CannotBeWritten (max_size encoder.old) (written_form self.now) e) }
        ensures err { OnErr result (written_bytes encoder.new ≡ []) }
    {
        let question = question_bytes(encoder.allocator(), self.queries.queries())?;
        let nothing: &[Record] = &[];
        let parts = ReplyParts {
            metadata: self.metadata,
            question: question.as_slice(),
            question_count: self.queries.count(),
            edns: self.edns.as_ref(),
            answers: self.answers.as_slice().iter(),
            authorities: self.authorities.as_slice().iter(),
            soa: nothing.iter(),
            additionals: self.additionals.as_slice().iter(),
            signature: borrowed(&self.signature),
        };
        emit_message_parts(encoder, parts)
    }
}

impl Request {
    /// The request of a message that was not read from bytes, with the address and the transport that it came from. Its
    /// bytes are the message as `MessageRequest::emit` writes it within 65,535 bytes; the message stays as it is, with
    /// the question bytes that it has.
    ///
    /// The errors are those of `MessageRequest::emit`.
    pub fn from_message(
        alloc: Global,
        message: MessageRequest,
        src: SocketAddr,
        protocol: Protocol,
    ) -> Result<Request, ProtoError>
        ensures message { IfOk result (λ r. r.message ≡ message) }
        ensures written { IfOk result (λ r. (header : MessageHeader) ×
            ReplyWritten 65535 (written_form message) r.bytes header) }
        ensures source { IfOk result (λ r. (r.source ≡ src) × (r.protocol ≡ protocol)) }
        ensures was_read { IfOk result (λ r. r.was_read ≡ false) }
        ensures too_large { IfErr result (λ e. e ≢ ProtoError.Memory →
            (e ≡ ProtoError.MaxSizeExceeded) ↔ (65535 < 12 + length (questions_form message.queries.queries))) }
        ensures refused { IfErr result (λ e. e ≢ ProtoError.Memory → CannotBeWritten 65535 (written_form message) e) }
    {
        let mut bytes = Vec::new(alloc);
        message.emit(&mut BinEncoder::new(alloc, &mut bytes))?;
        Ok(Request::new(message, Octets::from_vec(bytes), src, protocol))
    }
}
