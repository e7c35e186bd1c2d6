//! Replies that borrow what they are made of.

ghost use Rattle.std.specs.Prelude.{◌≡◌, ◌↔◌, ◌≢◌, ◌+◌, ◌<◌, ◌≤◌, [], length, Some, None, OnErr, OnOk, IfOk, IfErr};
ghost use Rattle.std.specs.Iterator.{IsFinite};
ghost use Rattle.std.specs.Iterator.Adapters.{once_item};
ghost use Rattle.std.specs.Option.{option_copied};
ghost use Rattle.hickory_wire.specs.serialize.writing.Encoder.{IsSameVector, max_size, written_bytes};
ghost use Rattle.wire_writing.specs.representation.Endings.{GivesRecords};
ghost use Rattle.wire_messages.specs.serialize.writing.Reply.{Reply, size_limit};
ghost use Rattle.hickory_wire.specs.serialize.writing.ReplyParts.{CannotBeWritten, ReplyEncoded, ReplyWritten};
ghost use Rattle.std.specs.Borrow.{sem};
ghost use Rattle.hickory_base.specs.representation.Lending.{LendsMetadata};
ghost use Rattle.hickory_base.specs.responses.Responses.{HasNoRecords, IsBuilt, IsReplyOf, base_of, error_metadata, header_of};

use crate::requests::message_request::{MessageRequest, Queries};
use crate::responses::response_encoding::encode_response;
use hickory_wire::{
    BinEncoder, Boxed, Edns, Header, HeaderCounts, Metadata, ProtoError, Protocol, Record,
    ReplyParts, ResponseCode, TSIG, emit_message_parts,
};
use std::alloc::Global;
use std::iter;
use std::marker::PhantomData;

/// What is told of a reply: its header, with the whole response code.
///
/// Contracts speak of the header as `header_of`.
#[derive(Clone, Copy, Debug, PartialEq, Eq)]
pub struct ResponseInfo {
    header: Header,
}

impl ResponseInfo {
    /// How many entries each section has.
    pub fn counts(&self) -> HeaderCounts
        ensures { result ≡ (header_of self.now).counts }
    {
        self.header.counts
    }

    /// The header but for its counts.
    pub fn metadata(&self) -> &Metadata
        ensures { result.now ≡ (header_of self.now).metadata }
    {
        &self.header.metadata
    }
}

impl From<Header> for ResponseInfo {
    ghost from_gives = { λ header info. header_of info ≡ header };

    fn from(header: Header) -> ResponseInfo {
        ResponseInfo { header }
    }
}

/// An iterator for a section without records: that of `iter::empty`.
pub type EmptySection<'a> = iter::Once<&'a Record>;

/// A reply to a request: it borrows the request's questions, and its records are given by four iterators over `&'a
/// Record`.
#[derive(Drop)]
pub struct MessageResponse<'q, 'a, A, N, S, D> {
    /// The header but for its counts, with the whole response code.
    pub metadata: Metadata,
    /// The questions of the request, which the reply repeats as the bytes that they were read from.
    pub queries: &'q Queries,
    /// The answer section.
    pub answers: A,
    /// The authority section but for the SOA record behind it.
    pub authorities: N,
    /// What stands last in the authority section.
    pub soa: S,
    /// The additional section without OPT and TSIG.
    pub additionals: D,
    /// The TSIG record (RFC 8945).
    pub signature: Option<Boxed<Record<TSIG>>>,
    /// What the OPT record says (RFC 6891).
    pub edns: Option<&'q Edns>,
    records: PhantomData<&'a Record>,
}

impl<'q, 'a, A, N, S, D> MessageResponse<'q, 'a, A, N, S, D> {
    /// The header but for its counts.
    pub fn metadata(&self) -> &Metadata
        ensures { result.now ≡ self.now.metadata }
    {
        &self.metadata
    }

    /// The header but for its counts, to be changed.
    pub fn metadata_mut(&mut self) -> &mut Metadata
        ensures* writes_back { sem 𝓛 (LendsMetadata A.row N.row S.row D.row self.entry result) }
        ensures value { result.now ≡ self.old.metadata }
    {
        &mut self.metadata
    }

    /// What the OPT record says, if there is one.
    pub fn edns(&self) -> Option<&'q Edns>
        ensures { option_copied result ≡ option_copied self.now.edns }
    {
        self.edns
    }

    /// Sets what the OPT record says.
    pub fn set_edns(&mut self, edns: &'q Edns) -> &mut Self
        ensures same_reference { result.ghost_name ≡ self.entry.ghost_name }
        ensures value { result.now ≡ record self.old { edns = Some edns.entry } }
    {
        self.edns = Some(edns);
        self
    }

    /// Sets the TSIG record.
    pub fn set_signature(&mut self, signature: Boxed<Record<TSIG>>)
        ensures { self.new ≡ record self.old { signature = Some signature } }
    {
        self.signature = Some(signature);
    }
}

impl<'q, 'a, A, N, S, D> MessageResponse<'q, 'a, A, N, S, D>
where
    A: Iterator<Item = &'a Record> + Drop,
    N: Iterator<Item = &'a Record> + Drop,
    S: Iterator<Item = &'a Record> + Drop,
    D: Iterator<Item = &'a Record> + Drop,
{
    /// Writes the reply: header, the questions as they were sent, and five lists of records, each cut only before a
    /// record that in full passes the encoder's limit (RFC 1035 sections 4.1.1 and 4.2.1).
    ///
    /// The encoder must be empty. TC is set where a list was cut, and the counts are of what was written.
    /// `MaxSizeExceeded` says that header and questions pass the limit, `CharacterDataTooLong` and `DataTooLong` that a
    /// record was reached that has no form in bytes. After an `Err` the encoder's bytes are empty.
    pub fn destructive_emit(self, encoder: &mut BinEncoder<'_>) -> Result<ResponseInfo, ProtoError>
        requires answers { A.can_next self.answers × IsFinite (A.remaining self.answers) }
        requires authorities { N.can_next self.authorities × IsFinite (N.remaining self.authorities) }
        requires soa { S.can_next self.soa × IsFinite (S.remaining self.soa) }
        requires additionals { D.can_next self.additionals × IsFinite (D.remaining self.additionals) }
        requires empty { written_bytes encoder.old ≡ [] }
        ensures same_vector { IsSameVector encoder.old encoder.new }
        ensures limit { max_size encoder.new ≡ max_size encoder.old }
        ensures written { IfOk result (λ info. (reply : Reply) ×
            IsReplyOf (GivesRecords A.next_gives) (GivesRecords N.next_gives) (GivesRecords S.next_gives)
            (GivesRecords D.next_gives) self.entry reply ×
            ReplyWritten (max_size encoder.old) reply (written_bytes encoder.new) (header_of info)) }
        ensures too_large { (result ≡ Err ProtoError.MaxSizeExceeded) ↔
            (max_size encoder.old < 12 + length self.entry.queries.now.bytes) }
        ensures refused { IfErr result (λ e. e ≢ ProtoError.Memory → (reply : Reply) ×
            IsReplyOf (GivesRecords A.next_gives) (GivesRecords N.next_gives) (GivesRecords S.next_gives)
            (GivesRecords D.next_gives) self.entry reply ×
            CannotBeWritten (max_size encoder.old) reply e) }
        ensures err { OnErr result (written_bytes encoder.new ≡ []) }
    {
        let MessageResponse {
            metadata,
            queries,
            answers,
            authorities,
            soa,
            additionals,
            signature,
            edns,
            records: _,
        } = self;
        let parts = ReplyParts {
            metadata,
            question: queries.as_bytes(),
            question_count: queries.count(),
            edns,
            answers,
            authorities,
            soa,
            additionals,
            signature: borrowed(&signature),
        };
        let header = emit_message_parts(encoder, parts)?;
        Ok(ResponseInfo { header })
    }

    /// The bytes of the reply over a transport, and what is told of it.
    ///
    /// Over UDP the limit is the payload that the reply's OPT record tells, 512 bytes without one (RFC 1035 section
    /// 4.2.1, RFC 6891 sections 6.2.3 and 6.2.4); else 65,535. Where header and questions pass the limit, or a record
    /// is reached that has no form in bytes, the bytes are a header of the same id that says ServFail, and nothing
    /// else. Only want of memory is an `Err`.
    pub fn encode(
        self,
        alloc: Global,
        protocol: Protocol,
    ) -> Result<(ResponseInfo, Vec<u8>), ProtoError>
        requires answers { A.can_next self.answers × IsFinite (A.remaining self.answers) }
        requires authorities { N.can_next self.authorities × IsFinite (N.remaining self.authorities) }
        requires soa { S.can_next self.soa × IsFinite (S.remaining self.soa) }
        requires additionals { D.can_next self.additionals × IsFinite (D.remaining self.additionals) }
        ensures encoded { IfOk result (λ made. (reply : Reply) ×
            IsReplyOf (GivesRecords A.next_gives) (GivesRecords N.next_gives) (GivesRecords S.next_gives)
            (GivesRecords D.next_gives) self.entry reply ×
            ReplyEncoded (size_limit protocol reply.edns) reply made.1.items (header_of made.0)) }
        ensures err { OnErr result (result ≡ Err ProtoError.Memory) }
    {
        encode_response(alloc, self, protocol)
    }
}

/// Makes replies to one request.
///
/// Contracts speak of what each of its replies has as `base_of`.
#[derive(Clone, Copy)]
pub struct MessageResponseBuilder<'q> {
    queries: &'q Queries,
    edns: Option<&'q Edns>,
}

impl<'q> MessageResponseBuilder<'q> {
    /// Replies that repeat these questions, with or without an OPT record.
    pub fn new(queries: &'q Queries, edns: Option<&'q Edns>) -> MessageResponseBuilder<'q>
        ensures { base_of result ≡ record { questions = queries.now; edns = option_copied edns.entry } }
    {
        MessageResponseBuilder { queries, edns }
    }

    /// Replies to a request, without an OPT record.
    pub fn from_message_request(message: &'q MessageRequest) -> MessageResponseBuilder<'q>
        ensures { base_of result ≡ record { questions = message.now.queries; edns = None } }
    {
        MessageResponseBuilder::new(&message.queries, None)
    }

    /// Sets what the OPT record says.
    pub fn edns(&mut self, edns: &'q Edns) -> &mut Self
        ensures same_reference { result.ghost_name ≡ self.entry.ghost_name }
        ensures value { base_of result.now ≡ record (base_of self.old) { edns = Some edns.now } }
    {
        self.edns = Some(edns);
        self
    }

    /// The reply of this metadata and these records, without a signature.
    pub fn build<'a, A, N, S, D>(
        self,
        metadata: Metadata,
        answers: A,
        authorities: N,
        soa: S,
        additionals: D,
    ) -> MessageResponse<'q, 'a, A::IntoIter, N::IntoIter, S::IntoIter, D::IntoIter>
    where
        A: IntoIterator<Item = &'a Record>,
        N: IntoIterator<Item = &'a Record>,
        S: IntoIterator<Item = &'a Record>,
        D: IntoIterator<Item = &'a Record>,
        ensures parts { IsBuilt (base_of self.entry) metadata result }
        ensures answers { A.into_iter_gives answers result.answers }
        ensures authorities { N.into_iter_gives authorities result.authorities }
        ensures soa { S.into_iter_gives soa result.soa }
        ensures additionals { D.into_iter_gives additionals result.additionals }
    {
        MessageResponse {
            metadata,
            queries: self.queries,
            answers: answers.into_iter(),
            authorities: authorities.into_iter(),
            soa: soa.into_iter(),
            additionals: additionals.into_iter(),
            signature: None,
            edns: self.edns,
            records: PhantomData,
        }
    }

    /// The reply of this metadata, without records and without a signature.
    pub fn build_no_records<'a>(
        self,
        metadata: Metadata,
    ) -> MessageResponse<
        'q,
        'a,
        EmptySection<'a>,
        EmptySection<'a>,
        EmptySection<'a>,
        EmptySection<'a>,
    >
        ensures parts { IsBuilt (base_of self.entry) metadata result }
        ensures empty { HasNoRecords result }
    {
        MessageResponse {
            metadata,
            queries: self.queries,
            answers: iter::empty(),
            authorities: iter::empty(),
            soa: iter::empty(),
            additionals: iter::empty(),
            signature: None,
            edns: self.edns,
            records: PhantomData,
        }
    }

    /// The error reply to a request of this metadata: `Metadata::response_from_request` with this code, without records
    /// and without a signature.
    pub fn error_msg<'a>(
        self,
        request_meta: &Metadata,
        response_code: ResponseCode,
    ) -> MessageResponse<
        'q,
        'a,
        EmptySection<'a>,
        EmptySection<'a>,
        EmptySection<'a>,
        EmptySection<'a>,
    >
        ensures parts { IsBuilt (base_of self.entry) (error_metadata request_meta.now response_code) result }
        ensures empty { HasNoRecords result }
    {
        let mut metadata = Metadata::response_from_request(request_meta);
        metadata.response_code = response_code;
        self.build_no_records(metadata)
    }
}

/// The TSIG record, where it lies.
pub(crate) fn borrowed(signature: &Option<Boxed<Record<TSIG>>>) -> Option<&Record<TSIG>>
    ensures { option_copied result ≡ signature.now }
{
    match signature {
        None => None,
        Some(signature) => Some(signature.get()),
    }
}

/// How many bytes a reply may have.
pub(crate) fn size_limit(protocol: Protocol, edns: Option<&Edns>) -> u16
    ensures { result ≡ size_limit protocol (option_copied edns.entry) }
{
    match (protocol, edns) {
        (Protocol::Udp, None) => 512,
        (Protocol::Udp, Some(edns)) => edns.max_payload(),
        _ => u16::MAX,
    }
}
