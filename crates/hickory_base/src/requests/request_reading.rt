//! Reading requests (RFC 1035 section 4.1).

ghost use Rattle.std.specs.Prelude.{◌≡◌, ◌≢◌, ◌<◌, ◌≤◌, [], length, IfOk, IfErr, MatchResult, OnErr, OnOk, false, true};
ghost use Rattle.hickory_base.specs.representation.QuestionList.{question_list};
ghost use Rattle.hickory_base.specs.requests.RepeatableQuestions.{AreRepeatable, HasRepeatableQuestions};
ghost use Rattle.hickory_base.specs.requests.RequestReading.{FollowsHeader, HasNoAdditional, HasNoRecord, IsCleared, IsFaultOf, IsQuestionSection, message_of, question_section, additionals_of, sections};
ghost use Rattle.wire_messages.specs.serialize.layout.MessageLayout.{high_code, with_high_code};
ghost use Rattle.wire_reading.specs.serialize.layout.WholeMessage.{MessageAt};
ghost use Rattle.wire_reading.specs.serialize.reading.MessageReading.{Fault, Reads, message};
ghost use Rattle.wire_messages.specs.serialize.reading.Reading.{Gives, GivesSeenBy};
ghost use Rattle.wire_messages.specs.serialize.reading.RecordReading.{question};
ghost use Rattle.wire_messages.specs.serialize.reading.SectionReading.{items, section_record};
ghost use Rattle.wire_names.specs.serialize.layout.Bytes.{AreBytes};
ghost use Rattle.wire_names.specs.declared.error.DecodeError.{DecodeError};
ghost use Rattle.wire_names.specs.declared.error.DecodeError.TheVariants as decode_error;
ghost use Rattle.wire_reading.specs.declared.op.message.Message.{Message};

use crate::requests::message_request::{MessageRequest, Queries, Questions};
use crate::server::Request;
use hickory_wire::{
    BinDecoder, DecodeError, Edns, HeaderCounts, Items, LowerQuery, MessageType, Metadata, Octets,
    OpCode, ProtoError, Protocol, Record, ResponseCode, ShortOctets,
};
use std::alloc::{AllocError, Global};
use std::mem;
use std::net::SocketAddr;

/// The question at this place, with its name in lower case beside it.
#[inline(never)]
fn read_lower_query(alloc: Global, decoder: &mut BinDecoder<'_>) -> Result<LowerQuery, DecodeError>
    ensures { Gives result decoder.old decoder.new question }
{
    let mut query = LowerQuery::of_root();
    query.read_in_place(alloc, decoder)?;
    Ok(query)
}

/// So many questions as a list.
fn read_query_list(
    alloc: Global,
    decoder: &mut BinDecoder<'_>,
    count: u16,
) -> Result<Items<LowerQuery>, DecodeError>
    ensures exact { Gives result decoder.old decoder.new (items question count []) }
    ensures number { IfOk result (λ queries. length queries ≤ count) }
{
    let mut queries = Items::new(alloc);
    'queries: for _ in 0..count {
        queries.push(read_lower_query(alloc, decoder)?)?;
    }
    Ok(queries)
}

/// One question in the place of others. It takes no list.
#[tactic(auto, unfolding(wire_messages::specs::serialize::reading::SectionReading::items))]
fn read_one(
    alloc: Global,
    decoder: &mut BinDecoder<'_>,
    queries: &mut Questions,
) -> Result<(), DecodeError>
    ensures exact { GivesSeenBy (λ _. question_list queries.new) result decoder.old decoder.new (items question 1 []) }
    ensures number { length (question_list queries.old) ≤ 65535 → length (question_list queries.new) ≤ 65535 }
{
    if let Questions::One(query) = queries {
        query.read_in_place(alloc, decoder)?;
        return Ok(());
    }
    let mut query = LowerQuery::of_root();
    query.read_in_place(alloc, decoder)?;
    *queries = Questions::One(query);
    Ok(())
}

impl Queries {
    /// A section to be read into, of one question as most are.
    fn unread() -> Queries {
        Queries::new(Questions::One(LowerQuery::of_root()), ShortOctets::new())
    }

    /// No question.
    fn none(alloc: Global) -> Queries
        ensures { result ≡ record { queries = []; bytes = [] } }
    {
        Queries::new(Questions::Many(Items::new(alloc)), ShortOctets::new())
    }

    /// One question, and the bytes that hold it.
    #[tactic(auto, unfolding(crate::specs::requests::RequestReading::question_section, wire_messages::specs::serialize::reading::SectionReading::items))]
    fn read_single(
        &mut self,
        alloc: Global,
        decoder: &mut BinDecoder<'_>,
    ) -> Result<(), DecodeError>
        ensures { GivesSeenBy (λ _. self.new) result decoder.old decoder.new (question_section 1) }
    {
        let start = decoder.index();
        read_one(alloc, decoder, &mut self.queries)?;
        self.original.set(alloc, decoder.slice_from(start)?)?;
        Ok(())
    }

    /// Reads as `read` does, in the place of other questions.
    #[inline(always)]
    fn read_in_place(
        &mut self,
        alloc: Global,
        decoder: &mut BinDecoder<'_>,
        count: u16,
    ) -> Result<(), DecodeError>
        ensures { GivesSeenBy (λ _. self.new) result decoder.old decoder.new (question_section count) }
    {
        if count == 1 {
            return self.read_single(alloc, decoder);
        }
        self.read_list(alloc, decoder, count)
    }

    /// So many questions as a list, and the bytes that hold them.
    #[inline(never)]
    #[tactic(auto, unfolding(crate::specs::requests::RequestReading::question_section))]
    fn read_list(
        &mut self,
        alloc: Global,
        decoder: &mut BinDecoder<'_>,
        count: u16,
    ) -> Result<(), DecodeError>
        ensures { GivesSeenBy (λ _. self.new) result decoder.old decoder.new (question_section count) }
    {
        let start = decoder.index();
        self.queries = Questions::Many(read_query_list(alloc, decoder, count)?);
        self.original = ShortOctets::from_slice(alloc, decoder.slice_from(start)?)?;
        Ok(())
    }

    /// So many questions, one behind the other, and the bytes that hold them (RFC 1035 section 4.1.2). A header counts
    /// its questions in 16 bits.
    ///
    /// Memory is taken as questions are read: a count that is higher than the questions that are there costs nothing.
    /// Then the decoder's place is the one behind the last. An error is the first fault of the first question that has
    /// one, or `Memory` where memory was refused. After an error the place is left open.
    pub fn read(
        alloc: Global,
        decoder: &mut BinDecoder<'_>,
        count: u16,
    ) -> Result<Queries, DecodeError>
        ensures { Gives result decoder.old decoder.new (question_section count) }
    {
        let mut queries = Queries::unread();
        queries.read_in_place(alloc, decoder, count)?;
        Ok(queries)
    }
}

/// The metadata of a header, with the high bits of the response code from the OPT record (RFC 6891 section 6.1.3).
fn with_high_code(mut metadata: Metadata, edns: &Option<Edns>) -> Metadata
    requires { metadata.response_code < 16 }
    ensures { result ≡ with_high_code metadata (high_code edns.now) }
{
    if let Some(edns) = edns {
        let low = metadata.response_code.low();
        metadata.response_code = ResponseCode::from_parts(edns.rcode_high(), low);
    }
    metadata
}

/// So many records of an answer or authority section, in the place of others. That it is no part of another function
/// spares requests without such records what a list of them takes on the stack.
#[inline(never)]
fn read_some_records(
    alloc: Global,
    decoder: &mut BinDecoder<'_>,
    count: u16,
    records: &mut Items<Record>,
) -> Result<(), DecodeError>
    ensures { GivesSeenBy (λ _. records.new) result decoder.old decoder.new (items section_record count []) }
{
    *records = decoder.read_section(alloc, count)?;
    Ok(())
}

/// So many records of an answer or authority section, where none were read yet.
#[tactic(auto, unfolding(wire_messages::specs::serialize::reading::SectionReading::items))]
fn read_records(
    alloc: Global,
    decoder: &mut BinDecoder<'_>,
    count: u16,
    records: &mut Items<Record>,
) -> Result<(), DecodeError>
    requires { records.old ≡ [] }
    ensures { GivesSeenBy (λ _. records.new) result decoder.old decoder.new (items section_record count []) }
{
    if count == 0 {
        return Ok(());
    }
    read_some_records(alloc, decoder, count, records)
}

impl MessageRequest {
    /// A message without a record, to be read into: a message is too large to be handed on from step to step.
    fn empty(alloc: Global) -> MessageRequest
        ensures { HasNoRecord result }
    {
        MessageRequest {
            metadata: Metadata::new(0, MessageType::Query, OpCode::QUERY),
            queries: Queries::unread(),
            answers: Items::new(alloc),
            authorities: Items::new(alloc),
            additionals: Items::new(alloc),
            signature: None,
            edns: None,
        }
    }

    /// Takes the records out, so that others may be read in their place.
    #[inline(always)]
    fn clear(&mut self, alloc: Global)
        ensures { HasNoRecord self.new }
    {
        self.answers = Items::new(alloc);
        self.authorities = Items::new(alloc);
        self.additionals = Items::new(alloc);
        self.signature = None;
        self.edns = None;
    }

    /// Reads so many records of the additional section, and what its OPT record adds to the response code.
    #[inline(never)]
    #[tactic(auto, unfolding(crate::specs::requests::RequestReading::additionals_of))]
    fn read_some_additionals(
        &mut self,
        alloc: Global,
        decoder: &mut BinDecoder<'_>,
        count: u16,
    ) -> Result<(), DecodeError>
        requires { self.old.metadata.response_code < 16 }
        ensures { GivesSeenBy (λ _. self.new) result decoder.old decoder.new (additionals_of self.old count) }
    {
        let additionals = decoder.read_additionals(alloc, count)?;
        let (additionals, edns, signature) = additionals.into_parts();
        self.metadata = with_high_code(self.metadata, &edns);
        self.additionals = additionals;
        self.edns = edns;
        self.signature = signature;
        Ok(())
    }

    /// Reads the additional records in the place of none, where most requests have none too.
    #[tactic(auto, unfolding(crate::specs::requests::RequestReading::additionals_of, wire_messages::specs::serialize::reading::SectionReading::additionals_after))]
    fn read_additionals(
        &mut self,
        alloc: Global,
        decoder: &mut BinDecoder<'_>,
        count: u16,
    ) -> Result<(), DecodeError>
        requires code { self.old.metadata.response_code < 16 }
        requires none { HasNoAdditional self.old }
        ensures { GivesSeenBy (λ _. self.new) result decoder.old decoder.new (additionals_of self.old count) }
    {
        if count == 0 {
            return Ok(());
        }
        self.read_some_additionals(alloc, decoder, count)
    }

    /// Reads the records behind the questions.
    #[tactic(auto, unfolding(crate::specs::requests::RequestReading::sections, crate::specs::requests::RequestReading::additionals_of))]
    fn read_sections(
        &mut self,
        alloc: Global,
        decoder: &mut BinDecoder<'_>,
        counts: &HeaderCounts,
    ) -> Result<(), DecodeError>
        requires code { self.old.metadata.response_code < 16 }
        requires none { HasNoRecord self.old }
        ensures { GivesSeenBy (λ _. self.new) result decoder.old decoder.new (sections self.old counts.now) }
    {
        read_records(alloc, decoder, counts.answers, &mut self.answers)?;
        read_records(alloc, decoder, counts.authorities, &mut self.authorities)?;
        self.read_additionals(alloc, decoder, counts.additionals)
    }

    /// The message at this place, with pointers counted from the front of the bytes (RFC 1035 section 4.1), in the
    /// place of one without a record.
    ///
    /// Then the decoder's place is the one behind it. After an error the place is left open.
    #[tactic(auto, unfolding(crate::specs::requests::RequestReading::question_section, crate::specs::requests::RequestReading::sections, crate::specs::requests::RequestReading::additionals_of, wire_reading::specs::serialize::reading::MessageReading::message))]
    #[inline(always)]
    fn read_in_place(
        &mut self,
        alloc: Global,
        decoder: &mut BinDecoder<'_>,
    ) -> Result<(), DecodeError>
        requires { HasNoRecord self.old }
        ensures exact { GivesSeenBy (λ _. message_of self.new) result decoder.old decoder.new message }
        ensures questions { IfOk result (λ _. FollowsHeader decoder.old self.new.queries) }
    {
        let header = decoder.read_header()?;
        self.metadata = header.metadata;
        self.queries
            .read_in_place(alloc, decoder, header.counts.queries)?;
        self.read_sections(alloc, decoder, &header.counts)
    }
}

/// Reads the message that bytes begin with in the place of one without a record.
#[inline(always)]
fn read_message(
    alloc: Global,
    bytes: &[u8],
    message: &mut MessageRequest,
) -> Result<(), DecodeError>
    requires { HasNoRecord message.old }
    ensures bytes { AreBytes bytes.now }
    ensures found { IfOk result (λ _. Reads bytes.now (message_of message.new)) }
    ensures questions { IfOk result (λ _. IsQuestionSection bytes.now message.new.queries) }
    ensures fault { IfErr result (λ e. e ≢ decode_error.Memory → Fault bytes.now e) }
{
    message.read_in_place(alloc, &mut BinDecoder::new(bytes))
}

/// What a request cannot be read for: want of memory stays want of memory.
fn reading_error(e: DecodeError) -> ProtoError
    ensures memory { e ≡ decode_error.Memory → result ≡ ProtoError.Memory }
    ensures fault { e ≢ decode_error.Memory → result ≡ ProtoError.Decode e }
{
    match e {
        DecodeError::Memory => ProtoError::Memory,
        fault => ProtoError::Decode(fault),
    }
}

impl Request {
    /// Reads the message that its bytes begin with, in the place of one without a record. That it was read is not noted
    /// yet.
    #[inline(always)]
    fn read_own_bytes(&mut self, alloc: Global) -> Result<(), ProtoError>
        requires none { HasNoRecord self.old.message }
        requires unread { self.old.was_read ≡ false }
        ensures stands { IfOk result (λ _. MessageAt self.old.bytes (message_of self.new.message)) }
        ensures found { IfOk result (λ _. Reads self.old.bytes (message_of self.new.message)) }
        ensures questions { IfOk result (λ _. IsQuestionSection self.old.bytes self.new.message.queries) }
        ensures repeatable { IfOk result (λ _. AreRepeatable self.old.bytes self.new.message.queries.queries →
            HasRepeatableQuestions self.new) }
        ensures standing { (m : Message) → MessageAt self.old.bytes m →
            MatchResult result (λ _. message_of self.new.message ≡ m) (λ e. e ≡ ProtoError.Memory) }
        ensures only { (m : Message) → Reads self.old.bytes m →
            MatchResult result (λ _. message_of self.new.message ≡ m) (λ e. e ≡ ProtoError.Memory) }
        ensures fault { IfErr result (λ e. e ≢ ProtoError.Memory → IsFaultOf self.old.bytes e) }
        ensures kept { (self.new.bytes ≡ self.old.bytes) × (self.new.source ≡ self.old.source) ×
            (self.new.protocol ≡ self.old.protocol) × (self.new.was_read ≡ false) }
    {
        match read_message(alloc, self.bytes.as_slice(), &mut self.message) {
            Ok(()) => Ok(()),
            Err(e) => Err(reading_error(e)),
        }
    }

    /// Notes that its message was read from its bytes.
    fn note_read(&mut self)
        requires { Reads self.old.bytes (message_of self.old.message) }
        ensures { self.new ≡ record self.old { was_read = true } }
    {
        self.was_read = true;
    }

    /// The request that bytes begin with (RFC 1035 section 4.1), with the address and the transport that it came from.
    /// What stands behind the message is kept in its bytes and not looked at. The time grows with the message, whose
    /// names are not walked again behind pointers, and the memory with its names and data.
    ///
    /// # Errors
    ///
    /// `Decode` tells the first fault of the bytes, as `Message::read` has it, and is never `Decode(Memory)`: want of
    /// memory is `Memory`. The bytes are gone with an error.
    pub fn from_bytes(
        alloc: Global,
        bytes: Vec<u8>,
        src: SocketAddr,
        protocol: Protocol,
    ) -> Result<Request, ProtoError>
        // What is read stands there.
        ensures stands { IfOk result (λ r. MessageAt bytes.items (message_of r.message)) }
        ensures found { IfOk result (λ r. Reads bytes.items (message_of r.message)) }
        ensures questions { IfOk result (λ r. IsQuestionSection bytes.items r.message.queries) }
        ensures repeatable { IfOk result (λ r. AreRepeatable bytes.items r.message.queries.queries →
            HasRepeatableQuestions r) }
        // What stands there is read, unless memory is refused.
        ensures standing { (m : Message) → MessageAt bytes.items m →
            MatchResult result (λ r. message_of r.message ≡ m) (λ e. e ≡ ProtoError.Memory) }
        ensures only { (m : Message) → Reads bytes.items m →
            MatchResult result (λ r. message_of r.message ≡ m) (λ e. e ≡ ProtoError.Memory) }
        // An error is the first fault.
        ensures fault { IfErr result (λ e. e ≢ ProtoError.Memory → IsFaultOf bytes.items e) }
        ensures raw { IfOk result (λ r. r.bytes ≡ bytes.items) }
        ensures was_read { IfOk result (λ r. r.was_read ≡ true) }
        ensures source { IfOk result (λ r. (r.source ≡ src) × (r.protocol ≡ protocol)) }
    {
        let message = MessageRequest::empty(alloc);
        let mut request = Request::new(message, Octets::from_vec(bytes), src, protocol);
        request.read_own_bytes(alloc)?;
        request.note_read();
        Ok(request)
    }

    /// Takes the memory of its bytes, of which none are left.
    fn take_bytes(&mut self, alloc: Global) -> Vec<u8>
        ensures taken { result.items ≡ [] }
        ensures left { self.new ≡ record self.old { bytes = []; was_read = false } }
    {
        self.was_read = false;
        let mut own = mem::replace(&mut self.bytes, Octets::from_vec(Vec::new(alloc))).into_vec();
        own.clear();
        own
    }

    /// Puts a copy of bytes in the place of its own, whose memory is used again.
    fn set_bytes(&mut self, alloc: Global, bytes: &[u8]) -> Result<(), AllocError>
        ensures bytes { OnOk result (self.new ≡ record self.old { bytes = bytes.now; was_read = false }) }
        ensures kept { (self.new.source ≡ self.old.source) × (self.new.protocol ≡ self.old.protocol) }
    {
        let mut own = self.take_bytes(alloc);
        own.extend_from_slice(bytes)?;
        self.bytes = Octets::from_vec(own);
        Ok(())
    }

    /// Leaves nothing of its message.
    #[inline(never)]
    fn clear(&mut self, alloc: Global)
        ensures cleared { IsCleared self.new }
        ensures kept { (self.new.source ≡ self.old.source) × (self.new.protocol ≡ self.old.protocol) }
    {
        self.bytes = Octets::from_vec(self.take_bytes(alloc));
        self.message.clear(alloc);
        self.message.metadata = Metadata::new(0, MessageType::Query, OpCode::QUERY);
        self.message.queries = Queries::none(alloc);
    }

    /// Reads a message in the place of another, from a copy of its bytes in the place of others.
    fn read_copy(&mut self, alloc: Global, bytes: &[u8]) -> Result<(), ProtoError>
        ensures stands { IfOk result (λ _. MessageAt bytes.now (message_of self.new.message)) }
        ensures found { IfOk result (λ _. Reads bytes.now (message_of self.new.message)) }
        ensures questions { IfOk result (λ _. IsQuestionSection bytes.now self.new.message.queries) }
        ensures standing { (m : Message) → MessageAt bytes.now m →
            MatchResult result (λ _. message_of self.new.message ≡ m) (λ e. e ≡ ProtoError.Memory) }
        ensures only { (m : Message) → Reads bytes.now m →
            MatchResult result (λ _. message_of self.new.message ≡ m) (λ e. e ≡ ProtoError.Memory) }
        ensures fault { IfErr result (λ e. e ≢ ProtoError.Memory → IsFaultOf bytes.now e) }
        ensures raw { OnOk result (self.new.bytes ≡ bytes.now) }
        ensures was_read { OnOk result (self.new.was_read ≡ true) }
        ensures kept { (self.new.source ≡ self.old.source) × (self.new.protocol ≡ self.old.protocol) }
    {
        self.set_bytes(alloc, bytes)?;
        self.message.clear(alloc);
        self.read_own_bytes(alloc)?;
        self.note_read();
        Ok(())
    }

    /// Reads as `from_bytes` does, in the place of this request: its memory is used again, and no request is made or
    /// handed on. So a server may read each message that comes.
    ///
    /// After an error nothing is left of its message: it has no bytes, no question and no record, and the header of a
    /// query with id 0; and it was not read.
    #[inline(always)]
    pub fn read_in_place(
        &mut self,
        alloc: Global,
        bytes: &[u8],
        src: SocketAddr,
        protocol: Protocol,
    ) -> Result<(), ProtoError>
        // What is read stands there.
        ensures stands { IfOk result (λ _. MessageAt bytes.now (message_of self.new.message)) }
        ensures found { IfOk result (λ _. Reads bytes.now (message_of self.new.message)) }
        ensures questions { IfOk result (λ _. IsQuestionSection bytes.now self.new.message.queries) }
        // What stands there is read, unless memory is refused.
        ensures standing { (m : Message) → MessageAt bytes.now m →
            MatchResult result (λ _. message_of self.new.message ≡ m) (λ e. e ≡ ProtoError.Memory) }
        ensures only { (m : Message) → Reads bytes.now m →
            MatchResult result (λ _. message_of self.new.message ≡ m) (λ e. e ≡ ProtoError.Memory) }
        // An error is the first fault, and nothing is left.
        ensures fault { IfErr result (λ e. e ≢ ProtoError.Memory → IsFaultOf bytes.now e) }
        ensures err { OnErr result (IsCleared self.new) }
        ensures raw { OnOk result (self.new.bytes ≡ bytes.now) }
        ensures was_read { OnOk result (self.new.was_read ≡ true) }
        ensures source { (self.new.source ≡ src) × (self.new.protocol ≡ protocol) }
    {
        self.source = src;
        self.protocol = protocol;
        match self.read_copy(alloc, bytes) {
            Ok(()) => Ok(()),
            Err(e) => {
                self.clear(alloc);
                Err(e)
            }
        }
    }
}
