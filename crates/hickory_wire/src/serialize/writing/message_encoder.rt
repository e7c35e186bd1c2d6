//! Whole messages in bytes.

ghost use Rattle.std.specs.Prelude.{◌≡◌, ℕ, ◌+◌, ◌≤◌, ◌<◌, ◌↔◌, ◌≢◌, ◌++◌, [], length, replicate, OnOk, OnErr, IfOk, IfErr, IfSome, IsTrue, None};
ghost use Rattle.std.specs.Iterator.{IsFinite};
ghost use Rattle.std.specs.Option.{option_copied};
ghost use Rattle.wire_names.specs.serialize.layout.Bytes.{AreBytes};
ghost use Rattle.hickory_wire.specs.serialize.writing.Encoder.{written_bytes, max_size, IsSameVector};
ghost use Rattle.wire_messages.specs.serialize.layout.HeaderLayout.{header_octets};
ghost use Rattle.wire_messages.specs.serialize.writing.ReplyRanges.{IsEdnsInRange};
ghost use Rattle.wire_writing.specs.serialize.writing.Writing.{fallback_header};
ghost use Rattle.hickory_wire.specs.serialize.writing.ReplyParts.{GivesLists, RecordLists, CannotBeWritten, ReplyEncoded, ReplyWritten, WritesLists, header_by, reply_of};

use crate::serialize::writing::encoder::BinEncoder;
use std::alloc::{AllocError, Global};
use wire_messages::op::edns::Edns;
use wire_messages::op::header::{Header, HeaderCounts, MessageType, Metadata};
use wire_messages::op::op_code::OpCode;
use wire_messages::op::response_code::ResponseCode;
use wire_messages::rr::record::Record;
use wire_messages::rr::tsig::TSIG;
use wire_names::error::ProtoError;
use wire_writing::serialize::writing::compression_table::CompressionTable;
use wire_writing::serialize::writing::header_encoder::{header_bytes, put_header};
use wire_writing::serialize::writing::list_encoder::{
    Stops, drain, write_list, write_optional_edns, write_optional_signature,
};
use wire_writing::serialize::writing::question_notes::note_question;

// Room for most replies at once: what a reply over UDP may have without EDNS (RFC 1035 section 4.2.1).
const FIRST_CAPACITY: usize = 512;

/// What a reply is written of (RFC 1035 section 4.1): the four lists are iterators over records, and the rest is
/// borrowed.
#[derive(Drop)]
pub struct ReplyParts<'q, A, N, S, D> {
    /// The header but for the counts, and the whole response code, of which the header has the low four bits.
    pub metadata: Metadata,
    /// The bytes of the question section, as they were read behind a header.
    pub question: &'q [u8],
    /// How many questions these bytes hold.
    pub question_count: u16,
    /// What the OPT record says, with the high bits of the response code.
    pub edns: Option<&'q Edns>,
    /// The answer section.
    pub answers: A,
    /// The authority section but for the SOA record behind it.
    pub authorities: N,
    /// What stands last in the authority section.
    pub soa: S,
    /// The additional section without OPT and TSIG.
    pub additionals: D,
    /// The TSIG record, the last of all.
    pub signature: Option<&'q Record<TSIG>>,
}

// How many records of each section were written, and how the lists ended.
#[derive(Clone, Copy)]
struct Sections {
    answers: u16,
    authorities: u16,
    additionals: u16,
    stops: Stops,
}

/// Whether header and questions fit the limit.
fn question_fits(limit: u16, len: usize) -> bool
    ensures { IsTrue result ↔ (12 + len ≤ limit) }
{
    let limit = usize::from(limit);
    limit >= 12 && len <= limit - 12
}

/// Takes the records of all lists.
#[inline(never)]
fn drain_lists<'q, 'a, A, N, S, D>(parts: ReplyParts<'q, A, N, S, D>)
where
    A: Iterator<Item = &'a Record> + Drop,
    N: Iterator<Item = &'a Record> + Drop,
    S: Iterator<Item = &'a Record> + Drop,
    D: Iterator<Item = &'a Record> + Drop,
    requires answers { A.can_next parts.answers × IsFinite (A.remaining parts.answers) }
    requires authorities { N.can_next parts.authorities × IsFinite (N.remaining parts.authorities) }
    requires soa { S.can_next parts.soa × IsFinite (S.remaining parts.soa) }
    requires additionals { D.can_next parts.additionals × IsFinite (D.remaining parts.additionals) }
    ensures { (lists : RecordLists) ×
        GivesLists A.next_gives N.next_gives S.next_gives D.next_gives parts.entry lists }
{
    let ReplyParts {
        metadata: _,
        question: _,
        question_count: _,
        edns: _,
        answers,
        authorities,
        soa,
        additionals,
        signature: _,
    } = parts;
    drain(answers);
    drain(authorities);
    drain(soa);
    drain(additionals);
}

/// Whether any of the lists may have a record, as far as it is known before they are taken.
fn may_have_records<A, N, S, D>(parts: &ReplyParts<'_, A, N, S, D>) -> bool
where
    A: Iterator,
    N: Iterator,
    S: Iterator,
    D: Iterator,
{
    parts.answers.size_hint().1 != Some(0)
        || parts.authorities.size_hint().1 != Some(0)
        || parts.soa.size_hint().1 != Some(0)
        || parts.additionals.size_hint().1 != Some(0)
}

/// Puts the five lists behind header and questions. Where no list has a record, nothing could point to the question's
/// name, and it is not noted.
fn write_lists<'q, 'a, A, N, S, D>(
    bytes: &mut Vec<u8>,
    limit: u16,
    parts: ReplyParts<'q, A, N, S, D>,
) -> Result<Sections, AllocError>
where
    A: Iterator<Item = &'a Record> + Drop,
    N: Iterator<Item = &'a Record> + Drop,
    S: Iterator<Item = &'a Record> + Drop,
    D: Iterator<Item = &'a Record> + Drop,
    requires answers { A.can_next parts.answers × IsFinite (A.remaining parts.answers) }
    requires authorities { N.can_next parts.authorities × IsFinite (N.remaining parts.authorities) }
    requires soa { S.can_next parts.soa × IsFinite (S.remaining parts.soa) }
    requires additionals { D.can_next parts.additionals × IsFinite (D.remaining parts.additionals) }
    requires header { 12 ≤ length bytes.old.items }
    requires fits { length bytes.old.items ≤ limit }
    requires asked { bytes.old.items ≡ replicate 12 0 ++ parts.question.now }
    ensures written { IfOk result (λ sections. (lists : RecordLists) ×
        GivesLists A.next_gives N.next_gives S.next_gives D.next_gives parts.entry lists ×
        WritesLists limit bytes.old.items (reply_of parts.entry lists) bytes.new.items sections) }
    ensures header { OnOk result (12 ≤ length bytes.new.items) }
    ensures in_range { IfOk result (λ sections. sections.stops.fault ≡ None →
        IfSome (option_copied parts.entry.edns) IsEdnsInRange) }
{
    let alloc = *bytes.allocator();
    // speed: served, an address; a table is wide, and this makes it where it stays
    write_lists_by(bytes, &mut CompressionTable::new(alloc), limit, parts)
}

/// Writes the lists of a reply by a table, which has no notes.
#[inline(always)]
fn write_lists_by<'q: 'n, 'n, 'a: 'n, A, N, S, D>(
    bytes: &mut Vec<u8>,
    table: &mut CompressionTable<'n>,
    limit: u16,
    parts: ReplyParts<'q, A, N, S, D>,
) -> Result<Sections, AllocError>
where
    A: Iterator<Item = &'a Record> + Drop,
    N: Iterator<Item = &'a Record> + Drop,
    S: Iterator<Item = &'a Record> + Drop,
    D: Iterator<Item = &'a Record> + Drop,
    requires answers { A.can_next parts.answers × IsFinite (A.remaining parts.answers) }
    requires authorities { N.can_next parts.authorities × IsFinite (N.remaining parts.authorities) }
    requires soa { S.can_next parts.soa × IsFinite (S.remaining parts.soa) }
    requires additionals { D.can_next parts.additionals × IsFinite (D.remaining parts.additionals) }
    requires header { 12 ≤ length bytes.old.items }
    requires fits { length bytes.old.items ≤ limit }
    requires empty { table.old ≡ [] }
    requires asked { bytes.old.items ≡ replicate 12 0 ++ parts.question.now }
    ensures written { IfOk result (λ sections. (lists : RecordLists) ×
        GivesLists A.next_gives N.next_gives S.next_gives D.next_gives parts.entry lists ×
        WritesLists limit bytes.old.items (reply_of parts.entry lists) bytes.new.items sections) }
    ensures header { OnOk result (12 ≤ length bytes.new.items) }
    ensures in_range { IfOk result (λ sections. sections.stops.fault ≡ None →
        IfSome (option_copied parts.entry.edns) IsEdnsInRange) }
{
    let has_records = may_have_records(&parts);
    if has_records {
        note_question(table, parts.question);
    }
    let mut stops = Stops {
        is_cut: false,
        fault: None,
    };
    let answers = write_list(bytes, table, limit, parts.answers, &mut stops)?;
    let all_authorities = parts.authorities.chain(parts.soa);
    let authorities = write_list(bytes, table, limit, all_authorities, &mut stops)?;
    let additionals = write_list(bytes, table, limit, parts.additionals, &mut stops)?;
    let opts = write_optional_edns(bytes, limit, parts.edns, &mut stops)?;
    let signatures = write_optional_signature(bytes, limit, parts.signature, &mut stops)?;
    Ok(Sections {
        answers,
        authorities,
        additionals: additionals + opts + signatures,
        stops,
    })
}

/// The header of what was written.
fn header_of(metadata: Metadata, question_count: u16, sections: Sections) -> Header
    ensures { result ≡ header_by metadata question_count sections }
{
    let mut metadata = metadata;
    metadata.truncation = metadata.truncation || sections.stops.is_cut;
    Header {
        metadata,
        counts: HeaderCounts {
            queries: question_count,
            answers: sections.answers,
            authorities: sections.authorities,
            additionals: sections.additionals,
        },
    }
}

/// Writes a reply. After an `Err` the bytes may end in a part of it.
fn write_reply<'q, 'a, A, N, S, D>(
    bytes: &mut Vec<u8>,
    limit: u16,
    parts: ReplyParts<'q, A, N, S, D>,
) -> Result<Header, ProtoError>
where
    A: Iterator<Item = &'a Record> + Drop,
    N: Iterator<Item = &'a Record> + Drop,
    S: Iterator<Item = &'a Record> + Drop,
    D: Iterator<Item = &'a Record> + Drop,
    requires answers { A.can_next parts.answers × IsFinite (A.remaining parts.answers) }
    requires authorities { N.can_next parts.authorities × IsFinite (N.remaining parts.authorities) }
    requires soa { S.can_next parts.soa × IsFinite (S.remaining parts.soa) }
    requires additionals { D.can_next parts.additionals × IsFinite (D.remaining parts.additionals) }
    requires empty { bytes.old.items ≡ [] }
    ensures written { IfOk result (λ header. (lists : RecordLists) ×
        GivesLists A.next_gives N.next_gives S.next_gives D.next_gives parts.entry lists ×
        ReplyWritten limit (reply_of parts.entry lists) bytes.new.items header) }
    ensures bytes { OnOk result (AreBytes bytes.new.items) }
    ensures too_large { (result ≡ Err ProtoError.MaxSizeExceeded) ↔ (limit < 12 + length parts.entry.question.now) }
    ensures refused { IfErr result (λ e. e ≢ ProtoError.Memory → (lists : RecordLists) ×
        GivesLists A.next_gives N.next_gives S.next_gives D.next_gives parts.entry lists ×
        CannotBeWritten limit (reply_of parts.entry lists) e) }
{
    if !question_fits(limit, parts.question.len()) {
        drain_lists(parts);
        return Err(ProtoError::MaxSizeExceeded);
    }
    let metadata = parts.metadata;
    let question_count = parts.question_count;
    bytes.extend_from_slice(&[0; 12])?;
    bytes.extend_from_slice(parts.question)?;
    let sections = write_lists(bytes, limit, parts)?;
    if let Some(e) = sections.stops.fault {
        return Err(e);
    }
    let header = header_of(metadata, question_count, sections);
    put_header(bytes, &header);
    Ok(header)
}

/// Writes a reply: header, questions, and five lists of records, each cut only before a record that in full passes the
/// limit.
///
/// TC is set where a list was cut, and the counts are of what was written. `MaxSizeExceeded` says that header and
/// questions pass the limit, `CharacterDataTooLong` and `DataTooLong` that a record was reached that has no form in
/// bytes. After an `Err` the encoder's bytes are empty.
pub fn emit_message_parts<'q, 'a, A, N, S, D>(
    encoder: &mut BinEncoder<'_>,
    parts: ReplyParts<'q, A, N, S, D>,
) -> Result<Header, ProtoError>
where
    A: Iterator<Item = &'a Record> + Drop,
    N: Iterator<Item = &'a Record> + Drop,
    S: Iterator<Item = &'a Record> + Drop,
    D: Iterator<Item = &'a Record> + Drop,
    requires answers { A.can_next parts.answers × IsFinite (A.remaining parts.answers) }
    requires authorities { N.can_next parts.authorities × IsFinite (N.remaining parts.authorities) }
    requires soa { S.can_next parts.soa × IsFinite (S.remaining parts.soa) }
    requires additionals { D.can_next parts.additionals × IsFinite (D.remaining parts.additionals) }
    requires empty { written_bytes encoder.old ≡ [] }
    ensures same_vector { IsSameVector encoder.old encoder.new }
    ensures limit { max_size encoder.new ≡ max_size encoder.old }
    ensures alloc { encoder.new.alloc ≡ encoder.old.alloc }
    ensures written { IfOk result (λ header. (lists : RecordLists) ×
        GivesLists A.next_gives N.next_gives S.next_gives D.next_gives parts.entry lists ×
        ReplyWritten (max_size encoder.old) (reply_of parts.entry lists) (written_bytes encoder.new) header) }
    ensures too_large { (result ≡ Err ProtoError.MaxSizeExceeded) ↔
        (max_size encoder.old < 12 + length parts.entry.question.now) }
    ensures refused { IfErr result (λ e. e ≢ ProtoError.Memory → (lists : RecordLists) ×
        GivesLists A.next_gives N.next_gives S.next_gives D.next_gives parts.entry lists ×
        CannotBeWritten (max_size encoder.old) (reply_of parts.entry lists) e) }
    ensures err { OnErr result (written_bytes encoder.new ≡ []) }
{
    let limit = encoder.max_size;
    let done = write_reply(&mut *encoder.buffer, limit, parts);
    if done.is_err() {
        encoder.buffer.clear();
    }
    done
}

/// Writes the shortest reply there is, in the place of what the bytes hold.
#[inline(never)]
fn write_fallback(bytes: &mut Vec<u8>, id: u16) -> Result<Header, ProtoError>
    ensures written { IfOk result (λ header. (header ≡ fallback_header id) ×
        (bytes.new.items ≡ header_octets (fallback_header id))) }
    ensures bytes { OnOk result (AreBytes bytes.new.items) }
    ensures err { OnErr result (result ≡ Err ProtoError.Memory) }
{
    let mut metadata = Metadata::new(id, MessageType::Response, OpCode::QUERY);
    metadata.response_code = ResponseCode::SERV_FAIL;
    let header = Header {
        metadata,
        counts: HeaderCounts::default(),
    };
    bytes.clear();
    bytes.extend_from_slice(&header_bytes(&header))?;
    Ok(header)
}

/// The bytes of a reply, and their header.
///
/// Where header and questions pass the limit, or a record is reached that has no form in bytes, the bytes are a header
/// of the same id that says ServFail, and nothing else. Only want of memory is an `Err`.
pub fn encode_message_parts<'q, 'a, A, N, S, D>(
    alloc: Global,
    limit: u16,
    parts: ReplyParts<'q, A, N, S, D>,
) -> Result<(Header, Vec<u8>), ProtoError>
where
    A: Iterator<Item = &'a Record> + Drop,
    N: Iterator<Item = &'a Record> + Drop,
    S: Iterator<Item = &'a Record> + Drop,
    D: Iterator<Item = &'a Record> + Drop,
    requires answers { A.can_next parts.answers × IsFinite (A.remaining parts.answers) }
    requires authorities { N.can_next parts.authorities × IsFinite (N.remaining parts.authorities) }
    requires soa { S.can_next parts.soa × IsFinite (S.remaining parts.soa) }
    requires additionals { D.can_next parts.additionals × IsFinite (D.remaining parts.additionals) }
    ensures encoded { IfOk result (λ made. (lists : RecordLists) ×
        GivesLists A.next_gives N.next_gives S.next_gives D.next_gives parts.entry lists ×
        ReplyEncoded limit (reply_of parts.entry lists) made.1.items made.0) }
    ensures err { OnErr result (result ≡ Err ProtoError.Memory) }
{
    let mut bytes = Vec::new(alloc);
    let header = encode_message_parts_in(&mut bytes, limit, parts)?;
    Ok((header, bytes))
}

/// Puts the bytes of a reply in the place of others, whose memory is used again, and gives their header, as
/// `encode_message_parts` does. After an `Err` any bytes may stand there.
#[inline(always)]
pub fn encode_message_parts_in<'q, 'a, A, N, S, D>(
    bytes: &mut Vec<u8>,
    limit: u16,
    parts: ReplyParts<'q, A, N, S, D>,
) -> Result<Header, ProtoError>
where
    A: Iterator<Item = &'a Record> + Drop,
    N: Iterator<Item = &'a Record> + Drop,
    S: Iterator<Item = &'a Record> + Drop,
    D: Iterator<Item = &'a Record> + Drop,
    requires answers { A.can_next parts.answers × IsFinite (A.remaining parts.answers) }
    requires authorities { N.can_next parts.authorities × IsFinite (N.remaining parts.authorities) }
    requires soa { S.can_next parts.soa × IsFinite (S.remaining parts.soa) }
    requires additionals { D.can_next parts.additionals × IsFinite (D.remaining parts.additionals) }
    ensures encoded { IfOk result (λ header. (lists : RecordLists) ×
        GivesLists A.next_gives N.next_gives S.next_gives D.next_gives parts.entry lists ×
        ReplyEncoded limit (reply_of parts.entry lists) bytes.new.items header) }
    ensures err { OnErr result (result ≡ Err ProtoError.Memory) }
{
    let id = parts.metadata.id;
    bytes.clear();
    bytes.reserve(FIRST_CAPACITY)?;
    match write_reply(bytes, limit, parts) {
        Ok(header) => Ok(header),
        Err(ProtoError::Memory) => Err(ProtoError::Memory),
        Err(_) => write_fallback(bytes, id),
    }
}
