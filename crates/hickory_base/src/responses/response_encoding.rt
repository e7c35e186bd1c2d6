//! Bytes of replies whose records are given by references of any kind, as a sink is handed them.

ghost use Rattle.std.specs.Prelude.{◌≡◌, IfOk, OnOk, OnErr, map};
ghost use Rattle.std.specs.Iterator.{IsFinite};
ghost use Rattle.wire_messages.specs.serialize.writing.Reply.{Reply, size_limit};
ghost use Rattle.hickory_wire.specs.serialize.writing.ReplyParts.{RecordLists, ReplyEncoded, reply_of};
ghost use Rattle.hickory_base.specs.representation.LenderLists.{CanLend, lender_list};
ghost use Rattle.hickory_base.specs.responses.Responses.{GivesBy, IsReplyOf, header_of};

use crate::responses::lenders::Lenders;
use crate::responses::message_response::{MessageResponse, ResponseInfo, borrowed, size_limit};
use crate::responses::response_handler::RecordRef;
use hickory_wire::{Header, ProtoError, Protocol, ReplyParts, encode_message_parts};
use std::alloc::{AllocError, Global};

/// Keeps the items of an iterator, which lend its records.
fn gather<I>(lenders: &mut Lenders<I::Item>, alloc: Global, records: I) -> Result<(), AllocError>
where
    I: Iterator + Drop,
    I::Item: RecordRef,
    requires none { lenders.old ≡ Lenders.Empty }
    requires can { I.can_next records }
    requires ends { IsFinite (I.remaining records) }
    ensures gives { OnOk result (GivesBy I.next_gives I.Item.record_of records
        (map I.Item.record_of (lender_list lenders.new))) }
    ensures lend { OnOk result (CanLend I.Item.row lenders.new) }
{
    'records: for item in records {
        lenders.push(alloc, item)?;
    }
    Ok(())
}

/// The bytes of a reply whose records are lent by these items, and its header.
#[inline(always)]
fn encode_lent<A: RecordRef, N: RecordRef, S: RecordRef, D: RecordRef>(
    alloc: Global,
    limit: u16,
    parts: ReplyParts<'_, &[A], &[N], &[S], &[D]>,
) -> Result<(Header, Vec<u8>), ProtoError>
    ensures encoded { IfOk result (λ made.
        ReplyEncoded limit (reply_of parts.entry
        (record {
          answers = map A.record_of parts.entry.answers.now;
          authorities = map N.record_of
              parts.entry.authorities.now;
          soa = map S.record_of parts.entry.soa.now;
          additionals = map D.record_of
              parts.entry.additionals.now;
        })) made.1.items made.0) }
    ensures err { OnErr result (result ≡ Err ProtoError.Memory) }
{
    let parts = ReplyParts {
        metadata: parts.metadata,
        question: parts.question,
        question_count: parts.question_count,
        edns: parts.edns,
        answers: parts.answers.iter().map(|item| item.record()),
        authorities: parts.authorities.iter().map(|item| item.record()),
        soa: parts.soa.iter().map(|item| item.record()),
        additionals: parts.additionals.iter().map(|item| item.record()),
        signature: parts.signature,
    };
    encode_message_parts(alloc, limit, parts)
}

/// The bytes of a reply whose records are lent by the items of iterators, and its header.
fn encode_parts<A, N, S, D>(
    alloc: Global,
    limit: u16,
    parts: ReplyParts<'_, A, N, S, D>,
) -> Result<(Header, Vec<u8>), ProtoError>
where
    A: Iterator + Drop,
    A::Item: RecordRef,
    N: Iterator + Drop,
    N::Item: RecordRef,
    S: Iterator + Drop,
    S::Item: RecordRef,
    D: Iterator + Drop,
    D::Item: RecordRef,
    requires answers { A.can_next parts.answers × IsFinite (A.remaining parts.answers) }
    requires authorities { N.can_next parts.authorities × IsFinite (N.remaining parts.authorities) }
    requires soa { S.can_next parts.soa × IsFinite (S.remaining parts.soa) }
    requires additionals { D.can_next parts.additionals × IsFinite (D.remaining parts.additionals) }
    ensures encoded { IfOk result (λ made. (lists : RecordLists) ×
        GivesBy A.next_gives A.Item.record_of parts.entry.answers lists.answers ×
        GivesBy N.next_gives N.Item.record_of parts.entry.authorities lists.authorities ×
        GivesBy S.next_gives S.Item.record_of parts.entry.soa lists.soa ×
        GivesBy D.next_gives D.Item.record_of parts.entry.additionals lists.additionals ×
        ReplyEncoded limit (reply_of parts.entry lists) made.1.items made.0) }
    ensures err { OnErr result (result ≡ Err ProtoError.Memory) }
{
    let mut answers = Lenders::Empty;
    gather(&mut answers, alloc, parts.answers)?;
    let mut authorities = Lenders::Empty;
    gather(&mut authorities, alloc, parts.authorities)?;
    let mut soa = Lenders::Empty;
    gather(&mut soa, alloc, parts.soa)?;
    let mut additionals = Lenders::Empty;
    gather(&mut additionals, alloc, parts.additionals)?;
    let lent = ReplyParts {
        metadata: parts.metadata,
        question: parts.question,
        question_count: parts.question_count,
        edns: parts.edns,
        answers: answers.as_slice(),
        authorities: authorities.as_slice(),
        soa: soa.as_slice(),
        additionals: additionals.as_slice(),
        signature: parts.signature,
    };
    encode_lent(alloc, limit, lent)
}

/// The bytes of a reply over a transport, and what is told of it, as `MessageResponse::encode` has them.
pub fn encode_response<'q, 'a, A, N, S, D>(
    alloc: Global,
    response: MessageResponse<'q, 'a, A, N, S, D>,
    protocol: Protocol,
) -> Result<(ResponseInfo, Vec<u8>), ProtoError>
where
    A: Iterator + Drop,
    A::Item: RecordRef,
    N: Iterator + Drop,
    N::Item: RecordRef,
    S: Iterator + Drop,
    S::Item: RecordRef,
    D: Iterator + Drop,
    D::Item: RecordRef,
    requires answers { A.can_next response.answers × IsFinite (A.remaining response.answers) }
    requires authorities { N.can_next response.authorities × IsFinite (N.remaining response.authorities) }
    requires soa { S.can_next response.soa × IsFinite (S.remaining response.soa) }
    requires additionals { D.can_next response.additionals × IsFinite (D.remaining response.additionals) }
    ensures encoded { IfOk result (λ made. (reply : Reply) ×
        IsReplyOf (GivesBy A.next_gives A.Item.record_of) (GivesBy N.next_gives N.Item.record_of)
        (GivesBy S.next_gives S.Item.record_of) (GivesBy D.next_gives D.Item.record_of) response.entry reply ×
        ReplyEncoded (size_limit protocol reply.edns) reply made.1.items (header_of made.0)) }
    ensures err { OnErr result (result ≡ Err ProtoError.Memory) }
{
    let signature = response.signature;
    let parts = ReplyParts {
        metadata: response.metadata,
        question: response.queries.as_bytes(),
        question_count: response.queries.count(),
        edns: response.edns,
        answers: response.answers,
        authorities: response.authorities,
        soa: response.soa,
        additionals: response.additionals,
        signature: borrowed(&signature),
    };
    let made = encode_parts(alloc, size_limit(protocol, response.edns), parts);
    drop(signature);
    let (header, bytes) = made?;
    Ok((ResponseInfo::from(header), bytes))
}
