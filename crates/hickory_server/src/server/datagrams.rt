//! Replies over UDP: none is longer than its client takes and the server allows.

ghost use Rattle.std.specs.Prelude.{◌≡◌, ◌↔◌, ◌<◌, ◌≤◌, IfOk, IsTrue, MatchOption, false, length, min, option_map, ℕ};
ghost use Rattle.std.specs.Option.{option_copied};
ghost use Rattle.hickory_wire.specs.serialize.writing.ReplyParts.{ReplyEncoded};
ghost use Rattle.hickory_server.specs.server.Fitted.{HasNoRoom, IsFitted, IsFront, IsLongestFront, IsNoFront, IsReferral, LacksNeeded, LeavesOut, are_parted, ends_set, front_of, has_type, is_of_set, truncated, without_options};
ghost use Rattle.hickory_server.specs.server.Written.{IsEncoding, said};

use crate::server::writing::{Contents, encoded_bare, encoded_with_header};
use hickory_wire::{Edns, Header, Metadata, Octets, Record, RecordType};
use std::alloc::{AllocError, Global};

/// Whether there is a record of this type among these.
fn has_type(records: &[Record], number: u16) -> bool
    ensures { result ≡ has_type number records.now }
{
    records
        .iter()
        .any(|r| r.rdata.record_type().value() == number)
}

/// Whether a reply is a referral (RFC 1034 section 4.3.2 step 3b, RFC 2308 section 2.2).
fn is_referral(reply: &Contents<'_>) -> bool
    ensures { IsTrue result ↔ IsReferral (said reply.now) }
{
    has_type(reply.authorities, RecordType::NS.value())
        && !has_type(reply.authorities, RecordType::SOA.value())
        && !has_type(reply.soa, RecordType::SOA.value())
}

/// Whether two records are of one RRset (RFC 2181 section 5).
fn is_of_set(one: &Record, other: &Record) -> bool
    ensures { result ≡ is_of_set one.now other.now }
{
    one.name == other.name
        && one.rdata.record_type().value() == other.rdata.record_type().value()
        && one.dns_class.value() == other.dns_class.value()
}

/// Whether the last record before a place and the next one after it are of two RRsets.
fn are_parted(last: Option<&Record>, next: Option<&Record>) -> bool
    ensures { result ≡ are_parted (option_copied last.entry) (option_copied next.entry) }
{
    match (last, next) {
        (Some(last), Some(next)) => !is_of_set(last, next),
        _ => true,
    }
}

/// Whether so many of these records have no part of an RRset.
fn ends_set(records: &[Record], count: usize) -> bool
    requires { count ≤ length records.now }
    ensures { result ≡ ends_set records.now count }
{
    let (front, behind) = records.split_at(count);
    are_parted(front.last(), behind.first())
}

/// Whether a record is left out of the encoding that has this header.
#[inline(always)]
fn leaves_out(reply: &Metadata, header: &Header) -> bool
    ensures { IsTrue result ↔ LeavesOut reply.now header.now }
{
    header.metadata.truncation && !reply.truncation
}

/// The header and the bytes of a reply with the first so many of its additionals, as far as there is room. A signature
/// over the longer message would not hold, so there is none.
fn front(
    alloc: Global,
    reply: &Contents<'_>,
    count: usize,
    limit: u16,
) -> Result<(Header, Octets), AllocError>
    requires { count ≤ length reply.now.additionals.now }
    ensures { IfOk result (λ made. ReplyEncoded limit (front_of (said reply.now) count) made.1 made.0) }
{
    let contents = Contents {
        metadata: reply.metadata,
        question: reply.question,
        question_count: reply.question_count,
        edns: reply.edns,
        answers: reply.answers,
        authorities: reply.authorities,
        soa: reply.soa,
        additionals: &reply.additionals[..count],
        signature: None,
    };
    encoded_with_header(alloc, &contents, limit)
}

/// The bytes of a reply with the first so many of its additionals, if there is room for them and they have no part of
/// an RRset.
fn whole_front(
    alloc: Global,
    reply: &Contents<'_>,
    count: usize,
    limit: u16,
) -> Result<Option<Octets>, AllocError>
    requires { count ≤ length reply.now.additionals.now }
    ensures { IfOk result (λ made.
        MatchOption made (IsNoFront limit (said reply.now) count) (IsFront limit (said reply.now) count)) }
{
    if !ends_set(reply.additionals, count) {
        return Ok(None);
    }
    let (header, bytes) = front(alloc, reply, count, limit)?;
    if leaves_out(&reply.metadata, &header) {
        return Ok(None);
    }
    Ok(Some(bytes))
}

/// The bytes of a reply with as many RRsets of its additionals as have room, and with so many records at most, or
/// `None` if there is no room for it without additionals.
fn longest(
    alloc: Global,
    reply: &Contents<'_>,
    most: usize,
    limit: u16,
) -> Result<Option<Octets>, AllocError>
    requires { most ≤ length reply.now.additionals.now }
    ensures { IfOk result (λ made.
        MatchOption made (IsNoFront limit (said reply.now) 0) (IsLongestFront limit (said reply.now) most)) }
{
    let mut count = most;
    'fronts: loop {
        if let Some(bytes) = whole_front(alloc, reply, count, limit)? {
            return Ok(Some(bytes));
        }
        if count == 0 {
            return Ok(None);
        }
        count -= 1;
    }
}

/// Whether a reply with this header lacks an answer or an authority, or is a referral.
fn lacks_needed(reply: &Contents<'_>, header: &Header) -> bool
    ensures lacks { IsTrue result → (limit : ℕ) → LacksNeeded limit (said reply.now) header.now }
    ensures has { result ≡ false → ¬ (IsReferral (said reply.now)) }
{
    let authorities = reply.authorities.len().saturating_add(reply.soa.len());
    usize::from(header.counts.answers) < reply.answers.len()
        || usize::from(header.counts.authorities) < authorities
        || is_referral(reply)
}

/// What an OPT record says of the same server, without options.
fn without_options(alloc: Global, edns: Option<&Edns>) -> Option<Edns>
    ensures { result ≡ option_map without_options (option_copied edns.entry) }
{
    let Some(edns) = edns else {
        return None;
    };
    let mut bare = Edns::new(alloc);
    bare.set_max_payload(edns.max_payload());
    bare.set_rcode_high(edns.rcode_high());
    bare.set_version(edns.version());
    bare.set_dnssec_ok(edns.dnssec_ok());
    Some(bare)
}

/// The header of a reply with TC, its questions and its OPT record: the whole reply is to be had over TCP.
fn truncated(alloc: Global, reply: &Contents<'_>, limit: u16) -> Result<Octets, AllocError>
    ensures { IfOk result (IsEncoding limit (truncated (said reply.now))) }
{
    let mut metadata = reply.metadata;
    metadata.truncation = true;
    let edns = without_options(alloc, reply.edns);
    let (question, count) = (reply.question, reply.question_count);
    let made = encoded_bare(alloc, metadata, question, count, edns.as_ref(), limit);
    drop(edns);
    made
}

/// What is sent of a reply that has no room, by the header of its encoding.
#[inline(never)]
fn cut(
    alloc: Global,
    reply: &Contents<'_>,
    header: &Header,
    limit: u16,
) -> Result<Octets, AllocError>
    requires { HasNoRoom limit (said reply.now) header.now }
    ensures { IfOk result (IsFitted limit (said reply.now)) }
{
    if lacks_needed(reply, header) {
        return truncated(alloc, reply, limit);
    }
    let most = usize::from(header.counts.additionals).min(reply.additionals.len());
    match longest(alloc, reply, most, limit)? {
        Some(bytes) => Ok(bytes),
        None => truncated(alloc, reply, limit),
    }
}

/// What is sent of a reply whose encoding within the limit has this header and these bytes.
// speed: served, an address
#[inline(always)]
pub(crate) fn fitted(
    alloc: Global,
    reply: &Contents<'_>,
    header: &Header,
    bytes: Octets,
    limit: u16,
) -> Result<Octets, AllocError>
    requires { ReplyEncoded limit (said reply.now) bytes header.now }
    ensures { IfOk result (IsFitted limit (said reply.now)) }
{
    if leaves_out(&reply.metadata, header) {
        return cut(alloc, reply, header, limit);
    }
    Ok(bytes)
}
