//! How replies are sent, and the sink that keeps what is sent of each.

ghost use Rattle.std.specs.Prelude.{◌≡◌, ◌+◌, ◌%◌, ◌^◌, ◌++◌, ◌∷◌, [], ⊤, ℕ, IfOk, List, OnErr, OnOk};
ghost use Rattle.std.specs.Iterator.{IsFinite};
ghost use Rattle.std.specs.Option.{option_copied};
ghost use Rattle.hickory_wire.specs.serialize.writing.ReplyParts.{ReplyEncoded};
ghost use Rattle.hickory_base.specs.responses.Responses.{GivesBy, lent_reply};
ghost use Rattle.hickory_server.specs.server.Sending.{IsSentAs, limit_of};
ghost use Rattle.hickory_server.specs.server.Written.{said};

use crate::server::datagrams::fitted;
use crate::server::writing::{Contents, encode_in};
use hickory_base::message_request::Queries;
use hickory_base::message_response::MessageResponse;
use hickory_base::server::{RecordRef, ResponseHandler, ResponseInfo};
use hickory_wire::{Boxed, Edns, Header, Items, Metadata, Octets, Protocol, Record, TSIG};
use std::alloc::{AllocError, Global};
use std::marker::Model;
use std::{io, mem};

/// How replies are sent.
#[derive(Clone, Copy, Debug, PartialEq, Eq)]
pub enum Sending {
    /// Each encoded at the limit of this transport.
    Encoded(Protocol),
    /// Each in so many bytes at most, over UDP.
    Fitted(u16),
}

impl Sending {
    /// How many bytes a reply with this EDNS is first encoded in at most.
    // speed: served, an address
    #[inline(always)]
    fn limit(self, edns: Option<&Edns>) -> u16
        ensures { result ≡ limit_of self (option_copied edns.entry) }
    {
        match (self, edns) {
            (Sending::Fitted(limit), _) => limit,
            (Sending::Encoded(Protocol::Udp), None) => 512,
            (Sending::Encoded(Protocol::Udp), Some(edns)) => edns.max_payload(),
            _ => u16::MAX,
        }
    }

    /// What is sent of a reply whose encoding has this header and these bytes.
    // speed: served, an address
    #[inline(always)]
    fn sent(
        self,
        alloc: Global,
        reply: &Contents<'_>,
        header: &Header,
        bytes: Octets,
    ) -> Result<Octets, AllocError>
        requires { ReplyEncoded (limit_of self (option_copied reply.now.edns)) (said reply.now) bytes header.now }
        ensures { IfOk result (IsSentAs self (said reply.now)) }
    {
        match self {
            Sending::Encoded(_) => Ok(bytes),
            Sending::Fitted(limit) => fitted(alloc, reply, header, bytes, limit),
        }
    }
}

/// The records that an iterator gives.
fn gathered<I>(alloc: Global, records: I) -> Result<Vec<Record>, AllocError>
where
    I: Iterator + Drop,
    I::Item: RecordRef,
    requires can { I.can_next records }
    requires ends { IsFinite (I.remaining records) }
    ensures { IfOk result (λ made. GivesBy I.next_gives I.Item.record_of records made.items) }
{
    let mut copies = Vec::new(alloc);
    'records: for item in records {
        copies.push(item.record().clone()?)?;
    }
    Ok(copies)
}

/// A reply of these records where they lie, without a signature.
// speed: served, an address
#[inline(always)]
fn lent<'a>(
    metadata: Metadata,
    queries: &'a Queries,
    edns: Option<&'a Edns>,
    answers: &'a [Record],
    authorities: &'a [Record],
    additionals: &'a [Record],
) -> Contents<'a>
    ensures { said result
        ≡ lent_reply queries.now (option_copied edns.entry) metadata answers.now authorities.now additionals.now }
{
    Contents {
        metadata,
        question: queries.as_bytes(),
        question_count: queries.len() as u16,
        edns,
        answers,
        authorities,
        soa: &[],
        additionals,
        signature: None,
    }
}

/// The reply with these records after its authorities, and with this signature.
fn with_soa<'a>(
    reply: Contents<'a>,
    soa: &'a [Record],
    signature: Option<&'a Record<TSIG>>,
) -> Contents<'a>
    ensures { said result ≡ record (said reply.entry) { soa = soa.now; signature = option_copied signature.entry } }
{
    Contents {
        metadata: reply.metadata,
        question: reply.question,
        question_count: reply.question_count,
        edns: reply.edns,
        answers: reply.answers,
        authorities: reply.authorities,
        soa,
        additionals: reply.additionals,
        signature,
    }
}

/// The signature of a reply, where it lies.
fn borrowed(signature: &Option<Boxed<Record<TSIG>>>) -> Option<&Record<TSIG>>
    ensures { option_copied result ≡ signature.now }
{
    match signature {
        None => None,
        Some(signature) => Some(signature.get()),
    }
}

/// A sink that keeps what is sent of each reply, in the order in which the replies came. It fails only if memory is
/// refused, and then keeps nothing of that reply.
#[derive(Drop)]
pub struct SentSink {
    sending: Sending,
    replies: Items<Octets>,
    failures: u64,
    // Room for the bytes of the next reply.
    spare: Vec<u8>,
}

impl Model for SentSink {
    ghost use Rattle.hickory_server.specs.server.Sending.{SentReplies};

    ghost Value = { SentReplies };

    ghost view = { λ s. record { sending = s.sending; replies = s.replies; failures = s.failures } };
}

impl SentSink {
    /// A sink without replies, in the place of some that were sent, whose memory it uses again.
    // speed: served, an address
    #[inline(always)]
    pub(crate) fn reusing(alloc: Global, sending: Sending, sent: Items<Octets>) -> SentSink
        ensures { result ≡ record { sending = sending; replies = []; failures = 0 } }
    {
        let mut list = sent.into_vec();
        let spare = match list.pop() {
            Some(last) => last.into_vec(),
            None => Vec::new(alloc),
        };
        list.clear();
        SentSink {
            sending,
            replies: Items::from_vec(list),
            failures: 0,
            spare,
        }
    }

    /// What is sent of each reply, the first one first. It takes no memory.
    pub(crate) fn into_replies(self) -> Items<Octets>
        ensures { result ≡ self.replies }
    {
        let SentSink { replies, .. } = self;
        replies
    }

    /// How many replies could not be kept. After 2^64 - 1 the count begins again at 0.
    pub(crate) fn failures(&self) -> u64
        ensures { result ≡ self.now.failures }
    {
        self.failures
    }

    /// Counts a failure for want of memory.
    fn fail(&mut self) -> io::Error
        ensures { self.new ≡ record self.old { failures = (self.old.failures + 1) % 2 ^ 64 } }
    {
        let count = &mut self.failures;
        *count = count.wrapping_add(1);
        io::Error::from(io::ErrorKind::OutOfMemory)
    }

    /// Keeps what is sent of a reply.
    // speed: served, an address
    #[inline(always)]
    fn keep(&mut self, alloc: Global, reply: &Contents<'_>) -> Result<ResponseInfo, io::Error>
        ensures kept { OnOk result ((bytes : List ℕ) × IsSentAs self.old.sending (said reply.now) bytes ×
            (self.new ≡ record self.old { replies = self.old.replies ++ bytes ∷ [] })) }
        ensures unkept { OnErr result (self.new ≡ record self.old { failures = (self.old.failures + 1) % 2 ^ 64 }) }
    {
        let limit = self.sending.limit(reply.edns);
        let Ok(header) = encode_in(&mut self.spare, reply, limit) else {
            return Err(self.fail());
        };
        let bytes = Octets::from_vec(mem::replace(&mut self.spare, Vec::new(alloc)));
        let Ok(sent) = self.sending.sent(alloc, reply, &header, bytes) else {
            return Err(self.fail());
        };
        match self.replies.push(sent) {
            Ok(()) => Ok(ResponseInfo::from(header)),
            Err(_) => Err(self.fail()),
        }
    }
}

impl ResponseHandler for SentSink {
    type Entry = Octets;

    type Settings = Sending;

    ghost entries = { λ s. s.replies };

    ghost settings = { λ s. s.sending };

    ghost shows = { IsSentAs };

    ghost informs = { λ _ _ _ _. ⊤ };

    ghost failures = { λ s. s.failures };

    fn send_response<'q, 'a, A, N, S, D>(
        &mut self,
        alloc: Global,
        response: MessageResponse<'q, 'a, A, N, S, D>,
    ) -> Result<ResponseInfo, io::Error>
    where
        A: Iterator + Drop,
        A::Item: RecordRef,
        N: Iterator + Drop,
        N::Item: RecordRef,
        S: Iterator + Drop,
        S::Item: RecordRef,
        D: Iterator + Drop,
        D::Item: RecordRef,
    {
        let Ok(answers) = gathered(alloc, response.answers) else {
            return Err(self.fail());
        };
        let Ok(authorities) = gathered(alloc, response.authorities) else {
            return Err(self.fail());
        };
        let Ok(soa) = gathered(alloc, response.soa) else {
            return Err(self.fail());
        };
        let Ok(additionals) = gathered(alloc, response.additionals) else {
            return Err(self.fail());
        };
        let signature = response.signature;
        let lent = lent(
            response.metadata,
            response.queries,
            response.edns,
            answers.as_slice(),
            authorities.as_slice(),
            additionals.as_slice(),
        );
        let reply = with_soa(lent, soa.as_slice(), borrowed(&signature));
        self.keep(alloc, &reply)
    }

    // speed: served, an address
    #[inline(always)]
    fn send_lent<'q>(
        &mut self,
        alloc: Global,
        queries: &'q Queries,
        edns: Option<&'q Edns>,
        metadata: Metadata,
        answers: &[Record],
        authorities: &[Record],
        additionals: &[Record],
    ) -> Result<ResponseInfo, io::Error> {
        let reply = lent(metadata, queries, edns, answers, authorities, additionals);
        self.keep(alloc, &reply)
    }
}
