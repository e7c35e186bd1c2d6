//! A sink that keeps each reply as the bytes that are sent.

ghost use Rattle.std.specs.Prelude.{◌≡◌, ◌↔◌, ◌+◌, ◌%◌, ◌^◌, ◌++◌, ◌∷◌, [], ℕ, List, IfErr, IfOk, IfSome, IsNone, OnErr};
ghost use Rattle.std.specs.IoError.{error_kind};
ghost use Rattle.std.specs.Iterator.{IsFinite};
ghost use Rattle.wire_messages.specs.serialize.writing.Reply.{Reply, size_limit};
ghost use Rattle.hickory_wire.specs.serialize.writing.ReplyParts.{ReplyEncoded};
ghost use Rattle.hickory_base.specs.responses.EncodingSinks.{IsEncodingOf, TellsEncoding};
ghost use Rattle.hickory_base.specs.responses.Responses.{GivesBy, IsReplyOf, header_of};

use crate::requests::message_request::Queries;
use crate::responses::message_response::{MessageResponse, ResponseInfo, size_limit};
use crate::responses::response_encoding::encode_response;
use crate::responses::response_handler::{RecordRef, ResponseHandler};
use hickory_wire::{
    Edns, Items, Metadata, Octets, Protocol, Record, ReplyParts, encode_message_parts_in,
};
use std::alloc::Global;
use std::io::ErrorKind;
use std::marker::Model;
use std::{io, mem};

/// A sink that keeps the bytes of each reply over one transport, in the order in which the replies came.
///
/// A server sends those bytes; a test looks at them. Their size keeps the limit of the transport, as `encode_response`
/// says. The sink fails only where memory is refused, and then keeps nothing of that reply.
///
/// A contract sees its transport, the bytes of its replies, and the count of its failures.
#[derive(Drop)]
pub struct EncodingSink {
    protocol: Protocol,
    replies: Items<Octets>,
    failures: u64,
    // Room for the bytes of the next reply.
    spare: Vec<u8>,
}

impl Model for EncodingSink {
    ghost use Rattle.hickory_base.specs.responses.EncodingSinks.{EncodedReplies};

    ghost Value = { EncodedReplies };

    ghost view = { λ s. record { protocol = s.protocol; replies = s.replies; failures = s.failures } };
}

impl EncodingSink {
    /// A sink for replies over this transport, without replies. It takes no memory.
    pub fn new(alloc: Global, protocol: Protocol) -> EncodingSink
        ensures { result ≡ record { protocol = protocol; replies = []; failures = 0 } }
    {
        EncodingSink::reusing(alloc, protocol, Items::new(alloc))
    }

    /// A sink without replies, in the place of some that were sent, whose memory it uses again.
    // speed: served, an address
    #[inline(always)]
    pub fn reusing(alloc: Global, protocol: Protocol, sent: Items<Octets>) -> EncodingSink
        ensures { result ≡ record { protocol = protocol; replies = []; failures = 0 } }
    {
        let mut list = sent.into_vec();
        let spare = match list.pop() {
            Some(last) => last.into_vec(),
            None => Vec::new(alloc),
        };
        list.clear();
        EncodingSink {
            protocol,
            replies: Items::from_vec(list),
            failures: 0,
            spare,
        }
    }

    /// The transport whose limit the replies keep.
    pub fn protocol(&self) -> Protocol
        ensures { result ≡ self.now.protocol }
    {
        self.protocol
    }

    /// The bytes of each reply, the first one first.
    pub fn replies(&self) -> &[Octets]
        ensures { result.now ≡ self.now.replies }
    {
        self.replies.as_slice()
    }

    /// The bytes of each reply, the first one first. It takes no memory.
    pub fn into_replies(self) -> Items<Octets>
        ensures { result ≡ self.replies }
    {
        let EncodingSink { replies, .. } = self;
        replies
    }

    /// The bytes of the last reply, or `None` where there is no reply. It takes no memory.
    pub fn into_last(self) -> Option<Octets>
        ensures last { IfSome result (λ last. (earlier : List (List ℕ)) × (self.replies ≡ earlier ++ last ∷ [])) }
        ensures none { IsNone result ↔ (self.replies ≡ []) }
    {
        self.into_replies().into_vec().pop()
    }

    /// How many replies could not be kept. After 2^64 - 1 the count begins again at 0.
    pub fn failures(&self) -> u64
        ensures { result ≡ self.now.failures }
    {
        self.failures
    }

    /// Counts a failure for want of memory.
    fn fail(&mut self) -> io::Error
        ensures counted { self.new ≡ record self.old { failures = (self.old.failures + 1) % 2 ^ 64 } }
        ensures memory { error_kind result ≡ ErrorKind.OutOfMemory }
    {
        let count = &mut self.failures;
        *count = count.wrapping_add(1);
        io::Error::from(ErrorKind::OutOfMemory)
    }
}

impl ResponseHandler for EncodingSink {
    type Entry = Octets;

    type Settings = Protocol;

    ghost entries = { λ s. s.replies };

    ghost settings = { λ s. s.protocol };

    ghost shows = { IsEncodingOf };

    ghost informs = { TellsEncoding };

    ghost failures = { λ s. s.failures };

    /// Keeps the bytes of a reply, and tells their header. An `Err` says that memory was refused: it counts one
    /// failure, and the replies are as they were.
    fn send_response<'q, 'a, A, N, S, D>(
        &mut self,
        alloc: Global,
        response: MessageResponse<'q, 'a, A, N, S, D>,
    ) -> Result<ResponseInfo, io::Error>
    where
        A: Iterator + Drop,
        A::Item: RecordRef,
        N: Iterator + Drop,
        N::Item: RecordRef,
        S: Iterator + Drop,
        S::Item: RecordRef,
        D: Iterator + Drop,
        D::Item: RecordRef,
        requires answers { A.can_next response.answers × IsFinite (A.remaining response.answers) }
        requires authorities { N.can_next response.authorities × IsFinite (N.remaining response.authorities) }
        requires soa { S.can_next response.soa × IsFinite (S.remaining response.soa) }
        requires additionals { D.can_next response.additionals × IsFinite (D.remaining response.additionals) }
        ensures kept { IfOk result (λ info. (reply : Reply) × (bytes : List ℕ) ×
            IsReplyOf (GivesBy A.next_gives A.Item.record_of) (GivesBy N.next_gives N.Item.record_of)
            (GivesBy S.next_gives S.Item.record_of) (GivesBy D.next_gives D.Item.record_of) response.entry reply ×
            ReplyEncoded (size_limit self.old.protocol reply.edns) reply bytes (header_of info) ×
            (self.new ≡ record self.old { replies = self.old.replies ++ bytes ∷ [] })) }
        ensures unkept { OnErr result (self.new ≡ record self.old { failures = (self.old.failures + 1) % 2 ^ 64 }) }
        ensures memory { IfErr result (λ e. error_kind e ≡ ErrorKind.OutOfMemory) }
    {
        let Ok((info, bytes)) = encode_response(alloc, response, self.protocol) else {
            return Err(self.fail());
        };
        match self.replies.push(Octets::from_vec(bytes)) {
            Ok(()) => Ok(info),
            Err(_) => Err(self.fail()),
        }
    }

    // speed: served, an address
    #[inline(always)]
    fn send_lent<'q>(
        &mut self,
        alloc: Global,
        queries: &'q Queries,
        edns: Option<&'q Edns>,
        metadata: Metadata,
        answers: &[Record],
        authorities: &[Record],
        additionals: &[Record],
    ) -> Result<ResponseInfo, io::Error> {
        let nothing: &[Record] = &[];
        let parts = ReplyParts {
            metadata,
            question: queries.as_bytes(),
            question_count: queries.count(),
            edns,
            answers: answers.iter(),
            authorities: authorities.iter(),
            soa: nothing.iter(),
            additionals: additionals.iter(),
            signature: None,
        };
        let limit = size_limit(self.protocol, edns);
        let Ok(header) = encode_message_parts_in(&mut self.spare, limit, parts) else {
            return Err(self.fail());
        };
        let bytes = mem::replace(&mut self.spare, Vec::new(alloc));
        match self.replies.push(Octets::from_vec(bytes)) {
            Ok(()) => Ok(ResponseInfo::from(header)),
            Err(_) => Err(self.fail()),
        }
    }
}
