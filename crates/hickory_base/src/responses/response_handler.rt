//! What a reply is handed to, and what answers requests.

ghost use Rattle.std.specs.Prelude.{◌≡◌};

use crate::errors::CatalogError;
use crate::requests::message_request::Queries;
use crate::responses::message_response::{MessageResponse, MessageResponseBuilder, ResponseInfo};
use crate::server::Request;
use hickory_wire::{Edns, Metadata, Record};
use std::alloc::Global;
use std::{io, iter};

/// A reference to a record, as an item of an iterator.
pub trait RecordRef: Drop {
    ghost use Rattle.std.specs.Prelude.{◌≡◌};
    ghost use Rattle.wire_messages.specs.declared.rr.rdata.RData.{RData};
    ghost use Rattle.wire_messages.specs.declared.rr.record.Record.{Record};

    ghost record_of: { Self → Record RData };

    /// The record.
    fn record(&self) -> &Record
        ensures { result.now ≡ record_of self.now };
}

impl RecordRef for &Record {
    ghost record_of = { λ x. x.now };

    fn record(&self) -> &Record {
        self
    }
}

/// What replies are handed to: a sink.
///
/// A contract sees a sink as the list of its entries, one for each reply that it took, and the number of its failures,
/// which begins again at 0 after 2^64 - 1. `shows` relates a reply with its entry, and `informs` a reply and its entry
/// with the header that the sink's answer tells. Both may depend on settings of the sink, such as its transport, which
/// no call changes. A sink over a socket may have relations that always hold.
pub trait ResponseHandler {
    ghost use Rattle.std.specs.Prelude.{◌≡◌, ◌+◌, ◌%◌, ◌^◌, ◌⊎◌, ℕ, List, IfOk, OnOk, OnErr};
    ghost use Rattle.std.specs.Iterator.{IsFinite};
    ghost use Rattle.std.specs.Option.{option_copied};
    ghost use Rattle.wire_messages.specs.serialize.writing.Reply.{Reply};
    ghost use Rattle.wire_messages.specs.declared.op.header.Header.{Header};
    ghost use Rattle.hickory_base.specs.responses.Responses.{GivesBy, IsReplyOf, header_of, lent_reply};
    ghost use Rattle.hickory_base.specs.responses.Sinks.{AddsEntry};

    /// What the sink keeps of a reply.
    type Entry;

    /// What it depends on how replies are kept and told of, such as a transport; `()` where it depends on nothing.
    type Settings;

    ghost entries: { Self → List Self.Entry };

    ghost settings: { Self → Self.Settings };

    ghost shows: { Self.Settings → Reply → Self.Entry → Type 0 };

    ghost informs: { Self.Settings → Reply → Self.Entry → Header → Type 0 };

    ghost failures: { Self → ℕ };

    /// Hands a reply over. The answer tells the header of what was sent.
    ///
    /// An `Ok` adds one entry of this reply. An `Err` counts one failure, and adds such an entry or none.
    fn send_response<'q, 'a, A, N, S, D>(
        &mut self,
        alloc: Global,
        response: MessageResponse<'q, 'a, A, N, S, D>,
    ) -> Result<ResponseInfo, io::Error>
    where
        A: Iterator + Drop,
        A::Item: RecordRef,
        N: Iterator + Drop,
        N::Item: RecordRef,
        S: Iterator + Drop,
        S::Item: RecordRef,
        D: Iterator + Drop,
        D::Item: RecordRef,
        requires answers { A.can_next response.answers × IsFinite (A.remaining response.answers) }
        requires authorities { N.can_next response.authorities × IsFinite (N.remaining response.authorities) }
        requires soa { S.can_next response.soa × IsFinite (S.remaining response.soa) }
        requires additionals { D.can_next response.additionals × IsFinite (D.remaining response.additionals) }
        ensures ok { IfOk result (λ info. (reply : Reply) ×
            IsReplyOf (GivesBy A.next_gives A.Item.record_of) (GivesBy N.next_gives N.Item.record_of)
            (GivesBy S.next_gives S.Item.record_of) (GivesBy D.next_gives D.Item.record_of) response.entry reply ×
            AddsEntry (λ entry. shows (settings self.old) reply entry ×
            informs (settings self.old) reply entry (header_of info)) (entries self.old) (entries self.new)) }
        ensures uncounted { OnOk result (failures self.new ≡ failures self.old) }
        ensures err { OnErr result (((reply : Reply) ×
            IsReplyOf (GivesBy A.next_gives A.Item.record_of) (GivesBy N.next_gives N.Item.record_of)
            (GivesBy S.next_gives S.Item.record_of) (GivesBy D.next_gives D.Item.record_of) response.entry reply ×
            AddsEntry (shows (settings self.old) reply) (entries self.old) (entries self.new)) ⊎
            (entries self.new ≡ entries self.old)) }
        ensures counted { OnErr result (failures self.new ≡ (failures self.old + 1) % 2 ^ 64) }
        ensures settled { settings self.new ≡ settings self.old };

    /// Hands a reply over that has these records where they lie, and no signature. The answer, and what stands after
    /// it, are those of `send_response`, which a sink is handed that does not say otherwise.
    fn send_lent<'q>(
        &mut self,
        alloc: Global,
        queries: &'q Queries,
        edns: Option<&'q Edns>,
        metadata: Metadata,
        answers: &[Record],
        authorities: &[Record],
        additionals: &[Record],
    ) -> Result<ResponseInfo, io::Error>
        ensures ok { IfOk result (λ info. AddsEntry
            (λ entry. shows (settings self.old)
            (lent_reply queries.now (option_copied edns.entry) metadata answers.now authorities.now additionals.now)
            entry ×
            informs (settings self.old) (lent_reply queries.now (option_copied edns.entry) metadata answers.now
            authorities.now additionals.now) entry (header_of info))
            (entries self.old) (entries self.new)) }
        ensures uncounted { OnOk result (failures self.new ≡ failures self.old) }
        ensures err { OnErr result (AddsEntry
            (shows (settings self.old) (lent_reply queries.now (option_copied edns.entry) metadata answers.now
            authorities.now additionals.now))
            (entries self.old) (entries self.new) ⊎ (entries self.new ≡ entries self.old)) }
        ensures counted { OnErr result (failures self.new ≡ (failures self.old + 1) % 2 ^ 64) }
        ensures settled { settings self.new ≡ settings self.old }
    {
        let response = MessageResponseBuilder::new(queries, edns).build(
            metadata,
            answers.iter(),
            authorities.iter(),
            iter::empty::<&Record>(),
            additionals.iter(),
        );
        self.send_response(alloc, response)
    }
}

/// What answers requests: for each it hands a sink one reply, or for a transfer the list of replies that it takes.
pub trait RequestHandler {
    ghost use Rattle.std.specs.Prelude.{◌≡◌, OnErr};

    /// Handles a request, and answers what the sink told of its reply, or of the last that was handed over where there
    /// are several. `now` is in seconds since 1970.
    ///
    /// After an `Err` no reply was handed over.
    fn handle_request<R: ResponseHandler>(
        &mut self,
        alloc: Global,
        request: &Request,
        now: u64,
        sink: &mut R,
    ) -> Result<ResponseInfo, CatalogError>
        ensures err { OnErr result ((R.entries sink.new ≡ R.entries sink.old) ×
            (R.failures sink.new ≡ R.failures sink.old)) }
        ensures settled { R.settings sink.new ≡ R.settings sink.old };
}
