//! Serving: each message of a list, one after the other.

ghost use Rattle.std.specs.Prelude.{◌≡◌, List, [], IfOk, IfErr, OnOk};
ghost use Rattle.std.specs.List.{AllZip};
ghost use Rattle.wire_messages.specs.serialize.writing.Reply.{Reply};
ghost use Rattle.hickory_catalog.specs.requests.Requests.{RequestAnswered};
ghost use Rattle.hickory_catalog.specs.requests.Server.{server_of};
ghost use Rattle.hickory_catalog.specs.zones.Zones.{AreInOrder};
ghost use Rattle.hickory_server.specs.server.DecodedOutcomes.{AnswersReadBack, OneQuestionHasRoom, StepsReadBack};
ghost use Rattle.hickory_server.specs.server.Isolation.{BesideIsARun, EachRunIsBeside, EachRunIsIsolated, OneWayBeside, StepIsAlone, StepLeavesOthers, ZonesAreIsolated};
ghost use Rattle.hickory_server.specs.server.Sending.{IsSentAs, SentReplies};
ghost use Rattle.hickory_server.specs.server.Serving.{LeavesRequest, LeavesUnserved, Run, RunFailed, Step};

use crate::server::sending::{Sending, SentSink};
use hickory_base::access::AccessControl;
use hickory_base::errors::CatalogError;
use hickory_base::request_laws::repeatable_questions;
use hickory_base::server::{Request, RequestHandler};
use hickory_base::zone_store::ZoneHandler;
use hickory_catalog::catalog::Catalog;
use hickory_catalog::laws::{replies_decode, replies_of_requests, replies_taken, zones_apart};
use hickory_catalog::signer::ReplySigner;
use hickory_wire::message_laws::one_message;
use hickory_wire::{Items, Octets, ProtoError, Protocol};
use std::alloc::Global;
use std::net::SocketAddr;

/// A message as it came.
#[derive(Drop)]
pub struct Incoming {
    /// Its bytes.
    pub bytes: Vec<u8>,
    /// The address and port that it came from.
    pub src: SocketAddr,
    /// The transport that it came over.
    pub protocol: Protocol,
    /// When it came, in seconds since 1970.
    pub now: u64,
}

/// What becomes of a message.
#[derive(Drop)]
pub enum Outcome {
    /// Its address may not use the server. Nobody looks at its bytes, and no reply is sent.
    Denied,
    /// Its bytes begin with no message (RFC 1035 section 4.1). No reply is sent.
    Unreadable,
    /// The bytes of its replies, in the order in which they are sent. Only a transfer may have several.
    Replies(Items<Octets>),
}

/// Where memory was refused.
#[derive(Clone, Copy, Debug, PartialEq, Eq, thiserror::Error)]
pub enum ServeError {
    /// Before or while a message was handled: the catalog is as before it, and no reply was made.
    #[error("no memory")]
    Memory,
    /// After a message was handled, for its replies: the catalog is as after it.
    #[error("no memory for the replies to a message that was handled")]
    MemoryAfterHandling,
}

/// Hands the replies to a request to a sink that has none.
///
/// `Memory` says that the sink was handed none, and `MemoryAfterHandling` that it failed at one, or that an update was
/// made and it was handed none.
fn hand_over<S: ReplySigner, H: ZoneHandler>(
    alloc: Global,
    catalog: &mut Catalog<S, H>,
    request: &Request,
    now: u64,
    sink: &mut SentSink,
) -> Result<(), ServeError>
    requires { sink.old ≡ record { sending = sink.old.sending; replies = []; failures = 0 } }
    ensures others { catalog.new ≡ record catalog.old { zones = catalog.new.zones } }
    ensures ok { OnOk result ((replies : List Reply) ×
        RequestAnswered (server_of H.ZoneHandler S.signature_for catalog.old) request.now now replies
        catalog.new.zones ×
        AllZip (IsSentAs sink.old.sending) replies sink.new.replies) }
    ensures err { IfErr result (λ e.
        LeavesRequest (server_of H.ZoneHandler S.signature_for catalog.old) request.now now sink.new e
        catalog.new.zones) }
{
    match catalog.handle_request(alloc, request, now, sink) {
        Ok(_) => {}
        Err(CatalogError::Memory) => return Err(ServeError::Memory),
        Err(CatalogError::MemoryAfterUpdate) => return Err(ServeError::MemoryAfterHandling),
    }
    // The sink fails only where it is refused the memory for a reply.
    if sink.failures() > 0 {
        return Err(ServeError::MemoryAfterHandling);
    }
    replies_taken::<SentSink>();
    Ok(())
}

/// What is sent of the replies to a request, in their order, in the memory of other replies.
pub(crate) fn replies_to<S: ReplySigner, H: ZoneHandler>(
    alloc: Global,
    catalog: &mut Catalog<S, H>,
    request: &Request,
    now: u64,
    sending: Sending,
    spare: Items<Octets>,
) -> Result<Items<Octets>, ServeError>
    ensures others { catalog.new ≡ record catalog.old { zones = catalog.new.zones } }
    ensures ok { IfOk result (λ sent. (replies : List Reply) ×
        RequestAnswered (server_of H.ZoneHandler S.signature_for catalog.old) request.now now replies
        catalog.new.zones ×
        AllZip (IsSentAs sending) replies sent) }
    ensures err { IfErr result (λ e. (sink : SentReplies) ×
        LeavesRequest (server_of H.ZoneHandler S.signature_for catalog.old) request.now now sink e catalog.new.zones) }
{
    let mut sink = SentSink::reusing(alloc, sending, spare);
    hand_over(alloc, catalog, request, now, &mut sink)?;
    Ok(sink.into_replies())
}

/// Serves one message: what becomes of it. Only an update changes the catalog.
///
/// A message is denied where its address may not use the server, and else unreadable where its bytes begin with no
/// message; neither changes anything. `Memory` says that the catalog is as before, and `MemoryAfterHandling` that the
/// message was handled and its replies are missing.
pub fn serve<S: ReplySigner, H: ZoneHandler>(
    alloc: Global,
    access: &AccessControl,
    catalog: &mut Catalog<S, H>,
    message: Incoming,
) -> Result<Outcome, ServeError>
    ensures others { catalog.new ≡ record catalog.old { zones = catalog.new.zones } }
    ensures ok { IfOk result (λ outcome. Step access.now (server_of H.ZoneHandler S.signature_for catalog.old) message
        outcome catalog.new.zones) }
    ensures err { IfErr result (λ e. LeavesUnserved access.now (server_of H.ZoneHandler S.signature_for catalog.old)
        message e catalog.new.zones) }
{
    if !access.allow(message.src.ip()) {
        return Ok(Outcome::Denied);
    }
    let Incoming {
        bytes,
        src,
        protocol,
        now,
    } = message;
    // It is lent where it was read: a request is too large to be handed on.
    let read = Request::from_bytes(alloc, bytes, src, protocol);
    let outcome = match &read {
        Ok(request) => {
            let sending = Sending::Encoded(protocol);
            match replies_to(alloc, catalog, request, now, sending, Items::new(alloc)) {
                Ok(replies) => Ok(Outcome::Replies(replies)),
                Err(e) => Err(e),
            }
        }
        Err(ProtoError::Memory) => Err(ServeError::Memory),
        Err(_) => Ok(Outcome::Unreadable),
    };
    drop(read);
    outcome
}

/// Serves messages, one after the other, each over the catalog as those before it left it: what becomes of each.
///
/// Where memory is refused for a message, those before it have their outcomes, those behind it are not looked at, and
/// the error says whether the catalog is as before that message or as after it. The place of an outcome is made before
/// its message is handled.
pub fn serve_all<S: ReplySigner, H: ZoneHandler>(
    alloc: Global,
    access: &AccessControl,
    catalog: &mut Catalog<S, H>,
    messages: Vec<Incoming>,
) -> Result<Vec<Outcome>, (Vec<Outcome>, ServeError)>
    ensures others { catalog.new ≡ record catalog.old { zones = catalog.new.zones } }
    // As the laws of isolation ask.
    ensures ordered { AreInOrder catalog.old.zones }
    ensures ok { IfOk result (λ outcomes.
        Run access.now (server_of H.ZoneHandler S.signature_for catalog.old) catalog.old.zones messages.items
        outcomes.items catalog.new.zones) }
    ensures err { IfErr result (λ failed. RunFailed access.now (server_of H.ZoneHandler S.signature_for catalog.old)
        messages.items failed.0.items failed.1 catalog.new.zones) }
{
    catalog.zones_in_order();
    let mut outcomes = Vec::new(alloc);
    for message in messages {
        if outcomes.reserve(1).is_err() {
            return Err((outcomes, ServeError::Memory));
        }
        match serve(alloc, access, catalog, message) {
            Ok(outcome) => outcomes.push_reserved(outcome),
            Err(e) => return Err((outcomes, e)),
        }
    }
    Ok(outcomes)
}

/// What a client reads of the replies to a request: of the bytes of each, over the transport that the request came
/// over, the header that tells what was left out, the questions of the request, and the records that were written, each
/// as it was meant.
///
/// The premises: no name of the questions leads into the header or runs on behind the last of them, which is so of all
/// that are sent in full (`request_laws::repeatable_questions`); the transport's limit has room for header and
/// questions, as it has for one question over any transport; each record of the reply reads back as
/// itself (`record_laws::reading_back` says which do), and none but its own is an OPT, TSIG or SIG.
pub fn replies_read_back<S: ReplySigner, H: ZoneHandler>()
    ensures answers { AnswersReadBack H.ZoneHandler S.signature_for }
    ensures steps { StepsReadBack H.ZoneHandler S.signature_for }
    ensures room { OneQuestionHasRoom H.ZoneHandler S.signature_for }
{
    replies_of_requests::<S, H>();
    replies_decode();
    repeatable_questions();
}

/// Each zone of a server is served as if it were the only one: what becomes of the messages to it, and the zone after
/// them, is what becomes of them where they come alone to a server of that zone alone, with the same identifier and
/// signer. Which messages of a run these are is decided, and in one way. So it is of one message (`step`), and one that
/// is not to a zone leaves the zone as it was (`stays`).
pub fn zones_are_isolated<S: ReplySigner, H: ZoneHandler>()
    ensures step { StepIsAlone H.ZoneHandler S.signature_for }
    ensures stays { StepLeavesOthers H.ZoneHandler S.signature_for }
    ensures isolated { ZonesAreIsolated H.ZoneHandler S.signature_for }
    ensures run { BesideIsARun H.ZoneHandler S.signature_for }
    ensures beside { EachRunIsBeside H.ZoneHandler S.signature_for }
    ensures one_way { OneWayBeside H.ZoneHandler S.signature_for }
    ensures each { EachRunIsIsolated H.ZoneHandler S.signature_for }
{
    one_message();
    zones_apart::<S, H>();
}
