//! A server: the rules that it holds messages to, and the zones that it answers for.

ghost use Rattle.std.specs.Prelude.{◌≡◌, ◌≢◌, ◌⊎◌, ◌∷◌, [], List, ℕ, IfErr, IfOk, MatchOption, None, Ok, OnOk};
ghost use Rattle.std.specs.List.{AllZip};
ghost use Rattle.std.specs.Net.Socket.{socket_ip};
ghost use Rattle.std.specs.Option.{option_copied};
ghost use Rattle.wire_messages.specs.declared.op.query.Query.{Query};
ghost use Rattle.wire_messages.specs.serialize.writing.Reply.{Reply};
ghost use Rattle.hickory_base.specs.requests.RequestReading.{IsFaultOf};
ghost use Rattle.hickory_catalog.specs.replies.Replies.{error_reply};
ghost use Rattle.hickory_catalog.specs.replies.ReplyEdns.{reply_edns};
ghost use Rattle.hickory_catalog.specs.requests.Server.{server_of};
ghost use Rattle.hickory_catalog.specs.transfers.WholeTransfers.{TransferReplies};
ghost use Rattle.hickory_server.specs.server.Above.{FindsAbove};
ghost use Rattle.hickory_server.specs.server.Ruling.{IsQuery, IsRuling, IsUpdate, code_of_refusal, refusal};
ghost use Rattle.hickory_server.specs.server.Sending.{IsSentAs, SentReplies};
ghost use Rattle.hickory_server.specs.server.ServedBy.{BytesServed, IsReadFrom, IsToBeServed, LeavesBytes, RequestServed, arrival, arrival_of};
ghost use Rattle.hickory_server.specs.server.Serving.{LeavesRequest};

use crate::server::above::{ds_name, replies_from_above};
use crate::server::answer::Answer;
use crate::server::form_error::form_error;
use crate::server::no_keys::NoKeys;
use crate::server::rules::{Rules, Ruling, is_response};
use crate::server::sending::{Sending, SentSink};
use crate::server::serve::{ServeError, replies_to};
use crate::server::writing::bare;
use hickory_base::server::Request;
use hickory_base::zone_store::{InMemoryZoneHandler, ZoneHandler};
use hickory_catalog::catalog::Catalog;
use hickory_catalog::laws::replies_taken;
use hickory_catalog::signer::ReplySigner;
use hickory_wire::{Items, Metadata, NSIDPayload, Octets, ProtoError, Protocol};
use std::alloc::{AllocError, Global};
use std::net::{IpAddr, Ipv4Addr, SocketAddr};

/// How many bytes the header of a message has (RFC 1035 section 4.1.1).
const HEADER_LEN: usize = 12;

/// A copy of an identifier.
fn copied(alloc: Global, nsid: Option<&NSIDPayload>) -> Result<Option<NSIDPayload>, AllocError>
    ensures { IfOk result (λ copy. copy ≡ option_copied nsid.entry) }
{
    let Some(payload) = nsid else {
        return Ok(None);
    };
    match NSIDPayload::new(payload.as_slice().to_vec(alloc)?) {
        Ok(copy) => Ok(Some(copy)),
        Err(_) => Err(AllocError),
    }
}

/// What is sent of the reply to a request that is refused, which is that of a catalog without zones.
fn refused(
    alloc: Global,
    nsid: Option<&NSIDPayload>,
    request: &Request,
    now: u64,
    sending: Sending,
) -> Result<Items<Octets>, AllocError>
    requires { (query : Query) × (IsQuery request.now.message query ⊎ IsUpdate request.now.message query) }
    ensures { IfOk result (λ sent. (bytes : List ℕ) × (sent ≡ bytes ∷ []) ×
        IsSentAs sending
        (error_reply request.now.message (reply_edns (option_copied nsid.entry) request.now.message.edns)
        (code_of_refusal request.now.message)) bytes) }
{
    let mut nothing: Catalog<NoKeys, InMemoryZoneHandler> = Catalog::new(alloc, NoKeys);
    nothing.set_nsid(copied(alloc, nsid)?);
    match replies_to(
        alloc,
        &mut nothing,
        request,
        now,
        sending,
        Items::new(alloc),
    ) {
        Ok(sent) => Ok(sent),
        Err(_) => Err(AllocError),
    }
}

/// What is sent to a request that is refused.
#[inline(never)]
fn refuse<S: ReplySigner, H: ZoneHandler>(
    alloc: Global,
    rules: &Rules,
    catalog: &Catalog<S, H>,
    request: &Request,
    now: u64,
) -> Result<Items<Octets>, AllocError>
    requires { IsRuling rules.now request.now Ruling.Refuse }
    ensures { IfOk result (λ sent.
        RequestServed rules.now (server_of H.ZoneHandler S.signature_for catalog.now) request.now now sent
        catalog.now.zones) }
{
    refused(alloc, catalog.nsid(), request, now, rules.sending(request))
}

/// What is sent to a request that is truncated.
#[inline(never)]
fn truncate<S: ReplySigner, H: ZoneHandler>(
    alloc: Global,
    rules: &Rules,
    catalog: &Catalog<S, H>,
    request: &Request,
    now: u64,
) -> Result<Items<Octets>, AllocError>
    requires { IsRuling rules.now request.now Ruling.Truncate }
    ensures { IfOk result (λ sent.
        RequestServed rules.now (server_of H.ZoneHandler S.signature_for catalog.now) request.now now sent
        catalog.now.zones) }
{
    let message = request.message();
    let mut metadata = Metadata::response_from_request(&message.metadata);
    metadata.truncation = true;
    let mut replies = Items::new(alloc);
    replies.push(bare(alloc, message, metadata, rules.datagram_limit(request))?)?;
    Ok(replies)
}

/// Hands the replies to a request by a transfer of the whole zone to a sink that has none.
fn hand_transfer_over<S: ReplySigner, H: ZoneHandler>(
    alloc: Global,
    catalog: &Catalog<S, H>,
    request: &Request,
    now: u64,
    sink: &mut SentSink,
) -> Result<(), AllocError>
    requires { sink.old ≡ record { sending = sink.old.sending; replies = []; failures = 0 } }
    ensures { OnOk result ((replies : List Reply) ×
        TransferReplies (server_of H.ZoneHandler S.signature_for catalog.now) request.now
        (reply_edns catalog.now.nsid request.now.message.edns) now replies ×
        AllZip (IsSentAs sink.old.sending) replies sink.new.replies) }
{
    match catalog.transfer(alloc, request, now, sink) {
        Ok(_) => {}
        Err(_) => return Err(AllocError),
    }
    // The sink fails only where it is refused the memory for a reply.
    if sink.failures() > 0 {
        return Err(AllocError);
    }
    replies_taken::<SentSink>();
    Ok(())
}

/// What is sent of the replies to a request by a transfer of the whole zone, in their order.
fn transfer_replies<S: ReplySigner, H: ZoneHandler>(
    alloc: Global,
    catalog: &Catalog<S, H>,
    request: &Request,
    now: u64,
    sending: Sending,
) -> Result<Items<Octets>, AllocError>
    ensures { IfOk result (λ sent. (replies : List Reply) ×
        TransferReplies (server_of H.ZoneHandler S.signature_for catalog.now) request.now
        (reply_edns catalog.now.nsid request.now.message.edns) now replies ×
        AllZip (IsSentAs sending) replies sent) }
{
    let mut sink = SentSink::reusing(alloc, sending, Items::new(alloc));
    hand_transfer_over(alloc, catalog, request, now, &mut sink)?;
    Ok(sink.into_replies())
}

/// What is sent to a request that is answered by the whole zone. It changes nothing, so want of memory leaves nothing
/// handled.
#[inline(never)]
fn transferred<S: ReplySigner, H: ZoneHandler>(
    alloc: Global,
    rules: &Rules,
    catalog: &Catalog<S, H>,
    request: &Request,
    now: u64,
) -> Result<Items<Octets>, AllocError>
    requires { IsRuling rules.now request.now Ruling.Transfer }
    ensures { IfOk result (λ sent.
        RequestServed rules.now (server_of H.ZoneHandler S.signature_for catalog.now) request.now now sent
        catalog.now.zones) }
{
    transfer_replies(alloc, catalog, request, now, rules.sending(request))
}

/// Want of memory before anything was handled.
fn unhandled<T: Drop>(made: Result<T, AllocError>) -> Result<T, ServeError>
    ensures ok { IfOk result (λ value. made ≡ Ok value) }
    ensures err { IfErr result (λ e. e ≡ ServeError.Memory) }
{
    match made {
        Ok(value) => Ok(value),
        Err(_) => Err(ServeError::Memory),
    }
}

/// What is sent to a request that passes and asks no zone above, in the memory of these other replies.
#[inline(never)]
fn passed<S: ReplySigner, H: ZoneHandler>(
    alloc: Global,
    rules: &Rules,
    catalog: &mut Catalog<S, H>,
    request: &Request,
    now: u64,
    spare: Items<Octets>,
) -> Result<Items<Octets>, ServeError>
    requires passes { IsRuling rules.now request.now Ruling.Pass }
    requires not_above { FindsAbove catalog.old.zones request.now.message None }
    ensures others { catalog.new ≡ record catalog.old { zones = catalog.new.zones } }
    ensures ok { IfOk result (λ sent.
        RequestServed rules.now (server_of H.ZoneHandler S.signature_for catalog.old) request.now now sent
        catalog.new.zones) }
    ensures err { IfErr result (λ e. (sink : SentReplies) ×
        LeavesRequest (server_of H.ZoneHandler S.signature_for catalog.old) request.now now sink e catalog.new.zones) }
{
    replies_to(alloc, catalog, request, now, rules.sending(request), spare)
}

/// What is sent to a request that passes and asks a zone above, if it asks one.
fn from_above<S: ReplySigner, H: ZoneHandler>(
    alloc: Global,
    rules: &Rules,
    catalog: &Catalog<S, H>,
    request: &Request,
    now: u64,
) -> Result<Option<Items<Octets>>, AllocError>
    requires { IsRuling rules.now request.now Ruling.Pass }
    ensures { IfOk result (λ answer. MatchOption answer (FindsAbove catalog.now.zones request.now.message None)
        (λ sent.
        RequestServed rules.now (server_of H.ZoneHandler S.signature_for catalog.now) request.now now sent
        catalog.now.zones)) }
{
    replies_from_above(alloc, catalog, request, now, rules.sending(request))
}

/// What is sent to a request that passes and may ask a zone above.
#[inline(never)]
fn passed_above<S: ReplySigner, H: ZoneHandler>(
    alloc: Global,
    rules: &Rules,
    catalog: &mut Catalog<S, H>,
    request: &Request,
    now: u64,
) -> Result<Items<Octets>, ServeError>
    requires { IsRuling rules.now request.now Ruling.Pass }
    ensures others { catalog.new ≡ record catalog.old { zones = catalog.new.zones } }
    ensures ok { IfOk result (λ sent.
        RequestServed rules.now (server_of H.ZoneHandler S.signature_for catalog.old) request.now now sent
        catalog.new.zones) }
    ensures err { IfErr result (λ e. (sink : SentReplies) ×
        LeavesRequest (server_of H.ZoneHandler S.signature_for catalog.old) request.now now sink e catalog.new.zones) }
{
    match from_above(alloc, rules, catalog, request, now) {
        Ok(Some(sent)) => Ok(sent),
        Ok(None) => passed(alloc, rules, catalog, request, now, Items::new(alloc)),
        Err(_) => Err(ServeError::Memory),
    }
}

/// What is sent to a request.
#[inline(never)]
fn ruled<S: ReplySigner, H: ZoneHandler>(
    alloc: Global,
    rules: &Rules,
    catalog: &mut Catalog<S, H>,
    request: &Request,
    now: u64,
) -> Result<Items<Octets>, ServeError>
    ensures others { catalog.new ≡ record catalog.old { zones = catalog.new.zones } }
    ensures ok { IfOk result (λ sent.
        RequestServed rules.now (server_of H.ZoneHandler S.signature_for catalog.old) request.now now sent
        catalog.new.zones) }
    ensures err { IfErr result (λ e. (sink : SentReplies) ×
        LeavesRequest (server_of H.ZoneHandler S.signature_for catalog.old) request.now now sink e catalog.new.zones) }
{
    match rules.ruling(request) {
        Ruling::Pass => passed_above(alloc, rules, catalog, request, now),
        Ruling::Refuse => unhandled(refuse(alloc, rules, catalog, request, now)),
        Ruling::Truncate => unhandled(truncate(alloc, rules, catalog, request, now)),
        Ruling::Transfer => unhandled(transferred(alloc, rules, catalog, request, now)),
    }
}

/// What is sent to a request, in the memory of these other replies where it passes.
// speed: served, an address
#[inline(always)]
fn answered<S: ReplySigner, H: ZoneHandler>(
    alloc: Global,
    rules: &Rules,
    catalog: &mut Catalog<S, H>,
    request: &Request,
    now: u64,
    spare: Items<Octets>,
) -> Result<Items<Octets>, ServeError>
    ensures others { catalog.new ≡ record catalog.old { zones = catalog.new.zones } }
    ensures ok { IfOk result (λ sent.
        RequestServed rules.now (server_of H.ZoneHandler S.signature_for catalog.old) request.now now sent
        catalog.new.zones) }
    ensures err { IfErr result (λ e. (sink : SentReplies) ×
        LeavesRequest (server_of H.ZoneHandler S.signature_for catalog.old) request.now now sink e catalog.new.zones) }
{
    match rules.ruling(request) {
        Ruling::Pass => match ds_name(request.message()) {
            None => passed(alloc, rules, catalog, request, now, spare),
            Some(_) => passed_above(alloc, rules, catalog, request, now),
        },
        _ => ruled(alloc, rules, catalog, request, now),
    }
}

/// A request without a question, in whose place others are read.
fn empty_request(alloc: Global) -> Result<Request, AllocError> {
    let bytes = vec![in alloc; 0; HEADER_LEN]?;
    let source = SocketAddr::new(IpAddr::V4(Ipv4Addr::LOCALHOST), 53);
    match Request::from_bytes(alloc, bytes, source, Protocol::Udp) {
        Ok(request) => Ok(request),
        Err(_) => Err(AllocError),
    }
}

/// A server: what it holds messages to, what it serves, and the request that it read last, in whose place it reads the
/// next.
#[derive(Drop)]
pub struct Server<S: ReplySigner, H: ZoneHandler> {
    /// What it holds every message to.
    pub rules: Rules,
    /// What it serves.
    pub catalog: Catalog<S, H>,
    request: Request,
}

impl<S: ReplySigner, H: ZoneHandler> Server<S, H> {
    /// A server of these zones, by these rules.
    pub fn new(
        alloc: Global,
        rules: Rules,
        catalog: Catalog<S, H>,
    ) -> Result<Server<S, H>, AllocError>
        ensures rules { IfOk result (λ server. server.rules ≡ rules) }
        ensures catalog { IfOk result (λ server. server.catalog ≡ catalog) }
    {
        Ok(Server {
            rules,
            catalog,
            request: empty_request(alloc)?,
        })
    }

    /// Serves one message, which came from this address over this transport, at this moment in seconds since 1970: what
    /// becomes of it. Only an update changes the catalog.
    ///
    /// A message whose address may not use the server is denied. One that is shorter than a header is unreadable, and
    /// one with QR set is a response. None of these has a reply. Any other message whose body cannot be read is
    /// answered FormErr. An update of a zone of another class than IN is answered NotAuth (RFC 2136 section 3.1.1). A
    /// query of another class than IN and ANY is answered Refused, and so is one for a transfer (AXFR, IXFR) from an
    /// address that may have none. A query for a whole zone (AXFR) over UDP is answered with TC and no records (RFC
    /// 5936 section 4.2). A query for what changed in a zone (IXFR) is answered by what its handlers give as a transfer
    /// (RFC 1995 sections 2 and 4). A query for the DS records of the apex of a zone is answered by the zone above it,
    /// if the server has one (RFC 4035 section 3.1.4.1), and else by that zone itself.
    /// Over UDP no reply is longer than the client takes, nor than the limit of the rules. If only additionals have no
    /// room, which are no glue of a referral, whole RRsets of them are left out and TC is clear (RFC 2181 section 9).
    /// If anything else has no room, the reply has TC, the question and no records. It has its OPT record in any case
    /// (RFC 6891 section 7).
    ///
    /// # Errors
    ///
    /// `Memory` says that the catalog is as before, and `MemoryAfterHandling` that the message was handled and its
    /// replies are missing.
    #[inline(never)]
    pub fn serve(
        &mut self,
        alloc: Global,
        bytes: &[u8],
        src: SocketAddr,
        protocol: Protocol,
        now: u64,
    ) -> Result<Answer, ServeError>
        ensures rules { self.new.rules ≡ self.old.rules }
        ensures others { self.new.catalog ≡ record self.old.catalog { zones = self.new.catalog.zones } }
        ensures ok { IfOk result (λ answer.
            BytesServed self.old.rules (server_of H.ZoneHandler S.signature_for self.old.catalog)
            (arrival bytes.now src protocol now) answer self.new.catalog.zones) }
        ensures err { IfErr result (λ e.
            LeavesBytes self.old.rules (server_of H.ZoneHandler S.signature_for self.old.catalog)
            (arrival bytes.now src protocol now) e self.new.catalog.zones) }
    {
        self.serve_reusing(alloc, bytes, src, protocol, now, Items::new(alloc))
    }

    /// Serves one message as `serve` does. The memory of these replies, as those to an earlier message, is used again
    /// for those that the zones give to this one.
    // speed: served, an address
    #[inline(always)]
    pub fn serve_reusing(
        &mut self,
        alloc: Global,
        bytes: &[u8],
        src: SocketAddr,
        protocol: Protocol,
        now: u64,
        spare: Items<Octets>,
    ) -> Result<Answer, ServeError>
        ensures rules { self.new.rules ≡ self.old.rules }
        ensures others { self.new.catalog ≡ record self.old.catalog { zones = self.new.catalog.zones } }
        ensures ok { IfOk result (λ answer. BytesServed self.old.rules
            (server_of H.ZoneHandler S.signature_for self.old.catalog)
            (arrival bytes.now src protocol now) answer self.new.catalog.zones) }
        ensures err { IfErr result (λ e. LeavesBytes self.old.rules
            (server_of H.ZoneHandler S.signature_for self.old.catalog)
            (arrival bytes.now src protocol now) e self.new.catalog.zones) }
    {
        if !self.rules.access.allow(src.ip()) {
            return Ok(Answer::Denied);
        }
        if bytes.len() < HEADER_LEN {
            return Ok(Answer::Unreadable);
        }
        if is_response(bytes) {
            return Ok(Answer::Response);
        }
        match self.read(alloc, bytes, src, protocol) {
            Ok(()) => {}
            Err(ProtoError::Memory) => return Err(ServeError::Memory),
            Err(_) => return form_error(alloc, bytes),
        }
        match self.serve_request(alloc, now, spare) {
            Ok(sent) => Ok(Answer::Replies(sent)),
            Err(e) => Err(e),
        }
    }

    /// Reads a message in place of the request that was read last.
    // speed: served, an address
    #[inline(always)]
    pub fn read(
        &mut self,
        alloc: Global,
        bytes: &[u8],
        src: SocketAddr,
        protocol: Protocol,
    ) -> Result<(), ProtoError>
        ensures kept { (self.new.rules ≡ self.old.rules) × (self.new.catalog ≡ self.old.catalog) }
        ensures read { IfOk result (λ _. IsReadFrom bytes.now src protocol self.new.request) }
        ensures fault { IfErr result (λ e. e ≢ ProtoError.Memory → IsFaultOf bytes.now e) }
    {
        self.request.read_in_place(alloc, bytes, src, protocol)?;
        Ok(())
    }

    /// The request that was read last.
    pub fn request(&self) -> &Request
        ensures { result.now ≡ self.now.request }
    {
        &self.request
    }

    /// Serves the request that was read last, as `serve` serves its message: what is sent to it. The memory of these
    /// replies is used again.
    // speed: served, an address
    #[inline(always)]
    pub fn serve_request(
        &mut self,
        alloc: Global,
        now: u64,
        spare: Items<Octets>,
    ) -> Result<Items<Octets>, ServeError>
        requires { IsToBeServed self.old.rules.access self.old.request }
        ensures rules { self.new.rules ≡ self.old.rules }
        ensures request { self.new.request ≡ self.old.request }
        ensures others { self.new.catalog ≡ record self.old.catalog { zones = self.new.catalog.zones } }
        ensures ok { IfOk result (λ sent. BytesServed self.old.rules
            (server_of H.ZoneHandler S.signature_for self.old.catalog)
            (arrival_of self.old.request now) (Answer.Replies sent) self.new.catalog.zones) }
        ensures err { IfErr result (λ e. LeavesBytes self.old.rules
            (server_of H.ZoneHandler S.signature_for self.old.catalog)
            (arrival_of self.old.request now) e self.new.catalog.zones) }
    {
        let catalog = &mut self.catalog;
        answered(alloc, &self.rules, catalog, &self.request, now, spare)
    }
}
