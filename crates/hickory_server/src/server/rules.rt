//! What a server holds every message to.

ghost use Rattle.std.specs.Prelude.{◌≡◌, ◌≢◌, ◌↔◌, ◌≤◌, [], ℕ, Contains, IsTrue, MatchOption, false};
ghost use Rattle.std.specs.Option.{option_copied};
ghost use Rattle.wire_messages.specs.declared.op.query.Query.{Query};
ghost use Rattle.server_limits.specs.Access.{Network};
ghost use Rattle.hickory_server.specs.server.Ruling.{Asks, AsksForTransfer, IsIncremental, IsOfServedClass, IsQuery, IsRefusedUpdate, IsResponse, IsRuling, IsTransfer, MayTransfer, datagram_limit, own_of, own_for, transfers_for, udp_limit};
ghost use Rattle.hickory_server.specs.server.Sending.{sending_of};

use crate::server::sending::Sending;
use hickory_base::access::AccessControl;
use hickory_base::message_request::MessageRequest;
use hickory_base::server::Request;
use hickory_wire::{DNSClass, LowerQuery, MessageType, Name, OpCode, Protocol, RecordType};
use std::alloc::Global;

/// The rules that a zone has of its own of who may have it transferred.
#[derive(Drop)]
pub struct ZoneTransfers {
    /// The name of the zone's apex.
    pub apex: Name,
    /// Who may have it transferred, of those who may use the server.
    pub access: AccessControl,
    /// The names of keys whose good signature lets a request have it from anywhere, at a server that has keys.
    pub keys: Vec<Name>,
}

/// What a server holds every message to.
#[derive(Drop)]
pub struct Rules {
    /// Who may use the server.
    pub access: AccessControl,
    /// Who of those may have a zone transferred that has no rules of its own.
    pub transfers: AccessControl,
    /// The zones that have rules of their own of who may have them transferred. Of two for one name the first counts.
    pub zones: Vec<ZoneTransfers>,
    /// How many bytes a reply over UDP has at most, where the client takes as many. Less than 512 is 512.
    pub max_udp: u16,
}

/// What the rules make of a request.
#[derive(Clone, Copy, Debug, PartialEq, Eq)]
pub enum Ruling {
    /// It is answered Refused, or NotAuth if it is an update. No zone is asked.
    Refuse,
    /// It is answered with TC and no records, and no zone is asked.
    Truncate,
    /// It is answered by what the handlers of the zone give as a transfer.
    Transfer,
    /// It is for the zones.
    Pass,
}

/// Whether a message is itself a response: QR is set, the highest bit of its third byte (RFC 1035 section 4.1.1).
pub(crate) fn is_response(bytes: &[u8]) -> bool
    ensures { IsTrue result ↔ IsResponse bytes.now }
{
    match bytes.get(2) {
        Some(flags) => *flags >= 128,
        None => false,
    }
}

/// The question of a request of this opcode, if it has exactly one and its version of EDNS is known.
// speed: served, an address
#[inline(always)]
fn question_with(message: &MessageRequest, op_code: OpCode) -> Option<&LowerQuery>
    ensures { MatchOption result ((query : Query) → ¬ (Asks message.now op_code query))
        (λ query. Asks message.now op_code query.now) }
{
    if message.version() != 0 || message.metadata.message_type != MessageType::Query {
        return None;
    }
    if message.metadata.op_code != op_code {
        return None;
    }
    match message.queries.queries() {
        [query] => Some(query),
        _ => None,
    }
}

/// The question of a query, if it has exactly one and its version of EDNS is known.
// speed: served, an address
#[inline(always)]
pub(crate) fn question_of(message: &MessageRequest) -> Option<&LowerQuery>
    ensures { MatchOption result ((query : Query) → ¬ (IsQuery message.now query))
        (λ query. IsQuery message.now query.now) }
{
    question_with(message, OpCode::QUERY)
}

/// Whether a question is of a class that is served: IN, or ANY.
fn is_of_served_class(query: &LowerQuery) -> bool
    ensures { IsTrue result ↔ IsOfServedClass query.now }
{
    query.query_class() == DNSClass::IN || query.query_class() == DNSClass::ANY
}

/// Whether a question asks for a whole zone or for what changed in it.
fn is_transfer(query: &LowerQuery) -> bool
    ensures { IsTrue result ↔ IsTransfer query.now }
{
    query.query_type() == RecordType::AXFR || query.query_type() == RecordType::IXFR
}

/// Whether a message is an update of a zone of another class than IN (RFC 2136 section 3.1.1).
fn is_refused_update(message: &MessageRequest) -> bool
    ensures refused { IsTrue result → (zone : Query) × IsRefusedUpdate message.now zone }
    ensures passed { result ≡ false → (zone : Query) → ¬ (IsRefusedUpdate message.now zone) }
{
    match question_with(message, OpCode::UPDATE) {
        Some(zone) => { zone.query_type() == RecordType::SOA && zone.query_class() != DNSClass::IN }
        None => false,
    }
}

/// Whether a message is a query for a transfer (AXFR or IXFR).
pub fn asks_for_transfer(message: &MessageRequest) -> bool
    ensures { IsTrue result ↔ AsksForTransfer message.now }
{
    match question_of(message) {
        Some(query) => is_transfer(query),
        None => false,
    }
}

/// The rules that the zone of this name has of its own, if it has any. The time grows with the number of zones that
/// have rules.
fn own_of<'a>(zones: &'a [ZoneTransfers], name: &Name) -> Option<&'a ZoneTransfers>
    ensures { option_copied result ≡ own_of zones.now name.now }
{
    zones.iter().find(|zone| zone.apex == *name)
}

/// What becomes of a question for a transfer whose asker may have it: what changed in a zone is asked of its handlers
/// over any transport, and the whole zone over streams alone.
fn ruling_of_transfer(protocol: Protocol, query: &LowerQuery) -> Ruling
    ensures incremental { IsIncremental query.now → result ≡ Ruling.Transfer }
    ensures datagram { ¬ (IsIncremental query.now) → protocol ≡ Protocol.Udp → result ≡ Ruling.Truncate }
    ensures stream { ¬ (IsIncremental query.now) → protocol ≢ Protocol.Udp → result ≡ Ruling.Pass }
{
    if query.query_type() == RecordType::IXFR {
        return Ruling::Transfer;
    }
    match protocol {
        Protocol::Udp => Ruling::Truncate,
        _ => Ruling::Pass,
    }
}

impl Rules {
    /// Everybody may use the server and have transfers, and a reply over UDP has at most 1,232 bytes: what IPv6 carries
    /// in one piece everywhere, of which 48 bytes are headers (RFC 8200 sections 3 and 5, RFC 768).
    pub fn new(alloc: Global) -> Rules
        ensures deny { (network : Network) → ¬ (Contains result.access.deny network) }
        ensures allow { (network : Network) → ¬ (Contains result.access.allow network) }
        ensures no_transfers { (network : Network) → ¬ (Contains result.transfers.deny network) }
        ensures transfers { (network : Network) → ¬ (Contains result.transfers.allow network) }
        ensures zones { result.zones.items ≡ [] }
        ensures limit { result.max_udp ≡ 1232 }
    {
        Rules {
            access: AccessControl::new(alloc),
            transfers: AccessControl::new(alloc),
            zones: Vec::new(alloc),
            max_udp: 1232,
        }
    }

    /// How many bytes a reply over UDP has at most, whatever the client takes.
    pub fn udp_limit(&self) -> u16
        ensures { result ≡ udp_limit self.now }
    {
        self.max_udp.max(512)
    }

    /// How many bytes a reply to a request has at most over UDP.
    // speed: served, an address
    #[inline(always)]
    pub fn datagram_limit(&self, request: &Request) -> u16
        ensures limit { result ≡ datagram_limit self.now request.now }
        ensures header { 12 ≤ result }
    {
        request.message().max_payload().min(self.udp_limit())
    }

    /// How the replies to a request are sent: over UDP each within the limit, and over a stream each whole.
    // speed: served, an address
    #[inline(always)]
    pub(crate) fn sending(&self, request: &Request) -> Sending
        ensures { result ≡ sending_of self.now request.now }
    {
        match request.protocol() {
            Protocol::Udp => Sending::Fitted(self.datagram_limit(request)),
            _ => Sending::Encoded(Protocol::Tcp),
        }
    }

    /// The rules of transfers that the zone of a request has of its own, if it has any. The zone is the one of the name
    /// of its question; a request of another number of questions has none.
    pub fn own_for(&self, message: &MessageRequest) -> Option<&ZoneTransfers>
        ensures { option_copied result ≡ own_for self.now message.now }
    {
        match message.queries.queries() {
            [query] => own_of(self.zones.as_slice(), &query.original().name),
            _ => None,
        }
    }

    /// Who may have the zone of a request transferred: who its own rules say, if it has any, and no other; else who the
    /// rules for all zones say.
    fn transfers_for(&self, message: &MessageRequest) -> &AccessControl
        ensures { result.now ≡ transfers_for self.now message.now }
    {
        match self.own_for(message) {
            Some(zone) => &zone.access,
            None => &self.transfers,
        }
    }

    /// Whether the zone of a request may be transferred to the address that it came from.
    fn may_transfer(&self, request: &Request) -> bool
        ensures { IsTrue result ↔ MayTransfer self.now request.now }
    {
        self.transfers_for(request.message())
            .allow(request.src().ip())
    }

    /// What becomes of a query whose one question this is.
    // speed: served, an address
    #[inline(always)]
    fn ruling_of(&self, request: &Request, query: &LowerQuery) -> Ruling
        requires { IsQuery request.now.message query.now }
        ensures { IsRuling self.now request.now result }
    {
        if !is_of_served_class(query) {
            return Ruling::Refuse;
        }
        if !is_transfer(query) {
            return Ruling::Pass;
        }
        if !self.may_transfer(request) {
            return Ruling::Refuse;
        }
        ruling_of_transfer(request.protocol(), query)
    }

    /// What the rules make of a request.
    // speed: served, an address
    #[inline(always)]
    pub fn ruling(&self, request: &Request) -> Ruling
        ensures { IsRuling self.now request.now result }
    {
        match question_of(request.message()) {
            Some(query) => self.ruling_of(request, query),
            None if is_refused_update(request.message()) => Ruling::Refuse,
            None => Ruling::Pass,
        }
    }
}
