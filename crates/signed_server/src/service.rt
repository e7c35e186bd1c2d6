//! A server with keys.

ghost use Rattle.std.specs.Prelude.{◌≡◌, ◌≢◌, ◌↔◌, [], IfErr, IfOk, IsTrue};
ghost use Rattle.std.specs.List.{list_any};
ghost use Rattle.wire_names.specs.rr.domain.NameOrder.{name_eq};
ghost use Rattle.hickory_catalog.specs.requests.Server.{server_of};
ghost use Rattle.hickory_server.specs.server.ServedBy.{BytesServed, IsToBeServed, LeavesBytes, arrival, arrival_of};
ghost use Rattle.hickory_server.specs.declared.server.answer.Answer.{Answer as Outcome};
ghost use Rattle.hickory_server.specs.declared.server.rules.Rules.{Rules as Ruled};
ghost use Rattle.tsig.specs.Judging.{Judged};
ghost use Rattle.signed_server.specs.KeyedServers.{keyed_of};
ghost use Rattle.signed_server.specs.ServedWithKeys.{AreRulesFor, CountsNoRecord, IsForJudging, IsRequestWithKeys, LeavesWithKeys, ServedWithKeys, course_of, is_by_one_of, keys_for};
ghost use Rattle.signed_server.specs.SignedAnswers.{IsSentSigned};

use crate::answers::{refused, sent};
use hickory_base::access::AccessControl;
use hickory_base::message_request::MessageRequest;
use hickory_base::zone_store::ZoneHandler;
use hickory_catalog::catalog::Catalog;
use hickory_catalog::signer::ReplySigner;
use hickory_server::server::form_error::form_error;
use hickory_server::server::serve::ServeError;
use hickory_server::server::{Answer, Rules, Server};
use hickory_wire::{Items, Name, Octets, ProtoError, Protocol};
use std::alloc::{AllocError, Global};
use std::mem;
use std::net::SocketAddr;
use tsig::{Judgement, Keys, Verdict, judge};

/// How many bytes the header of a message has (RFC 1035 section 4.1.1).
const HEADER_LEN: usize = 12;

/// Which way a message goes.
#[derive(Clone, Copy, Debug, PartialEq, Eq)]
pub(crate) enum Course {
    /// It has no signature, and is served as it is.
    Plain,
    /// Its signature is good: it is served, and its replies are signed.
    Sign,
    /// Its signature is bad, and no zone is asked.
    Refuse,
}

/// Which way a message goes that was judged so.
fn course_of(judgement: &Judgement) -> Course
    ensures { result ≡ course_of judgement.now }
{
    match judgement {
        Judgement::Unsigned => Course::Plain,
        Judgement::FormErr => Course::Refuse,
        Judgement::Signed { verdict, .. } => match verdict {
            Verdict::Good => Course::Sign,
            Verdict::BadKey | Verdict::BadSig | Verdict::BadTime | Verdict::BadTrunc => {
                Course::Refuse
            }
        },
    }
}

/// Whether the header of a message counts no record in any section.
fn counts_no_record(bytes: &[u8]) -> bool
    ensures { IsTrue result ↔ CountsNoRecord bytes.now }
{
    match bytes {
        [_, _, _, _, _, _, 0, 0, 0, 0, 0, 0, ..] => true,
        _ => false,
    }
}

/// Whether a message is one that the server judges where it may have a signature.
#[inline(always)]
fn is_request(keys: &Keys, rules: &Rules, bytes: &[u8], src: SocketAddr) -> bool
    ensures { IsTrue result ↔ IsRequestWithKeys keys.now rules.now bytes.now src }
{
    !keys.is_empty() && rules.access.allow(src.ip()) && bytes.len() >= HEADER_LEN && bytes[2] < 128
}

/// Whether a message is judged.
#[inline(always)]
fn is_for_judging(keys: &Keys, rules: &Rules, bytes: &[u8], src: SocketAddr) -> bool
    ensures { IsTrue result ↔ IsForJudging keys.now rules.now bytes.now src }
{
    is_request(keys, rules, bytes, src) && !counts_no_record(bytes)
}

/// Whether two names are one, letter case aside.
fn is_same_name(one: &Name, other: &Name) -> bool
    ensures { result ≡ name_eq one.now other.now }
{
    one == other
}

/// Whether a name is one of these, letter case aside.
fn is_one_of(names: &[Name], name: &Name) -> bool
    ensures { result ≡ list_any (λ one. name_eq one name.now) names.now }
{
    names.iter().any(|one| is_same_name(one, name))
}

/// Whether the key that a request names is one of these.
fn is_by_one_of(names: &[Name], judgement: &Judgement) -> bool
    ensures { result ≡ is_by_one_of names.now judgement.now }
{
    match judgement {
        Judgement::Signed { signature, .. } => is_one_of(names, &signature.get().name),
        _ => false,
    }
}

/// The names of the keys that may have the zone of a request transferred from anywhere: those of its own rules, if it
/// has any, and else these.
fn keys_for<'a>(names: &'a [Name], rules: &'a Rules, message: &MessageRequest) -> &'a [Name]
    ensures { result.now ≡ keys_for names.now rules.now message.now }
{
    match rules.own_for(message) {
        Some(zone) => zone.keys.as_slice(),
        None => names,
    }
}

/// Serves the request that was read last, by rules that let it have transfers from anywhere where that is said.
fn serve_opened<S: ReplySigner, H: ZoneHandler>(
    alloc: Global,
    is_open: bool,
    server: &mut Server<S, H>,
    now: u64,
) -> Result<Items<Octets>, ServeError>
    requires { IsToBeServed server.old.rules.access server.old.request }
    ensures rules { server.new.rules ≡ server.old.rules }
    ensures request { server.new.request ≡ server.old.request }
    ensures others { server.new.catalog ≡ record server.old.catalog { zones = server.new.catalog.zones } }
    ensures ok { IfOk result (λ replies. (theirs : Ruled) × AreRulesFor is_open server.old.rules theirs ×
        BytesServed theirs (server_of H.ZoneHandler S.signature_for server.old.catalog)
        (arrival_of server.old.request now) (Answer.Replies replies) server.new.catalog.zones) }
    ensures err { IfErr result (λ e.
        LeavesBytes server.old.rules (server_of H.ZoneHandler S.signature_for server.old.catalog)
        (arrival_of server.old.request now) e server.new.catalog.zones) }
{
    if !is_open {
        return server.serve_request(alloc, now, Items::new(alloc));
    }
    let closed = mem::replace(&mut server.rules.transfers, AccessControl::new(alloc));
    let zones = mem::replace(&mut server.rules.zones, Vec::new(alloc));
    let served = server.serve_request(alloc, now, Items::new(alloc));
    server.rules.transfers = closed;
    server.rules.zones = zones;
    served
}

/// Serves the request that was read last, whose signature is good, and signs its replies.
fn serve_good<S: ReplySigner, H: ZoneHandler>(
    alloc: Global,
    keys: &Keys,
    judgement: &Judgement,
    names: &[Name],
    server: &mut Server<S, H>,
    now: u64,
) -> Result<Answer, ServeError>
    requires { IsToBeServed server.old.rules.access server.old.request }
    ensures rules { server.new.rules ≡ server.old.rules }
    ensures others { server.new.catalog ≡ record server.old.catalog { zones = server.new.catalog.zones } }
    ensures ok { IfOk result (λ answer. (theirs : Ruled) × (served : Outcome) ×
        AreRulesFor (is_by_one_of (keys_for names.now server.old.rules server.old.request.message) judgement.now)
        server.old.rules theirs × BytesServed theirs (server_of H.ZoneHandler S.signature_for server.old.catalog)
        (arrival_of server.old.request now) served server.new.catalog.zones ×
        IsSentSigned keys.now server.old.rules
        (record { request = server.old.request; judgement = judgement.now; now = now }) served answer) }
    ensures err { IfErr result (λ e. LeavesWithKeys (record {
      keys = keys.now;
      transfer_keys = names.now;
      rules = server.old.rules;
      server = server_of H.ZoneHandler S.signature_for server.old.catalog;
    }) (arrival_of server.old.request now) e server.new.catalog.zones) }
{
    let names = keys_for(names, &server.rules, server.request().message());
    let is_open = is_by_one_of(names, judgement);
    let replies = serve_opened(alloc, is_open, server, now)?;
    match sent(
        alloc,
        keys,
        judgement,
        &server.rules,
        server.request(),
        now,
        replies,
    ) {
        Ok(leaving) => Ok(Answer::Replies(leaving)),
        Err(_) => Err(ServeError::MemoryAfterHandling),
    }
}

/// A server with keys: the server, and the keys that it judges signatures by.
///
/// The handlers of zones that take updates are to judge by a [`TsigVerifier`](tsig::TsigVerifier) of a copy of the keys,
/// so that a request is hashed once.
/// Whatever signer the catalog has, the signatures that it gives are taken off, and replies are signed anew;
/// [`LeftToServer`](crate::LeftToServer) computes none.
#[derive(Drop)]
pub struct SignedServer<S: ReplySigner, H: ZoneHandler> {
    /// The server.
    pub server: Server<S, H>,
    /// The keys.
    pub keys: Keys,
    /// The names of keys whose good signature lets a request have zones from anywhere that have no rules of their own,
    /// letter case aside.
    pub transfer_keys: Vec<Name>,
}

impl<S: ReplySigner, H: ZoneHandler> SignedServer<S, H> {
    /// A server with these keys, none of which may have transfers that the rules of the server give to nobody.
    pub fn new(
        alloc: Global,
        server: Server<S, H>,
        keys: Keys,
    ) -> Result<SignedServer<S, H>, AllocError>
        ensures server { IfOk result (λ made. made.server ≡ server) }
        ensures keys { IfOk result (λ made. made.keys ≡ keys) }
        ensures names { IfOk result (λ made. made.transfer_keys.items ≡ []) }
    {
        Ok(SignedServer {
            server,
            keys,
            transfer_keys: Vec::new(alloc),
        })
    }

    /// Serves a message that was judged, and has a signature.
    #[inline(never)]
    fn serve_signed(
        &mut self,
        alloc: Global,
        judgement: &Judgement,
        bytes: &[u8],
        src: SocketAddr,
        protocol: Protocol,
        now: u64,
    ) -> Result<Answer, ServeError>
        requires judging { IsForJudging self.old.keys self.old.server.rules bytes.now src }
        requires judged { Judged self.old.keys bytes.now now judgement.now }
        requires signed { course_of judgement.now ≢ Course.Plain }
        ensures keys { self.new.keys ≡ self.old.keys }
        ensures names { self.new.transfer_keys ≡ self.old.transfer_keys }
        ensures rules { self.new.server.rules ≡ self.old.server.rules }
        ensures others { self.new.server.catalog ≡ record self.old.server.catalog
            { zones = self.new.server.catalog.zones } }
        ensures ok { IfOk result (λ answer. ServedWithKeys (keyed_of H.ZoneHandler S.signature_for self.old)
            (arrival bytes.now src protocol now) answer self.new.server.catalog.zones) }
        ensures err { IfErr result (λ e. LeavesWithKeys (keyed_of H.ZoneHandler S.signature_for self.old)
            (arrival bytes.now src protocol now) e self.new.server.catalog.zones) }
    {
        match self.server.read(alloc, bytes, src, protocol) {
            Ok(()) => {}
            Err(ProtoError::Memory) => return Err(ServeError::Memory),
            Err(_) => return form_error(alloc, bytes),
        }
        let (keys, server) = (&self.keys, &mut self.server);
        match course_of(judgement) {
            Course::Refuse => {
                match refused(alloc, keys, judgement, &server.rules, server.request(), now) {
                    Ok(leaving) => Ok(Answer::Replies(leaving)),
                    Err(_) => Err(ServeError::Memory),
                }
            }
            _ => {
                let names = self.transfer_keys.as_slice();
                serve_good(alloc, keys, judgement, names, server, now)
            }
        }
    }

    /// Serves one message, which came from this address over this transport, at this moment in seconds since 1970: what
    /// becomes of it.
    ///
    /// It is judged by the keys (RFC 8945 section 5.2), unless there is none, or its address may not use the server, or
    /// it has no header, or is itself a response, or counts no record behind its questions: then, and where it has no
    /// TSIG record, it is served as [`Server::serve`] serves it. Where its signature is good, it is served so too, TSIG
    /// record and all, by rules that let everybody have transfers where the key is one that the zone's own rules name, or one of
    /// `transfer_keys` if it has none, and every reply is signed over the bytes that leave, the first over the MAC of the request, and each further one of a
    /// transfer over the MAC of the one before it (sections 5.3 and 5.3.1). Over UDP, the room is what the client takes
    /// and the rules allow. A reply that has no room for its TSIG record is replaced by the question, with TC and no
    /// error (section 5.3). Over a stream, the room is 65,535 bytes. A transfer is sent in messages that each have room
    /// for their TSIG record. Another reply without room, and an answer without room in a message of its own, is
    /// replaced by the question with ServFail.
    ///
    /// Where the signature is bad, no zone is asked. The reply is NOTAUTH with BADKEY, BADSIG, BADTIME or BADTRUNC in
    /// its TSIG record; of these BADTIME, with the server's time, and BADTRUNC are signed (section 5.2). It is FORMERR,
    /// without a TSIG record, if the TSIG record has no form. It is a header that says FORMERR if the message cannot be
    /// read, as with a record after the TSIG record, or a TSIG record in another section (section 5.1).
    ///
    /// Where there are keys, a message that counts a record, as an OPT record, is read once more than by
    /// [`Server::serve`]. Each byte of a signed one, and of each reply to it, is hashed once.
    ///
    /// # Errors
    ///
    /// `Memory` says that the catalog is as before, and `MemoryAfterHandling` that the message was handled and its
    /// replies are missing.
    pub fn serve(
        &mut self,
        alloc: Global,
        bytes: &[u8],
        src: SocketAddr,
        protocol: Protocol,
        now: u64,
    ) -> Result<Answer, ServeError>
        ensures keys { self.new.keys ≡ self.old.keys }
        ensures names { self.new.transfer_keys ≡ self.old.transfer_keys }
        ensures rules { self.new.server.rules ≡ self.old.server.rules }
        ensures others { self.new.server.catalog ≡ record self.old.server.catalog
            { zones = self.new.server.catalog.zones } }
        ensures ok { IfOk result (λ answer. ServedWithKeys (keyed_of H.ZoneHandler S.signature_for self.old)
            (arrival bytes.now src protocol now) answer self.new.server.catalog.zones) }
        ensures err { IfErr result (λ e. LeavesWithKeys (keyed_of H.ZoneHandler S.signature_for self.old)
            (arrival bytes.now src protocol now) e self.new.server.catalog.zones) }
    {
        self.serve_reusing(alloc, bytes, src, protocol, now, Items::new(alloc))
    }

    /// Serves one message as `serve` does. The memory of these replies, as those to an earlier message, is used again
    /// for those that the zones give to this one, where it is not judged.
    // speed: served, an address
    #[inline(always)]
    pub fn serve_reusing(
        &mut self,
        alloc: Global,
        bytes: &[u8],
        src: SocketAddr,
        protocol: Protocol,
        now: u64,
        spare: Items<Octets>,
    ) -> Result<Answer, ServeError>
        ensures keys { self.new.keys ≡ self.old.keys }
        ensures names { self.new.transfer_keys ≡ self.old.transfer_keys }
        ensures rules { self.new.server.rules ≡ self.old.server.rules }
        ensures others { self.new.server.catalog
            ≡ record self.old.server.catalog { zones = self.new.server.catalog.zones } }
        ensures ok { IfOk result (λ answer. ServedWithKeys (keyed_of H.ZoneHandler S.signature_for self.old)
            (arrival bytes.now src protocol now) answer self.new.server.catalog.zones) }
        ensures err { IfErr result (λ e. LeavesWithKeys (keyed_of H.ZoneHandler S.signature_for self.old)
            (arrival bytes.now src protocol now) e self.new.server.catalog.zones) }
    {
        if !is_for_judging(&self.keys, &self.server.rules, bytes, src) {
            let server = &mut self.server;
            return server.serve_reusing(alloc, bytes, src, protocol, now, spare);
        }
        self.serve_judged(alloc, bytes, src, protocol, now)
    }

    /// Serves one message that is judged.
    #[inline(always)]
    fn serve_judged(
        &mut self,
        alloc: Global,
        bytes: &[u8],
        src: SocketAddr,
        protocol: Protocol,
        now: u64,
    ) -> Result<Answer, ServeError>
        requires judging { IsForJudging self.old.keys self.old.server.rules bytes.now src }
        ensures keys { self.new.keys ≡ self.old.keys }
        ensures names { self.new.transfer_keys ≡ self.old.transfer_keys }
        ensures rules { self.new.server.rules ≡ self.old.server.rules }
        ensures others { self.new.server.catalog
            ≡ record self.old.server.catalog { zones = self.new.server.catalog.zones } }
        ensures ok { IfOk result (λ answer. ServedWithKeys (keyed_of H.ZoneHandler S.signature_for self.old)
            (arrival bytes.now src protocol now) answer self.new.server.catalog.zones) }
        ensures err { IfErr result (λ e. LeavesWithKeys (keyed_of H.ZoneHandler S.signature_for self.old)
            (arrival bytes.now src protocol now) e self.new.server.catalog.zones) }
    {
        let Ok(judgement) = judge(alloc, &self.keys, bytes, now) else {
            return Err(ServeError::Memory);
        };
        match course_of(&judgement) {
            Course::Plain => self.server.serve(alloc, bytes, src, protocol, now),
            _ => self.serve_signed(alloc, &judgement, bytes, src, protocol, now),
        }
    }
}
