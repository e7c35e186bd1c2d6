//! What becomes of messages and of streams: replies after their lengths, and those that wait for room.

ghost use Rattle.std.specs.Prelude.{◌≡◌, ◌<◌, ◌≤◌, ◌⊎◌, [], ℕ, List, IfErr, IfOk, IfSome, IsNone, length};
ghost use Rattle.hickory_server.specs.declared.server.answer.Answer.TheVariants.{Replies};
ghost use Rattle.server.specs.Frames.{ArePut, BeginsWith, IsCutShort};

use crate::frames::{MOST_FRAME, put_frames, whole_message};
use crate::logging::log_replies;
use hickory_server::proto::{Items, Octets, Protocol};
use hickory_server::server::Answer;
use hickory_server::server::serve::ServeError;
use hickory_server::zone_handler::{ReplySigner, ZoneHandler};
use server_reports::QueryLog;
use signed_server::SignedServer;
use std::alloc::Global;
use std::mem;
use std::net::SocketAddr;

/// Why a message has no reply.
#[derive(Clone, Copy, Debug, PartialEq, Eq)]
pub enum Refusal {
    /// Its address may not use the server.
    Denied,
    /// It is itself a response.
    Response,
    /// It is shorter than a header (RFC 1035 section 4.1.1).
    Unreadable,
    /// Memory was refused; the server is as before.
    Memory,
    /// Memory was refused for the replies to a message that was handled.
    MemoryAfterHandling,
}

/// What became of the messages at the front of a stream's bytes.
#[derive(Clone, Copy, Debug, PartialEq, Eq)]
pub struct StreamAnswer {
    /// How many bytes they are, with their lengths.
    pub consumed: usize,
    /// How many bytes of replies were written.
    pub written: usize,
    /// Why the last of them has no reply.
    pub refusal: Option<Refusal>,
}

/// A server, the replies to its last message that wait for room, and a log of its queries.
#[derive(Drop)]
pub struct Answering<S: ReplySigner, H: ZoneHandler> {
    pub server: SignedServer<S, H>,
    pending: Items<Octets>,
    taken: usize,
    pub log: QueryLog,
}

impl<S: ReplySigner, H: ZoneHandler> Answering<S, H> {
    ghost use Rattle.hickory_server.specs.server.ServedBy.{arrival};
    ghost use Rattle.server.specs.Logged.{AreLogged};
    ghost use Rattle.signed_server.specs.KeyedServers.{keyed_of};
    ghost use Rattle.signed_server.specs.ServedWithKeys.{ServedWithKeys};
    ghost use Rattle.server.specs.Serving.{IsAnsweredStream, IsAtEnd, IsRefused, IsStreamStep, Stays, standing_of, waiting_in};

    /// A server, with no reply that waits.
    pub fn new(alloc: Global, server: SignedServer<S, H>) -> Answering<S, H>
        ensures server { result.server ≡ server }
        ensures log { result.log.every ≡ 0 }
        ensures waiting { waiting_in result ≡ [] }
    {
        Answering {
            server,
            pending: Items::new(alloc),
            taken: 0,
            log: QueryLog::new(alloc),
        }
    }

    /// The replies to the message before, for their memory to be used again; none if some of them wait, which stay.
    // speed: served, an address
    #[inline(always)]
    fn take_spare(&mut self, alloc: Global) -> Items<Octets>
        ensures others { self.new ≡ record self.old { pending = self.new.pending; taken = self.new.taken } }
        ensures kept { waiting_in self.new ≡ waiting_in self.old }
    {
        if self.waiting() > 0 {
            return Items::new(alloc);
        }
        self.taken = 0;
        mem::replace(&mut self.pending, Items::new(alloc))
    }

    /// Serves a message: its replies wait to be taken. Those to the message before it that still wait are let go,
    /// unless this one is refused.
    // speed: served, an address
    #[inline(always)]
    fn serve(
        &mut self,
        alloc: Global,
        bytes: &[u8],
        source: SocketAddr,
        protocol: Protocol,
        now: u64,
    ) -> Result<(), Refusal>
        ensures stays { Stays self.old.server self.new.server }
        ensures ok { IfOk result (λ _. ServedWithKeys (keyed_of H.ZoneHandler S.signature_for self.old.server)
            (arrival bytes.now source protocol now) (Replies self.new.pending) self.new.server.server.catalog.zones) }
        ensures start { IfOk result (λ _. self.new.taken ≡ 0) }
        ensures logged { IfOk result (λ _.
            AreLogged self.old.log (arrival bytes.now source protocol now) self.new.pending self.new.log) }
        ensures err { IfErr result (λ refusal.
            IsRefused (keyed_of H.ZoneHandler S.signature_for self.old.server)
            (arrival bytes.now source protocol now) refusal self.new.server.server.catalog.zones) }
        ensures kept { IfErr result (λ _. (waiting_in self.new ≡ waiting_in self.old) × (self.new.log ≡ self.old.log)) }
    {
        let spare = self.take_spare(alloc);
        let server = &mut self.server;
        match server.serve_reusing(alloc, bytes, source, protocol, now, spare) {
            Ok(Answer::Replies(replies)) => {
                let sent = replies.as_slice();
                log_replies(&mut self.log, alloc, now, &source, protocol, bytes, sent);
                self.pending = replies;
                self.taken = 0;
                Ok(())
            }
            Ok(Answer::Denied) => Err(Refusal::Denied),
            Ok(Answer::Response) => Err(Refusal::Response),
            Ok(Answer::Unreadable) => Err(Refusal::Unreadable),
            Err(ServeError::Memory) => Err(Refusal::Memory),
            Err(ServeError::MemoryAfterHandling) => Err(Refusal::MemoryAfterHandling),
        }
    }

    /// How many replies wait.
    pub fn waiting(&self) -> usize
        ensures { result ≡ length (waiting_in self.now) }
    {
        self.pending.len().saturating_sub(self.taken)
    }

    /// Writes replies that wait at this place, each after its length, as many as there is room for: the place after
    /// them.
    // speed: served, an address
    #[inline(always)]
    fn take_at(&mut self, out: &mut [u8], at: usize) -> usize
        requires { at ≤ length out.old }
        ensures others { self.new ≡ record self.old { taken = self.new.taken } }
        ensures put { ArePut (waiting_in self.old) out.old at out.new result (waiting_in self.new) }
    {
        if self.taken >= self.pending.len() {
            return at;
        }
        let (end, count) = put_frames(out, at, &self.pending.as_slice()[self.taken..]);
        self.taken += count;
        end
    }

    /// Writes replies that wait, each after its length, as many as there is room for: how many bytes they take.
    pub fn take(&mut self, out: &mut [u8]) -> usize
        ensures others { self.new ≡ record self.old { taken = self.new.taken } }
        ensures put { ArePut (waiting_in self.old) out.old 0 out.new result (waiting_in self.new) }
    {
        self.take_at(out, 0)
    }

    /// Answers a message at this place: writes its replies as `take_at` does. Those to the message before it that still
    /// wait are let go, unless this one is refused.
    // speed: served, an address
    #[inline(always)]
    fn answer_at(
        &mut self,
        alloc: Global,
        bytes: &[u8],
        source: SocketAddr,
        protocol: Protocol,
        now: u64,
        out: &mut [u8],
        at: usize,
    ) -> Result<usize, Refusal>
        requires { at ≤ length out.old }
        ensures stays { Stays self.old.server self.new.server }
        ensures ok { IfOk result (λ end. (sent : List (List ℕ)) ×
            ServedWithKeys (keyed_of H.ZoneHandler S.signature_for self.old.server)
            (arrival bytes.now source protocol now) (Replies sent) self.new.server.server.catalog.zones ×
            ArePut sent out.old at out.new end (waiting_in self.new) ×
            AreLogged self.old.log (arrival bytes.now source protocol now) sent self.new.log) }
        ensures err { IfErr result (λ refusal.
            IsRefused (keyed_of H.ZoneHandler S.signature_for self.old.server)
            (arrival bytes.now source protocol now) refusal self.new.server.server.catalog.zones) }
        ensures kept { IfErr result (λ _. (waiting_in self.new ≡ waiting_in self.old) × (out.new ≡ out.old) ×
            (self.new.log ≡ self.old.log)) }
    {
        match self.serve(alloc, bytes, source, protocol, now) {
            Ok(()) => Ok(self.take_at(out, at)),
            Err(refusal) => Err(refusal),
        }
    }

    /// Answers a message: writes its replies as `take` does, and says how many bytes they take. Those to the message
    /// before it that still wait are let go, unless this one is refused.
    // speed: served, an address
    #[inline(always)]
    pub fn answer(
        &mut self,
        alloc: Global,
        bytes: &[u8],
        source: SocketAddr,
        protocol: Protocol,
        now: u64,
        out: &mut [u8],
    ) -> Result<usize, Refusal>
        ensures stays { Stays self.old.server self.new.server }
        ensures ok { IfOk result (λ end. (sent : List (List ℕ)) ×
            ServedWithKeys (keyed_of H.ZoneHandler S.signature_for self.old.server)
            (arrival bytes.now source protocol now) (Replies sent) self.new.server.server.catalog.zones ×
            ArePut sent out.old 0 out.new end (waiting_in self.new) ×
            AreLogged self.old.log (arrival bytes.now source protocol now) sent self.new.log) }
        ensures err { IfErr result (λ refusal.
            IsRefused (keyed_of H.ZoneHandler S.signature_for self.old.server)
            (arrival bytes.now source protocol now) refusal self.new.server.server.catalog.zones) }
        ensures kept { IfErr result (λ _. (waiting_in self.new ≡ waiting_in self.old) × (out.new ≡ out.old) ×
            (self.new.log ≡ self.old.log)) }
    {
        self.answer_at(alloc, bytes, source, protocol, now, out, 0)
    }

    /// The message that is to be answered next, which is at the front of these bytes, if no reply waits and there
    /// is room for one of any size.
    fn next_message<'a>(&self, bytes: &'a [u8], room: usize) -> Option<&'a [u8]>
        ensures some { IfSome result (λ message. BeginsWith bytes.now message.now × (waiting_in self.now ≡ [])) }
        ensures none { IsNone result → waiting_in self.now ≡ [] → IsCutShort bytes.now ⊎ (room < 65537) }
    {
        if self.waiting() > 0 || room < MOST_FRAME {
            return None;
        }
        whole_message(bytes)
    }

    /// Answers whole messages of a stream, if no reply waits.
    fn answer_whole(
        &mut self,
        alloc: Global,
        bytes: &[u8],
        source: SocketAddr,
        now: u64,
        out: &mut [u8],
    ) -> StreamAnswer
        requires { waiting_in self.old ≡ [] }
        ensures stays { Stays self.old.server self.new.server }
        ensures answered { IsAnsweredStream (keyed_of H.ZoneHandler S.signature_for self.old.server) self.old.log
            (record { bytes = bytes.now; source = source; now = now }) result out.new (standing_of self.new) }
        ensures at_end { IsNone result.refusal → waiting_in self.new ≡ [] →
            IsAtEnd bytes.now result.consumed (length out.new) result.written }
        ensures within { (result.consumed ≤ length bytes.now) × (result.written ≤ length out.new) }
    {
        let mut consumed = 0;
        let mut written = 0;
        // Each turn takes two bytes at least.
        for _ in 0..bytes.len() {
            let Some(message) = self.next_message(&bytes[consumed..], out.len() - written) else {
                return StreamAnswer {
                    consumed,
                    written,
                    refusal: None,
                };
            };
            consumed += 2 + message.len();
            match self.answer_at(alloc, message, source, Protocol::Tcp, now, out, written) {
                Ok(end) => written = end,
                Err(refusal) => {
                    return StreamAnswer {
                        consumed,
                        written,
                        refusal: Some(refusal),
                    };
                }
            }
        }
        StreamAnswer {
            consumed,
            written,
            refusal: None,
        }
    }

    /// Answers the messages that are whole at the front of a stream's bytes, each after its length (RFC 1035 section
    /// 4.2.2), one after the other, while there is room for a reply of any size and none waits. It ends after one that
    /// is refused. Replies that waited before it are let go.
    pub fn answer_stream(
        &mut self,
        alloc: Global,
        bytes: &[u8],
        source: SocketAddr,
        now: u64,
        out: &mut [u8],
    ) -> StreamAnswer
        ensures stays { Stays self.old.server self.new.server }
        ensures step { IsStreamStep (keyed_of H.ZoneHandler S.signature_for self.old.server) self.old
            (record { bytes = bytes.now; source = source; now = now }) result out.new self.new }
        ensures within { (result.consumed ≤ length bytes.now) × (result.written ≤ length out.new) }
    {
        self.taken = self.pending.len();
        self.answer_whole(alloc, bytes, source, now, out)
    }
}
