//! A notice to one server.

ghost use Rattle.std.specs.Prelude.{◌≡◌, ◌<◌, ◌≤◌, IfOk};

use crate::messages::asks_of;
use std::alloc::AllocError;
use std::net::IpAddr;
use wire_messages::op::header::MessageType;
use wire_messages::op::op_code::OpCode;
use wire_messages::rr::rdata::SOA;
use wire_names::rr::domain::name::Name;
use wire_reading::op::message::Message;

/// How often a notice is sent at most: once, and five times again (RFC 1996 section 3.6).
const MOST_SENT: u8 = 6;

/// A server that is told of changes.
#[derive(Clone, Copy, PartialEq, Eq)]
pub struct Target {
    /// Its address.
    pub address: IpAddr,
    /// Its port.
    pub port: u16,
}

/// A notice of a zone to one server, which waits to be sent or for its answer.
#[derive(Drop)]
pub struct Notice {
    /// The zone.
    pub zone: Name,
    /// The TTL of its SOA record, in seconds.
    pub ttl: u32,
    /// The data of its SOA record.
    pub soa: SOA,
    /// The server that is told.
    pub target: Target,
    /// The id of the datagram that was sent last.
    pub id: u16,
    /// How often it was sent: 0 to 6 times.
    pub sent: u8,
    /// When it is sent next, or given up after the sixth time, in milliseconds.
    pub next: u64,
}

impl Notice {
    ghost use Rattle.notices.specs.Messages.{is_answered};
    ghost use Rattle.notices.specs.Schedule.{first_notice, is_due, is_over, sent_at, wait_after};

    /// A notice of a zone that has this SOA from now on.
    pub(crate) fn new(
        zone: &Name,
        ttl: u32,
        soa: &SOA,
        now: u64,
        target: Target,
    ) -> Result<Notice, AllocError>
        ensures { IfOk result (λ notice. notice ≡ first_notice zone.now ttl soa.now now target) }
    {
        Ok(Notice {
            zone: zone.clone()?,
            ttl,
            soa: soa.clone()?,
            target,
            id: 0,
            sent: 0,
            next: now,
        })
    }

    /// Whether it is to be sent now.
    pub(crate) fn is_due(&self, now: u64) -> bool
        ensures { result ≡ is_due now self.now }
    {
        self.sent < MOST_SENT && self.next <= now
    }

    /// Whether it is given up now.
    pub(crate) fn is_over(&self, now: u64) -> bool
        ensures { result ≡ is_over now self.now }
    {
        self.sent == MOST_SENT && self.next <= now
    }

    /// Whether a message from a server answers it.
    pub(crate) fn is_answered(&self, from: Target, m: &Message) -> bool
        ensures { result ≡ is_answered from m.now self.now }
    {
        self.sent > 0
            && self.target == from
            && m.metadata.id == self.id
            && m.metadata.message_type == MessageType::Response
            && m.metadata.op_code == OpCode::NOTIFY
            && asks_of(&self.zone, m.metadata.response_code, m.queries.as_slice())
    }

    /// How long an answer is waited for after so many sendings, in milliseconds.
    fn wait_after(sent: u8) -> u64
        requires { sent ≤ 6 }
        ensures { result ≡ wait_after sent }
    {
        2u64.pow(u32::from(sent)) * 1000
    }

    /// It was sent now, with this id.
    pub(crate) fn send(&mut self, now: u64, id: u16)
        requires { self.old.sent < 6 }
        ensures { self.new ≡ sent_at now id self.old }
    {
        self.sent += 1;
        self.id = id;
        self.next = now.saturating_add(Notice::wait_after(self.sent));
    }
}
