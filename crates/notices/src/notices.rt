//! The notices that wait.

ghost use Rattle.std.specs.Prelude.{◌≡◌, ◌≤◌, ◌↔◌, [], ◌==◌, if◌then◌else◌, All, Any, IfNone, IfOk, IfSome, IsNone, OnErr, OnOk, length, map, position, vec_len};
ghost use Rattle.std.specs.List.{list_any};
ghost use Rattle.std.specs.Vec.{vec_capacity};
ghost use Rattle.wire_reading.specs.serialize.reading.MessageReading.{Reads};
ghost use Rattle.wire_reading.specs.declared.op.message.Message.{Message as AnyMessage};
ghost use Rattle.notices.specs.Messages.{is_answered, same_target};
ghost use Rattle.notices.specs.Schedule.{Hears, HearsMessage, Sends, TakesOut, announced, each_once, first_notice, is_due, is_over, most_waiting, with_target, without};
ghost use Rattle.notices.specs.declared.notices.Heard.TheVariants.{Answered, Refused};

use crate::messages::notice_bytes;
use crate::notice::{Notice, Target};
use std::alloc::{AllocError, Global};
use std::marker::Model;
use wire_messages::op::response_code::ResponseCode;
use wire_messages::rr::rdata::SOA;
use wire_names::error::DecodeError;
use wire_names::rr::domain::name::Name;
use wire_reading::op::message::Message;

/// How many notices wait at most. Targets that pass it are left out of an announcement.
pub const MOST_WAITING: usize = 4096;

/// A datagram that is to be sent.
#[derive(Drop)]
pub struct Datagram {
    /// Whom to.
    pub to: Target,
    /// Its octets.
    pub bytes: Vec<u8>,
}

/// What a datagram that came means.
#[derive(Drop)]
pub enum Heard {
    /// It answers no notice.
    Ignored,
    /// The notice was taken.
    Answered(Notice),
    /// The server answered the notice with this error.
    Refused(Notice, ResponseCode),
}

fn first_due(notices: &[Notice], now: u64) -> Option<usize>
    ensures { result ≡ position (is_due now) notices.now }
{
    notices.iter().position(|n| n.is_due(now))
}

fn first_over(notices: &[Notice], now: u64) -> Option<usize>
    ensures { result ≡ position (is_over now) notices.now }
{
    notices.iter().position(|n| n.is_over(now))
}

fn first_answered(notices: &[Notice], from: Target, m: &Message) -> Option<usize>
    ensures { result ≡ position (is_answered from m.now) notices.now }
{
    notices.iter().position(|n| n.is_answered(from, m))
}

fn is_among(target: &Target, targets: &[Target]) -> bool
    ensures { result ≡ list_any (λ t. same_target t target.now) targets.now }
{
    targets.iter().any(|t| *t == *target)
}

/// Puts a target last, unless it is among them.
fn put_target(told: &mut Vec<Target>, target: &Target) -> Result<(), AllocError>
    ensures { OnOk result (told.new.items ≡ with_target told.old.items target.now) }
{
    if is_among(target, told) {
        return Ok(());
    }
    told.push(*target)?;
    Ok(())
}

/// Each target once.
fn each_once(alloc: Global, targets: &[Target]) -> Result<Vec<Target>, AllocError>
    ensures { IfOk result (λ told. told.items ≡ each_once targets.now) }
{
    let mut told = Vec::new(alloc);
    for target in targets {
        put_target(&mut told, target)?;
    }
    Ok(told)
}

/// A notice to each target.
fn notices_to(
    alloc: Global,
    zone: &Name,
    ttl: u32,
    soa: &SOA,
    targets: &[Target],
    now: u64,
) -> Result<Vec<Notice>, AllocError>
    ensures { IfOk result (λ made. made.items ≡ map (first_notice zone.now ttl soa.now now) targets.now) }
{
    let mut made = Vec::new(alloc);
    for target in targets {
        made.push(Notice::new(zone, ttl, soa, now, *target)?)?;
    }
    Ok(made)
}

/// Drops the notices of a zone. No memory is given back.
fn take_out(notices: &mut Vec<Notice>, zone: &Name)
    ensures left { notices.new.items ≡ without zone.now notices.old.items }
    ensures fewer { vec_len notices.new ≤ vec_len notices.old }
    ensures room { vec_capacity notices.new ≡ vec_capacity notices.old }
{
    notices.retain(|n| n.zone != *zone);
}

/// The message that bytes begin with, if they do.
fn message_in(alloc: Global, bytes: &[u8]) -> Result<Option<Message>, AllocError>
    ensures found { IfOk result (λ found. IfSome found (Reads bytes.now)) }
    ensures none { IfOk result (λ found. IfNone found ((m : AnyMessage) → Reads bytes.now m → ⊥)) }
{
    match Message::read(alloc, bytes) {
        Ok(message) => Ok(Some(message)),
        Err(DecodeError::Memory) => Err(AllocError),
        Err(_) => Ok(None),
    }
}

/// What an answer of this code means for the notice that it ends.
fn ended(notice: Notice, code: ResponseCode) -> Heard
    ensures { result ≡ (if code == 0 then Answered notice else Refused notice code) }
{
    if code == ResponseCode::NO_ERROR {
        Heard::Answered(notice)
    } else {
        Heard::Refused(notice, code)
    }
}

/// The notices that wait to be sent or for an answer, at most 4,096.
///
/// Times are milliseconds of a clock that does not go back. A notice is sent 0, 2, 6, 14, 30 and 62 seconds after it
/// was announced, until it is answered. It is given up 64 seconds after the sixth time. A contract sees the notices in
/// the order in which they were announced. Each call takes time by their number.
#[derive(Drop)]
pub struct Notices {
    notices: Vec<Notice>,
}

impl Model for Notices {
    ghost use Rattle.std.specs.Prelude.{◌≤◌, List, length};
    ghost use Rattle.notices.specs.declared.notice.Notice.{Notice};

    ghost Value = { List Notice };

    ghost view = { λ n. n.notices.items };

    ghost invariant = { λ n. length n.notices.items ≤ 4096 };
}

impl Notices {
    /// No notice waits. It takes no memory.
    pub fn new(alloc: Global) -> Notices
        ensures { result ≡ [] }
    {
        Notices {
            notices: Vec::new(alloc),
        }
    }

    /// The zone has this SOA, of this TTL in seconds: each target is told of it from now on.
    ///
    /// What still waits of the zone is dropped, so that one notice of a zone waits for a target at most (RFC 1996
    /// section 4.2). If 4,096 notices wait, the targets that are left are not told. The name has to be fully
    /// qualified, or no answer fits. An error says that memory was refused, and then nothing has changed.
    pub fn announce(
        &mut self,
        zone: &Name,
        ttl: u32,
        soa: &SOA,
        targets: &[Target],
        now: u64,
    ) -> Result<(), AllocError>
        ensures ok { OnOk result (self.new ≡ announced self.old zone.now ttl soa.now targets.now now) }
        ensures err { OnErr result (self.new ≡ self.old) }
    {
        let alloc = *self.notices.allocator();
        let told = each_once(alloc, targets)?;
        let mut made = notices_to(alloc, zone, ttl, soa, &told, now)?;
        self.notices.reserve(made.len())?;
        take_out(&mut self.notices, zone);
        made.truncate(MOST_WAITING - self.notices.len());
        self.notices.append(&mut made)
    }

    /// The notice to send now: of those that are due the one announced first, at most 512 octets long. It counts as
    /// sent now, with this id, which has to be random (RFC 5452 section 4.3). `None` if none is due.
    ///
    /// An error says that memory was refused, and then nothing has changed.
    pub fn due(&mut self, now: u64, id: u16) -> Result<Option<Datagram>, AllocError>
        ensures ok { IfOk result (λ datagram. Sends now id self.old self.new datagram) }
        ensures short { IfOk result (λ datagram. IfSome datagram (λ d. length d.bytes.items ≤ 512)) }
        ensures err { OnErr result (self.new ≡ self.old) }
    {
        let Some(place) = first_due(&self.notices, now) else {
            return Ok(None);
        };
        let alloc = *self.notices.allocator();
        let notice = &self.notices[place];
        let bytes = notice_bytes(alloc, id, &notice.zone, notice.ttl, &notice.soa)?;
        let to = notice.target;
        self.notices[place].send(now, id);
        Ok(Some(Datagram { to, bytes }))
    }

    /// Takes out a notice that was sent six times and got no answer; `None` if there is none now. Call it until then,
    /// or `wakes` stays in the past.
    pub fn give_up(&mut self, now: u64) -> Option<Notice>
        ensures { TakesOut (is_over now) self.old self.new result }
    {
        let place = first_over(&self.notices, now)?;
        Some(self.notices.remove(place))
    }

    /// What a datagram that came from a server means (RFC 1996 sections 3.6, 3.12 and 4.8).
    ///
    /// A notice that it answers is taken out, whatever the code. An error says that memory was refused, and then
    /// nothing has changed: the notice is sent again.
    pub fn heard(&mut self, from: Target, bytes: &[u8]) -> Result<Heard, AllocError>
        ensures ok { IfOk result (λ heard. Hears from bytes.now self.old self.new heard) }
        ensures err { OnErr result (self.new ≡ self.old) }
    {
        match message_in(*self.notices.allocator(), bytes)? {
            Some(message) => Ok(self.hear(from, &message)),
            None => Ok(Heard::Ignored),
        }
    }

    /// What a message that came from a server means.
    fn hear(&mut self, from: Target, m: &Message) -> Heard
        ensures { HearsMessage from m.now self.old self.new result }
    {
        let Some(place) = first_answered(&self.notices, from, m) else {
            return Heard::Ignored;
        };
        let notice = self.notices.remove(place);
        ended(notice, m.metadata.response_code)
    }

    /// When a notice is to be sent or given up next; `None` if none waits.
    pub fn wakes(&self) -> Option<u64>
        ensures none { IsNone result ↔ (self.now ≡ []) }
        ensures some { IfSome result (λ moment. Any (λ n. n.next ≡ moment) self.now) }
        ensures first { IfSome result (λ moment. All (λ n. moment ≤ n.next) self.now) }
    {
        self.notices.iter().map(|n| n.next).min()
    }

    /// How many notices wait.
    pub fn waiting(&self) -> usize
        ensures number { result ≡ length self.now }
        ensures bound { result ≤ most_waiting }
    {
        self.notices.len()
    }
}
