//! What is told of messages, in numbers.

ghost use Rattle.std.specs.Prelude.{◌≡◌, ◌≢◌, ◌≤◌, [], ℕ, IfErr, IfOk, IfSome, IsNone, List, length};
ghost use Rattle.server.specs.Exports.{AnswerTold, IsAddress, IsNoAddress, IsSource, StreamTold, refusal_number, transport_of};
ghost use Rattle.signed_server.specs.KeyedServers.{keyed_of};
ghost use Rattle.server.specs.Serving.{Stays, waiting_in};

use crate::answering::{Answering, Refusal};
use hickory_server::proto::Protocol;
use hickory_server::zone_handler::{ReplySigner, ZoneHandler};
use std::alloc::Global;
use std::net::{IpAddr, Ipv4Addr, Ipv6Addr, SocketAddr};

/// All went well.
pub const DONE: u32 = 0;

/// Memory was refused.
pub const MEMORY: u32 = 4;

/// The source is no address.
pub const NO_ADDRESS: u32 = 6;

/// The number of a refusal.
fn number(refusal: Refusal) -> u32
    ensures { result ≡ refusal_number refusal }
{
    match refusal {
        Refusal::Denied => 1,
        Refusal::Response => 2,
        Refusal::Unreadable => 3,
        Refusal::Memory => MEMORY,
        Refusal::MemoryAfterHandling => 5,
    }
}

/// The address of four or sixteen bytes.
pub fn ip_address(bytes: &[u8]) -> Option<IpAddr>
    ensures some { IfSome result (IsAddress bytes.now) }
    ensures none { IsNone result → IsNoAddress bytes.now }
{
    if let Ok(octets) = <[u8; 4]>::try_from(bytes) {
        return Some(IpAddr::V4(Ipv4Addr::from_octets(octets)));
    }
    match <[u8; 16]>::try_from(bytes) {
        Ok(octets) => Some(IpAddr::V6(Ipv6Addr::from_octets(octets))),
        Err(_) => None,
    }
}

/// The source of these bytes and this port.
fn source_of(bytes: &[u8], port: u16) -> Option<SocketAddr>
    ensures some { IfSome result (IsSource bytes.now port) }
    ensures none { IsNone result → IsNoAddress bytes.now }
{
    match ip_address(bytes) {
        Some(address) => Some(SocketAddr::new(address, port)),
        None => None,
    }
}

/// The transport of a message.
fn transport(stream: bool) -> Protocol
    ensures { result ≡ transport_of stream }
{
    if stream { Protocol::Tcp } else { Protocol::Udp }
}

/// The source of the four bytes of an IPv4 address and this port.
// speed: served, an address
#[inline(always)]
fn source_of_four(octets: [u8; 4], port: u16) -> SocketAddr
    ensures { IsSource octets port result }
{
    SocketAddr::new(IpAddr::V4(Ipv4Addr::from_octets(octets)), port)
}

/// Answers a message from this source, as `tell_answer` does.
// speed: served, an address
#[inline(always)]
fn tell_from<S: ReplySigner, H: ZoneHandler>(
    alloc: Global,
    answering: &mut Answering<S, H>,
    message: &[u8],
    source: SocketAddr,
    stream: bool,
    now: u64,
    out: &mut [u8],
    written: &mut usize,
    waiting: &mut usize,
) -> u32
    ensures stays { Stays answering.old.server answering.new.server }
    ensures told { (address : List ℕ) → (port : ℕ) → IsSource address port source →
        AnswerTold (keyed_of H.ZoneHandler S.signature_for answering.old.server) answering.old
        (record { bytes = message.now; address = address; port = port; stream = stream; now = now }) out.old
        (record { number = result; written = written.new; out = out.new }) answering.new }
    ensures waiting { waiting.new ≡ length (waiting_in answering.new) }
    ensures within { written.new ≤ length out.new }
{
    let answer = answering.answer(alloc, message, source, transport(stream), now, out);
    *waiting = answering.waiting();
    match answer {
        Ok(end) => {
            *written = end;
            DONE
        }
        Err(refusal) => {
            *written = 0;
            number(refusal)
        }
    }
}

/// Answers a message of any source, as `tell_answer` does.
#[inline(never)]
fn tell_any<S: ReplySigner, H: ZoneHandler>(
    alloc: Global,
    answering: &mut Answering<S, H>,
    message: &[u8],
    source: &[u8],
    port: u16,
    stream: bool,
    now: u64,
    out: &mut [u8],
    written: &mut usize,
    waiting: &mut usize,
) -> u32
    ensures stays { Stays answering.old.server answering.new.server }
    ensures told { AnswerTold (keyed_of H.ZoneHandler S.signature_for answering.old.server) answering.old
        (record { bytes = message.now; address = source.now; port = port; stream = stream; now = now }) out.old
        (record { number = result; written = written.new; out = out.new }) answering.new }
    ensures waiting { waiting.new ≡ length (waiting_in answering.new) }
    ensures within { written.new ≤ length out.new }
{
    let Some(source) = source_of(source, port) else {
        *written = 0;
        *waiting = answering.waiting();
        return NO_ADDRESS;
    };
    tell_from(
        alloc, answering, message, source, stream, now, out, written, waiting,
    )
}

/// Answers a message: writes its replies, each after its length in two bytes, as many as there is room for, and says
/// how many bytes they take and how many replies wait. The number says why there is none.
// speed: served, an address
#[inline(always)]
pub fn tell_answer<S: ReplySigner, H: ZoneHandler>(
    alloc: Global,
    answering: &mut Answering<S, H>,
    message: &[u8],
    source: &[u8],
    port: u16,
    stream: bool,
    now: u64,
    out: &mut [u8],
    written: &mut usize,
    waiting: &mut usize,
) -> u32
    ensures stays { Stays answering.old.server answering.new.server }
    ensures told { AnswerTold (keyed_of H.ZoneHandler S.signature_for answering.old.server) answering.old
        (record { bytes = message.now; address = source.now; port = port; stream = stream; now = now }) out.old
        (record { number = result; written = written.new; out = out.new }) answering.new }
    ensures waiting { waiting.new ≡ length (waiting_in answering.new) }
    ensures within { written.new ≤ length out.new }
{
    // What is inlined after this knows of which kind the address is.
    if let Ok(octets) = <[u8; 4]>::try_from(source) {
        let source = source_of_four(octets, port);
        return tell_from(
            alloc, answering, message, source, stream, now, out, written, waiting,
        );
    }
    tell_any(
        alloc, answering, message, source, port, stream, now, out, written, waiting,
    )
}

/// Answers the messages that are whole at the front of a stream's bytes, each after its length in two bytes, and
/// says how many bytes they are, how many bytes of replies were written, and how many replies wait. The number says why
/// the last of them has none. Replies that waited before it are let go.
pub fn tell_stream<S: ReplySigner, H: ZoneHandler>(
    alloc: Global,
    answering: &mut Answering<S, H>,
    bytes: &[u8],
    source: &[u8],
    port: u16,
    now: u64,
    out: &mut [u8],
    taken: &mut usize,
    written: &mut usize,
    waiting: &mut usize,
) -> u32
    ensures stays { Stays answering.old.server answering.new.server }
    ensures told { StreamTold (keyed_of H.ZoneHandler S.signature_for answering.old.server) answering.old
        (record { bytes = bytes.now; address = source.now; port = port; now = now }) out.old
        (record { number = result; taken = taken.new; written = written.new; out = out.new }) answering.new }
    ensures waiting { waiting.new ≡ length (waiting_in answering.new) }
    ensures within { (taken.new ≤ length bytes.now) × (written.new ≤ length out.new) }
{
    *taken = 0;
    *written = 0;
    let Some(source) = source_of(source, port) else {
        *waiting = answering.waiting();
        return NO_ADDRESS;
    };
    let answer = answering.answer_stream(alloc, bytes, source, now, out);
    *taken = answer.consumed;
    *written = answer.written;
    *waiting = answering.waiting();
    match answer.refusal {
        Some(refusal) => number(refusal),
        None => DONE,
    }
}
