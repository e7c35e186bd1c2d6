//! Messages and their replies in the log of queries.

ghost use Rattle.std.specs.Prelude.{◌≡◌};
ghost use Rattle.hickory_server.specs.server.ServedBy.{arrival};
ghost use Rattle.server.specs.Logged.{AreLogged, is_stream};

use hickory_server::proto::{Octets, Protocol};
use server_reports::QueryLog;
use std::alloc::Global;
use std::net::SocketAddr;

/// Whether a message came over a stream.
fn is_stream(protocol: Protocol) -> bool
    ensures { result ≡ is_stream protocol }
{
    match protocol {
        Protocol::Udp => false,
        _ => true,
    }
}

/// Logs a message with the first of its replies.
// speed: served, an address
#[inline(always)]
pub fn log_replies(
    log: &mut QueryLog,
    alloc: Global,
    now: u64,
    source: &SocketAddr,
    protocol: Protocol,
    message: &[u8],
    replies: &[Octets],
)
    ensures { AreLogged log.old (arrival message.now source.now protocol now) replies.now log.new }
{
    // speed: served, an address
    if !log.is_on() {
        return;
    }
    if let [reply, ..] = replies {
        let stream = is_stream(protocol);
        log.put(alloc, now, source.ip(), stream, message, reply.as_slice());
    }
}
