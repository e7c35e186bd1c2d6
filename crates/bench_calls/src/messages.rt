//! Messages, read and written.

use crate::WRONG;
use hickory_base::message_request::MessageRequest;
use hickory_base::server::Request;
use hickory_wire::{Message, Protocol, Record, ReplyParts, encode_message_parts};
use std::alloc::Global;
use std::iter;
use std::net::{IpAddr, Ipv4Addr, SocketAddr};

/// Where requests come from.
pub(crate) fn source() -> SocketAddr {
    SocketAddr::new(IpAddr::V4(Ipv4Addr::LOCALHOST), 53)
}

/// The request that bytes begin with, over a stream. It owns a copy of them, as a server's does.
pub(crate) fn request(alloc: Global, bytes: &[u8]) -> Option<Request> {
    let bytes = Vec::from_slice(alloc, bytes).ok()?;
    Request::from_bytes(alloc, bytes, source(), Protocol::Tcp).ok()
}

#[inline(never)]
fn measured_read_request(alloc: Global, bytes: &[u8], rounds: u64) -> u64 {
    let source = source();
    let mut read = 0u64;
    for _ in 0..rounds {
        let Ok(copy) = Vec::from_slice(alloc, bytes) else {
            return WRONG;
        };
        // Matched where it is: an `Option` of it would be one more copy of the request.
        match Request::from_bytes(alloc, copy, source, Protocol::Tcp) {
            Ok(_) => read = read.wrapping_add(1),
            Err(_) => return WRONG,
        }
    }
    read
}

/// Reads a request; answers in how many rounds it was read.
#[unsafe(no_mangle)]
pub extern "C" fn bench_calls_read_request(alloc: Global, bytes: &[u8], rounds: u64) -> u64 {
    measured_read_request(alloc, bytes, rounds)
}

#[inline(never)]
fn measured_read_message(alloc: Global, bytes: &[u8], rounds: u64) -> u64 {
    let mut read = 0u64;
    for _ in 0..rounds {
        match Message::read(alloc, bytes) {
            Ok(message) => read = read.wrapping_add(message.answers.len() as u64),
            Err(_) => return WRONG,
        }
    }
    read
}

/// Reads a message; answers how many answers were read in all rounds.
#[unsafe(no_mangle)]
pub extern "C" fn bench_calls_read_message(alloc: Global, bytes: &[u8], rounds: u64) -> u64 {
    measured_read_message(alloc, bytes, rounds)
}

/// Writes a message within a limit, and says how many bytes it came to.
fn written_len(alloc: Global, message: &MessageRequest, limit: u16) -> Option<usize> {
    let parts = ReplyParts {
        metadata: message.metadata,
        question: message.queries.as_bytes(),
        question_count: message.queries.len() as u16,
        edns: message.edns.as_ref(),
        answers: message.answers.as_slice().iter(),
        authorities: message.authorities.as_slice().iter(),
        soa: iter::empty::<&Record>(),
        additionals: message.additionals.as_slice().iter(),
        signature: None,
    };
    let (_, bytes) = encode_message_parts(alloc, limit, parts).ok()?;
    Some(bytes.len())
}

#[inline(never)]
fn measured_write_message(alloc: Global, message: &MessageRequest, limit: u16, rounds: u64) -> u64 {
    let mut written = 0u64;
    for _ in 0..rounds {
        match written_len(alloc, message, limit) {
            Some(len) => written = written.wrapping_add(len as u64),
            None => return WRONG,
        }
    }
    written
}

/// Writes the message that bytes begin with, within a limit of bytes; answers how many bytes were written in all
/// rounds.
#[unsafe(no_mangle)]
pub extern "C" fn bench_calls_write_message(
    alloc: Global,
    bytes: &[u8],
    limit: u16,
    rounds: u64,
) -> u64 {
    match request(alloc, bytes) {
        Some(request) => measured_write_message(alloc, request.message(), limit, rounds),
        None => WRONG,
    }
}
