//! Messages served as programs serve them: a server reads each in the place of the one before it, its zones answer as
//! RFC 1034 says, and the replies are made in the memory of those before.

use crate::WRONG;
use crate::answers::catalog;
use crate::blocklist::consulted_list;
use crate::messages::source;
use crate::zone::authoritative_zone;
use hickory_base::zone_store::{Either, ZoneHandler};
use hickory_catalog::catalog::Catalog;
use hickory_server::server::{Answer, NoKeys, Rules, Server};
use hickory_store::blocklist::BlocklistZoneHandler;
use hickory_wire::{Items, LowerName, Octets, Protocol};
use signed_server::SignedServer;
use sqlite_disk::Memory;
use std::alloc::Global;
use std::mem;
use tsig::Keys;
use zones::Zone;

/// A zone, or a list of blocked names after it.
type Filtered = Either<Zone<NoKeys, Memory>, BlocklistZoneHandler>;

/// How many bytes replies have together.
fn total_len(replies: &Items<Octets>) -> u64 {
    let mut total = 0u64;
    for reply in replies.as_slice() {
        total = total.wrapping_add(reply.as_slice().len() as u64);
    }
    total
}

#[inline(never)]
fn measured_serve<H: ZoneHandler>(
    alloc: Global,
    server: &mut SignedServer<NoKeys, H>,
    kept: &mut Items<Octets>,
    bytes: &[u8],
    protocol: Protocol,
    rounds: u64,
) -> Option<u64> {
    let source = source();
    let mut total = 0u64;
    for _ in 0..rounds {
        let spare = mem::replace(kept, Items::new(alloc));
        match server.serve_reusing(alloc, bytes, source, protocol, 0, spare) {
            Ok(Answer::Replies(replies)) => {
                total = total.wrapping_add(total_len(&replies));
                *kept = replies;
            }
            _ => return None,
        }
    }
    Some(total)
}

/// The server of these zones, which has no keys.
fn server<H: ZoneHandler>(
    alloc: Global,
    catalog: Catalog<NoKeys, H>,
) -> Option<SignedServer<NoKeys, H>> {
    let server = Server::new(alloc, Rules::new(alloc), catalog).ok()?;
    SignedServer::new(alloc, server, Keys::new(alloc)).ok()
}

/// Serves a message, once in each round, by the handlers of this zone.
fn serve_rounds<H: ZoneHandler>(
    alloc: Global,
    catalog: Catalog<NoKeys, H>,
    bytes: &[u8],
    protocol: Protocol,
    rounds: u64,
) -> Option<u64> {
    let mut server = server(alloc, catalog)?;
    let mut kept = Items::new(alloc);
    let total = measured_serve(alloc, &mut server, &mut kept, bytes, protocol, rounds);
    drop(kept);
    drop(server);
    total
}

/// Serves a message, once in each round, by the zone of these records.
fn serve_zone(
    alloc: Global,
    zone: &[u8],
    bytes: &[u8],
    protocol: Protocol,
    rounds: u64,
) -> Option<u64> {
    let (origin, zone) = authoritative_zone(alloc, zone)?;
    serve_rounds(
        alloc,
        catalog(alloc, origin, zone)?,
        bytes,
        protocol,
        rounds,
    )
}

/// Serves a datagram by a zone, whose records are the answers of messages, each after its length; answers how many
/// bytes all replies had.
#[unsafe(no_mangle)]
pub extern "C" fn bench_calls_serve(alloc: Global, zone: &[u8], bytes: &[u8], rounds: u64) -> u64 {
    serve_zone(alloc, zone, bytes, Protocol::Udp, rounds).unwrap_or(WRONG)
}

/// Serves a message of a connection as `bench_calls_serve` does a datagram.
#[unsafe(no_mangle)]
pub extern "C" fn bench_calls_serve_over_tcp(
    alloc: Global,
    zone: &[u8],
    bytes: &[u8],
    rounds: u64,
) -> u64 {
    serve_zone(alloc, zone, bytes, Protocol::Tcp, rounds).unwrap_or(WRONG)
}

/// The chain of a zone and of a list of blocked names, which answers in the zone's place for the names that it blocks.
fn filtered(
    alloc: Global,
    zone: Zone<NoKeys, Memory>,
    list: BlocklistZoneHandler,
) -> Option<Vec<Filtered>> {
    let mut chain = Vec::new(alloc);
    chain.push(Either::Left(zone)).ok()?;
    chain.push(Either::Right(list)).ok()?;
    Some(chain)
}

/// The catalog with a zone of this origin, and a list of blocked names after it.
fn filtered_catalog(
    alloc: Global,
    origin: LowerName,
    zone: Zone<NoKeys, Memory>,
    list: BlocklistZoneHandler,
) -> Option<Catalog<NoKeys, Filtered>> {
    let chain = filtered(alloc, zone, list)?;
    let mut catalog = Catalog::new(alloc, NoKeys);
    match catalog.upsert(origin, chain) {
        Ok(old) => {
            drop(old);
            Some(catalog)
        }
        Err(back) => {
            drop(back);
            drop(catalog);
            None
        }
    }
}

/// Serves a datagram, once in each round, by the zone of these records and a list of blocked names after it.
fn serve_filtered(
    alloc: Global,
    list: &[u8],
    zone: &[u8],
    bytes: &[u8],
    rounds: u64,
) -> Option<u64> {
    let list = consulted_list(alloc, list)?;
    let (origin, zone) = authoritative_zone(alloc, zone)?;
    let catalog = filtered_catalog(alloc, origin, zone, list)?;
    serve_rounds(alloc, catalog, bytes, Protocol::Udp, rounds)
}

/// Serves a datagram by a zone, whose records are the answers of messages, each after its length, and a list of
/// blocked names, a line of text for each, after it; answers how many bytes all replies had.
#[unsafe(no_mangle)]
pub extern "C" fn bench_calls_serve_filtered(
    alloc: Global,
    list: &[u8],
    zone: &[u8],
    bytes: &[u8],
    rounds: u64,
) -> u64 {
    serve_filtered(alloc, list, zone, bytes, rounds).unwrap_or(WRONG)
}
