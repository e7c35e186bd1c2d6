//! Whole replies: a request is read, its zone found and searched, and the reply made and written.

use crate::WRONG;
use crate::messages::{request, source};
use crate::reply_sizes::ReplySizes;
use crate::zone::{updatable_zone, zone};
use hickory_base::server::{Request, RequestHandler};
use hickory_base::zone_store::ZoneHandler;
use hickory_catalog::catalog::Catalog;
use hickory_server::server::NoKeys;
use hickory_wire::{LowerName, Protocol};
use std::alloc::Global;

/// The catalog with one zone, which this handler answers for.
pub(crate) fn catalog<H: ZoneHandler>(
    alloc: Global,
    origin: LowerName,
    handler: H,
) -> Option<Catalog<NoKeys, H>> {
    let mut chain = Vec::new(alloc);
    chain.push(handler).ok()?;
    let mut catalog = Catalog::new(alloc, NoKeys);
    match catalog.upsert(origin, chain) {
        Ok(old) => {
            drop(old);
            Some(catalog)
        }
        Err(back) => {
            drop(back);
            drop(catalog);
            None
        }
    }
}

#[inline(never)]
fn measured_answer_request<H: ZoneHandler>(
    alloc: Global,
    catalog: &mut Catalog<NoKeys, H>,
    sizes: &mut ReplySizes,
    request: &mut Request,
    bytes: &[u8],
    rounds: u64,
) -> Option<()> {
    let source = source();
    for _ in 0..rounds {
        // In the place of the one before it, as a server may read each message that comes.
        request
            .read_in_place(alloc, bytes, source, Protocol::Tcp)
            .ok()?;
        catalog.handle_request(alloc, request, 0, sizes).ok()?;
    }
    Some(())
}

/// Answers the request that bytes begin with, once in each round, by this handler.
fn answer<H: ZoneHandler>(
    alloc: Global,
    origin: LowerName,
    handler: H,
    bytes: &[u8],
    rounds: u64,
) -> Option<u64> {
    let mut catalog = catalog(alloc, origin, handler)?;
    let total = answered(alloc, &mut catalog, bytes, rounds);
    drop(catalog);
    total
}

/// Answers the request that bytes begin with, once in each round, by this catalog; how many bytes all replies had.
fn answered<H: ZoneHandler>(
    alloc: Global,
    catalog: &mut Catalog<NoKeys, H>,
    bytes: &[u8],
    rounds: u64,
) -> Option<u64> {
    let mut request = request(alloc, bytes)?;
    let mut sizes = ReplySizes::new(alloc);
    let answered = measured_answer_request(alloc, catalog, &mut sizes, &mut request, bytes, rounds);
    drop(request);
    answered?;
    Some(sizes.total())
}

/// Answers the request that bytes begin with by a zone in memory in a box, as handlers of several types are.
fn answer_boxed(alloc: Global, zone_bytes: &[u8], bytes: &[u8], rounds: u64) -> Option<u64> {
    let (origin, handler) = zone(alloc, zone_bytes)?;
    let handler: Box<dyn ZoneHandler> = Box::new(alloc, handler).ok()?;
    answer(alloc, origin, handler, bytes, rounds)
}

/// Answers a request from a zone, whose records are the answers of a message; answers how many bytes all replies had.
#[unsafe(no_mangle)]
pub extern "C" fn bench_calls_answer_request(
    alloc: Global,
    zone: &[u8],
    bytes: &[u8],
    rounds: u64,
) -> u64 {
    answer_boxed(alloc, zone, bytes, rounds).unwrap_or(WRONG)
}

/// Answers the request that bytes begin with by a zone that takes updates.
fn answer_transfer(alloc: Global, zone_bytes: &[u8], bytes: &[u8], rounds: u64) -> Option<u64> {
    let (origin, handler) = updatable_zone(alloc, zone_bytes)?;
    answer(alloc, origin, handler, bytes, rounds)
}

/// Answers a request for a transfer of a zone, whose records are the answers of messages, each after its length;
/// answers how many bytes all replies had.
#[unsafe(no_mangle)]
pub extern "C" fn bench_calls_answer_transfer(
    alloc: Global,
    zone: &[u8],
    bytes: &[u8],
    rounds: u64,
) -> u64 {
    answer_transfer(alloc, zone, bytes, rounds).unwrap_or(WRONG)
}
