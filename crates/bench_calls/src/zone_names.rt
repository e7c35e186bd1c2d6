//! The zone of a name.

use crate::WRONG;
use hickory_base::zone_store::InMemoryZoneHandler;
use hickory_catalog::catalog::Catalog;
use hickory_server::server::NoKeys;
use hickory_wire::{BinDecoder, LowerName};
use std::alloc::Global;

/// The name at the decoder's place, in lower case.
pub(crate) fn lower_name(alloc: Global, decoder: &mut BinDecoder<'_>) -> Option<LowerName> {
    let name = decoder.read_name(alloc).ok()?;
    LowerName::new(alloc, &name).ok()
}

/// Puts a zone without handlers, whose name is at the decoder's place, into a catalog.
fn put(
    alloc: Global,
    catalog: &mut Catalog<NoKeys, InMemoryZoneHandler>,
    decoder: &mut BinDecoder<'_>,
) -> Option<()> {
    let name = lower_name(alloc, decoder)?;
    catalog.upsert(name, Vec::new(alloc)).ok()?;
    Some(())
}

/// A catalog with a zone for each of the names that are in bytes one after the other. No zone has a handler.
fn catalog(alloc: Global, names: &[u8]) -> Option<Catalog<NoKeys, InMemoryZoneHandler>> {
    let mut catalog = Catalog::new(alloc, NoKeys);
    let mut decoder = BinDecoder::new(names);
    for _ in 0..names.len() {
        if decoder.index() >= names.len() {
            break;
        }
        if put(alloc, &mut catalog, &mut decoder).is_none() {
            drop(catalog);
            return None;
        }
    }
    Some(catalog)
}

#[inline(never)]
fn measured_find_zone(
    catalog: &Catalog<NoKeys, InMemoryZoneHandler>,
    wanted: &LowerName,
    rounds: u64,
) -> Option<u64> {
    let mut found = 0u64;
    for _ in 0..rounds {
        if catalog.find(wanted).ok()?.is_some() {
            found = found.wrapping_add(1);
        }
    }
    Some(found)
}

/// In how many rounds there was a zone for the name.
fn found(alloc: Global, names: &[u8], wanted: &[u8], rounds: u64) -> Option<u64> {
    let wanted = lower_name(alloc, &mut BinDecoder::new(wanted))?;
    let catalog = catalog(alloc, names)?;
    let found = measured_find_zone(&catalog, &wanted, rounds);
    drop(catalog);
    found
}

/// Finds the zone of a name among zones whose names are in bytes one after the other; answers in how many rounds
/// there was one.
#[unsafe(no_mangle)]
pub extern "C" fn bench_calls_find_zone(
    alloc: Global,
    zones: &[u8],
    wanted: &[u8],
    rounds: u64,
) -> u64 {
    found(alloc, zones, wanted, rounds).unwrap_or(WRONG)
}
