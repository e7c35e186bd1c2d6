//! Lists of blocked names.

use crate::WRONG;
use crate::zone_names::lower_name;
use hickory_base::zone_store::{LookupControlFlow, LookupOptions, ZoneHandler};
use hickory_store::blocklist::{
    BlocklistConfig, BlocklistConsultAction, BlocklistZoneHandler, CountedReader,
};
use hickory_wire::{BinDecoder, LowerName, Name, RecordType};
use std::alloc::Global;

/// A handler that blocks the names that the lines of a text list, as it is set.
fn list_of(alloc: Global, text: &[u8], config: BlocklistConfig) -> Option<BlocklistZoneHandler> {
    let mut list = BlocklistZoneHandler::new(alloc, Name::root(), config).ok()?;
    list.add(&mut CountedReader::new(text)).ok()?;
    Some(list)
}

/// A handler that blocks the names that the lines of a text list.
fn blocklist(alloc: Global, text: &[u8]) -> Option<BlocklistZoneHandler> {
    list_of(alloc, text, BlocklistConfig::default())
}

/// A handler that blocks these names also when it is consulted about what a zone answers, as that of a served zone is.
pub(crate) fn consulted_list(alloc: Global, text: &[u8]) -> Option<BlocklistZoneHandler> {
    let mut config = BlocklistConfig::default();
    config.consult_action = BlocklistConsultAction::Enforce;
    list_of(alloc, text, config)
}

#[inline(never)]
fn measured_read_blocklist(alloc: Global, text: &[u8], rounds: u64) -> Option<u64> {
    let mut entries = 0u64;
    for _ in 0..rounds {
        let list = blocklist(alloc, text)?;
        entries = entries.wrapping_add(list.entry_count() as u64);
    }
    Some(entries)
}

/// Reads a list of blocked names, a line for each; answers how many names were on it in all rounds.
#[unsafe(no_mangle)]
pub extern "C" fn bench_calls_read_blocklist(alloc: Global, text: &[u8], rounds: u64) -> u64 {
    measured_read_blocklist(alloc, text, rounds).unwrap_or(WRONG)
}

#[inline(never)]
fn measured_is_blocked(
    alloc: Global,
    list: &BlocklistZoneHandler,
    name: &LowerName,
    rounds: u64,
) -> Option<u64> {
    let options = LookupOptions { dnssec_ok: false };
    let mut blocked = 0u64;
    for _ in 0..rounds {
        match list.lookup(alloc, name, RecordType::A, None, options) {
            LookupControlFlow::Break(found) => {
                found.ok()?;
                blocked = blocked.wrapping_add(1);
            }
            LookupControlFlow::Continue(_) => return None,
            LookupControlFlow::Skip => {}
        }
    }
    Some(blocked)
}

/// In how many rounds the name was answered as a blocked one.
fn blocked(alloc: Global, text: &[u8], name: &[u8], rounds: u64) -> Option<u64> {
    let list = blocklist(alloc, text)?;
    let name = lower_name(alloc, &mut BinDecoder::new(name))?;
    measured_is_blocked(alloc, &list, &name, rounds)
}

/// Asks a list of blocked names, a line of text for each, for the address of a name; answers in how many rounds it was
/// blocked.
#[unsafe(no_mangle)]
pub extern "C" fn bench_calls_is_blocked(
    alloc: Global,
    list: &[u8],
    name: &[u8],
    rounds: u64,
) -> u64 {
    blocked(alloc, list, name, rounds).unwrap_or(WRONG)
}
