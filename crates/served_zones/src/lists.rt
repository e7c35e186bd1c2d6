//! Lists of blocked names.

ghost use Rattle.std.specs.Prelude.{◌≡◌, IfOk, OnErr};
ghost use Rattle.name_lists.specs.Adding.{AddsList, AddsSome};
ghost use Rattle.served_zones.specs.ServedZones.{IsEmptyList, blocking};

use hickory_server::proto::Name;
use hickory_server::store::blocklist::{
    BlocklistConfig, BlocklistConsultAction, BlocklistZoneHandler,
};
use name_lists::{ListReport, add_list};
use std::alloc::{AllocError, Global};

/// How blocked names are answered: their addresses are 0.0.0.0 and `::`, whatever their zone has.
fn blocking() -> BlocklistConfig
    ensures { result ≡ blocking }
{
    let mut config = BlocklistConfig::default();
    config.consult_action = BlocklistConsultAction::Enforce;
    config
}

/// A list without names. The addresses of a name on it are 0.0.0.0 and `::`, whatever the zone of the name has.
pub fn blocklist(alloc: Global) -> Result<BlocklistZoneHandler, AllocError>
    ensures { IfOk result IsEmptyList }
{
    Ok(BlocklistZoneHandler::new(alloc, Name::root(), blocking())?)
}

/// Adds the names that the lines of a text give to a list, in any of the forms that `name_lists` reads. Returns what was
/// done with the lines. After an error some of the names are on the list.
pub fn add_names(
    alloc: Global,
    list: &mut BlocklistZoneHandler,
    bytes: &[u8],
) -> Result<ListReport, AllocError>
    ensures ok { IfOk result (λ report. AddsList bytes.now list.old.entries list.new.entries report) }
    ensures err { OnErr result (AddsSome bytes.now list.old.entries list.new.entries) }
    ensures kept { list.new ≡ record list.old { entries = list.new.entries } }
{
    add_list(alloc, list, bytes)
}
