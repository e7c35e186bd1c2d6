//! A zone from the text of its file.

ghost use Rattle.std.specs.Prelude.{IfOk};
ghost use Rattle.hickory_base.specs.declared.zone_store.handler.AxfrPolicy.TheVariants.{Deny};
ghost use Rattle.hickory_base.specs.declared.zone_store.handler.ZoneType.TheVariants.{Primary};
ghost use Rattle.hickory_server.specs.store.ZoneOfText.{IsZoneOfText};

use hickory_server::proto::Name;
use hickory_server::store::file::{ZoneError, read_zone};
use hickory_server::store::in_memory::InMemoryZoneHandler;
use hickory_server::zone_handler::{AxfrPolicy, ZoneType};
use std::alloc::Global;

/// The zone of this apex that a text has, which nobody may transfer.
pub fn closed_zone(alloc: Global, apex: &Name, text: &str) -> Result<InMemoryZoneHandler, ZoneError>
    ensures { IfOk result (IsZoneOfText apex.now Primary Deny) }
{
    read_zone(alloc, text, apex, ZoneType::Primary, AxfrPolicy::Deny)
}
