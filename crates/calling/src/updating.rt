//! Changing a zone as a dynamic update does.

ghost use Rattle.std.specs.Prelude.{false, true};
ghost use Rattle.hickory_base.specs.zone_store.ZoneSets.{zone_records};
ghost use Rattle.hickory_store.specs.updates.Prescan.{prescan_refusal};
ghost use Rattle.hickory_store.specs.updates.UpdateAnswers.{Updates, applied, unless_refused};

use hickory_server::proto::Record;
use hickory_server::store::sqlite::{SqliteZoneHandler, Verifier};
use hickory_server::zone_handler::UpdateFault;
use std::alloc::Global;

/// Does what the records of an update section say to a zone, and steps its serial; whether the zone changed. Whatever
/// the error, the zone is as it was.
pub fn change<V: Verifier>(
    alloc: Global,
    zone: &mut SqliteZoneHandler<V>,
    updates: &[Record],
) -> Result<bool, UpdateFault>
    ensures { Updates (unless_refused (prescan_refusal zone.old.zone.origin updates.now)
        (applied false zone.old.zone.origin (zone_records zone.old.zone.sets) updates.now true)) result zone.old.zone
        zone.new.zone }
{
    match zone.pre_scan(updates) {
        Ok(()) => zone.update_records(alloc, updates, true),
        Err(code) => Err(UpdateFault::Code(code)),
    }
}
