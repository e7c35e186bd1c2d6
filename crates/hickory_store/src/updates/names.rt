//! Which names lie in the zone.

ghost use Rattle.std.specs.Prelude.{◌≡◌};
ghost use Rattle.hickory_store.specs.updates.Identity.{is_in_zone};

use crate::updates::laws::identities;
use hickory_base::zone_store::{InMemoryZoneHandler, ZoneHandler};
use hickory_wire::Name;

/// Whether a name is the origin of the zone, or below it.
pub(crate) fn is_in_zone(zone: &InMemoryZoneHandler, name: &Name) -> bool
    ensures { result ≡ is_in_zone zone.now.origin name.now }
{
    identities();
    zone.origin().as_name().zone_of(name)
}
