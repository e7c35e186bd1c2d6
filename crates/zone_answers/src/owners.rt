//! The owner names of a zone.

ghost use Rattle.std.specs.Prelude.{◌↔◌, IsTrue};
ghost use Rattle.std.specs.List.{All};
ghost use Rattle.std.specs.BTreeMap.{keys};
ghost use Rattle.hickory_base.specs.zone_store.ZoneSets.{sets_of};
ghost use Rattle.zone_answers.specs.Zones.{AreOwners, IsOwner};

use hickory_base::zone_store::RecordSet;
use hickory_wire::{LowerName, RrKey};
use std::collections::BTreeMap;
use std::rc::Rc;
/// Whether a key's name may own records of the zone of this origin.
fn is_owner(origin: &LowerName, key: &RrKey) -> bool
    ensures { IsTrue result ↔ IsOwner origin.now key.now }
{
    let name = key.name.as_name();
    // That its labels are those of a name is known of a name whose bytes were read.
    let _ = name.as_wire();
    name.is_fqdn() && origin.zone_of(&key.name)
}

/// Whether all keys' names may own records of the zone of this origin.
fn are_all_owners(origin: &LowerName, sets: &BTreeMap<RrKey, Rc<RecordSet>>) -> bool
    ensures { IsTrue result ↔ All (IsOwner origin.now) (keys sets.now) }
{
    sets.keys().all(|key| is_owner(origin, key))
}

/// Whether each owner name may own records of the zone of this origin.
pub fn are_owners(origin: &LowerName, sets: &BTreeMap<RrKey, Rc<RecordSet>>) -> bool
    ensures { IsTrue result ↔ AreOwners origin.now (sets_of sets.now) }
{
    are_all_owners(origin, sets)
}
