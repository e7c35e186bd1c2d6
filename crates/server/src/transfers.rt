//! Rules of who may have a zone transferred, each of a zone that was added.

ghost use Rattle.std.specs.Prelude.{◌≡◌, ◌++◌, ◌∷◌, ◌<◌, [], IfOk, IsTrue, OnOk, length};
ghost use Rattle.std.specs.List.{position, position_or_len};
ghost use Rattle.wire_names.specs.rr.domain.NameOrder.{name_eq};
ghost use Rattle.server_limits.specs.Access.{SameNetworks};
ghost use Rattle.served_keys.specs.ServedKeys.{all_networks};
ghost use Rattle.served_zones.specs.ServedZones.{IsApexText};
ghost use Rattle.server.specs.Networks.{HasNoNetwork};
ghost use Rattle.server.specs.Transfers.{Allows, Denies, GetsKey, IsClosed, IsPlace, SetsAt};
ghost use Rattle.server.specs.Updates as spec;

use crate::service::{Service, allow_only};
use crate::settings::{SettingFault, key_name, network, zone_name};
use crate::updates::is_added;
use hickory_server::access::AccessControl;
use hickory_server::proto::Name;
use hickory_server::server::ZoneTransfers;
use served_keys::networks::with_all;
use served_zones::networks::access;
use std::alloc::{AllocError, Global};
use tsig::Keys;

/// The access list by which nobody may have transfers.
pub(crate) fn nobody(alloc: Global) -> Result<AccessControl, AllocError>
    ensures denied { IfOk result (λ access. SameNetworks all_networks access.deny) }
    ensures allowed { IfOk result (λ access. HasNoNetwork access.allow) }
{
    let all = with_all(alloc, &[])?;
    Ok(access(alloc, all.as_slice(), &[])?)
}

/// The rules of a zone before its first one: nobody may have it transferred.
fn closed(alloc: Global, apex: Name) -> Result<ZoneTransfers, AllocError>
    ensures { IfOk result (IsClosed apex) }
{
    Ok(ZoneTransfers {
        apex,
        access: nobody(alloc)?,
        keys: Vec::new(alloc),
    })
}

/// The name of a zone that was added, which a text spells.
fn added_zone(alloc: Global, apexes: &[Name], text: &[u8]) -> Result<Name, SettingFault>
    ensures { IfOk result (λ apex. IsApexText text.now apex × IsTrue (spec.is_added apexes.now apex)) }
{
    let apex = zone_name(alloc, text)?;
    if !is_added(apexes, &apex) {
        return Err(SettingFault::NoZone);
    }
    Ok(apex)
}

/// The first place of a zone's rules.
fn first_place(zones: &[ZoneTransfers], apex: &Name) -> Option<usize>
    ensures { result ≡ position (λ zone. name_eq zone.apex apex.now) zones.now }
{
    zones.iter().position(|zone| zone.apex == *apex)
}

/// The place of a zone's rules; how many zones have rules, if it has none.
fn place_of(zones: &[ZoneTransfers], apex: &Name) -> usize
    ensures { result ≡ position_or_len (λ zone. name_eq zone.apex apex.now) zones.now }
{
    first_place(zones, apex).unwrap_or(zones.len())
}

/// The place of a zone's rules. If it has none, it has those by which nobody may have it from then on.
fn own_place(alloc: Global, zones: &mut Vec<ZoneTransfers>, apex: Name) -> Result<usize, AllocError>
    ensures { IfOk result (IsPlace apex zones.old.items zones.new.items) }
{
    let place = place_of(zones.as_slice(), &apex);
    if place < zones.len() {
        return Ok(place);
    }
    zones.push(closed(alloc, apex)?)?;
    Ok(place)
}

/// Lets a network have the zone transferred whose rules are at this place.
fn allow_at(
    alloc: Global,
    zones: &mut Vec<ZoneTransfers>,
    place: usize,
    text: &[u8],
) -> Result<(), SettingFault>
    requires { place < length zones.old.items }
    ensures { OnOk result (SetsAt (Allows text.now) place zones.old.items zones.new.items) }
{
    allow_only(alloc, &mut zones[place].access, text)
}

/// Keeps a network from having the zone transferred whose rules are at this place.
fn deny_at(zones: &mut Vec<ZoneTransfers>, place: usize, text: &[u8]) -> Result<(), SettingFault>
    requires { place < length zones.old.items }
    ensures { OnOk result (SetsAt (Denies text.now) place zones.old.items zones.new.items) }
{
    let network = network(text)?;
    Ok(zones[place].access.insert_deny(&[network])?)
}

/// Lets a key have the zone transferred whose rules are at this place.
fn give_key_at(
    alloc: Global,
    keys: &Keys,
    zones: &mut Vec<ZoneTransfers>,
    place: usize,
    text: &[u8],
) -> Result<(), SettingFault>
    requires { place < length zones.old.items }
    ensures { OnOk result (SetsAt (GetsKey keys.now text.now) place zones.old.items zones.new.items) }
{
    let name = key_name(alloc, keys, text)?;
    Ok(zones[place].keys.push(name)?)
}

impl Service {
    ghost use Rattle.server.specs.Settings.{rules_of, with_rules};
    ghost use Rattle.server.specs.Transfers.{GetsRule};

    /// Lets the addresses of a network have a zone transferred that was added, if they may use the server. From the
    /// first rule of its own on, the rules for all zones do not count for the zone. `NoZone` says that there is none of
    /// this name.
    pub fn allow_zone_transfer(
        &mut self,
        alloc: Global,
        zone: &[u8],
        text: &[u8],
    ) -> Result<(), SettingFault>
        ensures ok { OnOk result (GetsRule (Allows text.now) zone.now self.old.apexes.items
            (rules_of self.old).zones.items (rules_of self.new).zones.items) }
        ensures others { self.new ≡ with_rules self.old
            (record (rules_of self.old) { zones = (rules_of self.new).zones }) }
    {
        let apex = added_zone(alloc, self.apexes.as_slice(), zone)?;
        let zones = &mut self.answering.server.server.rules.zones;
        let place = own_place(alloc, zones, apex)?;
        allow_at(alloc, zones, place, text)
    }

    /// Keeps a zone that was added from the addresses of a network, which is part of one that may have it transferred.
    /// From the first rule of its own on, the rules for all zones do not count for the zone.
    pub fn deny_zone_transfer(
        &mut self,
        alloc: Global,
        zone: &[u8],
        text: &[u8],
    ) -> Result<(), SettingFault>
        ensures ok { OnOk result (GetsRule (Denies text.now) zone.now self.old.apexes.items
            (rules_of self.old).zones.items (rules_of self.new).zones.items) }
        ensures others { self.new ≡ with_rules self.old
            (record (rules_of self.old) { zones = (rules_of self.new).zones }) }
    {
        let apex = added_zone(alloc, self.apexes.as_slice(), zone)?;
        let zones = &mut self.answering.server.server.rules.zones;
        let place = own_place(alloc, zones, apex)?;
        deny_at(zones, place, text)
    }

    /// Lets requests that a key of this name signed have a zone transferred that was added, from anywhere. From the first
    /// rule of its own on, the rules for all zones do not count for the zone.
    pub fn allow_zone_transfer_key(
        &mut self,
        alloc: Global,
        zone: &[u8],
        text: &[u8],
    ) -> Result<(), SettingFault>
        ensures ok { OnOk result (GetsRule (GetsKey self.old.answering.server.keys text.now) zone.now
            self.old.apexes.items (rules_of self.old).zones.items (rules_of self.new).zones.items) }
        ensures others { self.new ≡ with_rules self.old
            (record (rules_of self.old) { zones = (rules_of self.new).zones }) }
    {
        let apex = added_zone(alloc, self.apexes.as_slice(), zone)?;
        let server = &mut self.answering.server;
        let zones = &mut server.server.rules.zones;
        let place = own_place(alloc, zones, apex)?;
        give_key_at(alloc, &server.keys, zones, place, text)
    }
}
