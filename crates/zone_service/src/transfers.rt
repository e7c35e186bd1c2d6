//! What C calls to set who may have a zone transferred. `host/zone_service.h` says of each what it is given and what it
//! answers.

ghost use Rattle.std.specs.Prelude.{◌≡◌, ◌≤◌, length};
ghost use Rattle.server.specs.Settings.{rules_of, with_rules};
ghost use Rattle.server.specs.Transfers.{Allows, Denies, GetsKey, GetsRule};

use crate::exports::told;
use server::handle::Handle;
use std::alloc::Global;

/// Lets the addresses of a network have the zone of this name transferred.
#[unsafe(no_mangle)]
pub extern "C" fn zone_service_set_zone_transfer_allowed(
    alloc: Global,
    service: &mut Handle,
    zone: &[u8],
    network: &[u8],
    fault: &mut [u8],
    count: &mut usize,
) -> u32
    ensures made { result ≡ 0 → GetsRule (Allows network.now) zone.now service.old.service.apexes.items
        (rules_of service.old.service).zones.items (rules_of service.new.service).zones.items }
    ensures others { service.new.service ≡ with_rules service.old.service
        (record (rules_of service.old.service) { zones = (rules_of service.new.service).zones }) }
{
    let service = service.service();
    told(
        alloc,
        service.allow_zone_transfer(alloc, zone, network),
        fault,
        count,
    )
}

/// Keeps the zone of this name from the addresses of a network, which is part of an allowed one.
#[unsafe(no_mangle)]
pub extern "C" fn zone_service_set_zone_transfer_denied(
    alloc: Global,
    service: &mut Handle,
    zone: &[u8],
    network: &[u8],
    fault: &mut [u8],
    count: &mut usize,
) -> u32
    ensures made { result ≡ 0 → GetsRule (Denies network.now) zone.now service.old.service.apexes.items
        (rules_of service.old.service).zones.items (rules_of service.new.service).zones.items }
    ensures others { service.new.service ≡ with_rules service.old.service
        (record (rules_of service.old.service) { zones = (rules_of service.new.service).zones }) }
{
    let service = service.service();
    told(
        alloc,
        service.deny_zone_transfer(alloc, zone, network),
        fault,
        count,
    )
}

/// Lets requests that the key of this name signed have the zone of the other name transferred, from anywhere.
#[unsafe(no_mangle)]
pub extern "C" fn zone_service_allow_zone_transfer_key(
    alloc: Global,
    service: &mut Handle,
    zone: &[u8],
    name: &[u8],
    fault: &mut [u8],
    count: &mut usize,
) -> u32
    ensures made { result ≡ 0 → GetsRule (GetsKey service.old.service.answering.server.keys name.now) zone.now
        service.old.service.apexes.items (rules_of service.old.service).zones.items
        (rules_of service.new.service).zones.items }
    ensures others { service.new.service ≡ with_rules service.old.service
        (record (rules_of service.old.service) { zones = (rules_of service.new.service).zones }) }
{
    let service = service.service();
    told(
        alloc,
        service.allow_zone_transfer_key(alloc, zone, name),
        fault,
        count,
    )
}
