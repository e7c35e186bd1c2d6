//! The zones of a server as they are served, and the addresses that these have for hosts.

ghost use Rattle.std.specs.Prelude.{◌≡◌, ◌++◌, ◌∷◌, [], IfOk, OnOk, Option, option_copied};
ghost use Rattle.hickory_catalog.specs.zones.Find.{Finds};
ghost use Rattle.served_zones.specs.ServedZones.{Chain};
ghost use Rattle.served_notices.specs.Hosts as spec;
ghost use Rattle.served_notices.specs.Hosts.{AddsHost, AddsServer, AddsServers, address_in, addresses_in, served_zone, zone_in};

use either::Either;
use hickory_base::zone_store::{InMemoryZoneHandler, ZoneHandler};
use hickory_wire::{LowerName, Name, RData, Record, RecordType, RrKey};
use notices::Target;
use served_zones::handler::{Handler, Zones};
use sqlite_disk::Disk;
use std::alloc::{AllocError, Global};
use std::net::IpAddr;
use zone_answers::find::set_under;

/// The port of DNS (RFC 1035 section 4.2).
const PORT: u16 = 53;

/// The zone that a chain serves, if there is one.
fn first_zone<D: Disk + Drop>(chain: &[Handler<D>]) -> Option<&InMemoryZoneHandler>
    ensures { option_copied result ≡ zone_in chain.now }
{
    match chain {
        [Either::Left(zone), ..] => Some(zone.updatable().in_memory()),
        _ => None,
    }
}

/// The zone that answers for a name, if there is one.
pub fn zone_at<'z, D: Disk + Drop>(
    zones: &'z Zones<D>,
    name: &LowerName,
) -> Result<Option<&'z InMemoryZoneHandler>, AllocError>
    ensures { IfOk result (λ zone. (found : Option Chain) × Finds zones.now.zones name.now found ×
        (option_copied zone ≡ served_zone found)) }
{
    match zones.find(name)? {
        Some(chain) => Ok(first_zone(chain)),
        None => Ok(None),
    }
}

/// The records of a name and a type in a zone.
pub fn records_of<'z>(
    zone: &'z InMemoryZoneHandler,
    name: &LowerName,
    record_type: RecordType,
) -> Result<&'z [Record], AllocError>
    ensures { IfOk result (λ records. records.now ≡ spec.records_of zone.now name.now record_type) }
{
    let key = RrKey::new(name.clone()?, record_type);
    match set_under(zone.records(), &key) {
        Some(records) => Ok(records),
        None => Ok(&[]),
    }
}

/// The server at the address that a record has, if it has one.
fn address_of(entry: &Record) -> Option<Target>
    ensures { result ≡ address_in entry.now.rdata }
{
    let address = match &entry.rdata {
        RData::A(address) => IpAddr::V4(*address),
        RData::AAAA(address) => IpAddr::V6(*address),
        _ => return None,
    };
    Some(Target {
        address,
        port: PORT,
    })
}

/// Puts the address that a record has last, if it has one.
fn push_address(targets: &mut Vec<Target>, entry: &Record) -> Result<(), AllocError>
    ensures { OnOk result (targets.new.items ≡ targets.old.items ++ addresses_in (entry.now ∷ [])) }
{
    if let Some(target) = address_of(entry) {
        targets.push(target)?;
    }
    Ok(())
}

/// Puts the addresses that records have last.
fn push_addresses(targets: &mut Vec<Target>, records: &[Record]) -> Result<(), AllocError>
    ensures { OnOk result (targets.new.items ≡ targets.old.items ++ addresses_in records.now) }
{
    for entry in records {
        push_address(targets, entry)?;
    }
    Ok(())
}

/// Puts the addresses of a host last that the zone has which answers for its name.
fn push_host<D: Disk + Drop>(
    alloc: Global,
    targets: &mut Vec<Target>,
    zones: &Zones<D>,
    host: &Name,
) -> Result<(), AllocError>
    ensures { OnOk result (AddsHost zones.now.zones host.now targets.old.items targets.new.items) }
{
    let name = LowerName::new(alloc, host)?;
    let Some(zone) = zone_at(zones, &name)? else {
        return Ok(());
    };
    push_addresses(targets, records_of(zone, &name, RecordType::A)?)?;
    push_addresses(targets, records_of(zone, &name, RecordType::AAAA)?)
}

/// Puts the addresses of the host of an NS record last, unless it is the primary.
fn push_server<D: Disk + Drop>(
    alloc: Global,
    targets: &mut Vec<Target>,
    zones: &Zones<D>,
    primary: &Name,
    entry: &Record,
) -> Result<(), AllocError>
    ensures { OnOk result (AddsServer zones.now.zones primary.now entry.now.rdata targets.old.items targets.new.items) }
{
    match &entry.rdata {
        RData::NS(host) if *host != *primary => push_host(alloc, targets, zones, host),
        _ => Ok(()),
    }
}

/// Puts the addresses of the hosts of NS records last, except those of the primary.
pub fn push_servers<D: Disk + Drop>(
    alloc: Global,
    targets: &mut Vec<Target>,
    zones: &Zones<D>,
    primary: &Name,
    records: &[Record],
) -> Result<(), AllocError>
    ensures { OnOk result (AddsServers zones.now.zones primary.now records.now targets.old.items targets.new.items) }
{
    for place in 0..records.len() {
        push_server(alloc, targets, zones, primary, &records[place])?;
    }
    Ok(())
}
