//! The zone that the program serves.

ghost use Rattle.std.specs.Prelude.{◌≡◌, IfOk, [], ◌∷◌};

use hickory_base::zone_store::{AxfrPolicy, InMemoryZoneHandler, RecordSet, ZoneType};
use hickory_wire::{Boxed, DNSClass, LowerName, Name, NameError, Proof, RData, Record, RrKey, SOA};
use std::alloc::{AllocError, Global};
use std::collections::BTreeMap;
use std::net::Ipv4Addr;
use std::rc::Rc;

/// How long each record may be kept, in seconds.
const TTL: u32 = 3600;

/// The sets of records of a zone, by name and type.
type RecordSets = BTreeMap<RrKey, Rc<RecordSet>>;

/// Puts a set of one record of class IN.
fn put(alloc: Global, sets: &mut RecordSets, name: Name, rdata: RData) -> Result<(), AllocError> {
    let key = RrKey::new(LowerName::new(alloc, &name)?, rdata.record_type());
    let record = Record {
        name,
        dns_class: DNSClass::IN,
        ttl: TTL,
        rdata,
        proof: Proof::Indeterminate,
    };
    let set = RecordSet::new(vec![in alloc; record]?);
    sets.insert(key, Rc::new(alloc, set)?)?;
    Ok(())
}

/// The name that a text spells.
fn name(alloc: Global, text: &str) -> Result<Name, NameError> {
    Name::from_ascii(alloc, text)
}

/// The SOA of the zone.
fn soa(alloc: Global) -> Result<RData, NameError> {
    let soa = SOA {
        mname: name(alloc, "ns.example.com.")?,
        rname: name(alloc, "admin.example.com.")?,
        serial: 7,
        refresh: 3600,
        retry: 1800,
        expire: 604_800,
        minimum: 86_400,
    };
    Ok(RData::SOA(Boxed::new(alloc, soa)?))
}

/// The sets of the zone.
fn record_sets(alloc: Global) -> Result<RecordSets, NameError> {
    let mut sets = BTreeMap::new(alloc);
    let apex = name(alloc, "example.com.")?;
    put(alloc, &mut sets, apex.clone()?, soa(alloc)?)?;
    let server = name(alloc, "ns.example.com.")?;
    put(alloc, &mut sets, apex, RData::NS(server.clone()?))?;
    let server_address = RData::A(Ipv4Addr::new(192, 0, 2, 2));
    put(alloc, &mut sets, server, server_address)?;
    let web = name(alloc, "www.example.com.")?;
    let web_address = RData::A(Ipv4Addr::new(93, 184, 215, 14));
    put(alloc, &mut sets, web, web_address)?;
    Ok(sets)
}

/// The origin of the zone.
pub fn origin(alloc: Global) -> Result<LowerName, NameError> {
    let apex = name(alloc, "example.com.")?;
    Ok(LowerName::new(alloc, &apex)?)
}

/// The zone example.com., which everybody may transfer. Only want of memory is an error, since each text spells a name.
pub fn zone(alloc: Global) -> Result<InMemoryZoneHandler, NameError> {
    let origin = origin(alloc)?;
    let sets = record_sets(alloc)?;
    // The sets make a zone; this test is what shows it, and what is served otherwise is empty.
    let sets = if InMemoryZoneHandler::accepts(&sets) {
        sets
    } else {
        BTreeMap::new(alloc)
    };
    Ok(InMemoryZoneHandler::new(origin, sets, ZoneType::Primary, AxfrPolicy::AllowAll))
}
