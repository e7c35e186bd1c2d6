//! Which records an update section may have.

ghost use Rattle.std.specs.Prelude.{◌≡◌};
ghost use Rattle.hickory_store.specs.updates.Prerequisites.{has_no_data};
ghost use Rattle.hickory_store.specs.updates.Prescan.{has_zone_data, is_addition, is_query_type, is_record_deletion, is_set_deletion, is_well_formed, prescan_refusal, update_refusal};
ghost use Rattle.hickory_store.specs.updates.Refusals.{TellsCode, unless};

use crate::updates::handler::UpdatableZoneHandler;
use crate::updates::names::is_in_zone;
use crate::updates::verifier::Verifier;
use hickory_base::zone_store::InMemoryZoneHandler;
use hickory_wire::{DNSClass, RData, Record, RecordType, ResponseCode};

/// The code, unless the test holds.
pub(crate) fn unless(holds: bool, code: ResponseCode) -> Result<(), ResponseCode>
    ensures { TellsCode (unless holds code) result }
{
    if holds { Ok(()) } else { Err(code) }
}

/// Whether a record has no data.
pub(crate) fn has_no_data(r: &Record) -> bool
    ensures { result ≡ has_no_data r.now }
{
    match &r.rdata {
        RData::Update0(_) => true,
        RData::NULL(bytes) => bytes.as_slice().is_empty(),
        _ => false,
    }
}

/// Whether it is a type of queries, which no record has.
fn is_query_type(record_type: RecordType) -> bool
    ensures { result ≡ is_query_type record_type }
{
    record_type == RecordType::AXFR
        || record_type == RecordType::MAILA
        || record_type == RecordType::MAILB
        || record_type == RecordType::IXFR
}

/// Whether a record has data that a zone may hold.
fn has_zone_data(r: &Record) -> bool
    ensures { result ≡ has_zone_data r.now }
{
    match &r.rdata {
        RData::Update0(_) => false,
        RData::SOA(_) => true,
        other => other.record_type() != RecordType::SOA,
    }
}

/// Whether a record can be added to an RRset.
fn is_addition(r: &Record) -> bool
    ensures { result ≡ is_addition r.now }
{
    let record_type = r.rdata.record_type();
    record_type != RecordType::ANY && !is_query_type(record_type) && has_zone_data(r)
}

/// Whether a record says which RRsets to delete.
fn is_set_deletion(r: &Record) -> bool
    ensures { result ≡ is_set_deletion r.now }
{
    r.ttl == 0 && has_no_data(r) && !is_query_type(r.rdata.record_type())
}

/// Whether a record says which record to delete.
fn is_record_deletion(r: &Record) -> bool
    ensures { result ≡ is_record_deletion r.now }
{
    let record_type = r.rdata.record_type();
    r.ttl == 0 && record_type != RecordType::ANY && !is_query_type(record_type)
}

/// Whether a record says what to add or to delete, by its class.
fn is_well_formed(r: &Record) -> bool
    ensures { result ≡ is_well_formed r.now }
{
    if r.dns_class == DNSClass::IN {
        is_addition(r)
    } else if r.dns_class == DNSClass::ANY {
        is_set_deletion(r)
    } else if r.dns_class == DNSClass::NONE {
        is_record_deletion(r)
    } else {
        false
    }
}

/// Whether the zone can be changed as a record says.
fn scan(zone: &InMemoryZoneHandler, r: &Record) -> Result<(), ResponseCode>
    ensures { TellsCode (update_refusal zone.now.origin r.now) result }
{
    if !is_in_zone(zone, &r.name) {
        return Err(ResponseCode::NOT_ZONE);
    }
    unless(is_well_formed(r), ResponseCode::FORM_ERR)
}

/// Whether the zone can be changed as the records say, one by one.
fn scan_all(zone: &InMemoryZoneHandler, updates: &[Record]) -> Result<(), ResponseCode>
    ensures { TellsCode (prescan_refusal zone.now.origin updates.now) result }
{
    for r in updates {
        scan(zone, r)?;
    }
    Ok(())
}

impl<V: Verifier> UpdatableZoneHandler<V> {
    /// Whether an update section says what can be done to the zone; else the code of the first record that does not
    /// (RFC 2136 section 3.4.1). It takes no memory, and reads no record of the zone.
    ///
    /// A name outside the zone is NotZone, before anything else of the record is looked at. FormErr are: any class that
    /// is neither the zone's nor ANY nor NONE; the types AXFR, IXFR, MAILA and MAILB; type ANY in a class but ANY; a
    /// TTL but 0 in class ANY or NONE; data in class ANY; and in the zone's class no data, or data of type SOA that are
    /// not those of an SOA. Types that are not known are taken.
    pub fn pre_scan(&self, updates: &[Record]) -> Result<(), ResponseCode>
        ensures { TellsCode (prescan_refusal self.now.zone.origin updates.now) result }
    {
        scan_all(&self.in_memory, updates)
    }
}
