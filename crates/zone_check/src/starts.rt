//! What is asked of the start of a zone, its SOA record.

ghost use Rattle.std.specs.Prelude.{◌≡◌, ◌↔◌, IsTrue};
ghost use Rattle.std.specs.Option.{option_copied};
ghost use Rattle.zone_check.specs.CheckedZones.{is_of, type_soa};
ghost use Rattle.zone_check.specs.Findings.{HasOddExpire, HasOddMinimum, HasOddRefresh, HasOddRetry, IsNotAbove, OfSoa, serial_of, soa_of};
ghost use Rattle.zone_check.specs.Serials.{IsAbove};

use crate::subject::Subject;
use wire_messages::rr::rdata::{RData, SOA};
use wire_messages::rr::record::Record;
use wire_messages::rr::record_type::RecordType;
use wire_names::rr::domain::name::Name;

/// Half of all serials: by so many at most one is above another (RFC 1982 section 3.2).
const HALF: u32 = 0x8000_0000;

/// Whether a serial is above another.
pub(crate) fn is_above(serial: u32, other: u32) -> bool
    ensures { IsTrue result ↔ IsAbove serial other }
{
    if other < serial {
        serial - other < HALF
    } else {
        HALF < other - serial
    }
}

/// Whether the serial is not above that of the zone before, if that is known.
fn is_not_above(zone: &Subject<'_>, soa: &SOA) -> bool
    ensures { IsTrue result ↔ IsNotAbove zone.now soa.now }
{
    match zone.previous() {
        Some(previous) => !is_above(soa.serial, previous),
        None => false,
    }
}

/// Whether the refresh time is below 20 minutes or above 12 hours.
fn is_odd_refresh(soa: &SOA) -> bool
    ensures { IsTrue result ↔ HasOddRefresh soa.now }
{
    soa.refresh < 1200 || 43200 < soa.refresh
}

/// Whether the retry time is not below the refresh time.
fn is_odd_retry(soa: &SOA) -> bool
    ensures { IsTrue result ↔ HasOddRetry soa.now }
{
    soa.refresh <= soa.retry
}

/// Whether the expire time is not from 2 to 4 weeks, or not above refresh and retry times together.
fn is_odd_expire(soa: &SOA) -> bool
    ensures { IsTrue result ↔ HasOddExpire soa.now }
{
    let together = u64::from(soa.refresh) + u64::from(soa.retry);
    u64::from(soa.expire) <= together || soa.expire < 1_209_600 || 2_419_200 < soa.expire
}

/// Whether a denial may be kept for more than one day.
fn is_odd_minimum(soa: &SOA) -> bool
    ensures { IsTrue result ↔ HasOddMinimum soa.now }
{
    86400 < soa.minimum
}

/// The data of an SOA record.
fn soa_of(record: &Record) -> Option<&SOA>
    ensures { option_copied result ≡ soa_of «record».now.rdata }
{
    match &record.rdata {
        RData::SOA(soa) => Some(soa.get()),
        _ => None,
    }
}

/// Whether it is an SOA record with a serial that is not above that of the zone before, if that is known.
pub(crate) fn has_low_serial(zone: &Subject<'_>, record: &Record) -> bool
    ensures { IsTrue result ↔ OfSoa (IsNotAbove zone.now) «record».now.rdata }
{
    match soa_of(record) {
        Some(soa) => is_not_above(zone, soa),
        None => false,
    }
}

/// Whether it is an SOA record with a refresh time below 20 minutes or above 12 hours.
pub(crate) fn has_odd_refresh(record: &Record) -> bool
    ensures { IsTrue result ↔ OfSoa HasOddRefresh «record».now.rdata }
{
    match soa_of(record) {
        Some(soa) => is_odd_refresh(soa),
        None => false,
    }
}

/// Whether it is an SOA record with a retry time that is not below the refresh time.
pub(crate) fn has_odd_retry(record: &Record) -> bool
    ensures { IsTrue result ↔ OfSoa HasOddRetry «record».now.rdata }
{
    match soa_of(record) {
        Some(soa) => is_odd_retry(soa),
        None => false,
    }
}

/// Whether it is an SOA record with an expire time that is not from 2 to 4 weeks, or not above refresh and retry times
/// together.
pub(crate) fn has_odd_expire(record: &Record) -> bool
    ensures { IsTrue result ↔ OfSoa HasOddExpire «record».now.rdata }
{
    match soa_of(record) {
        Some(soa) => is_odd_expire(soa),
        None => false,
    }
}

/// Whether it is an SOA record with a minimum by which a denial may be kept for more than one day.
pub(crate) fn has_odd_minimum(record: &Record) -> bool
    ensures { IsTrue result ↔ OfSoa HasOddMinimum «record».now.rdata }
{
    match soa_of(record) {
        Some(soa) => is_odd_minimum(soa),
        None => false,
    }
}

/// Whether a record is an SOA record of the apex.
fn is_start(origin: &Name, record: &Record) -> bool
    ensures { result ≡ is_of origin.now type_soa «record».now }
{
    record.name == *origin && record.rdata.record_type() == RecordType::SOA
}

/// The serial in the data of an SOA record.
fn serial_of(record: &Record) -> Option<u32>
    ensures { result ≡ serial_of «record».now }
{
    match soa_of(record) {
        Some(soa) => Some(soa.serial),
        None => None,
    }
}

/// The serial of a zone: that of its first SOA record at the apex, which is fully qualified as names in zone files are.
/// None where there is no such record. The time is by the records.
pub fn apex_serial(origin: &Name, records: &[Record]) -> Option<u32> {
    match records.iter().find(|it| is_start(origin, it)) {
        Some(record) => serial_of(record),
        None => None,
    }
}
