//! A zone of records.

ghost use Rattle.std.specs.Prelude.{◌≡◌, ◌↔◌, ◌<◌, ◌^◌, IfErr, IfOk, IsTrue, OnOk};
ghost use Rattle.std.specs.Map.{lookup};
ghost use Rattle.std.specs.Option.{option_copied};
ghost use Rattle.hickory_base.specs.zone_store.ZoneSets.{IsSoaData, is_key, sets_of};
ghost use Rattle.hickory_store.specs.declared.file.zones.RecordsError.TheVariants as records_error;
ghost use Rattle.hickory_store.specs.file.RecordZones.{AreOfZone, HasOne, IsRecordFault, IsRecordsFault, IsSoaFault, IsZoneOf, soa_set};

use crate::file::first_records::first_records;
use crate::updates::laws::identities;
use crate::updates::zone_sets::{Sets, sets_of_records};
use hickory_base::zone_store::{AxfrPolicy, InMemoryZoneHandler, ZoneType};
use hickory_wire::name_laws::name_comparisons;
use hickory_wire::{LowerName, Name, RData, Record, RecordType, RrKey, SOA};
use std::alloc::{AllocError, AllocFailed, Global};
use thiserror::Error;

/// What is wrong with a record of a zone.
#[derive(Clone, Copy, Debug, PartialEq, Eq, Error)]
pub enum RecordFault {
    /// Its owner name is not in the zone (RFC 1035 section 5.2).
    #[error("the owner name is outside the zone")]
    Outside,
    /// It is an SOA record below the apex, where another zone would begin (RFC 1034 section 4.2).
    #[error("an SOA record below the apex")]
    SoaBelowApex,
    /// It is of type SOA, and its data are not those of an SOA record (RFC 1035 section 3.3.13).
    #[error("an SOA record without the data of one")]
    NoSoaData,
}

/// Why records make no zone.
#[derive(Clone, Copy, Debug, PartialEq, Eq, Error)]
pub enum RecordsError {
    /// A record is wrong.
    #[error("record {number}: {fault}")]
    Record {
        /// Which record it is; the first is 1.
        number: usize,
        /// What is wrong with it.
        fault: RecordFault,
    },
    /// There is no SOA record at the apex (RFC 1035 section 5.2).
    #[error("there is no SOA record at the apex")]
    NoSoa,
    /// There is more than one SOA record at the apex (RFC 1035 section 5.2).
    #[error("there is more than one SOA record at the apex")]
    SeveralSoas,
    /// Memory was refused.
    #[error("no memory")]
    Memory,
}

impl From<AllocError> for RecordsError {
    ghost from_gives = { λ _ e. e ≡ records_error.Memory };

    fn from(_e: AllocError) -> RecordsError {
        RecordsError::Memory
    }
}

impl<T: Drop> From<AllocFailed<T>> for RecordsError {
    ghost from_gives = { λ _ e. e ≡ records_error.Memory };

    fn from(_e: AllocFailed<T>) -> RecordsError {
        RecordsError::Memory
    }
}

/// The serial of an SOA, which has 32 bits.
fn serial(soa: &SOA) -> u32
    ensures value { result ≡ soa.now.serial }
    ensures range { soa.now.serial < 2 ^ 32 }
{
    soa.serial
}

/// Whether data are those of an SOA record.
fn are_soa_data(rdata: &RData) -> bool
    ensures { IsTrue result ↔ IsSoaData rdata.now }
{
    match rdata {
        RData::SOA(soa) => {
            // That the serial has 32 bits is known of a value that was read.
            let _ = serial(soa.get());
            true
        }
        _ => false,
    }
}

/// What is wrong with a record in the zone of this apex.
fn record_fault(apex: &Name, q: &Record) -> Option<RecordFault>
    ensures { IsRecordFault apex.now q.now result }
{
    name_comparisons();
    if !apex.zone_of(&q.name) {
        Some(RecordFault::Outside)
    } else if q.rdata.record_type() != RecordType::SOA {
        None
    } else if q.name != *apex {
        Some(RecordFault::SoaBelowApex)
    } else if !are_soa_data(&q.rdata) {
        Some(RecordFault::NoSoaData)
    } else {
        None
    }
}

/// Looks for the first record that is wrong in the zone of this apex.
fn check_records(apex: &Name, records: &[Record]) -> Result<(), RecordsError>
    ensures ok { OnOk result (AreOfZone apex.now records.now) }
    ensures err { IfErr result (IsRecordsFault apex.now records.now) }
{
    let mut rest = records;
    while let [first, others @ ..] = rest {
        match record_fault(apex, first) {
            None => rest = others,
            Some(fault) => {
                let number = records.len() - others.len();
                return Err(RecordsError::Record { number, fault });
            }
        }
    }
    Ok(())
}

/// The records under a key.
fn set_under<'m>(sets: &'m Sets, key: &RrKey) -> Option<&'m [Record]>
    ensures { option_copied result ≡ lookup (is_key key.now.name key.now.record_type) (sets_of sets.now) }
{
    match sets.get(key) {
        None => None,
        Some(set) => Some(set.records()),
    }
}

/// Looks whether there is just one SOA record at the apex.
fn check_soa(alloc: Global, apex: &Name, sets: &Sets) -> Result<(), RecordsError>
    ensures ok { OnOk result (HasOne (soa_set apex.now (sets_of sets.now))) }
    ensures err { IfErr result (IsSoaFault (soa_set apex.now (sets_of sets.now))) }
{
    let key = RrKey::new(LowerName::new(alloc, apex)?, RecordType::SOA);
    match set_under(sets, &key) {
        None => Err(RecordsError::NoSoa),
        Some(set) if set.len() == 1 => Ok(()),
        Some(_) => Err(RecordsError::SeveralSoas),
    }
}

/// The zone of this apex that has these records, by owner name and type, each RRset in their order. Of records that are
/// the same but for their TTL the first counts (RFC 2181 section 5). It takes about as long as sorting the records,
/// whatever the sets that they make.
///
/// # Errors
///
/// The first record that is wrong is told; where each is right alone, that there is no SOA record at the apex, or more
/// than one.
pub fn zone_of_records(
    alloc: Global,
    apex: &Name,
    records: Vec<Record>,
    zone_type: ZoneType,
    axfr_policy: AxfrPolicy,
) -> Result<InMemoryZoneHandler, RecordsError>
    ensures zone { IfOk result (IsZoneOf apex.now zone_type axfr_policy records.items) }
    ensures fault { IfErr result (IsRecordsFault apex.now records.items) }
{
    identities();
    check_records(apex, records.as_slice())?;
    let kept = first_records(alloc, records)?;
    let sets = sets_of_records(alloc, kept)?;
    check_soa(alloc, apex, &sets)?;
    // That the keys are in order is known of a map whose length was read.
    let _ = sets.len();
    let origin = LowerName::new(alloc, apex)?;
    Ok(InMemoryZoneHandler::new(origin, sets, zone_type, axfr_policy))
}
