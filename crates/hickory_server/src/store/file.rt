//! Zones from the text of their files (RFC 1035 section 5), and of the records that these have.

ghost use Rattle.std.specs.Prelude.{◌≡◌, All, IfErr, IfOk, List};
ghost use Rattle.wire_names.specs.rr.domain.DomainName.{DomainName};
ghost use Rattle.wire_messages.specs.declared.rr.rdata.RData.{RData as RecordData};
ghost use Rattle.wire_messages.specs.declared.rr.record.Record.{Record};
ghost use Rattle.hickory_store.specs.file.RecordZones.{IsRecordsFault};
ghost use Rattle.zone_text.specs.ZoneFiles.{IsZoneRecord};
ghost use Rattle.hickory_server.specs.store.ZoneOfText.{IsTextFault, IsZoneOfText, error_of_records, error_of_text};

use hickory_base::zone_store::{AxfrPolicy, InMemoryZoneHandler, ZoneType};
pub use hickory_store::file::{RecordFault, RecordsError, zone_of_records};
use hickory_wire::Name;
use std::alloc::Global;
use thiserror::Error;
use zone_text::{ZoneFileError, read_zone_file};

/// Why a text is not the file of a zone.
#[derive(Clone, Copy, Debug, PartialEq, Eq, Error)]
pub enum ZoneError {
    /// An entry is wrong.
    #[error("{0}")]
    Text(ZoneFileError),
    /// The records make no zone.
    #[error("{0}")]
    Records(RecordsError),
    /// Memory was refused.
    #[error("no memory")]
    Memory,
}

/// The fault of a text that cannot be read.
fn text_fault(e: ZoneFileError) -> ZoneError
    ensures value { result ≡ error_of_text e }
    ensures told { (apex : DomainName) → IsTextFault apex result }
{
    match e {
        ZoneFileError::Memory => ZoneError::Memory,
        other => ZoneError::Text(other),
    }
}

/// The fault of a text whose records make no zone.
fn records_fault(e: RecordsError) -> ZoneError
    ensures value { result ≡ error_of_records e }
    ensures told { (apex : DomainName) (records : List (Record RecordData)) → All IsZoneRecord records →
        IsRecordsFault apex records e → IsTextFault apex result }
{
    match e {
        RecordsError::Memory => ZoneError::Memory,
        other => ZoneError::Records(other),
    }
}

/// The zone of this apex that a text has, as [`read_zone_file`] reads it and [`zone_of_records`] makes it of the
/// records.
///
/// The first entry that is wrong is told with line, column and field. Where all can be read, the first record is told
/// that is wrong in the zone, by its number, and then whether there is no SOA record at the apex, or more than one.
pub fn read_zone(
    alloc: Global,
    text: &str,
    apex: &Name,
    zone_type: ZoneType,
    axfr_policy: AxfrPolicy,
) -> Result<InMemoryZoneHandler, ZoneError>
    ensures zone { IfOk result (IsZoneOfText apex.now zone_type axfr_policy) }
    ensures fault { IfErr result (IsTextFault apex.now) }
{
    let records = match read_zone_file(alloc, text, apex) {
        Ok(records) => records,
        Err(e) => return Err(text_fault(e)),
    };
    match zone_of_records(alloc, apex, records.into_vec(), zone_type, axfr_policy) {
        Ok(zone) => Ok(zone),
        Err(e) => Err(records_fault(e)),
    }
}
