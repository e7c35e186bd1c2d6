//! Zones from the bytes of their files.

ghost use Rattle.std.specs.Prelude.{◌≡◌, All, IfErr, IfOk};
ghost use Rattle.wire_names.specs.rr.domain.DomainName.{DomainName};
ghost use Rattle.served_zones.specs.ServedZones.{IsFileFault, IsServedOf, IsZoneOfFile, IsZoneOfFiles, loaded};
ghost use Rattle.zone_text.specs.ZoneFiles.{IsZoneRecord};

use hickory_server::proto::{Items, Name, Octets, Record};
use hickory_server::store::file::{RecordsError, ZoneError, zone_of_records};
use hickory_server::zone_store::{AxfrPolicy, InMemoryZoneHandler, ZoneType};
use hickory_server::zone_text::{
    FileOpener, IncludedError, ZoneFileError, read_zone_bytes, read_zone_with_files,
};
use hickory_store::updates::UpdatableZoneHandler;
use sqlite_disk::Disk;
use std::alloc::Global;
use thiserror::Error;
use tsig::{Keys, TsigVerifier};
use update_policy::Policy;
use zones::Zone;

/// Why a zone file is not taken.
#[derive(Clone, Copy, Debug, PartialEq, Eq, Error)]
pub enum ZoneFault {
    /// It is not the file of a zone.
    #[error("{0}")]
    Zone(ZoneError),
    /// The owner name of a record is not the apex or below it.
    #[error("a record's owner is not at or below the apex")]
    Owner,
    /// An allocation failed.
    #[error("no memory")]
    Memory,
}

/// Why a zone file that may include others is not taken, and which file has the fault.
#[derive(Drop)]
pub struct RefusedFile {
    /// The name of that file, as the directive that includes it has it. It has no bytes if the fault is in the first
    /// file, or in the records together.
    pub file: Octets,
    /// Why it is not taken.
    pub fault: ZoneFault,
}

/// The fault of an entry.
fn entry_fault(e: ZoneFileError) -> ZoneFault
    ensures { (apex : DomainName) → IsFileFault apex result }
{
    match e {
        ZoneFileError::Memory => ZoneFault::Memory,
        other => ZoneFault::Zone(ZoneError::Text(other)),
    }
}

/// The zone as it is loaded. It takes time by the zone's record sets, and memory for an index of them, as [`Zone::new`]
/// does.
fn loaded_zone<D: Disk + Drop>(alloc: Global, zone: InMemoryZoneHandler) -> Zone<TsigVerifier, D>
    ensures { result ≡ loaded zone }
{
    let verifier = TsigVerifier {
        keys: Keys::new(alloc),
    };
    let zone = UpdatableZoneHandler::new(zone, AxfrPolicy::AllowAll, false, verifier);
    Zone::new(alloc, zone, Policy::new(alloc))
}

/// The zone of this apex that records make, as it is loaded.
fn served<D: Disk + Drop>(
    alloc: Global,
    apex: &Name,
    records: Items<Record>,
) -> Result<Zone<TsigVerifier, D>, ZoneFault>
    requires { All IsZoneRecord records }
    ensures zone { IfOk result (λ it. it ≡ loaded it.updatable.zone) }
    ensures made { IfOk result (λ it. IsServedOf apex.now records it.updatable.zone) }
    ensures fault { IfErr result (IsFileFault apex.now) }
{
    let zone = match zone_of_records(
        alloc,
        apex,
        records.into_vec(),
        ZoneType::Primary,
        AxfrPolicy::AllowAll,
    ) {
        Ok(zone) => {
            // What its sets are is known of a zone whose sets were read.
            let _ = zone.records();
            loaded_zone(alloc, zone)
        }
        Err(RecordsError::Memory) => return Err(ZoneFault::Memory),
        Err(fault) => return Err(ZoneFault::Zone(ZoneError::Records(fault))),
    };
    if !zone.is_owned() {
        return Err(ZoneFault::Owner);
    }
    Ok(zone)
}

/// The zone of this apex that the bytes of a zone file have, in any encoding. A file that includes others is not taken.
/// All clients that may use the server may have transfers of the zone (RFC 5936 section 5). It has no rules, so it takes
/// no updates.
///
/// # Errors
///
/// `ZoneFault::Zone`: the bytes are not the file of such a zone. `ZoneFault::Owner`: an owner name is not the apex or
/// below it. `ZoneFault::Memory`: an allocation failed.
pub fn zone_of_file<D: Disk + Drop>(
    alloc: Global,
    apex: &Name,
    bytes: &[u8],
) -> Result<Zone<TsigVerifier, D>, ZoneFault>
    ensures zone { IfOk result (λ it. it ≡ loaded it.updatable.zone) }
    ensures read { IfOk result (λ it. IsZoneOfFile bytes.now apex.now it.updatable.zone) }
    ensures fault { IfErr result (IsFileFault apex.now) }
{
    match read_zone_bytes(alloc, bytes, apex) {
        Ok(records) => served(alloc, apex, records),
        Err(e) => Err(entry_fault(e)),
    }
}

/// The zone of this apex that the bytes of a zone file have with the files that it includes (RFC 1035 section 5.1), to
/// ten levels. All else is as in [`zone_of_file`].
pub fn zone_with_files<D: Disk + Drop, O: FileOpener>(
    alloc: Global,
    apex: &Name,
    bytes: &[u8],
    files: &O,
) -> Result<Zone<TsigVerifier, D>, RefusedFile>
    ensures zone { IfOk result (λ it. it ≡ loaded it.updatable.zone) }
    ensures read { IfOk result (λ it. IsZoneOfFiles (O.opens files.now) bytes.now apex.now it.updatable.zone) }
    ensures fault { IfErr result (λ refused. IsFileFault apex.now refused.fault) }
{
    let fault = match read_zone_with_files(alloc, bytes, apex, files) {
        Ok(records) => match served(alloc, apex, records) {
            Ok(zone) => return Ok(zone),
            Err(fault) => fault,
        },
        Err(e) => {
            let IncludedError { file, error } = e;
            let fault = entry_fault(error);
            return Err(RefusedFile { file, fault });
        }
    };
    Err(RefusedFile {
        file: Octets::from_vec(Vec::new(alloc)),
        fault,
    })
}
