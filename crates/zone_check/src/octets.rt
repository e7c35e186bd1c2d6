//! The data of records that are octets here: those of DNSSEC.

ghost use Rattle.std.specs.Prelude.{◌≡◌, IfOk, List, ℕ};
ghost use Rattle.std.specs.Option.{option_and_then, option_copied, option_map};
ghost use Rattle.wire_messages.specs.declared.rr.record.Record.{Record as RecordOf};
ghost use Rattle.wire_messages.specs.declared.rr.rdata.RData.{RData as RecordData};
ghost use Rattle.zone_check.specs.CheckedZones.{type_nsec3};
ghost use Rattle.zone_check.specs.HashedZones.{parameters_of};
ghost use Rattle.zone_check.specs.SignedZones.{covered_of, expiration_of, nsec_of, octets_of};
ghost use Rattle.zone_denials.specs.Nsec3Data.{hashing_by, nsec3_by, nsec3_in, parameters_in};
ghost use Rattle.zone_denials.specs.NsecData.{nsec_by};

use std::alloc::{AllocError, Global};
use wire_messages::rr::rdata::RData;
use wire_messages::rr::record::Record;
use wire_messages::rr::record_type::RecordType;
use zone_denials::nsec::{self, NsecData};
use zone_denials::nsec3_data::{self, Nsec3Data, Parameters};
use zone_denials::rrsig;

/// The octets of the data of a record of this type.
fn octets_of(record: &Record, record_type: RecordType) -> Option<&[u8]>
    ensures { option_copied result ≡ octets_of record_type «record».now.rdata }
{
    match &record.rdata {
        RData::Unknown { code, bytes } if *code == record_type => Some(bytes.as_slice()),
        _ => None,
    }
}

/// The type that an RRSIG record covers.
pub(crate) fn covered_of(record: &Record) -> Option<RecordType>
    ensures { result ≡ covered_of «record».now.rdata }
{
    match octets_of(record, RecordType::RRSIG) {
        Some(octets) => rrsig::covered(octets),
        None => None,
    }
}

/// The time at which an RRSIG record ends.
pub(crate) fn expiration_of(record: &Record) -> Option<u32>
    ensures { result ≡ expiration_of «record».now.rdata }
{
    match octets_of(record, RecordType::RRSIG) {
        Some(octets) => rrsig::expiration(octets),
        None => None,
    }
}

/// The parameters at the start of the data of a record of this type, NSEC3 or NSEC3PARAM.
pub(crate) fn parameters_of(record: &Record, record_type: RecordType) -> Option<Parameters<'_>>
    ensures { option_map hashing_by result ≡
        option_and_then parameters_in (octets_of record_type «record».now.rdata) }
{
    match octets_of(record, record_type) {
        Some(octets) => nsec3_data::parameters_of(octets),
        None => None,
    }
}

/// The parameters that an NSEC3PARAM record has for a zone.
pub(crate) fn zone_parameters_of(record: &Record) -> Option<Parameters<'_>>
    ensures { option_map hashing_by result ≡ parameters_of «record».now.rdata }
{
    match octets_of(record, RecordType::NSEC3PARAM) {
        Some(octets) => nsec3_data::zone_parameters_of(octets),
        None => None,
    }
}

/// What an NSEC record says, if its data have their form.
pub(crate) fn nsec_of(alloc: Global, record: &Record) -> Result<Option<NsecData>, AllocError>
    ensures { IfOk result (λ found. option_map (nsec_by «record».now.name) found ≡ nsec_of «record».now) }
{
    match octets_of(record, RecordType::NSEC) {
        Some(octets) => nsec::nsec_of(alloc, octets),
        None => Ok(None),
    }
}

/// What the data of an NSEC3 record say, if they have their form.
pub(crate) fn nsec3_of(alloc: Global, record: &Record) -> Result<Option<Nsec3Data>, AllocError>
    ensures { IfOk result (λ found. (hash : List ℕ) → option_map (nsec3_by hash) found ≡
        option_and_then (nsec3_in hash) (octets_of type_nsec3 «record».now.rdata)) }
{
    match octets_of(record, RecordType::NSEC3) {
        Some(octets) => nsec3_data::nsec3_of(alloc, octets),
        None => Ok(None),
    }
}
