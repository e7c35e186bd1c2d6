//! The data of records in bytes.

ghost use Rattle.std.specs.Prelude.{◌≡◌, ℕ, ◌+◌, ◌^◌, ◌<◌, ◌≤◌, ◌++◌, length, OnOk, MatchResult, Some, None, nat_lt};
ghost use Rattle.std.specs.List.{flat_map, list_any};
ghost use Rattle.std.specs.Int.{w16, w32, to_be_bytes};
ghost use Rattle.wire_names.specs.rr.domain.DomainName.{name_len, AreLabels};
ghost use Rattle.wire_messages.specs.serialize.layout.FieldRanges.{IsInRange};
ghost use Rattle.wire_writing.specs.representation.WrittenParts.{rdata_of};
ghost use Rattle.wire_messages.specs.serialize.writing.FullForm.{name_octets, tsig_octets, data_octets, HasNames, HasLength};
ghost use Rattle.wire_writing.specs.representation.WritingByNotes.{WritesData};
ghost use Rattle.wire_messages.specs.rr.RecordData.{character_string, option_octets, soa_numbers, tsig_fields, type_of};
ghost use Rattle.wire_messages.specs.serialize.writing.RecordSize.{data_len, unwritable_reason, length_fault};
ghost use Rattle.wire_messages.specs.declared.rr.rdata.RData.TheVariants as rdata_form;

use crate::serialize::writing::compression_table::CompressionTable;
use crate::serialize::writing::name_encoder::write_compressed_name;
use std::alloc::AllocError;
use wire_messages::op::edns::EdnsOption;
use wire_messages::rr::rdata::{MX, RData, SOA};
use wire_messages::rr::record_type::RecordType;
use wire_messages::rr::tsig::TSIG;
use wire_messages::serialize::writing::full_form::{full_name_len, write_name, write_u16};
use wire_names::error::ProtoError;
use wire_names::rr::domain::name::Name;
use wire_names::values::octets::Octets;

/// The sum of a length and more octets, or `DataTooLong` where it passes a length field of two bytes.
fn lengthened(len: usize, more: usize) -> Result<usize, ProtoError>
    ensures { MatchResult result (λ sum. (sum ≡ len + more) × (sum ≤ 65535))
        (λ e. (e ≡ ProtoError.DataTooLong) × (65535 < len + more)) }
{
    if len > 65535 || more > 65535 - len {
        return Err(ProtoError::DataTooLong);
    }
    Ok(len + more)
}

fn has_long_string(strings: &[Octets]) -> bool
    ensures { result ≡ list_any (λ text. nat_lt 255 (length text)) strings.now }
{
    strings.iter().any(|text| text.len() > 255)
}

fn strings_len(strings: &[Octets]) -> Result<u16, ProtoError>
    ensures { HasLength (rdata_form.TXT strings.now) result }
{
    if has_long_string(strings) {
        return Err(ProtoError::CharacterDataTooLong);
    }
    let mut len = 0usize;
    for text in strings {
        len = lengthened(len + 1, text.len())?;
    }
    Ok(len as u16)
}

fn options_len(options: &[EdnsOption]) -> Result<u16, ProtoError>
    ensures { HasLength (rdata_form.OPT options.now) result }
{
    let mut len = 0usize;
    for option in options {
        len = lengthened(len + 4, option.bytes.len())?;
    }
    Ok(len as u16)
}

fn signature_len(signature: &TSIG) -> Result<u16, ProtoError>
    ensures len { HasLength (rdata_form.TSIG signature.now) result }
    ensures names { AreLabels signature.now.algorithm.labels }
{
    let algorithm_len = usize::from(full_name_len(&signature.algorithm));
    if signature.time >> 48 != 0 {
        return Err(ProtoError::DataTooLong);
    }
    let len = lengthened(algorithm_len + 16, signature.mac.len())?;
    let len = lengthened(len, signature.other.len())?;
    Ok(len as u16)
}

fn octets_len(octets: &Octets) -> Result<u16, ProtoError>
    ensures { MatchResult result (λ len. (length_fault (length octets.now) ≡ None) × (len ≡ length octets.now))
        (λ e. length_fault (length octets.now) ≡ Some e) }
{
    let len = lengthened(0, octets.len())?;
    Ok(len as u16)
}

fn soa_len(soa: &SOA) -> u16
    ensures len { result ≡ data_len (rdata_form.SOA soa.now) }
    ensures small { result ≤ 530 }
    ensures names { HasNames (rdata_form.SOA soa.now) }
{
    full_name_len(&soa.mname) + full_name_len(&soa.rname) + 20
}

/// The data of a record that something else stands for.
#[derive(Clone, Copy)]
pub(crate) enum Data<'r> {
    /// The options of an OPT record.
    Options(&'r [EdnsOption]),
    /// The data of a TSIG record.
    Signature(&'r TSIG),
}

impl Data<'_> {
    /// The type of the record.
    pub(crate) fn record_type(self) -> RecordType
        ensures { result ≡ type_of (rdata_of self.entry) }
    {
        match self {
            Data::Options(_) => RecordType::OPT,
            Data::Signature(_) => RecordType::TSIG,
        }
    }

    /// How many bytes the data take with every name in full, or why they have no form in bytes.
    pub(crate) fn full_len(self) -> Result<u16, ProtoError>
        ensures len { HasLength (rdata_of self.entry) result }
        ensures names { HasNames (rdata_of self.entry) }
    {
        match self {
            Data::Options(options) => options_len(options),
            Data::Signature(signature) => signature_len(signature),
        }
    }

    /// Puts the data behind the bytes, with every name in full.
    pub(crate) fn write(self, bytes: &mut Vec<u8>) -> Result<(), AllocError>
        requires form { unwritable_reason (rdata_of self) ≡ None }
        ensures bytes { OnOk result (bytes.new.items ≡ bytes.old.items ++ data_octets (rdata_of self.entry)) }
        ensures in_range { OnOk result (IsInRange (rdata_of self.entry)) }
    {
        match self {
            Data::Options(options) => write_options(bytes, options),
            Data::Signature(signature) => write_signature_data(bytes, signature),
        }
    }
}

/// How many bytes the data of a record take with every name in full, or why they have no form in bytes.
pub(crate) fn full_data_len(rdata: &RData) -> Result<u16, ProtoError>
    ensures len { HasLength rdata.now result }
    ensures names { HasNames rdata.now }
{
    match rdata {
        RData::A(address) => Ok(address.octets().len() as u16),
        RData::AAAA(address) => Ok(address.octets().len() as u16),
        RData::NS(name) => Ok(full_name_len(name)),
        RData::CNAME(name) => Ok(full_name_len(name)),
        RData::PTR(name) => Ok(full_name_len(name)),
        RData::MX(mx) => Ok(2 + full_name_len(&mx.exchange)),
        RData::SOA(soa) => Ok(soa_len(soa.get())),
        RData::TXT(strings) => strings_len(strings.as_slice()),
        RData::OPT(options) => options_len(options.as_slice()),
        RData::TSIG(signature) => signature_len(signature.get()),
        RData::NULL(octets) => octets_len(octets),
        RData::Update0(_) => Ok(0),
        RData::Unknown { bytes, .. } => octets_len(bytes),
    }
}

/// How many bytes data that are so long in full take at least: as many, where no name in them is compressed (RFC 3597
/// section 4).
pub(crate) fn least_data_len(rdata: &RData, full_len: u16) -> u16
    ensures { result ≤ full_len }
{
    match rdata {
        RData::NS(_) | RData::CNAME(_) | RData::PTR(_) | RData::MX(_) | RData::SOA(_) => 0,
        _ => full_len,
    }
}

fn write_u32(bytes: &mut Vec<u8>, number: u32) -> Result<(), AllocError>
    ensures { OnOk result (bytes.new.items ≡ bytes.old.items ++ to_be_bytes w32 number) }
{
    bytes.extend_from_slice(&number.to_be_bytes())
}

/// Octets behind their length of two bytes.
fn write_counted(bytes: &mut Vec<u8>, octets: &Octets) -> Result<(), AllocError>
    requires { length octets.now ≤ 65535 }
    ensures { OnOk result (bytes.new.items ≡ bytes.old.items ++
        (to_be_bytes w16 (length octets.now) ++ octets.now)) }
{
    write_u16(bytes, octets.len() as u16)?;
    bytes.extend_from_slice(octets.as_slice())
}

/// Preference and exchange (RFC 1035 section 3.3.9).
fn write_mx<'n>(
    bytes: &mut Vec<u8>,
    table: &mut CompressionTable<'n>,
    mx: &'n MX,
) -> Result<(), AllocError>
    requires { 12 ≤ length bytes.old.items }
    ensures data { OnOk result (WritesData bytes.old.items bytes.new.items table.old table.new (rdata_form.MX mx.now)) }
    ensures in_range { OnOk result (IsInRange (rdata_form.MX mx.now)) }
{
    write_u16(bytes, mx.preference)?;
    write_compressed_name(bytes, table, &mx.exchange)?;
    Ok(())
}

fn write_soa_numbers(bytes: &mut Vec<u8>, soa: &SOA) -> Result<(), AllocError>
    ensures bytes { OnOk result (bytes.new.items ≡ bytes.old.items ++ soa_numbers soa.now) }
    ensures in_range { OnOk result (IsInRange (rdata_form.SOA soa.now)) }
{
    write_u32(bytes, soa.serial)?;
    write_u32(bytes, soa.refresh)?;
    write_u32(bytes, soa.retry)?;
    write_u32(bytes, soa.expire)?;
    write_u32(bytes, soa.minimum)
}

/// Both names, and the numbers (RFC 1035 section 3.3.13).
fn write_soa<'n>(
    bytes: &mut Vec<u8>,
    table: &mut CompressionTable<'n>,
    soa: &'n SOA,
) -> Result<(), AllocError>
    requires { 12 ≤ length bytes.old.items }
    ensures data { OnOk result (WritesData bytes.old.items bytes.new.items table.old table.new
        (rdata_form.SOA soa.now)) }
    ensures in_range { OnOk result (IsInRange (rdata_form.SOA soa.now)) }
{
    write_compressed_name(bytes, table, &soa.mname)?;
    write_compressed_name(bytes, table, &soa.rname)?;
    write_soa_numbers(bytes, soa)?;
    Ok(())
}

fn write_strings(bytes: &mut Vec<u8>, strings: &[Octets]) -> Result<(), AllocError>
    requires { unwritable_reason (rdata_form.TXT strings.now) ≡ None }
    ensures bytes { OnOk result (bytes.new.items ≡ bytes.old.items ++ flat_map character_string strings.now) }
    ensures in_range { OnOk result (IsInRange (rdata_form.TXT strings.now)) }
{
    for text in strings {
        bytes.push(text.len() as u8)?;
        bytes.extend_from_slice(text.as_slice())?;
    }
    Ok(())
}

fn write_options(bytes: &mut Vec<u8>, options: &[EdnsOption]) -> Result<(), AllocError>
    requires { unwritable_reason (rdata_form.OPT options.now) ≡ None }
    ensures bytes { OnOk result (bytes.new.items ≡ bytes.old.items ++ flat_map option_octets options.now) }
    ensures in_range { OnOk result (IsInRange (rdata_form.OPT options.now)) }
{
    for option in options {
        write_u16(bytes, option.code)?;
        write_counted(bytes, &option.bytes)?;
    }
    Ok(())
}

fn write_signature_data(bytes: &mut Vec<u8>, signature: &TSIG) -> Result<(), AllocError>
    requires { unwritable_reason (rdata_form.TSIG signature.now) ≡ None }
    ensures bytes { OnOk result (bytes.new.items ≡ bytes.old.items ++ tsig_octets signature.now) }
    ensures in_range { OnOk result (IsInRange (rdata_form.TSIG signature.now)) }
{
    write_name(bytes, &signature.algorithm)?;
    write_u16(bytes, (signature.time >> 32) as u16)?;
    write_u32(bytes, (signature.time & 0xffff_ffff) as u32)?;
    write_u16(bytes, signature.fudge)?;
    write_counted(bytes, &signature.mac)?;
    write_u16(bytes, signature.oid)?;
    write_u16(bytes, signature.error)?;
    write_counted(bytes, &signature.other)
}

/// Puts the data of a record behind the bytes. Names in the data of the types of RFC 1035 are compressed, and no others
/// (RFC 3597 section 4); the name of a TSIG's algorithm never is (RFC 8945 section 4.2).
pub(crate) fn write_data<'n>(
    bytes: &mut Vec<u8>,
    table: &mut CompressionTable<'n>,
    rdata: &'n RData,
) -> Result<(), AllocError>
    requires header { 12 ≤ length bytes.old.items }
    requires form { unwritable_reason rdata.now ≡ None }
    requires names { HasNames rdata.now }
    requires kind { type_of rdata.now < 2 ^ 16 }
    ensures data { OnOk result (WritesData bytes.old.items bytes.new.items table.old table.new rdata.now) }
    ensures in_range { OnOk result (IsInRange rdata.now) }
{
    match rdata {
        RData::A(address) => bytes.extend_from_slice(&address.octets()),
        RData::AAAA(address) => bytes.extend_from_slice(&address.octets()),
        RData::NS(name) => write_compressed_name(bytes, table, name),
        RData::CNAME(name) => write_compressed_name(bytes, table, name),
        RData::PTR(name) => write_compressed_name(bytes, table, name),
        RData::MX(mx) => write_mx(bytes, table, mx),
        RData::SOA(soa) => write_soa(bytes, table, soa.get()),
        RData::TXT(strings) => write_strings(bytes, strings.as_slice()),
        RData::OPT(options) => write_options(bytes, options.as_slice()),
        RData::TSIG(signature) => write_signature_data(bytes, signature.get()),
        RData::NULL(octets) => bytes.extend_from_slice(octets.as_slice()),
        RData::Update0(_) => Ok(()),
        RData::Unknown { bytes: octets, .. } => bytes.extend_from_slice(octets.as_slice()),
    }
}
