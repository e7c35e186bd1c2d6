//! Data in the form that is one for all types (RFC 3597 section 5).

ghost use Rattle.std.specs.Prelude.{◌≡◌, ◌≢◌, ◌↔◌, ◌<◌, ◌≤◌, ◌^◌, ◌++◌, length, IsTrue, IfErr, IfOk, OnOk};
ghost use Rattle.std.specs.Int.{w16, w32, to_be_bytes};
ghost use Rattle.std.specs.List.{AllByRecursion, flat_map};
ghost use Rattle.wire_names.specs.serialize.layout.Bytes.{AreBytes};
ghost use Rattle.wire_messages.specs.rr.RecordData.{IsOption, character_string, option_octets, soa_numbers, type_of};
ghost use Rattle.wire_messages.specs.serialize.layout.RecordLayout.{IsFormed};
ghost use Rattle.wire_messages.specs.serialize.writing.FullForm.{data_octets, name_octets, soa_octets, tsig_octets};
ghost use Rattle.wire_messages.specs.serialize.writing.RecordSize.{data_len};
ghost use Rattle.wire_messages.specs.declared.rr.rdata.RData.{RData};
ghost use Rattle.text_words.specs.declared.error.TextError.TheVariants.{Memory};
ghost use Rattle.record_text.specs.RecordText.{AreReadOf, HasNone, IsGenericData, root_record};

use crate::data::rest::hex_bytes;
use hickory_wire::record_laws::full_forms;
use hickory_wire::{BinDecoder, DecodeError, EdnsOption, MX, Octets, RData, RecordType, SOA, TSIG};
use std::alloc::{AllocError, Global};
use text_words::{TextError, TextFault, Word};
use wire_messages::serialize::writing::full_form::{write_name, write_u16};

/// Puts a number of 32 bits behind bytes, the high byte first.
fn put_u32(number: u32, bytes: &mut Vec<u8>) -> Result<(), AllocError>
    ensures { OnOk result (bytes.new.items ≡ bytes.old.items ++ to_be_bytes w32 number) }
{
    bytes.extend_from_slice(&number.to_be_bytes())
}

/// How many bytes there are.
pub fn byte_count(octets: &[u8]) -> usize
    ensures count { result ≡ length octets.now }
    ensures bytes { AreBytes octets.now }
{
    octets.len()
}

/// Puts octets behind bytes, and before them their length of 16 bits.
fn put_counted(octets: &Octets, bytes: &mut Vec<u8>) -> Result<(), AllocError>
    requires { length octets.now < 2 ^ 16 }
    ensures { OnOk result (bytes.new.items ≡ bytes.old.items ++ (to_be_bytes w16 (length octets.now) ++ octets.now)) }
{
    write_u16(bytes, octets.len() as u16)?;
    bytes.extend_from_slice(octets.as_slice())
}

/// Puts character strings behind bytes (RFC 1035 section 3.3.14).
fn put_strings(strings: &[Octets], bytes: &mut Vec<u8>) -> Result<(), AllocError>
    requires { AllByRecursion (λ text. length text < 256) strings.now }
    ensures { OnOk result (bytes.new.items ≡ bytes.old.items ++ flat_map character_string strings.now) }
{
    for text in strings {
        bytes.push(text.len() as u8)?;
        bytes.extend_from_slice(text.as_slice())?;
    }
    Ok(())
}

/// Puts options behind bytes (RFC 6891 section 6.1.2).
fn put_options(options: &[EdnsOption], bytes: &mut Vec<u8>) -> Result<(), AllocError>
    requires { AllByRecursion IsOption options.now }
    ensures { OnOk result (bytes.new.items ≡ bytes.old.items ++ flat_map option_octets options.now) }
{
    for option in options {
        write_u16(bytes, option.code)?;
        put_counted(&option.bytes, bytes)?;
    }
    Ok(())
}

/// Puts a mail exchange behind bytes (RFC 1035 section 3.3.9).
fn put_mx(mx: &MX, bytes: &mut Vec<u8>) -> Result<(), AllocError>
    ensures { OnOk result (bytes.new.items ≡ bytes.old.items ++
        (to_be_bytes w16 mx.now.preference ++ name_octets mx.now.exchange.labels)) }
{
    write_u16(bytes, mx.preference)?;
    write_name(bytes, &mx.exchange)
}

/// Puts the numbers of the start of a zone behind bytes.
fn put_soa_numbers(soa: &SOA, bytes: &mut Vec<u8>) -> Result<(), AllocError>
    ensures { OnOk result (bytes.new.items ≡ bytes.old.items ++ soa_numbers soa.now) }
{
    put_u32(soa.serial, bytes)?;
    put_u32(soa.refresh, bytes)?;
    put_u32(soa.retry, bytes)?;
    put_u32(soa.expire, bytes)?;
    put_u32(soa.minimum, bytes)?;
    Ok(())
}

/// Puts the start of a zone behind bytes (RFC 1035 section 3.3.13).
fn put_soa(soa: &SOA, bytes: &mut Vec<u8>) -> Result<(), AllocError>
    ensures { OnOk result (bytes.new.items ≡ bytes.old.items ++ soa_octets soa.now) }
{
    write_name(bytes, &soa.mname)?;
    write_name(bytes, &soa.rname)?;
    put_soa_numbers(soa, bytes)
}

/// Puts a transaction signature behind bytes (RFC 8945 section 4.2).
fn put_signature(signature: &TSIG, bytes: &mut Vec<u8>) -> Result<(), AllocError>
    requires time { signature.now.time < 2 ^ 48 }
    requires mac { length signature.now.mac < 2 ^ 16 }
    requires other { length signature.now.other < 2 ^ 16 }
    ensures { OnOk result (bytes.new.items ≡ bytes.old.items ++ tsig_octets signature.now) }
{
    write_name(bytes, &signature.algorithm)?;
    write_u16(bytes, (signature.time >> 32) as u16)?;
    put_u32((signature.time & 0xffff_ffff) as u32, bytes)?;
    write_u16(bytes, signature.fudge)?;
    put_counted(&signature.mac, bytes)?;
    write_u16(bytes, signature.oid)?;
    write_u16(bytes, signature.error)?;
    put_counted(&signature.other, bytes)
}

/// Puts data behind bytes as they stand on the wire, each name in full (RFC 1035 section 3.3).
pub fn put_data(rdata: &RData, bytes: &mut Vec<u8>) -> Result<(), AllocError>
    requires { IsFormed rdata.now }
    ensures { OnOk result (bytes.new.items ≡ bytes.old.items ++ data_octets rdata.now) }
{
    match rdata {
        RData::A(address) => bytes.extend_from_slice(&address.octets()),
        RData::AAAA(address) => bytes.extend_from_slice(&address.octets()),
        RData::NS(name) => write_name(bytes, name),
        RData::CNAME(name) => write_name(bytes, name),
        RData::PTR(name) => write_name(bytes, name),
        RData::MX(mx) => put_mx(mx, bytes),
        RData::SOA(soa) => put_soa(soa.get(), bytes),
        RData::TXT(strings) => put_strings(strings.as_slice(), bytes),
        RData::OPT(options) => put_options(options.as_slice(), bytes),
        RData::TSIG(signature) => put_signature(signature.get(), bytes),
        RData::NULL(octets) => bytes.extend_from_slice(octets.as_slice()),
        RData::Update0(_) => Ok(()),
        RData::Unknown { bytes: octets, .. } => bytes.extend_from_slice(octets.as_slice()),
    }
}

/// The record of the root with these data, in bytes (RFC 1035 section 4.1.3).
fn record_bytes(
    alloc: Global,
    record_type: RecordType,
    len: u16,
    data: &[u8],
) -> Result<Vec<u8>, AllocError>
    requires { len ≡ length «data».now }
    ensures { IfOk result (λ bytes. bytes.items ≡ root_record record_type «data».now) }
{
    let mut bytes = Vec::new(alloc);
    bytes.push(0)?;
    bytes.extend_from_slice(&record_type.value().to_be_bytes())?;
    bytes.extend_from_slice(&[0, 1, 0, 0, 0, 0])?;
    bytes.extend_from_slice(&len.to_be_bytes())?;
    bytes.extend_from_slice(data)?;
    Ok(bytes)
}

/// Whether data are of this type, and take just these bytes where no name in them is compressed.
fn is_form(
    alloc: Global,
    rdata: &RData,
    record_type: RecordType,
    data: &[u8],
) -> Result<bool, AllocError>
    requires { IsFormed rdata.now }
    ensures { IfOk result (λ is. IsTrue is ↔
        ((type_of rdata.now ≡ record_type) × (data_octets rdata.now ≡ «data».now))) }
{
    if rdata.record_type() != record_type {
        return Ok(false);
    }
    let mut full = Vec::new(alloc);
    put_data(rdata, &mut full)?;
    Ok(full.as_slice() == data)
}

/// The data that are read of these bytes as a record has them.
fn data_read(
    alloc: Global,
    record_type: RecordType,
    len: u16,
    data: &[u8],
    place: &Word<'_>,
) -> Result<RData, TextError>
    requires { len ≡ length «data».now }
    ensures read { IfOk result (AreReadOf record_type «data».now) }
    ensures formed { IfOk result IsFormed }
    ensures only { IfOk result (λ rdata. (other : RData) → AreReadOf record_type «data».now other → other ≡ rdata) }
    ensures refused { IfErr result (λ e. e ≢ Memory → HasNone (AreReadOf record_type «data».now)) }
{
    let bytes = record_bytes(alloc, record_type, len, data)?;
    match BinDecoder::new(bytes.as_slice()).read_record(alloc) {
        Ok(record) => Ok(record.rdata),
        Err(DecodeError::Memory) => Err(TextError::Memory),
        Err(_) => Err(place.fault(TextFault::WrongData)),
    }
}

/// The data of a type that these bytes are, without compression.
fn data_of_bytes(
    alloc: Global,
    record_type: RecordType,
    len: u16,
    data: &[u8],
    place: &Word<'_>,
) -> Result<RData, TextError>
    requires { len ≡ length «data».now }
    ensures form { IfOk result (λ rdata. type_of rdata ≡ record_type) }
    ensures read { IfOk result (AreReadOf record_type «data».now) }
    ensures in_full { IfOk result (λ rdata. data_octets rdata ≡ «data».now) }
    ensures refused { IfErr result
        (λ e. e ≢ Memory → HasNone (λ rdata. AreReadOf record_type «data».now rdata × (type_of rdata ≡ record_type) ×
        (data_octets rdata ≡ «data».now))) }
{
    let rdata = data_read(alloc, record_type, len, data, place)?;
    if is_form(alloc, &rdata, record_type, data)? {
        return Ok(rdata);
    }
    Err(place.fault(TextFault::WrongData))
}

/// Reads what stands behind `\#`: a length, and hexadecimal digits.
pub(crate) fn read_generic(
    alloc: Global,
    record_type: RecordType,
    size: &Word<'_>,
    digits: &[Word<'_>],
) -> Result<RData, TextError>
    ensures form { IfOk result (λ rdata. type_of rdata ≡ record_type) }
    ensures fits { IfOk result (λ rdata. data_len rdata ≤ 65535) }
    ensures spelled { IfOk result (IsGenericData record_type size.now digits.now) }
    ensures refused { IfErr result (λ e. e ≢ Memory → HasNone (IsGenericData record_type size.now digits.now)) }
{
    // Data have as many bytes as they take in full.
    full_forms();
    let Ok(len) = u16::try_from(size.number()?) else {
        return Err(size.fault(TextFault::NumberOutOfRange));
    };
    let bytes = hex_bytes(alloc, digits)?;
    if bytes.len() != usize::from(len) {
        return Err(size.fault(TextFault::WrongLength));
    }
    data_of_bytes(alloc, record_type, len, bytes.as_slice(), size)
}
