//! The data of records, printed.

ghost use Rattle.std.specs.Prelude.{◌≡◌, [], ◌++◌, ◌<◌, ◌^◌, length, string_bytes, IfErr, IfOk, IfSome, IsTrue, IsFalse, OnOk};
ghost use Rattle.std.specs.List.{AllByRecursion};
ghost use Rattle.wire_names.specs.rr.domain.DomainName.{AreLabels};
ghost use Rattle.wire_messages.specs.rr.RecordData.{IsOption};
ghost use Rattle.wire_messages.specs.serialize.layout.NameLayout.{IsFullyQualified};
ghost use Rattle.wire_messages.specs.serialize.layout.RecordLayout.{IsFormed};
ghost use Rattle.wire_messages.specs.serialize.writing.FullForm.{HasNames};
ghost use Rattle.wire_messages.specs.serialize.writing.RecordSize.{data_len};
ghost use Rattle.wire_messages.specs.declared.rr.rdata.RData.TheVariants.{MX as MxData};
ghost use Rattle.wire_messages.specs.declared.rr.rdata.RData.TheVariants.{SOA as SoaData};
ghost use Rattle.wire_messages.specs.declared.rr.rdata.RData.TheVariants.{TSIG as TsigData};
ghost use Rattle.wire_messages.specs.declared.rr.rdata.RData.TheVariants.{TXT as TxtData};
ghost use Rattle.text_print.specs.declared.error.PrintError.TheVariants.{DataTooLong, Memory, WrongForm};
ghost use Rattle.text_print.specs.PrintedData.{ArePrintedData, HasNoForm, IsTextOf, PutsText, PutsWords};

use crate::error::PrintError;
use crate::fields::put_fields;
use crate::generic::put_generic;
use crate::rest::put_rest;
use hickory_wire::record_laws::{full_forms, reading_back};
use hickory_wire::{EdnsOption, MX, Name, Octets, RData, RecordType, SOA, TSIG};
use record_text::{byte_count, put_data, row_of};
use std::alloc::{AllocError, Global};
use wire_messages::serialize::writing::full_form::full_name_len;

/// The most bytes that data have (RFC 1035 section 3.2.1).
const MAX_DATA_LEN: usize = 65_535;

/// Whether a name is fully qualified.
fn is_whole(name: &Name) -> bool
    ensures whole { IsTrue result → IsFullyQualified name.now }
    ensures other { IsFalse result → ¬ (IsFullyQualified name.now) }
    ensures labels { AreLabels name.now.labels }
{
    let _len = full_name_len(name);
    name.is_fqdn()
}

/// Whether there are strings, and none has more bytes than a character string (RFC 1035 section 3.3).
fn are_some_strings(strings: &[Octets]) -> bool
    ensures formed { IsTrue result → IsFormed (TxtData strings.now) }
    ensures other { IsFalse result → ¬ (IsFormed (TxtData strings.now)) }
{
    if strings.is_empty() {
        return false;
    }
    for text in strings {
        if text.len() > 255 {
            return false;
        }
    }
    true
}

/// Whether the length of each option has 16 bits (RFC 6891 section 6.1.2).
fn are_options(options: &[EdnsOption]) -> bool
    ensures short { IsTrue result → AllByRecursion IsOption options.now }
    ensures long { IsFalse result → ¬ (AllByRecursion IsOption options.now) }
{
    for option in options {
        let _code = option.code;
        if option.bytes.len() > MAX_DATA_LEN {
            return false;
        }
    }
    true
}

/// Whether the fields of a signature hold its parts (RFC 8945 section 4.2).
fn is_signature(signature: &TSIG) -> bool
    ensures formed { IsTrue result → IsFormed (TsigData signature.now) }
    ensures other { IsFalse result → ¬ (IsFormed (TsigData signature.now)) }
    ensures labels { AreLabels signature.now.algorithm.labels }
{
    let is_algorithm_whole = is_whole(&signature.algorithm);
    let _fudge = signature.fudge;
    let _oid = signature.oid;
    let _error = signature.error;
    if signature.time >= 1 << 48 {
        return false;
    }
    if signature.mac.len() > MAX_DATA_LEN {
        return false;
    }
    if signature.other.len() > MAX_DATA_LEN {
        return false;
    }
    is_algorithm_whole
}

/// Whether both names of the start of a zone are fully qualified.
fn is_start(soa: &SOA) -> bool
    ensures formed { IsTrue result → IsFormed (SoaData soa.now) }
    ensures other { IsFalse result → ¬ (IsFormed (SoaData soa.now)) }
    ensures names { HasNames (SoaData soa.now) }
{
    let _serial = soa.serial;
    let _refresh = soa.refresh;
    let _retry = soa.retry;
    let _expire = soa.expire;
    let _minimum = soa.minimum;
    let is_mname_whole = is_whole(&soa.mname);
    let is_rname_whole = is_whole(&soa.rname);
    if !is_mname_whole {
        return false;
    }
    is_rname_whole
}

/// Whether the host of a mail exchange is fully qualified.
fn is_exchange(mx: &MX) -> bool
    ensures formed { IsTrue result → IsFormed (MxData mx.now) }
    ensures other { IsFalse result → ¬ (IsFormed (MxData mx.now)) }
    ensures names { HasNames (MxData mx.now) }
{
    let _preference = mx.preference;
    is_whole(&mx.exchange)
}

/// Whether data of a type have a form of their own in `RData`, so that none are read as bytes alone.
fn has_own_form(code: u16) -> bool
    ensures other { IsFalse result → HasNoForm code }
    ensures own { IsTrue result → ¬ (HasNoForm code) }
{
    matches!(code, 1 | 2 | 5 | 6 | 10 | 12 | 15 | 16 | 28 | 41 | 250)
}

/// Whether data are such as a record is read with: names are fully qualified, fields hold their numbers and lengths,
/// and bytes alone are data only of types that have no other form.
pub fn is_formed(rdata: &RData) -> bool
    ensures formed { IsTrue result → IsFormed rdata.now }
    ensures other { IsFalse result → ¬ (IsFormed rdata.now) }
    ensures names { HasNames rdata.now }
{
    match rdata {
        RData::A(address) => address.octets().len() == 4,
        RData::AAAA(address) => byte_count(&address.octets()) == 16,
        RData::NS(name) => is_whole(name),
        RData::CNAME(name) => is_whole(name),
        RData::PTR(name) => is_whole(name),
        RData::MX(mx) => is_exchange(mx),
        RData::SOA(soa) => is_start(soa.get()),
        RData::TXT(strings) => are_some_strings(strings.as_slice()),
        RData::OPT(options) => are_options(options.as_slice()),
        RData::TSIG(signature) => is_signature(signature.get()),
        RData::NULL(octets) => octets.len() > 0,
        RData::Update0(code) => !matches!(code.value(), 41 | 250),
        RData::Unknown { code, bytes } => {
            let number = code.value();
            bytes.len() > 0 && !has_own_form(number)
        }
    }
}

/// The text of data in the form of their type, where the table of types has one that is printed and they are in it.
fn form_text(
    alloc: Global,
    record_type: RecordType,
    data: &[u8],
) -> Result<Option<String>, AllocError>
    ensures { IfOk result (λ text.
        IfSome text (λ it. PutsWords (λ printed. ArePrintedData record_type printed «data».now) [] (string_bytes it))) }
{
    let Some(row) = row_of(record_type.value()) else {
        return Ok(None);
    };
    let mut text = String::new(alloc);
    let Some(len) = put_fields(row.fields, data, &mut text)? else {
        return Ok(None);
    };
    if put_rest(alloc, row.rest, &data[len..], &mut text)? {
        Ok(Some(text))
    } else {
        Ok(None)
    }
}

/// Puts the bytes of data behind text, as words of their type.
fn put_octets(
    alloc: Global,
    record_type: RecordType,
    data: &[u8],
    out: &mut String,
) -> Result<(), AllocError>
    requires { length «data».now < 2 ^ 16 }
    ensures { OnOk result (PutsWords (λ printed. ArePrintedData record_type printed «data».now) (string_bytes out.old)
        (string_bytes out.new)) }
{
    match form_text(alloc, record_type, data)? {
        Some(text) => out.push_str(text.as_str()),
        None => put_generic(alloc, data, out),
    }
}

/// Puts the data of a record behind text, a space before each word (RFC 1035 section 5.1): in the form of their type,
/// or in the form that is one for all types, `\#`, their length and hexadecimal digits (RFC 3597 section 5), where the
/// type has none that is printed or the data are not in it.
///
/// Printed are forms of numbers, times, names, character strings, addresses and types, and behind these of hexadecimal
/// digits or base 64; moments are their seconds since 1970. In the form that is one for all stand data with a salt, a
/// hash, sets of types, EUI-48 and EUI-64, identifiers and locators of nodes, NSAP addresses, service parameters,
/// ports, address prefixes, gateways, relays, the identity of a host, or a location.
///
/// Behind whatever text they stand, the words read as these data, with any origin, in a line and in a zone file, and as
/// no other data of the type but such of the same octets. Data that no record is read with are refused, and data of
/// more than 65,535 bytes. Behind an error, some text may have been put.
pub fn put_record_data(alloc: Global, rdata: &RData, out: &mut String) -> Result<(), PrintError>
    ensures put { OnOk result (PutsText (IsTextOf rdata.now) (string_bytes out.old) (string_bytes out.new)) }
    ensures wrong { IfErr result (λ e. e ≡ WrongForm → ¬ (IsFormed rdata.now)) }
    ensures long { IfErr result (λ e. e ≡ DataTooLong → 65535 < data_len rdata.now) }
{
    full_forms();
    reading_back();
    if !is_formed(rdata) {
        return Err(PrintError::WrongForm);
    }
    let mut octets = Vec::new(alloc);
    put_data(rdata, &mut octets)?;
    if octets.len() > MAX_DATA_LEN {
        return Err(PrintError::DataTooLong);
    }
    put_octets(alloc, rdata.record_type(), octets.as_slice(), out)?;
    Ok(())
}
