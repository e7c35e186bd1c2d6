//! Where among the records of a set each stands, by its data.
//!
//! No clauses: `import` writes requests only if they make the other zone of a copy.

use hickory_wire::{MX, Name, Octets, RData, Record};
use std::alloc::{AllocError, Global};
use std::collections::HashMap;

/// The places of the records of one name and type, by bytes that the same data have in common and other data have not.
pub(crate) type Places = HashMap<Vec<u8>, usize>;

/// Puts the labels of a name last, in lower case.
fn push_name(bytes: &mut Vec<u8>, name: &Name) -> Result<(), AllocError> {
    for byte in name.as_wire() {
        bytes.push(byte.to_ascii_lowercase())?;
    }
    Ok(())
}

/// Puts a mail exchange last.
fn push_exchange(bytes: &mut Vec<u8>, mx: &MX) -> Result<(), AllocError> {
    bytes.extend_from_slice(&mx.preference.to_be_bytes())?;
    push_name(bytes, &mx.exchange)
}

/// Puts character strings last, each behind its length.
fn push_strings(bytes: &mut Vec<u8>, strings: &[Octets]) -> Result<(), AllocError> {
    for string in strings {
        bytes.extend_from_slice(&string.len().to_be_bytes())?;
        bytes.extend_from_slice(string.as_slice())?;
    }
    Ok(())
}

/// The bytes by which data are found among those of one name and type. Of an SOA there are none: it stands alone.
fn bytes_of(alloc: Global, rdata: &RData) -> Result<Vec<u8>, AllocError> {
    let mut bytes = Vec::new(alloc);
    match rdata {
        RData::A(address) => bytes.extend_from_slice(&address.octets())?,
        RData::AAAA(address) => bytes.extend_from_slice(&address.octets())?,
        RData::NS(name) | RData::CNAME(name) | RData::PTR(name) => push_name(&mut bytes, name)?,
        RData::MX(mx) => push_exchange(&mut bytes, mx)?,
        RData::TXT(strings) => push_strings(&mut bytes, strings.as_slice())?,
        RData::NULL(data) | RData::Unknown { bytes: data, .. } => {
            bytes.extend_from_slice(data.as_slice())?
        }
        RData::SOA(_) | RData::OPT(_) | RData::TSIG(_) | RData::Update0(_) => {}
    }
    Ok(bytes)
}

/// Where each of these records stands.
pub(crate) fn places_of(alloc: Global, records: &[Record]) -> Result<Places, AllocError> {
    let mut places = HashMap::new(alloc);
    let mut place = 0usize;
    for record in records {
        let key = bytes_of(alloc, &record.rdata)?;
        places.insert(key, place)?;
        place = place.saturating_add(1);
    }
    Ok(places)
}

/// Where the record stands that is the same as this one, if one does.
pub(crate) fn place_of(
    alloc: Global,
    places: &Places,
    record: &Record,
) -> Result<Option<usize>, AllocError> {
    let key = bytes_of(alloc, &record.rdata)?;
    Ok(places.get(&key).copied())
}
