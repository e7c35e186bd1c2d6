//! The data of records as text.

use crate::op::edns::EdnsOption;
use crate::rr::rdata::{MX, RData, SOA};
use crate::rr::tsig::TSIG;
use std::fmt;
use wire_names::rr::domain::name::Name;
use wire_names::rr::domain::name_display::TextBytes;
use wire_names::values::items::Items;
use wire_names::values::octets::Octets;

/// Bytes as hexadecimal digits, two for each.
#[derive(Clone, Copy)]
struct Hex<'a>(&'a [u8]);

impl fmt::Display for Hex<'_> {
    fn fmt<W: fmt::Write>(&self, f: &mut fmt::Formatter<W>) -> fmt::Result {
        for byte in self.0 {
            write!(f, "{:02X}", *byte)?;
        }
        Ok(())
    }
}

/// The preference and the name of the host (RFC 1035 section 3.3.9).
impl fmt::Display for MX {
    fn fmt<W: fmt::Write>(&self, f: &mut fmt::Formatter<W>) -> fmt::Result {
        write!(f, "{} {}", self.preference, &self.exchange)
    }
}

/// The seven fields in their order (RFC 1035 section 3.3.13).
impl fmt::Display for SOA {
    fn fmt<W: fmt::Write>(&self, f: &mut fmt::Formatter<W>) -> fmt::Result {
        write!(f, "{} {} {}", &self.mname, &self.rname, self.serial)?;
        write!(f, " {} {}", self.refresh, self.retry)?;
        write!(f, " {} {}", self.expire, self.minimum)
    }
}

/// Character strings in quotes.
#[derive(Clone, Copy)]
struct Strings<'a>(&'a [Octets]);

impl fmt::Display for Strings<'_> {
    fn fmt<W: fmt::Write>(&self, f: &mut fmt::Formatter<W>) -> fmt::Result {
        let mut separator = "\"";
        for string in self.0 {
            let text = TextBytes {
                bytes: string.as_slice(),
                quoted: true,
            };
            write!(f, "{separator}{text}\"")?;
            separator = " \"";
        }
        Ok(())
    }
}

/// Bytes in the form of data of any type (RFC 3597 section 5).
fn write_generic<W: fmt::Write>(f: &mut fmt::Formatter<W>, bytes: &[u8]) -> fmt::Result {
    if bytes.is_empty() {
        return f.write_str("\\# 0");
    }
    write!(f, "\\# {} {}", bytes.len(), Hex(bytes))
}

/// How many bytes options take in an OPT record. A sum past 64 bits, which no memory holds, is cut there.
fn options_len(options: &[EdnsOption]) -> usize {
    let mut len = 0usize;
    for option in options {
        len = len.saturating_add(4).saturating_add(option.bytes.len());
    }
    len
}

/// Options in the form of data of any type.
fn write_options<W: fmt::Write>(
    f: &mut fmt::Formatter<W>,
    options: &Items<EdnsOption>,
) -> fmt::Result {
    write!(f, "\\# {}", options_len(options.as_slice()))?;
    for option in options.as_slice() {
        write!(f, " {:04X}{:04X}", option.code, option.bytes.len())?;
        f.write(Hex(option.bytes.as_slice()))?;
    }
    Ok(())
}

/// A name in wire form as hexadecimal digits.
fn write_wire<W: fmt::Write>(f: &mut fmt::Formatter<W>, name: &Name) -> fmt::Result {
    write!(f, "{}00", Hex(name.as_wire()))
}

/// A signature in the form of data of any type (RFC 8945 section 4.2).
fn write_tsig<W: fmt::Write>(f: &mut fmt::Formatter<W>, signature: &TSIG) -> fmt::Result {
    let len = signature
        .algorithm
        .as_wire()
        .len()
        .saturating_add(17)
        .saturating_add(signature.mac.len())
        .saturating_add(signature.other.len());
    write!(f, "\\# {len} ")?;
    write_wire(f, &signature.algorithm)?;
    write!(f, "{:012X}{:04X}", signature.time, signature.fudge)?;
    write!(f, "{:04X}{}", signature.mac.len(), &signature.mac)?;
    write!(f, "{:04X}{:04X}", signature.oid, signature.error)?;
    write!(f, "{:04X}{}", signature.other.len(), &signature.other)
}

/// The data as the text of a zone has them (RFC 1035 section 5.1): addresses, names and numbers, and character strings
/// in quotes.
///
/// Data of the other types, and of OPT, TSIG and NULL, are `\#`, their length and hexadecimal digits (RFC 3597 section
/// 5); data of no bytes are `\# 0`.
impl fmt::Display for RData {
    fn fmt<W: fmt::Write>(&self, f: &mut fmt::Formatter<W>) -> fmt::Result {
        match self {
            RData::A(address) => f.write(address),
            RData::AAAA(address) => f.write(address),
            RData::NS(name) | RData::CNAME(name) | RData::PTR(name) => f.write(name),
            RData::MX(exchange) => f.write(exchange),
            RData::SOA(soa) => f.write(soa.get()),
            RData::TXT(strings) if strings.len() == 0 => f.write_str("\\# 0"),
            RData::TXT(strings) => f.write(Strings(strings.as_slice())),
            RData::OPT(options) => write_options(f, options),
            RData::TSIG(signature) => write_tsig(f, signature.get()),
            RData::NULL(bytes) => write_generic(f, bytes.as_slice()),
            RData::Update0(_) => f.write_str("\\# 0"),
            RData::Unknown { bytes, .. } => write_generic(f, bytes.as_slice()),
        }
    }
}
