//! Types, classes, kinds of requests and response codes as text: mnemonics where there are some, and else numbers.

ghost use Rattle.std.specs.Prelude.{◌≡◌, ◌==◌, find, map, MatchOption, All, Any};
ghost use Rattle.std.specs.Option.{option_copied, option_map};
ghost use Rattle.std.specs.Char.{to_ascii_lowercase};

use crate::op::op_code::OpCode;
use crate::op::response_code::ResponseCode;
use crate::rr::dns_class::DNSClass;
use crate::rr::record_type::RecordType;
use std::fmt;
use std::str::FromStr;
use thiserror::Error;

/// The text is neither a mnemonic nor the form for a number.
#[derive(Clone, Copy, Debug, PartialEq, Eq, Error)]
#[error("neither a mnemonic nor a number")]
pub struct CodeTextError;

/// The mnemonics of record types (RFC 1035 sections 3.2.2 and 3.2.3, IANA's registry).
static TYPES: [(u16, &str); 26] = [
    (1, "A"),
    (2, "NS"),
    (5, "CNAME"),
    (6, "SOA"),
    (10, "NULL"),
    (12, "PTR"),
    (15, "MX"),
    (16, "TXT"),
    (24, "SIG"),
    (25, "KEY"),
    (28, "AAAA"),
    (41, "OPT"),
    (43, "DS"),
    (46, "RRSIG"),
    (47, "NSEC"),
    (48, "DNSKEY"),
    (50, "NSEC3"),
    (51, "NSEC3PARAM"),
    (59, "CDS"),
    (60, "CDNSKEY"),
    (250, "TSIG"),
    (251, "IXFR"),
    (252, "AXFR"),
    (253, "MAILB"),
    (254, "MAILA"),
    (255, "ANY"),
];

/// The mnemonics of classes (RFC 1035 section 3.2.4, RFC 2136 section 1.3).
static CLASSES: [(u16, &str); 5] = [(1, "IN"), (3, "CH"), (4, "HS"), (254, "NONE"), (255, "ANY")];

/// The mnemonics of kinds of requests (RFC 1035 section 4.1.1, RFC 1996, RFC 2136).
static OP_CODES: [(u16, &str); 5] = [
    (0, "QUERY"),
    (1, "IQUERY"),
    (2, "STATUS"),
    (4, "NOTIFY"),
    (5, "UPDATE"),
];

/// The mnemonics of response codes (RFC 1035 section 4.1.1, RFC 2136 section 2.2, RFC 6891 section 9).
static RESPONSE_CODES: [(u16, &str); 12] = [
    (0, "NOERROR"),
    (1, "FORMERR"),
    (2, "SERVFAIL"),
    (3, "NXDOMAIN"),
    (4, "NOTIMP"),
    (5, "REFUSED"),
    (6, "YXDOMAIN"),
    (7, "YXRRSET"),
    (8, "NXRRSET"),
    (9, "NOTAUTH"),
    (10, "NOTZONE"),
    (16, "BADVERS"),
];

/// The decimal number of these digits, where it has 16 bits.
fn decimal(digits: &[u8]) -> Option<u16> {
    if digits.is_empty() {
        return None;
    }
    let mut value = 0u16;
    for digit in digits {
        if !digit.is_ascii_digit() {
            return None;
        }
        value = value
            .checked_mul(10)?
            .checked_add(u16::from(*digit - b'0'))?;
    }
    Some(value)
}

/// The number behind a prefix, the letters of which may have any case.
fn number_behind(prefix: &[u8], text: &[u8]) -> Option<u16> {
    let (front, digits) = text.split_at_checked(prefix.len())?;
    if front.eq_ignore_ascii_case(prefix) {
        decimal(digits)
    } else {
        None
    }
}

/// The mnemonic of a number.
fn text_of(mnemonics: &[(u16, &'static str)], number: u16) -> Option<&'static str>
    ensures { option_copied result ≡ option_map (λ e. e.1.now) (find (λ e. e.0 == number) mnemonics.now) }
{
    let (_, text) = mnemonics.iter().find(|entry| entry.0 == number)?;
    Some(*text)
}

/// The number of a mnemonic, the letters of which may have any case.
fn number_of(mnemonics: &[(u16, &'static str)], text: &str) -> Option<u16>
    ensures { MatchOption result
        (All (λ e. ¬ (map to_ascii_lowercase e.1.now ≡ map to_ascii_lowercase text.now)) mnemonics.now)
        (λ number. Any (λ e. (e.0 ≡ number) × (map to_ascii_lowercase e.1.now ≡ map to_ascii_lowercase text.now))
        mnemonics.now) }
{
    let (number, _) = mnemonics
        .iter()
        .find(|entry| entry.1.eq_ignore_ascii_case(text))?;
    Some(*number)
}

/// The number that a text stands for: a mnemonic, or a decimal number behind a prefix.
fn read_code(
    mnemonics: &[(u16, &'static str)],
    prefix: &[u8],
    text: &str,
) -> Result<u16, CodeTextError> {
    number_of(mnemonics, text)
        .or_else(|| number_behind(prefix, text.as_bytes()))
        .ok_or(CodeTextError)
}

/// The mnemonic, or `TYPE` and the number (RFC 3597 section 5).
impl fmt::Display for RecordType {
    fn fmt<W: fmt::Write>(&self, f: &mut fmt::Formatter<W>) -> fmt::Result {
        match text_of(&TYPES, self.value()) {
            Some(text) => f.write_str(text),
            None => write!(f, "TYPE{}", self.value()),
        }
    }
}

/// Reads a mnemonic, in any letter case, or `TYPE` and a number of 16 bits (RFC 3597 section 5).
impl FromStr for RecordType {
    type Err = CodeTextError;

    fn from_str(text: &str) -> Result<RecordType, CodeTextError> {
        Ok(RecordType::new(read_code(&TYPES, b"TYPE", text)?))
    }
}

/// The mnemonic, or `CLASS` and the number (RFC 3597 section 5).
impl fmt::Display for DNSClass {
    fn fmt<W: fmt::Write>(&self, f: &mut fmt::Formatter<W>) -> fmt::Result {
        match text_of(&CLASSES, self.value()) {
            Some(text) => f.write_str(text),
            None => write!(f, "CLASS{}", self.value()),
        }
    }
}

/// Reads a mnemonic, in any letter case, or `CLASS` and a number of 16 bits (RFC 3597 section 5).
impl FromStr for DNSClass {
    type Err = CodeTextError;

    fn from_str(text: &str) -> Result<DNSClass, CodeTextError> {
        Ok(DNSClass::new(read_code(&CLASSES, b"CLASS", text)?))
    }
}

/// The mnemonic, or `RESERVED` and the number.
impl fmt::Display for OpCode {
    fn fmt<W: fmt::Write>(&self, f: &mut fmt::Formatter<W>) -> fmt::Result {
        match text_of(&OP_CODES, u16::from(self.value())) {
            Some(text) => f.write_str(text),
            None => write!(f, "RESERVED{}", self.value()),
        }
    }
}

/// Reads a mnemonic, in any letter case, or `RESERVED` and a number below 16.
impl FromStr for OpCode {
    type Err = CodeTextError;

    fn from_str(text: &str) -> Result<OpCode, CodeTextError> {
        let number = read_code(&OP_CODES, b"RESERVED", text)?;
        if number < 16 {
            Ok(OpCode::new(number as u8))
        } else {
            Err(CodeTextError)
        }
    }
}

/// The mnemonic, or `RCODE` and the number.
impl fmt::Display for ResponseCode {
    fn fmt<W: fmt::Write>(&self, f: &mut fmt::Formatter<W>) -> fmt::Result {
        match text_of(&RESPONSE_CODES, self.value()) {
            Some(text) => f.write_str(text),
            None => write!(f, "RCODE{}", self.value()),
        }
    }
}

/// Reads a mnemonic, in any letter case, or `RCODE` and a number below 4096.
impl FromStr for ResponseCode {
    type Err = CodeTextError;

    fn from_str(text: &str) -> Result<ResponseCode, CodeTextError> {
        let number = read_code(&RESPONSE_CODES, b"RCODE", text)?;
        if number < 4096 {
            Ok(ResponseCode::new(number))
        } else {
            Err(CodeTextError)
        }
    }
}
