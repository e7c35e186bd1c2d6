//! The data of resource records.

ghost use Rattle.std.specs.Prelude.{◌≡◌, IfOk};

use crate::op::edns::EdnsOption;
use crate::rr::record_type::RecordType;
use crate::rr::tsig::TSIG;
use std::alloc::AllocError;
use std::net::{Ipv4Addr, Ipv6Addr};
use wire_names::rr::domain::name::Name;
use wire_names::values::boxed::Boxed;
use wire_names::values::items::Items;
use wire_names::values::octets::Octets;

/// The start of a zone of authority (RFC 1035 section 3.3.13).
#[derive(Debug, Drop, PartialEq, Eq)]
pub struct SOA {
    /// The name of the primary server.
    pub mname: Name,
    /// The mailbox of who is responsible, as a name.
    pub rname: Name,
    /// The version of the zone.
    pub serial: u32,
    /// When a secondary asks again, in seconds.
    pub refresh: u32,
    /// When it asks again after a failure, in seconds.
    pub retry: u32,
    /// When the zone is no longer authoritative there, in seconds.
    pub expire: u32,
    /// How long a denial may be kept, in seconds (RFC 2308 section 4).
    pub minimum: u32,
}

impl Clone for SOA {
    ghost is_clone = { λ source copy. copy ≡ source };

    fn clone(&self) -> Result<SOA, AllocError> {
        Ok(SOA {
            mname: self.mname.clone()?,
            rname: self.rname.clone()?,
            serial: self.serial,
            refresh: self.refresh,
            retry: self.retry,
            expire: self.expire,
            minimum: self.minimum,
        })
    }
}

/// A mail exchange (RFC 1035 section 3.3.9).
#[derive(Debug, Drop, PartialEq, Eq)]
pub struct MX {
    /// The lower, the sooner it is tried.
    pub preference: u16,
    /// The name of the host.
    pub exchange: Name,
}

impl Clone for MX {
    ghost is_clone = { λ source copy. copy ≡ source };

    fn clone(&self) -> Result<MX, AllocError> {
        Ok(MX {
            preference: self.preference,
            exchange: self.exchange.clone()?,
        })
    }
}

/// The data of a record, with their type.
///
/// Equal are data of one variant with equal fields, names in any letter case.
#[derive(Debug, Drop, PartialEq, Eq)]
pub enum RData {
    /// Type 1, an IPv4 address.
    A(Ipv4Addr),
    /// Type 28, an IPv6 address.
    AAAA(Ipv6Addr),
    /// Type 2, the name of an authoritative server.
    NS(Name),
    /// Type 5, the canonical name.
    CNAME(Name),
    /// Type 12, a name that is pointed to.
    PTR(Name),
    /// Type 15, a mail exchange.
    MX(MX),
    /// Type 6, the start of a zone.
    SOA(Boxed<SOA>),
    /// Type 16, character strings; each has at most 255 bytes on the wire.
    TXT(Items<Octets>),
    /// Type 41, the options of EDNS.
    OPT(Items<EdnsOption>),
    /// Type 250, a transaction signature.
    TSIG(Boxed<TSIG>),
    /// Type 10, any bytes.
    NULL(Octets),
    /// Data of no bytes, of this type, as dynamic updates have them (RFC 2136 section 2.4).
    Update0(RecordType),
    /// Data of a type with no variant of its own, as bytes (RFC 3597).
    Unknown {
        /// The type.
        code: RecordType,
        /// The data; their length has 16 bits on the wire.
        bytes: Octets,
    },
}

impl RData {
    ghost use Rattle.wire_messages.specs.rr.RecordData.{type_of};

    /// The type that these data are of.
    pub fn record_type(&self) -> RecordType
        ensures { result ≡ type_of self.now }
    {
        match self {
            RData::A(_) => RecordType::A,
            RData::AAAA(_) => RecordType::AAAA,
            RData::NS(_) => RecordType::NS,
            RData::CNAME(_) => RecordType::CNAME,
            RData::PTR(_) => RecordType::PTR,
            RData::MX(_) => RecordType::MX,
            RData::SOA(_) => RecordType::SOA,
            RData::TXT(_) => RecordType::TXT,
            RData::OPT(_) => RecordType::OPT,
            RData::TSIG(_) => RecordType::TSIG,
            RData::NULL(_) => RecordType::NULL,
            RData::Update0(code) => *code,
            RData::Unknown { code, .. } => *code,
        }
    }
}

impl Clone for RData {
    ghost is_clone = { λ source copy. copy ≡ source };

    fn clone(&self) -> Result<RData, AllocError> {
        match self {
            RData::A(address) => Ok(RData::A(*address)),
            RData::AAAA(address) => Ok(RData::AAAA(*address)),
            RData::NS(name) => Ok(RData::NS(name.clone()?)),
            RData::CNAME(name) => Ok(RData::CNAME(name.clone()?)),
            RData::PTR(name) => Ok(RData::PTR(name.clone()?)),
            RData::MX(exchange) => Ok(RData::MX(exchange.clone()?)),
            RData::SOA(soa) => Ok(RData::SOA(soa.clone()?)),
            RData::TXT(strings) => Ok(RData::TXT(strings.clone()?)),
            RData::OPT(options) => Ok(RData::OPT(options.clone()?)),
            RData::TSIG(signature) => Ok(RData::TSIG(signature.clone()?)),
            RData::NULL(bytes) => Ok(RData::NULL(bytes.clone()?)),
            RData::Update0(code) => Ok(RData::Update0(*code)),
            RData::Unknown { code, bytes } => Ok(RData::Unknown {
                code: *code,
                bytes: bytes.clone()?,
            }),
        }
    }
}
