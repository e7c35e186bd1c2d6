//! What can be found of a zone.

use thiserror::Error;

/// How grave a finding is.
#[derive(Clone, Copy, Debug, PartialEq, Eq)]
pub enum Severity {
    /// The zone can be served as it is, and does not say what it should.
    Warning,
    /// A standard forbids it: servers refuse such a zone, or leave out some of its records.
    Fault,
}

/// What is found. The text is what is told of the record.
#[derive(Clone, Copy, Debug, PartialEq, Eq, Error)]
pub enum Kind {
    /// The apex has no SOA record (RFC 1035 section 5.2).
    #[error("the apex has no SOA record")]
    NoSoa,
    /// The apex has no NS record (RFC 1034 section 4.2.1).
    #[error("the apex has no NS record")]
    NoServers,
    /// The owner name is neither the apex nor below it (RFC 1035 section 5.2).
    #[error("the owner name is outside the zone")]
    Outside,
    /// An SOA record stands below the apex (RFC 1035 section 5.2).
    #[error("an SOA record below the apex")]
    SoaBelowApex,
    /// The name has another record of a type of which it may have one: SOA, CNAME, DNAME or NSEC (RFC 1035 section 5.2,
    /// RFC 2181 section 10.1, RFC 6672 section 2.4, RFC 4035 section 2.3).
    #[error("another record of a type of which a name has one")]
    Second,
    /// A record before it is the same, its TTL aside (RFC 2181 section 5).
    #[error("the record is there twice")]
    Repeated,
    /// A CNAME stands beside other data (RFC 1034 section 3.6.2, RFC 2181 section 10.1).
    #[error("a CNAME beside other data")]
    CnameBesideData,
    /// The record stands below a DNAME of the zone (RFC 6672 section 2.4).
    #[error("below a DNAME, which hides it")]
    BelowDname,
    /// The record stands below a cut and is no address (RFC 1034 section 4.2.1).
    #[error("below a cut, which hides it")]
    BelowCut,
    /// The record stands at a cut, and is neither an NS record, nor of DNSSEC, nor an address (RFC 1034 section 4.2.1).
    #[error("at a cut, which hides it")]
    AtCut,
    /// The TTL is not that of the first record of the RRset (RFC 2181 section 5.2).
    #[error("another TTL than the first record of its RRset")]
    OtherTtl,
    /// The host of an NS, MX or SRV record is in the zone and has no address there (RFC 1912 section 2.8, RFC 2782).
    #[error("its host is in the zone and has no address there")]
    NoAddress,
    /// An NS record names a host at its cut or below it, without an address in the zone (RFC 9471 section 2.1).
    #[error("its host is below the cut and has no glue")]
    NoGlue,
    /// An address stands at a cut or below it, and no NS record names its owner as a host (RFC 1034 section 4.2.1).
    #[error("an address at a cut or below it that no NS record needs")]
    IdleGlue,
    /// The host of an NS, MX or SRV record is an alias (RFC 2181 section 10.3, RFC 2782).
    #[error("its host is an alias")]
    HostIsAlias,
    /// The serial is not above that of the zone before (RFC 1982 section 3.2).
    #[error("the serial is not above the previous one")]
    SerialNotAbove,
    /// The refresh time of the SOA is not from 20 minutes to 12 hours (RFC 1912 section 2.2).
    #[error("the refresh time is not from 20 minutes to 12 hours")]
    Refresh,
    /// The retry time of the SOA is not below the refresh time (RFC 1912 section 2.2).
    #[error("the retry time is not below the refresh time")]
    Retry,
    /// The expire time of the SOA is not above refresh and retry times together, or not from 2 to 4 weeks (RFC 1912
    /// section 2.2).
    #[error("the expire time is not from 2 to 4 weeks, or not above refresh and retry times together")]
    Expire,
    /// The last field of the SOA, how long a denial is kept, is above one day (RFC 2308 section 5).
    #[error("the minimum, how long a denial is kept, is above one day")]
    Minimum,
    /// A DS record stands at the apex (RFC 4035 section 2.4).
    #[error("a DS record at the apex")]
    DsAtApex,
    /// An NSEC3PARAM record stands below the apex (RFC 5155 section 4).
    #[error("an NSEC3PARAM record below the apex")]
    Nsec3paramBelowApex,
    /// An RRSIG record covers a type of which the name has no records (RFC 4035 section 2.2).
    #[error("it covers a type of which the name has no records")]
    CoversNothing,
    /// The zone is signed with NSEC records, and the owner name has none (RFC 4035 section 2.3).
    #[error("the zone is signed, and the owner name has no NSEC record")]
    NoNsec,
    /// The data of an NSEC record do not have their form (RFC 4034 section 4.1).
    #[error("the data are not a name and a type bit map")]
    UnreadNsec,
    /// The next name of an NSEC record is not the next owner name (RFC 4034 section 4.1.1).
    #[error("the next name is not the next owner name of the zone")]
    OtherNext,
    /// An NSEC record lists a type of which the zone has no records at its name (RFC 4034 section 4.1.2).
    #[error("it lists a type of which the zone has no records here")]
    IdleType,
    /// The NSEC record of the owner name does not list the type of the record (RFC 4034 section 4.1.2).
    #[error("the NSEC record of the owner name does not list the type")]
    Unlisted,
    /// The zone is signed, and the record is not (RFC 4035 section 2.2).
    #[error("the zone is signed, and no RRSIG record covers this record")]
    Unsigned,
    /// The signature has ended (RFC 4034 section 3.1.5).
    #[error("the signature has expired")]
    Ended,
    /// The signature ends within 7 days.
    #[error("the signature expires within 7 days")]
    EndsSoon,
    /// NSEC3 parameters with iterations (RFC 9276 section 3.1).
    #[error("the number of iterations is not 0")]
    Iterations,
    /// An NSEC3 record does not have the form of one of SHA-1, or an NSEC3PARAM record not that of one with flags 0
    /// (RFC 5155 sections 3, 4.1.2 and 11).
    #[error("not the form of an NSEC3 or NSEC3PARAM record of hash algorithm 1")]
    UnreadNsec3,
    /// An NSEC3 record has another salt or another number of iterations than the NSEC3PARAM record of the apex (RFC
    /// 5155 section 7.1).
    #[error("other parameters than those of the zone")]
    OtherParameters,
    /// The next hash of an NSEC3 record is not that of the next one (RFC 5155 section 3.1.7).
    #[error("the next hash is not that of the next record")]
    OtherNextHash,
    /// No name of the zone has the hash of the NSEC3 record (RFC 5155 section 7.1).
    #[error("no name of the zone has this hash")]
    IdleNsec3,
    /// The owner name has an NSEC3 record, and so is no name of the zone (RFC 5155 section 7.2.8).
    #[error("a record beside an NSEC3 record")]
    BesideNsec3,
    /// The owner name or an empty name above it has no NSEC3 record, and opt-out does not allow that (RFC 5155
    /// section 7.1).
    #[error("the name, or an empty name above it, has no NSEC3 record")]
    NoNsec3,
    /// The NSEC3 record of the owner name or of an empty name above it lists a type of which the name has no records
    /// (RFC 5155 section 3.1.8).
    #[error("the NSEC3 record of the name, or of an empty name above it, lists a type that is not there")]
    IdleType3,
    /// The NSEC3 record of the owner name does not list the type of the record (RFC 5155 section 3.1.8).
    #[error("the NSEC3 record of the name does not list the type")]
    Unlisted3,
}

impl Kind {
    /// How grave it is.
    pub fn severity(self) -> Severity {
        match self {
            Kind::NoSoa
            | Kind::NoServers
            | Kind::Outside
            | Kind::SoaBelowApex
            | Kind::Second
            | Kind::CnameBesideData
            | Kind::BelowDname
            | Kind::NoAddress
            | Kind::NoGlue
            | Kind::HostIsAlias
            | Kind::SerialNotAbove
            | Kind::DsAtApex
            | Kind::Nsec3paramBelowApex
            | Kind::NoNsec
            | Kind::UnreadNsec
            | Kind::OtherNext
            | Kind::IdleType
            | Kind::Unlisted
            | Kind::Unsigned
            | Kind::Ended
            | Kind::UnreadNsec3
            | Kind::OtherParameters
            | Kind::OtherNextHash
            | Kind::IdleNsec3
            | Kind::BesideNsec3
            | Kind::NoNsec3
            | Kind::IdleType3
            | Kind::Unlisted3 => Severity::Fault,
            Kind::Repeated
            | Kind::BelowCut
            | Kind::AtCut
            | Kind::IdleGlue
            | Kind::OtherTtl
            | Kind::Refresh
            | Kind::Retry
            | Kind::Expire
            | Kind::Minimum
            | Kind::CoversNothing
            | Kind::EndsSoon
            | Kind::Iterations => Severity::Warning,
        }
    }
}

/// A finding: of a record, or of the zone as a whole.
#[derive(Clone, Copy, Debug, PartialEq, Eq)]
pub struct Finding {
    /// The place of the record among those of the zone, from 0 on; none where it is of the zone as a whole.
    pub place: Option<usize>,
    /// What is found.
    pub kind: Kind,
}
