//! Types of resource records.

ghost use Rattle.std.specs.Prelude.{◌≡◌, ℕ};

use std::marker::Model;

/// The number of a record type, of 16 bits (RFC 1035 section 3.2.2 and IANA's registry). Every number is a type.
#[derive(Clone, Copy, Debug, PartialEq, Eq, PartialOrd, Ord, Hash)]
pub struct RecordType {
    value: u16,
}

impl Model for RecordType {
    ghost Value = { ℕ };

    ghost view = { λ n. n.value };

    ghost inverse = { λ n. record { value = n } };
}

impl RecordType {
    /// An IPv4 address (RFC 1035 section 3.4.1).
    pub const A: RecordType = RecordType { value: 1 };
    /// An authoritative name server (RFC 1035 section 3.3.11).
    pub const NS: RecordType = RecordType { value: 2 };
    /// A canonical name (RFC 1035 section 3.3.1).
    pub const CNAME: RecordType = RecordType { value: 5 };
    /// The start of a zone of authority (RFC 1035 section 3.3.13).
    pub const SOA: RecordType = RecordType { value: 6 };
    /// Anything at all (RFC 1035 section 3.3.10).
    pub const NULL: RecordType = RecordType { value: 10 };
    /// A domain name pointer (RFC 1035 section 3.3.12).
    pub const PTR: RecordType = RecordType { value: 12 };
    /// A mail exchange (RFC 1035 section 3.3.9).
    pub const MX: RecordType = RecordType { value: 15 };
    /// Text strings (RFC 1035 section 3.3.14).
    pub const TXT: RecordType = RecordType { value: 16 };
    /// A signature (RFC 2535 section 4, RFC 2931).
    pub const SIG: RecordType = RecordType { value: 24 };
    /// A key (RFC 2535 section 3).
    pub const KEY: RecordType = RecordType { value: 25 };
    /// An IPv6 address (RFC 3596 section 2.1).
    pub const AAAA: RecordType = RecordType { value: 28 };
    /// The EDNS pseudo-record (RFC 6891 section 6.1).
    pub const OPT: RecordType = RecordType { value: 41 };
    /// A delegation signer (RFC 4034 section 5).
    pub const DS: RecordType = RecordType { value: 43 };
    /// The signature of an RRset (RFC 4034 section 3).
    pub const RRSIG: RecordType = RecordType { value: 46 };
    /// The next name and the types here (RFC 4034 section 4).
    pub const NSEC: RecordType = RecordType { value: 47 };
    /// A zone's key (RFC 4034 section 2).
    pub const DNSKEY: RecordType = RecordType { value: 48 };
    /// The next hashed name and the types here (RFC 5155 section 3).
    pub const NSEC3: RecordType = RecordType { value: 50 };
    /// The parameters of NSEC3 (RFC 5155 section 4).
    pub const NSEC3PARAM: RecordType = RecordType { value: 51 };
    /// A child's DS (RFC 7344 section 3.1).
    pub const CDS: RecordType = RecordType { value: 59 };
    /// A child's DNSKEY (RFC 7344 section 3.2).
    pub const CDNSKEY: RecordType = RecordType { value: 60 };
    /// A transaction signature (RFC 8945 section 4.2).
    pub const TSIG: RecordType = RecordType { value: 250 };
    /// An incremental transfer (RFC 1995 section 2).
    pub const IXFR: RecordType = RecordType { value: 251 };
    /// A transfer of a whole zone (RFC 1035 section 3.2.3).
    pub const AXFR: RecordType = RecordType { value: 252 };
    /// Records of mailboxes (RFC 1035 section 3.2.3).
    pub const MAILB: RecordType = RecordType { value: 253 };
    /// Records of mail agents (RFC 1035 section 3.2.3).
    pub const MAILA: RecordType = RecordType { value: 254 };
    /// Every type (RFC 1035 section 3.2.3).
    pub const ANY: RecordType = RecordType { value: 255 };

    /// The type of this number.
    pub fn new(value: u16) -> RecordType
        ensures { result ≡ value }
    {
        RecordType { value }
    }

    /// The number.
    pub fn value(self) -> u16
        ensures { result ≡ self }
    {
        self.value
    }
}
