//! What the data of a type are made of: fields of one word each, and what takes all words behind them.

/// Numbers that have mnemonics.
#[derive(Clone, Copy, Debug, PartialEq, Eq)]
pub enum Names {
    /// Algorithms of DNSSEC (RFC 4034 appendix A.1).
    Algorithms,
    /// Types of certificates (RFC 4398 section 2.1).
    Certificates,
    /// Algorithms of digests (RFC 4034 appendix A.2).
    Digests,
    /// Protocols over IP (RFC 1035 section 3.4.2).
    Protocols,
    /// Services at ports below 256 (RFC 1035 section 3.4.2).
    Services,
    /// Schemes of notification (RFC 9859 section 2.1).
    Schemes,
}

/// A field that one word of the text stands for.
#[derive(Clone, Copy, Debug, PartialEq, Eq)]
pub enum Field {
    /// A number of 8 bits.
    Number8,
    /// A number of 16 bits.
    Number16,
    /// A number of 32 bits.
    Number32,
    /// A number of 8 bits, or its mnemonic.
    Named8(Names),
    /// A number of 16 bits, or its mnemonic.
    Named16(Names),
    /// A time of 32 bits in seconds, or in numbers with units.
    Time,
    /// A name, in full.
    Name,
    /// A character string: its length, and so many bytes (RFC 1035 section 3.3).
    String,
    /// Bytes to the end of the data, which a word spells as it spells a character string (RFC 8659 section 4.1.1).
    Text,
    /// An IPv4 address.
    Ipv4,
    /// An IPv6 address.
    Ipv6,
    /// A type.
    RecordType,
    /// A moment of 32 bits: a date with a time of day, or seconds since 1970 (RFC 4034 section 3.2).
    Moment,
    /// A salt: its length, and so many bytes (RFC 5155 section 3.3).
    Salt,
    /// A hash: its length, and so many bytes, in base 32 (RFC 5155 section 3.3).
    Hash,
    /// An address of 48 bits (RFC 7043 section 3.2).
    Eui48,
    /// An address of 64 bits (RFC 7043 section 4.2).
    Eui64,
    /// The identifier of a node, or a locator, of 64 bits (RFC 6742 section 2.1.2).
    Locator64,
    /// The dot that stands where there is no gateway, for no bytes (RFC 4025 section 3.1).
    NoGateway,
    /// An address of the OSI network layer (RFC 1706 section 5).
    Nsap,
}

/// What the words stand for that are left behind the fields.
#[derive(Clone, Copy, Debug, PartialEq, Eq)]
pub enum Rest {
    /// None is left.
    Nothing,
    /// Character strings, at least one.
    Strings,
    /// Bytes as hexadecimal digits, two for each.
    Hex,
    /// Bytes in base 64 (RFC 4648 section 4).
    Base64,
    /// A set of types (RFC 4034 section 4.1.2).
    Types,
    /// The parameters of a service (RFC 9460 section 2.1).
    ServiceParameters,
    /// The ports of services, as the bits of a bitmap (RFC 1035 section 3.4.2).
    Services,
    /// Address prefixes (RFC 3123).
    Prefixes,
    /// A gateway, with the key to it (RFC 4025 section 2).
    Gateway,
    /// The identity of a host, with the servers where it is met (RFC 8005 section 5).
    HostIdentity,
    /// A set of types below 128 (RFC 2535 section 5.2).
    LowTypes,
    /// A location (RFC 1876 section 3).
    Location,
    /// Whether a relay may be asked at once, and the relay (RFC 8777 section 4.2).
    Relay,
    /// Bytes in the form that is one for all types, which is the only one of the type (RFC 3597 section 5).
    Generic,
}

/// A row of the table of types.
#[derive(Clone, Copy, Debug)]
pub struct Row {
    /// The number of the type.
    pub number: u16,
    /// Its mnemonic.
    pub mnemonic: &'static str,
    /// The fields that its data begin with.
    pub fields: &'static [Field],
    /// What stands behind them.
    pub rest: Rest,
}
