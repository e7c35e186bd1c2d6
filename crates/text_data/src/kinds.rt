//! What values of service parameters are made of (RFC 9460 section 7).

/// What the value of a key is made of.
#[derive(Clone, Copy, Debug)]
pub(crate) enum ValueKind {
    /// A list of keys.
    Keys,
    /// A list of identifiers of protocols.
    Protocols,
    /// No value.
    Nothing,
    /// A number of 16 bits.
    Number16,
    /// A list of IPv4 addresses.
    Ipv4,
    /// Bytes in base 64.
    Base64,
    /// A list of IPv6 addresses.
    Ipv6,
    /// Bytes, at least one.
    Text,
    /// Bytes.
    Bytes,
}

/// What an item of a list is.
#[derive(Clone, Copy, Debug)]
pub(crate) enum ItemKind {
    /// The identifier of a protocol.
    Protocol,
    /// An IPv4 address.
    Ipv4,
    /// An IPv6 address.
    Ipv6,
}
