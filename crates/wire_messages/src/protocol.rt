//! Transports.

/// The transport that a request came over. Only UDP bounds a reply by what the client asks.
#[derive(Clone, Copy, Debug, PartialEq, Eq)]
pub enum Protocol {
    /// Datagrams (RFC 1035 section 4.2.1).
    Udp,
    /// A stream (RFC 1035 section 4.2.2, RFC 7766).
    Tcp,
    /// A stream over TLS (RFC 7858).
    Tls,
    /// HTTP over TLS (RFC 8484).
    Https,
    /// QUIC (RFC 9250).
    Quic,
    /// HTTP over QUIC (RFC 8484, RFC 9114).
    H3,
}
