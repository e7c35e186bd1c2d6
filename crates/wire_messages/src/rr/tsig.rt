//! Transaction signatures.

ghost use Rattle.std.specs.Prelude.{◌≡◌};

use std::alloc::AllocError;
use wire_names::rr::domain::name::Name;
use wire_names::values::octets::Octets;

/// The data of a TSIG record (RFC 8945 section 4.2).
#[derive(Debug, Drop, PartialEq, Eq)]
pub struct TSIG {
    /// The name of the algorithm.
    pub algorithm: Name,
    /// When it was signed, in seconds since 1970; the wire has 48 bits.
    pub time: u64,
    /// How many seconds the clocks may differ.
    pub fudge: u16,
    /// The message authentication code; its length has 16 bits on the wire.
    pub mac: Octets,
    /// The id of the original message.
    pub oid: u16,
    /// The error, of 16 bits.
    pub error: u16,
    /// Other data; their length has 16 bits on the wire.
    pub other: Octets,
}

impl Clone for TSIG {
    ghost is_clone = { λ source copy. copy ≡ source };

    fn clone(&self) -> Result<TSIG, AllocError> {
        Ok(TSIG {
            algorithm: self.algorithm.clone()?,
            time: self.time,
            fudge: self.fudge,
            mac: self.mac.clone()?,
            oid: self.oid,
            error: self.error,
            other: self.other.clone()?,
        })
    }
}

/// An error of a transaction signature that a signed reply tells of (RFC 8945 section 5.2).
#[derive(Clone, Copy, Debug, PartialEq, Eq)]
pub enum TsigError {
    /// The request's time is too far from the server's.
    BadTime,
}

/// How a request's signature was judged, as the signer of its reply has to know it.
#[derive(Debug, Drop)]
pub enum TSigResponseKind {
    /// The server has no key of that name.
    UnknownKey,
    /// The signature does not fit the message.
    BadSignature,
    /// The signature fits.
    Known {
        /// The request's message authentication code.
        mac: Octets,
        /// What is wrong all the same.
        error: Option<TsigError>,
    },
}

/// What the signer of a reply has to know (RFC 8945 section 5.3).
#[derive(Debug, Drop)]
pub struct TSigResponseContext {
    /// The request's id.
    pub request_id: u16,
    /// The moment, in seconds since 1970.
    pub now: u64,
    /// The name of the key.
    pub key_name: Name,
    /// How the request's signature was judged.
    pub kind: TSigResponseKind,
}
