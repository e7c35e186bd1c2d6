//! Response codes.

ghost use Rattle.std.specs.Prelude.{◌≡◌, ◌<◌, ◌+◌, ◌*◌, ◌/◌, ◌%◌, ℕ};

use std::marker::Model;

/// The number of a response code, of twelve bits: four in the header (RFC 1035 section 4.1.1), and above them eight in
/// the OPT record (RFC 6891 section 6.1.3).
#[derive(Clone, Copy, Debug, PartialEq, Eq)]
pub struct ResponseCode {
    value: u16,
}

impl Model for ResponseCode {
    ghost Value = { ℕ };

    ghost view = { λ n. n.value };

    ghost invariant = { λ n. n.value < 4096 };

    ghost inverse = { λ n. record { value = n } };
}

impl ResponseCode {
    /// No error.
    pub const NO_ERROR: ResponseCode = ResponseCode { value: 0 };
    /// The request was not understood.
    pub const FORM_ERR: ResponseCode = ResponseCode { value: 1 };
    /// The server failed.
    pub const SERV_FAIL: ResponseCode = ResponseCode { value: 2 };
    /// The name does not exist.
    pub const NX_DOMAIN: ResponseCode = ResponseCode { value: 3 };
    /// This kind of request is not implemented.
    pub const NOT_IMP: ResponseCode = ResponseCode { value: 4 };
    /// The server refuses.
    pub const REFUSED: ResponseCode = ResponseCode { value: 5 };
    /// A name exists that should not (RFC 2136 section 2.2).
    pub const YX_DOMAIN: ResponseCode = ResponseCode { value: 6 };
    /// An RRset exists that should not (RFC 2136 section 2.2).
    pub const YX_RRSET: ResponseCode = ResponseCode { value: 7 };
    /// An RRset that should exist does not (RFC 2136 section 2.2).
    pub const NX_RRSET: ResponseCode = ResponseCode { value: 8 };
    /// The server has no authority for the zone, or the request is not authorized (RFC 2136 section 2.2, RFC 8945
    /// section 5.2).
    pub const NOT_AUTH: ResponseCode = ResponseCode { value: 9 };
    /// A name is not in the zone (RFC 2136 section 2.2).
    pub const NOT_ZONE: ResponseCode = ResponseCode { value: 10 };
    /// The EDNS version is not supported (RFC 6891 section 9).
    pub const BAD_VERS: ResponseCode = ResponseCode { value: 16 };

    /// The code of this number.
    pub fn new(value: u16) -> ResponseCode
        requires { value < 4096 }
        ensures { result ≡ value }
    {
        ResponseCode { value }
    }

    /// The code of the OPT record's eight bits and the header's four.
    pub fn from_parts(high: u8, low: u8) -> ResponseCode
        requires { low < 16 }
        ensures { result ≡ 16 * high + low }
    {
        ResponseCode {
            value: 16 * u16::from(high) + u16::from(low),
        }
    }

    /// The number.
    pub fn value(self) -> u16
        ensures number { result ≡ self }
        ensures in_range { result < 4096 }
    {
        self.value
    }

    /// The four bits that stand in the header.
    pub fn low(self) -> u8
        ensures bits { result ≡ self % 16 }
        ensures in_range { self < 4096 }
    {
        (self.value % 16) as u8
    }

    /// The eight bits that stand in the OPT record.
    pub fn high(self) -> u8
        ensures { result ≡ self / 16 }
    {
        (self.value / 16) as u8
    }
}
