//! Kinds of requests.

ghost use Rattle.std.specs.Prelude.{◌≡◌, ◌<◌, ℕ};

use std::marker::Model;

/// The number of a kind of request, of four bits (RFC 1035 section 4.1.1).
#[derive(Clone, Copy, Debug, PartialEq, Eq)]
pub struct OpCode {
    value: u8,
}

impl Model for OpCode {
    ghost Value = { ℕ };

    ghost view = { λ n. n.value };

    ghost invariant = { λ n. n.value < 16 };

    ghost inverse = { λ n. record { value = n } };
}

impl OpCode {
    /// A standard query (RFC 1035 section 4.1.1).
    pub const QUERY: OpCode = OpCode { value: 0 };
    /// An inverse query, which is obsolete (RFC 3425 section 3).
    pub const IQUERY: OpCode = OpCode { value: 1 };
    /// A question about the server's status (RFC 1035 section 4.1.1).
    pub const STATUS: OpCode = OpCode { value: 2 };
    /// A notice that a zone changed (RFC 1996).
    pub const NOTIFY: OpCode = OpCode { value: 4 };
    /// A dynamic update (RFC 2136 section 1.3).
    pub const UPDATE: OpCode = OpCode { value: 5 };

    /// The kind of this number.
    pub fn new(value: u8) -> OpCode
        requires { value < 16 }
        ensures { result ≡ value }
    {
        OpCode { value }
    }

    /// The number.
    pub fn value(self) -> u8
        ensures number { result ≡ self }
        ensures in_range { result < 16 }
    {
        self.value
    }
}
