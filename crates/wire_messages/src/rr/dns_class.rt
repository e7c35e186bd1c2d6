//! Classes of resource records.

ghost use Rattle.std.specs.Prelude.{◌≡◌, ℕ};

use std::marker::Model;

/// The number of a class, of 16 bits (RFC 1035 section 3.2.4). Every number is a class.
#[derive(Clone, Copy, Debug, PartialEq, Eq, PartialOrd, Ord, Hash)]
pub struct DNSClass {
    value: u16,
}

impl Model for DNSClass {
    ghost Value = { ℕ };

    ghost view = { λ n. n.value };

    ghost inverse = { λ n. record { value = n } };
}

impl DNSClass {
    /// The Internet.
    pub const IN: DNSClass = DNSClass { value: 1 };
    /// Chaos.
    pub const CH: DNSClass = DNSClass { value: 3 };
    /// Hesiod.
    pub const HS: DNSClass = DNSClass { value: 4 };
    /// No class: in an update, what must not be there or is to go (RFC 2136 section 1.3).
    pub const NONE: DNSClass = DNSClass { value: 254 };
    /// Every class (RFC 1035 section 3.2.5).
    pub const ANY: DNSClass = DNSClass { value: 255 };

    /// The class of this number.
    pub fn new(value: u16) -> DNSClass
        ensures { result ≡ value }
    {
        DNSClass { value }
    }

    /// The number.
    pub fn value(self) -> u16
        ensures { result ≡ self }
    {
        self.value
    }
}
