//! Bytes with no form of their own.

ghost use Rattle.std.specs.Prelude.{◌≡◌, length, nat_eq, IfOk, OnOk, OnErr, [], List, ℕ};
ghost use Rattle.std.specs.Cmp.{partial_equiv_from_equiv};
ghost use Rattle.std.specs.Cmp.Lexicographic.{pointwise, nat_list_eq_equiv};

use std::alloc::{AllocError, Global};
use std::fmt;
use std::marker::Model;

/// Bytes that are kept as they are: a character string, the data of an option or of a record of unknown type, a MAC.
#[derive(Drop)]
pub struct Octets {
    bytes: Vec<u8>,
}

impl Model for Octets {
    ghost Value = { List ℕ };

    ghost view = { λ octets. octets.bytes.items };
}

impl Octets {
    /// The bytes of a vector. It needs no memory.
    pub fn from_vec(bytes: Vec<u8>) -> Self
        ensures { result ≡ bytes.items }
    {
        Octets { bytes }
    }

    /// A copy of these bytes.
    pub fn from_slice(alloc: Global, bytes: &[u8]) -> Result<Self, AllocError>
        ensures { IfOk result (λ octets. octets ≡ bytes.now) }
    {
        Ok(Octets {
            bytes: Vec::from_slice(alloc, bytes)?,
        })
    }

    /// Puts a copy of these bytes in the place of its own, whose memory is used again. Where memory is refused, it has
    /// none.
    pub fn set(&mut self, bytes: &[u8]) -> Result<(), AllocError>
        ensures done { OnOk result (self.new ≡ bytes.now) }
        ensures emptied { OnErr result (self.new ≡ []) }
    {
        self.bytes.clear();
        self.bytes.extend_from_slice(bytes)
    }

    /// The bytes as a vector. It needs no memory.
    pub fn into_vec(self) -> Vec<u8>
        ensures { result.items ≡ self }
    {
        let Octets { bytes } = self;
        bytes
    }

    /// The bytes.
    pub fn as_slice(&self) -> &[u8]
        ensures { result.now ≡ self.now }
    {
        self.bytes.as_slice()
    }

    /// How many bytes there are.
    pub fn len(&self) -> usize
        ensures { result ≡ length self.now }
    {
        self.bytes.len()
    }
}

impl PartialEq for Octets {
    ghost eq = { pointwise nat_eq };

    ghost laws = { partial_equiv_from_equiv nat_list_eq_equiv };

    fn eq(&self, other: &Octets) -> bool {
        self.as_slice() == other.as_slice()
    }
}

impl Eq for Octets {
    ghost laws = { nat_list_eq_equiv };
}

impl Clone for Octets {
    ghost is_clone = { λ source copy. copy ≡ source };

    fn clone(&self) -> Result<Octets, AllocError> {
        Octets::from_slice(*self.bytes.allocator(), self.as_slice())
    }
}

/// The bytes as hexadecimal digits, two for each.
impl fmt::Display for Octets {
    fn fmt<W: fmt::Write>(&self, f: &mut fmt::Formatter<W>) -> fmt::Result {
        for byte in self.as_slice() {
            write!(f, "{:02X}", *byte)?;
        }
        Ok(())
    }
}
