//! The labels of a name that is being made.

ghost use Rattle.std.specs.Prelude.{◌≡◌, ◌+◌, ◌<◌, [], ◌∷◌, ◌++◌, length, IfOk};
ghost use Rattle.wire_names.specs.rr.domain.DomainName.{DomainName, wire_form, IsLabel, IsWire, cut};

use crate::rr::domain::name::Name;
use std::alloc::{AllocError, Global};
use std::marker::Model;

/// The most bytes that a name has in wire form, with its end byte (RFC 1035, section 2.3.4).
pub const MAX_NAME_LEN: usize = 255;

/// The labels of a name that is being made, one put behind the other; each may hold any bytes.
///
/// It takes some 260 bytes on the stack and no memory beside: keep it a local variable.
#[derive(Drop)]
pub struct Labels {
    bytes: [u8; MAX_NAME_LEN],
    len: usize,
}

impl Model for Labels {
    ghost use Rattle.std.specs.Prelude.{List, ℕ, take, ◌<◌};
    ghost use Rattle.wire_names.specs.rr.domain.DomainName.{IsWire, cut};

    ghost Value = { List (List ℕ) };

    ghost view = { λ labels. cut (take labels.len labels.bytes) };

    ghost invariant = { λ labels. (labels.len < 255) × IsWire (take labels.len labels.bytes) };
}

impl Labels {
    /// No labels. It needs no memory.
    pub fn new() -> Labels
        ensures { result ≡ [] }
    {
        Labels {
            bytes: [0; MAX_NAME_LEN],
            len: 0,
        }
    }

    /// How many bytes they take in wire form, without the end byte (RFC 1035, section 3.1): one more than it has bytes
    /// for each label.
    pub fn wire_len(&self) -> usize
        ensures size { result ≡ length (wire_form self.now) }
        ensures small { result < 255 }
    {
        self.len
    }

    /// Puts a label behind the others. It has 1 to 63 bytes, and with it the name has at most 255 in wire form, its end
    /// byte counted (RFC 1035, section 2.3.4): `wire_len` tells what is taken already.
    pub fn push(&mut self, label: &[u8])
        requires label { IsLabel label.now }
        requires fits { length (wire_form self.old) + 1 + length label.now < 255 }
        ensures { self.new ≡ self.old ++ label.now ∷ [] }
    {
        let start = self.len + 1;
        self.bytes[self.len] = label.len() as u8;
        self.bytes[start..start + label.len()].copy_from_slice(label);
        self.len = start + label.len();
    }

    /// Puts labels in wire form behind the others. With them the name has at most 255 bytes in wire form, its end byte
    /// counted.
    pub fn append(&mut self, wire: &[u8])
        requires wire { IsWire wire.now }
        requires fits { length (wire_form self.old) + length wire.now < 255 }
        ensures { self.new ≡ self.old ++ cut wire.now }
    {
        let end = self.len + wire.len();
        self.bytes[self.len..end].copy_from_slice(wire);
        self.len = end;
    }

    /// The name of these labels, fully qualified or not.
    pub fn to_name(&self, alloc: Global, is_fqdn: bool) -> Result<Name, AllocError>
        ensures { IfOk result (λ name. name ≡ record { labels = self.now; is_fqdn = is_fqdn }) }
    {
        Name::from_wire(alloc, &self.bytes[..self.len], is_fqdn)
    }
}
