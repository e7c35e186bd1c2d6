//! Bytes that are mostly few.

ghost use Rattle.std.specs.Prelude.{◌≡◌, [], IfOk, OnOk};

use crate::values::wire::{ShortBytes, Wire};
use std::alloc::{AllocError, Global};
use std::marker::Model;

/// Bytes, kept in the value itself where they are few: up to 30 take no memory of their own.
///
/// A contract sees the bytes, and nothing of where they lie.
#[derive(Drop)]
pub struct ShortOctets {
    bytes: Wire,
}

impl Model for ShortOctets {
    ghost use Rattle.std.specs.Prelude.{List, ℕ};
    ghost use Rattle.wire_names.specs.representation.NameBytes.{wire_bytes};

    ghost Value = { List ℕ };

    ghost view = { λ octets. wire_bytes octets.bytes };
}

impl ShortOctets {
    /// No bytes. It takes no memory.
    pub fn new() -> Self
        ensures { result ≡ [] }
    {
        ShortOctets {
            bytes: Wire::Short(ShortBytes::new()),
        }
    }

    /// A copy of these bytes.
    pub fn from_slice(alloc: Global, bytes: &[u8]) -> Result<Self, AllocError>
        ensures { IfOk result (λ octets. octets ≡ bytes.now) }
    {
        Ok(ShortOctets {
            bytes: Wire::from_slice(alloc, bytes)?,
        })
    }

    /// A copy of these bytes in the place of others. Where memory is refused, those stay.
    pub fn set(&mut self, alloc: Global, bytes: &[u8]) -> Result<(), AllocError>
        ensures { OnOk result (self.new ≡ bytes.now) }
    {
        self.bytes.set(alloc, bytes)
    }

    /// The bytes.
    pub fn as_slice(&self) -> &[u8]
        ensures { result.now ≡ self.now }
    {
        self.bytes.as_slice()
    }
}
