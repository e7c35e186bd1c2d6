//! Keys by the names that an operator writes.

ghost use Rattle.std.specs.Prelude.{IfOk};
ghost use Rattle.served_keys.specs.ServedKeys.{IsKeyName, IsKeyNamed};

use std::alloc::Global;
use thiserror::Error;
use tsig::Keys;
use wire_names::error::NameError;
use wire_names::rr::domain::name::Name;

/// Why a text is not the name of a key.
#[derive(Clone, Copy, Debug, PartialEq, Eq, Error)]
pub enum KeyNameFault {
    /// It is not a name.
    #[error("not the name of a key")]
    Text,
    /// There is no key of this name.
    #[error("there is no key of this name")]
    Unknown,
    /// An allocation failed.
    #[error("no memory")]
    Memory,
}

/// The name of a text.
fn name(alloc: Global, text: &str) -> Result<Name, KeyNameFault>
    ensures { IfOk result (IsKeyName text.now) }
{
    match Name::from_ascii(alloc, text) {
        Ok(mut name) => {
            name.set_fqdn(true);
            Ok(name)
        }
        Err(NameError::Memory) => Err(KeyNameFault::Memory),
        Err(NameError::Text) => Err(KeyNameFault::Text),
    }
}

/// The name of a key that there is, as a text spells it, with or without a dot at its end.
pub fn key_named(alloc: Global, keys: &Keys, text: &str) -> Result<Name, KeyNameFault>
    ensures { IfOk result (IsKeyNamed keys.now text.now) }
{
    let name = name(alloc, text)?;
    if keys.find(&name).is_none() {
        return Err(KeyNameFault::Unknown);
    }
    Ok(name)
}
