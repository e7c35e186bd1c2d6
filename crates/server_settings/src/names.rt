//! Names of options as strings of C.

ghost use Rattle.std.specs.Prelude.{◌≡◌, ◌+◌, ◌<◌, ◌≤◌, ◌++◌, ◌∷◌, [], IfOk, OnOk, length, get_or, map, string_bytes, take, slice_range};
ghost use Rattle.server_settings.specs.Settings.{ended, ended_strings};

use std::alloc::{AllocError, Global};
use std::str;
use thiserror::Error;

/// Why bytes are no names of options.
#[derive(Clone, Copy, Debug, PartialEq, Eq, Error)]
pub enum NamesFault {
    /// One is not UTF-8, or the last has no byte 0 behind it.
    #[error("the names of options are not strings")]
    Form,
    /// Memory was refused.
    #[error("no memory")]
    Memory,
}

/// Puts a name last.
fn put_text(alloc: Global, text: &str, names: &mut Vec<String>) -> Result<(), AllocError>
    ensures { OnOk result (map string_bytes names.new.items ≡ map string_bytes names.old.items ++ text.now ∷ []) }
{
    names.push(String::from_str(alloc, text)?)?;
    Ok(())
}

/// Puts the name of these bytes last.
fn put_name(alloc: Global, bytes: &[u8], names: &mut Vec<String>) -> Result<(), NamesFault>
    ensures { OnOk result (map string_bytes names.new.items ≡ map string_bytes names.old.items ++ bytes.now ∷ []) }
{
    match str::from_utf8(bytes) {
        Ok(text) => match put_text(alloc, text, names) {
            Ok(()) => Ok(()),
            Err(_) => Err(NamesFault::Memory),
        },
        Err(_) => Err(NamesFault::Form),
    }
}

/// The names that stand one behind the other, each with the byte 0 behind it.
pub fn names_of(alloc: Global, bytes: &[u8]) -> Result<Vec<String>, NamesFault>
    ensures { IfOk result (λ names. ended_strings (map string_bytes names.items) ≡ bytes.now) }
{
    let mut names = Vec::new(alloc);
    let mut start = 0;
    for i in 0..bytes.len() {
        if bytes[i] == 0 {
            put_name(alloc, &bytes[start..i], &mut names)?;
            start = i + 1;
        }
    }
    if start < bytes.len() {
        drop(names);
        return Err(NamesFault::Form);
    }
    Ok(names)
}
