//! Keys from the bytes of their file.

ghost use Rattle.std.specs.Prelude.{IfOk};
ghost use Rattle.served_keys.specs.ServedKeys.{AreKeysOfFile};

use std::alloc::Global;
use std::str;
use thiserror::Error;
use tsig::{KeyTextError, Keys, read_keys};

/// Why a file of keys is not taken. It has no part of the file, which may be secret.
#[derive(Clone, Copy, Debug, PartialEq, Eq, Error)]
pub enum KeysFault {
    /// It is not UTF-8.
    #[error("the file is not UTF-8")]
    NotUtf8,
    /// It is not a file of keys.
    #[error("{0}")]
    Text(KeyTextError),
    /// It has no key: it is empty, or has only comments.
    #[error("the file has no key")]
    NoKeys,
    /// An allocation failed.
    #[error("no memory")]
    Memory,
}

/// The keys of a text, at least one.
fn some_keys(alloc: Global, text: &str) -> Result<Keys, KeysFault>
    ensures { IfOk result (AreKeysOfFile text.now) }
{
    match read_keys(alloc, text) {
        Ok(keys) => {
            if keys.is_empty() {
                Err(KeysFault::NoKeys)
            } else {
                Ok(keys)
            }
        }
        Err(KeyTextError::Memory) => Err(KeysFault::Memory),
        Err(fault) => Err(KeysFault::Text(fault)),
    }
}

/// The keys that the bytes of a file have, at least one. The forms of the text are those of [`read_keys`]: BIND's `key`
/// statements, Knot's `key` section, and lines as `dig -y` takes them.
pub fn keys_of_file(alloc: Global, bytes: &[u8]) -> Result<Keys, KeysFault>
    ensures { IfOk result (AreKeysOfFile bytes.now) }
{
    match str::from_utf8(bytes) {
        Ok(text) => some_keys(alloc, text),
        Err(_) => Err(KeysFault::NotUtf8),
    }
}
