//! Keys as text.

ghost use Rattle.std.specs.Prelude.{◌≡◌, ◌++◌, ◌∷◌, IfOk, IfSome, Ok, true};
ghost use Rattle.base64.specs.Engines.{standard};
ghost use Rattle.base64.specs.GeneralPurpose.{decode_of};
ghost use Rattle.wire_names.specs.rr.domain.NameText.{IsNameText};
ghost use Rattle.tsig.specs.Hmac.{algorithm_label};
ghost use Rattle.tsig.specs.KeyTexts.{IsKeyText, IsUsable};
ghost use Rattle.tsig.specs.declared.key_text.KeyTextError.TheVariants as key_text_error;

use crate::algorithm::Algorithm;
use crate::keys::{Key, Secret};
use base64::DecodeAllocError;
use base64::engine::general_purpose::STANDARD;
use std::alloc::{AllocError, Global};
use thiserror::Error;
use wire_names::error::NameError;
use wire_names::rr::domain::name::Name;

/// What is wrong with the text of a key. It has no part of the text, which may be secret.
#[derive(Clone, Copy, Debug, PartialEq, Eq, Error)]
pub enum KeyFault {
    /// A word that is neither `ALGORITHM:NAME:SECRET` nor begins a field of a key.
    #[error("not a key or a field of a key")]
    Form,
    /// The key has no name, no algorithm or no secret.
    #[error("a key without name, algorithm or secret")]
    MissingField,
    /// The algorithm is not one of `Algorithm`.
    #[error("unknown algorithm; expected hmac-sha1, hmac-sha256, hmac-sha256-128, hmac-sha384, hmac-sha384-192, hmac-sha512 or hmac-sha512-256")]
    Algorithm,
    /// The name is not a domain name.
    #[error("not a name")]
    Name,
    /// The secret is not base64, or it is empty.
    #[error("the secret is empty or not base64")]
    Secret,
    /// There are two keys with one name.
    #[error("a second key with this name")]
    Twice,
}

/// Why a text is not one of keys.
#[derive(Clone, Copy, Debug, PartialEq, Eq, Error)]
pub enum KeyTextError {
    /// A fault of the text. The message begins with the line.
    #[error("{line}: {fault}")]
    At {
        /// On which line; the first is 1. If a field of a key is missing, or its name is taken, where the key begins.
        line: usize,
        /// What is wrong.
        fault: KeyFault,
    },
    /// An allocation failed.
    #[error("out of memory")]
    Memory,
}

impl From<AllocError> for KeyTextError {
    ghost from_gives = { λ _ e. e ≡ key_text_error.Memory };

    fn from(_e: AllocError) -> KeyTextError {
        KeyTextError::Memory
    }
}

/// The two sides of the first colon.
fn at_colon(text: &str) -> Option<(&str, &str)>
    ensures { IfSome result (λ parts. text.now ≡ parts.0.now ++ 58 ∷ parts.1.now) }
{
    text.split_once(':')
}

/// The algorithm of this name, in lower case.
fn algorithm_named(text: &str) -> Option<Algorithm>
    ensures { IfSome result (λ algorithm. text.now ≡ algorithm_label algorithm) }
{
    match text {
        "hmac-sha1" => Some(Algorithm::HmacSha1),
        "hmac-sha256" => Some(Algorithm::HmacSha256),
        "hmac-sha256-128" => Some(Algorithm::HmacSha256_128),
        "hmac-sha384" => Some(Algorithm::HmacSha384),
        "hmac-sha384-192" => Some(Algorithm::HmacSha384_192),
        "hmac-sha512" => Some(Algorithm::HmacSha512),
        "hmac-sha512-256" => Some(Algorithm::HmacSha512_256),
        _ => None,
    }
}

/// The algorithm of a line.
pub(crate) fn read_algorithm(text: &str, line: usize) -> Result<Algorithm, KeyTextError>
    ensures { IfOk result (λ algorithm. text.now ≡ algorithm_label algorithm) }
{
    match algorithm_named(text) {
        Some(algorithm) => Ok(algorithm),
        None => Err(KeyTextError::At {
            line,
            fault: KeyFault::Algorithm,
        }),
    }
}

/// The name of a line.
pub(crate) fn read_name(alloc: Global, text: &str, line: usize) -> Result<Name, KeyTextError>
    ensures { IfOk result (λ name. IsNameText text.now name) }
{
    match Name::from_ascii(alloc, text) {
        Ok(name) => Ok(name),
        Err(NameError::Memory) => Err(KeyTextError::Memory),
        Err(NameError::Text) => Err(KeyTextError::At {
            line,
            fault: KeyFault::Name,
        }),
    }
}

/// The bytes of a secret of a line.
pub(crate) fn read_secret(alloc: Global, text: &str, line: usize) -> Result<Secret, KeyTextError>
    ensures { IfOk result (λ secret. decode_of standard text.now ≡ Ok secret) }
{
    match STANDARD.decode(alloc, text.as_bytes()) {
        Ok(bytes) => Ok(Secret::new(bytes)),
        Err(DecodeAllocError::OutOfMemory) => Err(KeyTextError::Memory),
        Err(_) => Err(KeyTextError::At {
            line,
            fault: KeyFault::Secret,
        }),
    }
}

/// A key of these parts.
pub(crate) fn made_key(
    mut name: Name,
    algorithm: Algorithm,
    secret: Secret,
    line: usize,
) -> Result<Key, KeyTextError>
    ensures made { IfOk result (λ key.
        key ≡ record { name = record name { is_fqdn = true }; algorithm = algorithm; secret = secret; shortest = 0 }) }
    ensures usable { IfOk result IsUsable }
{
    if secret.is_empty() {
        return Err(KeyTextError::At {
            line,
            fault: KeyFault::Secret,
        });
    }
    name.set_fqdn(true);
    Ok(Key::new(name, algorithm, secret))
}

/// The key of a text, as `dig -y` takes it.
pub(crate) fn key_at(alloc: Global, text: &str, line: usize) -> Result<Key, KeyTextError>
    ensures text { IfOk result (λ key. IsKeyText text.now key) }
    ensures usable { IfOk result IsUsable }
{
    let form = KeyTextError::At {
        line,
        fault: KeyFault::Form,
    };
    let Some((algorithm, rest)) = at_colon(text) else {
        return Err(form);
    };
    let Some((name, secret)) = at_colon(rest) else {
        return Err(form);
    };
    let algorithm = read_algorithm(algorithm, line)?;
    let name = read_name(alloc, name, line)?;
    let secret = read_secret(alloc, secret, line)?;
    made_key(name, algorithm, secret, line)
}

/// The key of a text `ALGORITHM:NAME:SECRET`, as `dig -y` takes it: the algorithm in lower case, the secret in base64.
/// It takes each MAC that RFC 8945 allows.
///
/// Errors: the first fault of algorithm, name and secret, in this order, at line 1, or memory was refused.
pub fn read_key(alloc: Global, text: &str) -> Result<Key, KeyTextError>
    ensures text { IfOk result (λ key. IsKeyText text.now key) }
    ensures usable { IfOk result IsUsable }
{
    key_at(alloc, text, 1)
}
