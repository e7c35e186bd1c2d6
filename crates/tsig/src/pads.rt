//! Hashers behind the pads of a key (RFC 2104 section 4).

ghost use Rattle.std.specs.Prelude.{◌≡◌, ◌++◌, IfOk, List, ℕ, length};
ghost use Rattle.sha1.specs.Sha1.{Holds, sha1};
ghost use Rattle.sha2.specs.Hashers.{Holds256, Holds384, Holds512};
ghost use Rattle.sha2.specs.Sha256.{sha256};
ghost use Rattle.sha2.specs.Sha512.{sha384, sha512};
ghost use Rattle.tsig.specs.Hmac.{hash_len, hash_of};
ghost use Rattle.tsig.specs.Pads.{Hold, function_of};

use crate::algorithm::HashFunction;
use sha1::Sha1;
use sha2::{Digest, Sha256, Sha384, Sha512};
use std::alloc::{AllocError, Global};

/// Two hashers of one function: one has taken the inner pad of a key, the other the outer one. What an HMAC hashes of
/// the key is hashed in them.
#[derive(Drop)]
pub(crate) enum Pads {
    /// By SHA-1.
    By1(Sha1, Sha1),
    /// By SHA-256.
    By256(Sha256, Sha256),
    /// By SHA-384.
    By384(Sha384, Sha384),
    /// By SHA-512.
    By512(Sha512, Sha512),
}

/// A hasher by SHA-1 that has taken a text.
fn taken1(text: &[u8]) -> Sha1
    ensures { Holds result text.now }
{
    let mut hasher = Sha1::new();
    hasher.update(text);
    hasher
}

/// The digest by SHA-1 of what a hasher holds, and a text after it.
fn finished1(hasher: &Sha1, text: &[u8]) -> Result<[u8; 20], AllocError>
    ensures { (held : List ℕ) → Holds hasher.now held → IfOk result (λ digest. digest ≡ sha1 (held ++ text.now)) }
{
    let mut hasher = hasher.clone()?;
    hasher.update(text);
    Ok(hasher.finalize())
}

/// The digest by SHA-256 of what a hasher holds, and a text behind it.
fn finished256(hasher: &Sha256, text: &[u8]) -> Result<[u8; 32], AllocError>
    ensures { (held : List ℕ) → Holds256 hasher.now held → IfOk result (λ digest. digest ≡ sha256 (held ++ text.now)) }
{
    let mut hasher = hasher.clone()?;
    hasher.update(text);
    Ok(hasher.finalize())
}

/// The digest by SHA-384 of what a hasher holds, and a text behind it.
fn finished384(hasher: &Sha384, text: &[u8]) -> Result<[u8; 48], AllocError>
    ensures { (held : List ℕ) → Holds384 hasher.now held → IfOk result (λ digest. digest ≡ sha384 (held ++ text.now)) }
{
    let mut hasher = hasher.clone()?;
    hasher.update(text);
    Ok(hasher.finalize())
}

/// The digest by SHA-512 of what a hasher holds, and a text behind it.
fn finished512(hasher: &Sha512, text: &[u8]) -> Result<[u8; 64], AllocError>
    ensures { (held : List ℕ) → Holds512 hasher.now held → IfOk result (λ digest. digest ≡ sha512 (held ++ text.now)) }
{
    let mut hasher = hasher.clone()?;
    hasher.update(text);
    Ok(hasher.finalize())
}

/// By SHA-1 the digest of what the second hasher holds and, after it, the digest of what the first one holds and a
/// text.
fn twice1(alloc: Global, first: &Sha1, second: &Sha1, text: &[u8]) -> Result<Vec<u8>, AllocError>
    ensures value { (i o : List ℕ) → Holds first.now i → Holds second.now o →
        IfOk result (λ digest. digest.items ≡ sha1 (o ++ sha1 (i ++ text.now))) }
    ensures len { IfOk result (λ digest. length digest.items ≡ 20) }
{
    let digest = finished1(first, text)?;
    let digest = finished1(second, &digest)?;
    Vec::from_slice(alloc, &digest)
}

/// By SHA-256 the digest of what the second hasher holds and, behind it, the digest of what the first one holds and a
/// text.
fn twice256(
    alloc: Global,
    first: &Sha256,
    second: &Sha256,
    text: &[u8],
) -> Result<Vec<u8>, AllocError>
    ensures value { (i o : List ℕ) → Holds256 first.now i → Holds256 second.now o →
        IfOk result (λ digest. digest.items ≡ sha256 (o ++ sha256 (i ++ text.now))) }
    ensures len { IfOk result (λ digest. length digest.items ≡ 32) }
{
    let digest = finished256(first, text)?;
    let digest = finished256(second, &digest)?;
    Vec::from_slice(alloc, &digest)
}

/// By SHA-384 the digest of what the second hasher holds and, behind it, the digest of what the first one holds and a
/// text.
fn twice384(
    alloc: Global,
    first: &Sha384,
    second: &Sha384,
    text: &[u8],
) -> Result<Vec<u8>, AllocError>
    ensures value { (i o : List ℕ) → Holds384 first.now i → Holds384 second.now o →
        IfOk result (λ digest. digest.items ≡ sha384 (o ++ sha384 (i ++ text.now))) }
    ensures len { IfOk result (λ digest. length digest.items ≡ 48) }
{
    let digest = finished384(first, text)?;
    let digest = finished384(second, &digest)?;
    Vec::from_slice(alloc, &digest)
}

/// By SHA-512 the digest of what the second hasher holds and, behind it, the digest of what the first one holds and a
/// text.
fn twice512(
    alloc: Global,
    first: &Sha512,
    second: &Sha512,
    text: &[u8],
) -> Result<Vec<u8>, AllocError>
    ensures value { (i o : List ℕ) → Holds512 first.now i → Holds512 second.now o →
        IfOk result (λ digest. digest.items ≡ sha512 (o ++ sha512 (i ++ text.now))) }
    ensures len { IfOk result (λ digest. length digest.items ≡ 64) }
{
    let digest = finished512(first, text)?;
    let digest = finished512(second, &digest)?;
    Vec::from_slice(alloc, &digest)
}

impl Pads {
    /// Hashers that have taken these texts.
    pub(crate) fn behind(function: HashFunction, inner: &[u8], outer: &[u8]) -> Pads
        ensures function { function_of result ≡ function }
        ensures hold { Hold result inner.now outer.now }
    {
        match function {
            HashFunction::Sha1 => Pads::By1(taken1(inner), taken1(outer)),
            HashFunction::Sha256 => Pads::By256(
                Sha256::new_with_prefix(inner),
                Sha256::new_with_prefix(outer),
            ),
            HashFunction::Sha384 => Pads::By384(
                Sha384::new_with_prefix(inner),
                Sha384::new_with_prefix(outer),
            ),
            HashFunction::Sha512 => Pads::By512(
                Sha512::new_with_prefix(inner),
                Sha512::new_with_prefix(outer),
            ),
        }
    }

    /// Their hash function.
    pub(crate) fn function(&self) -> HashFunction
        ensures { result ≡ function_of self.now }
    {
        match self {
            Pads::By1(_, _) => HashFunction::Sha1,
            Pads::By256(_, _) => HashFunction::Sha256,
            Pads::By384(_, _) => HashFunction::Sha384,
            Pads::By512(_, _) => HashFunction::Sha512,
        }
    }

    /// The digest of what the outer hasher holds and, behind it, the digest of what the inner one holds and a text.
    pub(crate) fn finished(&self, alloc: Global, text: &[u8]) -> Result<Vec<u8>, AllocError>
        ensures value { (i o : List ℕ) → Hold self.now i o →
            IfOk result (λ digest. digest.items ≡ hash_of (function_of self.now)
            (o ++ hash_of (function_of self.now) (i ++ text.now))) }
        ensures len { IfOk result (λ digest. length digest.items ≡ hash_len (function_of self.now)) }
    {
        match self {
            Pads::By1(inner, outer) => twice1(alloc, inner, outer, text),
            Pads::By256(inner, outer) => twice256(alloc, inner, outer, text),
            Pads::By384(inner, outer) => twice384(alloc, inner, outer, text),
            Pads::By512(inner, outer) => twice512(alloc, inner, outer, text),
        }
    }
}
