//! HMAC (RFC 2104), and comparing MACs.

ghost use Rattle.std.specs.Prelude.{◌≡◌, IfOk, List, ℕ, bit_xor, bytes_eq, length, map};
ghost use Rattle.tsig.specs.Hmac.{block_key, hash_len, hash_of, hmac, mac_len, mac_of, short_key};
ghost use Rattle.tsig.specs.Pads.{ArePads, function_of};

use crate::algorithm::{Algorithm, HashFunction};
use crate::pads::Pads;
use sha1::Sha1;
use sha2::{Digest, Sha256, Sha384, Sha512};
use std::alloc::{AllocError, Global};

/// The hash of a text.
fn hash(alloc: Global, function: HashFunction, text: &[u8]) -> Result<Vec<u8>, AllocError>
    ensures { IfOk result (λ digest. digest.items ≡ hash_of function text.now) }
{
    match function {
        HashFunction::Sha1 => Vec::from_slice(alloc, &Sha1::digest(text)),
        HashFunction::Sha256 => Vec::from_slice(alloc, &Sha256::digest(text)),
        HashFunction::Sha384 => Vec::from_slice(alloc, &Sha384::digest(text)),
        HashFunction::Sha512 => Vec::from_slice(alloc, &Sha512::digest(text)),
    }
}

/// The secret, hashed first where it is longer than a block.
fn short_key(alloc: Global, function: HashFunction, secret: &[u8]) -> Result<Vec<u8>, AllocError>
    ensures { IfOk result (λ key. key.items ≡ short_key function secret.now) }
{
    if function.block_len() < secret.len() {
        return hash(alloc, function, secret);
    }
    Vec::from_slice(alloc, secret)
}

/// The secret, hashed first where it is longer than a block, and filled up with zeros to a block.
fn block_key(alloc: Global, function: HashFunction, secret: &[u8]) -> Result<Vec<u8>, AllocError>
    ensures { IfOk result (λ key. key.items ≡ block_key function secret.now) }
{
    let mut key = short_key(alloc, function, secret)?;
    key.resize(function.block_len(), 0)?;
    Ok(key)
}

/// Each byte with these bits flipped.
fn flip(bytes: &mut [u8], pad: u8)
    ensures { bytes.new ≡ map (λ b. bit_xor b pad) bytes.old }
{
    for b in bytes.iter_mut() {
        *b ^= pad;
    }
}

/// Hashers behind the pads of a secret. They have hashed two blocks, and the secret where it is longer than one.
pub(crate) fn pads_of(
    alloc: Global,
    function: HashFunction,
    secret: &[u8],
) -> Result<Pads, AllocError>
    ensures function { IfOk result (λ pads. function_of pads ≡ function) }
    ensures pads { IfOk result (ArePads secret.now) }
{
    let mut inner = block_key(alloc, function, secret)?;
    let mut outer = Vec::from_slice(alloc, &inner)?;
    flip(&mut inner, 0x36);
    flip(&mut outer, 0x5c);
    Ok(Pads::behind(function, &inner, &outer))
}

/// The HMAC of a text behind pads.
#[tactic(auto, unfolding(crate::specs::Hmac::hmac))]
pub(crate) fn hmac_behind(alloc: Global, pads: &Pads, text: &[u8]) -> Result<Vec<u8>, AllocError>
    ensures value { (key : List ℕ) → ArePads key pads.now →
        IfOk result (λ digest. digest.items ≡ hmac (function_of pads.now) key text.now) }
    ensures len { IfOk result (λ digest. length digest.items ≡ hash_len (function_of pads.now)) }
{
    pads.finished(alloc, text)
}

/// The HMAC of a text (RFC 2104 section 2). It hashes the text once, and takes memory for two blocks and the hash.
pub fn hmac(
    alloc: Global,
    function: HashFunction,
    secret: &[u8],
    text: &[u8],
) -> Result<Vec<u8>, AllocError>
    ensures value { IfOk result (λ digest. digest.items ≡ hmac function secret.now text.now) }
    ensures len { IfOk result (λ digest. length digest.items ≡ hash_len function) }
{
    let pads = pads_of(alloc, function, secret)?;
    hmac_behind(alloc, &pads, text)
}

/// The whole MAC of a text by an algorithm: its HMAC, truncated where the algorithm is (RFC 2104 section 5).
pub fn mac(
    alloc: Global,
    algorithm: Algorithm,
    secret: &[u8],
    text: &[u8],
) -> Result<Vec<u8>, AllocError>
    ensures value { IfOk result (λ mac. mac.items ≡ mac_of algorithm secret.now text.now) }
    ensures len { IfOk result (λ mac. length mac.items ≡ mac_len algorithm) }
{
    let mut mac = hmac(alloc, algorithm.hash_function(), secret, text)?;
    mac.truncate(algorithm.mac_len());
    Ok(mac)
}

/// Whether two MACs are the same. It looks at every byte, whatever it finds: where two of one length first differ does
/// not change what it does.
#[inline(never)]
pub fn is_same_mac(a: &[u8], b: &[u8]) -> bool
    ensures { result ≡ bytes_eq a.now b.now }
{
    if a.len() != b.len() {
        return false;
    }
    let mut differences: u8 = 0;
    for i in 0..a.len() {
        differences |= a[i] ^ b[i];
    }
    differences == 0
}
