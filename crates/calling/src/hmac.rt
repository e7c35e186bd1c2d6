//! Message authentication codes by SHA-256.

ghost use Rattle.std.specs.Prelude.{◌≡◌, ◌≤◌, length};
ghost use Rattle.calling.specs.Hmac.{differences, hmac, padded};

use sha2::{Digest, Sha256};

/// The octets of a block, each xored with one octet.
fn padded(block: &[u8; 64], octet: u8) -> [u8; 64]
    ensures { result ≡ padded octet block.now }
{
    let mut padded = *block;
    'octets: for i in 0..64 {
        padded[i] = padded[i] ^ octet;
    }
    padded
}

/// The code of a text by a key, which zeros fill to a block (RFC 2104 section 2).
pub fn hmac(block: &[u8; 64], text: &[u8]) -> [u8; 32]
    ensures { result ≡ hmac block.now text.now }
{
    let mut inner = Sha256::new();
    inner.update(&padded(block, 0x36));
    inner.update(text);
    let digest = inner.finalize();
    let mut outer = Sha256::new();
    outer.update(&padded(block, 0x5c));
    outer.update(&digest);
    outer.finalize()
}

/// The bits in which a code differs from another; all octets are looked at, so that the time tells nothing of where.
pub fn differences(own: &[u8; 32], other: &[u8]) -> u8
    requires { 32 ≤ length other.now }
    ensures { result ≡ differences own.now other.now 32 }
{
    let mut bits = 0;
    'octets: for i in 0..32 {
        bits = bits | (own[i] ^ other[i]);
    }
    bits
}
