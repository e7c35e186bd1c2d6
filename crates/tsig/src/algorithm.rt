//! The algorithms of keys (RFC 8945 section 6).

ghost use Rattle.std.specs.Prelude.{◌≡◌, IfOk};
ghost use Rattle.tsig.specs.Digest.{canonical};
ghost use Rattle.tsig.specs.Hmac.{algorithm_label, algorithm_name, block_len, hash_function, least_len, mac_len};

use std::alloc::{AllocError, Global};
use wire_names::rr::domain::labels::Labels;
use wire_names::rr::domain::name::Name;

/// A hash function of FIPS 180-4.
#[derive(Clone, Copy, Debug, PartialEq, Eq)]
pub enum HashFunction {
    /// SHA-1.
    Sha1,
    /// SHA-256.
    Sha256,
    /// SHA-384.
    Sha384,
    /// SHA-512.
    Sha512,
}

impl HashFunction {
    /// How many bytes a block has.
    pub fn block_len(self) -> usize
        ensures { result ≡ block_len self }
    {
        match self {
            HashFunction::Sha1 => 64,
            HashFunction::Sha256 => 64,
            HashFunction::Sha384 => 128,
            HashFunction::Sha512 => 128,
        }
    }
}

/// An algorithm of keys: HMAC (RFC 2104) with a hash function, whole or truncated to half of what the function gives.
///
/// Each has a name of its own on the wire (RFC 8945 section 6). A MAC may also be truncated under the name of a whole
/// algorithm (section 5.2.2.1), as BIND does for a key of `hmac-sha256-128`.
#[derive(Clone, Copy, Debug, PartialEq, Eq)]
pub enum Algorithm {
    /// `hmac-sha1`, of 20 bytes. It must be implemented, and its use is not recommended (RFC 8945 section 6).
    HmacSha1,
    /// `hmac-sha256`, of 32 bytes.
    HmacSha256,
    /// `hmac-sha256-128`, of 16 bytes.
    HmacSha256_128,
    /// `hmac-sha384`, of 48 bytes.
    HmacSha384,
    /// `hmac-sha384-192`, of 24 bytes.
    HmacSha384_192,
    /// `hmac-sha512`, of 64 bytes.
    HmacSha512,
    /// `hmac-sha512-256`, of 32 bytes.
    HmacSha512_256,
}

impl Algorithm {
    /// Its hash function.
    pub fn hash_function(self) -> HashFunction
        ensures { result ≡ hash_function self }
    {
        match self {
            Algorithm::HmacSha1 => HashFunction::Sha1,
            Algorithm::HmacSha256 | Algorithm::HmacSha256_128 => HashFunction::Sha256,
            Algorithm::HmacSha384 | Algorithm::HmacSha384_192 => HashFunction::Sha384,
            Algorithm::HmacSha512 | Algorithm::HmacSha512_256 => HashFunction::Sha512,
        }
    }

    /// How many bytes a whole MAC has.
    pub fn mac_len(self) -> usize
        ensures { result ≡ mac_len self }
    {
        match self {
            Algorithm::HmacSha1 => 20,
            Algorithm::HmacSha256 => 32,
            Algorithm::HmacSha256_128 => 16,
            Algorithm::HmacSha384 => 48,
            Algorithm::HmacSha384_192 => 24,
            Algorithm::HmacSha512 => 64,
            Algorithm::HmacSha512_256 => 32,
        }
    }

    /// How many bytes a MAC has at least: ten, and half of what the hash function gives (RFC 8945 section 5.2.2.1).
    pub fn least_len(self) -> usize
        ensures { result ≡ least_len self }
    {
        match self.hash_function() {
            HashFunction::Sha1 => 10,
            HashFunction::Sha256 => 16,
            HashFunction::Sha384 => 24,
            HashFunction::Sha512 => 32,
        }
    }

    /// The one label of its name.
    fn label(self) -> &'static [u8]
        ensures { result.now ≡ algorithm_label self }
    {
        match self {
            Algorithm::HmacSha1 => b"hmac-sha1",
            Algorithm::HmacSha256 => b"hmac-sha256",
            Algorithm::HmacSha256_128 => b"hmac-sha256-128",
            Algorithm::HmacSha384 => b"hmac-sha384",
            Algorithm::HmacSha384_192 => b"hmac-sha384-192",
            Algorithm::HmacSha512 => b"hmac-sha512",
            Algorithm::HmacSha512_256 => b"hmac-sha512-256",
        }
    }

    /// Its name in canonical wire form (RFC 8945 section 4.3.3).
    pub(crate) fn canonical(self) -> &'static [u8]
        ensures { result.now ≡ canonical (algorithm_name self) }
    {
        match self {
            Algorithm::HmacSha1 => b"\x09hmac-sha1\0",
            Algorithm::HmacSha256 => b"\x0bhmac-sha256\0",
            Algorithm::HmacSha256_128 => b"\x0fhmac-sha256-128\0",
            Algorithm::HmacSha384 => b"\x0bhmac-sha384\0",
            Algorithm::HmacSha384_192 => b"\x0fhmac-sha384-192\0",
            Algorithm::HmacSha512 => b"\x0bhmac-sha512\0",
            Algorithm::HmacSha512_256 => b"\x0fhmac-sha512-256\0",
        }
    }

    /// Its name.
    pub fn name(self, alloc: Global) -> Result<Name, AllocError>
        ensures { IfOk result (λ name. name ≡ algorithm_name self) }
    {
        let mut labels = Labels::new();
        labels.push(self.label());
        labels.to_name(alloc, true)
    }
}
