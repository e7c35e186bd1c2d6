//! The hashes of names (RFC 5155 section 5).

ghost use Rattle.std.specs.Prelude.{◌≡◌, ◌++◌};
ghost use Rattle.sha1.specs.Sha1.{sha1};
ghost use Rattle.zone_denials.specs.Nsec3.{hash_of};

use sha1::Sha1;
use wire_names::rr::domain::lower_name::LowerName;

/// The hash of a hash followed by the salt.
fn hashed(digest: &[u8; 20], salt: &[u8]) -> [u8; 20]
    ensures { result ≡ sha1 (digest.now ++ salt.now) }
{
    let mut hasher = Sha1::new();
    hasher.update(digest);
    hasher.update(salt);
    hasher.finalize()
}

/// The hash of a name without the repetitions.
fn hashed_once(name: &LowerName, salt: &[u8]) -> [u8; 20]
    ensures { result ≡ hash_of (record { salt = salt.now; iterations = 0 }) name.now }
{
    let mut hasher = Sha1::new();
    hasher.update(name.as_name().as_wire());
    hasher.update(&[0]);
    hasher.update(salt);
    hasher.finalize()
}

/// The hash of a name (RFC 5155 section 5).
pub fn hash(name: &LowerName, salt: &[u8], iterations: u16) -> [u8; 20]
    ensures { result ≡ hash_of (record { salt = salt.now; iterations = iterations }) name.now }
{
    let mut digest = hashed_once(name, salt);
    for i in 0..iterations {
        digest = hashed(&digest, salt);
    }
    digest
}
