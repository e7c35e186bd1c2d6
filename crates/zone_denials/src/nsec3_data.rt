//! The data of NSEC3 and NSEC3PARAM records (RFC 5155 sections 3.2 and 4.2).

ghost use Rattle.std.specs.Prelude.{◌≡◌, List, ℕ, IfOk};
ghost use Rattle.std.specs.Option.{option_map};
ghost use Rattle.zone_denials.specs.Nsec3Data.{after_salt, has_next, has_salt, hashing_by, nsec3_by, nsec3_in, parameters_in, zone_parameters_in};

use crate::type_bits::types_of;
use std::alloc::{AllocError, Global};
use wire_messages::rr::record_type::RecordType;

/// By what names are hashed (RFC 5155 section 5).
#[derive(Clone, Copy)]
pub struct Parameters<'a> {
    /// The salt.
    pub salt: &'a [u8],
    /// How often a hash is hashed again.
    pub iterations: u16,
}

/// What an NSEC3 record says of the name of its hash (RFC 5155 section 3.1).
#[derive(Drop)]
pub struct Nsec3Data {
    /// The next hash of the zone in order.
    pub next: [u8; 20],
    /// Whether unsigned delegations between the hashes may have no record.
    pub opt_out: bool,
    /// The types of the RRsets that the name has.
    pub types: Vec<RecordType>,
}

/// Whether the hash algorithm is SHA-1, and so many octets of the salt follow.
fn has_salt(algorithm: u8, count: u8, rest: &[u8]) -> bool
    ensures { result ≡ has_salt algorithm count rest.now }
{
    algorithm == 1 && usize::from(count) <= rest.len()
}

/// The parameters at the start of the data of an NSEC3 or NSEC3PARAM record, if the octets have them.
pub fn parameters_of(octets: &[u8]) -> Option<Parameters<'_>>
    ensures { option_map hashing_by result ≡ parameters_in octets.now }
{
    match octets {
        [algorithm, _, high, low, count, rest @ ..] if has_salt(*algorithm, *count, rest) => {
            Some(Parameters {
                salt: &rest[..usize::from(*count)],
                iterations: u16::from(*high) * 256 + u16::from(*low),
            })
        }
        _ => None,
    }
}

/// The parameters of the data of an NSEC3PARAM record, if the octets have them and the flags are 0.
pub fn zone_parameters_of(octets: &[u8]) -> Option<Parameters<'_>>
    ensures { option_map hashing_by result ≡ zone_parameters_in octets.now }
{
    match octets {
        [_, 0, ..] => parameters_of(octets),
        _ => None,
    }
}

/// Whether a next hash of 20 octets follows, and the flags are 0 or 1.
fn has_next(flags: u8, count: u8, rest: &[u8]) -> bool
    ensures { result ≡ has_next flags count rest.now }
{
    count == 20 && 20 <= rest.len() && flags < 2
}

/// What the octets of an NSEC3 record after the salt say.
fn after_salt(alloc: Global, flags: u8, octets: &[u8]) -> Result<Option<Nsec3Data>, AllocError>
    ensures { IfOk result (λ found. (hash : List ℕ) →
        option_map (nsec3_by hash) found ≡ after_salt hash flags octets.now) }
{
    let [count, rest @ ..] = octets else {
        return Ok(None);
    };
    if !has_next(flags, *count, rest) {
        return Ok(None);
    }
    let mut next = [0; 20];
    next.copy_from_slice(&rest[..20]);
    match types_of(alloc, &rest[20..])? {
        Some(types) => Ok(Some(Nsec3Data {
            next,
            opt_out: flags == 1,
            types,
        })),
        None => Ok(None),
    }
}

/// The data of an NSEC3 record, if the octets have their form.
///
/// # Errors
///
/// The only error is that an allocation fails.
pub fn nsec3_of(alloc: Global, octets: &[u8]) -> Result<Option<Nsec3Data>, AllocError>
    ensures { IfOk result (λ found. (hash : List ℕ) →
        option_map (nsec3_by hash) found ≡ nsec3_in hash octets.now) }
{
    match octets {
        [algorithm, flags, _, _, count, rest @ ..] if has_salt(*algorithm, *count, rest) => {
            after_salt(alloc, *flags, &rest[usize::from(*count)..])
        }
        _ => Ok(None),
    }
}
