//! The data of RRSIG records (RFC 4034 section 3.1).

ghost use Rattle.std.specs.Prelude.{◌≡◌};
ghost use Rattle.zone_denials.specs.RrsigData.{covered_in, expiration_in};

use wire_messages::rr::record_type::RecordType;

/// The type of the RRset that a signature covers, if the octets have one.
pub fn covered(octets: &[u8]) -> Option<RecordType>
    ensures { result ≡ covered_in octets.now }
{
    match octets {
        [high, low, ..] => Some(RecordType::new(u16::from(*high) * 256 + u16::from(*low))),
        _ => None,
    }
}

/// The time at which a signature ends, in seconds since 1970 modulo 2^32, if the octets have one.
pub fn expiration(octets: &[u8]) -> Option<u32>
    ensures { result ≡ expiration_in octets.now }
{
    match octets {
        [_, _, _, _, _, _, _, _, a, b, c, d, ..] => {
            let high = u32::from(*a) * 256 + u32::from(*b);
            let low = u32::from(*c) * 256 + u32::from(*d);
            Some(high * 65_536 + low)
        }
        _ => None,
    }
}
