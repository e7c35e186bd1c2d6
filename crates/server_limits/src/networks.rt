//! Networks of clients.

ghost use Rattle.std.specs.Prelude.{◌≡◌, ◌<◌};
ghost use Rattle.server_limits.specs.Limits.{network_of, place_of};

/// How many places networks are counted at: a prime number.
pub(crate) const PLACES: usize = 65_521;

/// The network of an address as a number: the first 24 bits of the four bytes of IPv4, above all of IPv6; or the first
/// 56 of the sixteen of IPv6. Of other bytes it is 0.
fn network(address: &[u8]) -> u64
    ensures { result ≡ network_of address.now }
{
    match address {
        [a, b, c, _] => {
            72_057_594_037_927_936 + 65_536 * u64::from(*a) + 256 * u64::from(*b) + u64::from(*c)
        }
        [a, b, c, d, e, f, g, ..] => {
            let high = 65_536 * u64::from(*a) + 256 * u64::from(*b) + u64::from(*c);
            let low = 65_536 * u64::from(*d) + 256 * u64::from(*e) + u64::from(*f);
            256 * (16_777_216 * high + low) + u64::from(*g)
        }
        _ => 0,
    }
}

/// The place at which the network of an address is counted.
pub(crate) fn place(address: &[u8]) -> usize
    ensures place { result ≡ place_of address.now }
    ensures within { result < 65521 }
{
    (network(address) % PLACES as u64) as usize
}
