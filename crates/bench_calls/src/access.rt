//! Access by address.

use crate::WRONG;
use hickory_base::access::{AccessControl, IpNet};
use std::alloc::Global;
use std::net::{IpAddr, Ipv4Addr};

/// The network that five bytes are: an IPv4 address, then how long the prefix is.
fn network(bytes: &[u8]) -> Option<IpNet> {
    match bytes {
        [a, b, c, d, prefix_length] => {
            IpNet::new(IpAddr::V4(Ipv4Addr::new(*a, *b, *c, *d)), *prefix_length)
        }
        _ => None,
    }
}

/// The access list that allows the networks that are in bytes one after the other.
fn access_control(alloc: Global, networks: &[u8]) -> Option<AccessControl> {
    let mut access = AccessControl::new(alloc);
    for bytes in networks.chunks_exact(5) {
        access.insert_allow(&[network(bytes)?]).ok()?;
    }
    Some(access)
}

#[inline(never)]
fn measured_allow(access: &AccessControl, address: IpAddr, rounds: u64) -> u64 {
    let mut allowed = 0u64;
    for _ in 0..rounds {
        if access.allow(address) {
            allowed = allowed.wrapping_add(1);
        }
    }
    allowed
}

/// Whether an IPv4 address is allowed, if networks are allowed that are in bytes one after the other, each an
/// IPv4 address and the length of a prefix; answers in how many rounds it was.
#[unsafe(no_mangle)]
pub extern "C" fn bench_calls_allow(
    alloc: Global,
    networks: &[u8],
    address: u32,
    rounds: u64,
) -> u64 {
    match access_control(alloc, networks) {
        Some(access) => measured_allow(&access, IpAddr::V4(Ipv4Addr::from_bits(address)), rounds),
        None => WRONG,
    }
}
