//! The networks that rules of access have beside those that an operator denies.

ghost use Rattle.std.specs.Prelude.{◌≡◌, ◌++◌, ◌∷◌, [], IfOk, OnOk};
ghost use Rattle.std.specs.List.{flat_map};
ghost use Rattle.server_limits.specs.Access.{address_of, network_of};
ghost use Rattle.server_limits.specs.declared.access_control.Family.TheVariants.{Ipv4, Ipv6};
ghost use Rattle.served_keys.specs.ServedKeys.{all_networks, network_of_all, parts_of};

use server_limits::access_control::IpNet;
use std::alloc::{AllocError, Global};
use std::net::{IpAddr, Ipv4Addr, Ipv6Addr};

/// The network of all IPv4 addresses.
fn all_of_ipv4() -> Result<IpNet, AllocError>
    ensures { IfOk result (λ network. network ≡ network_of_all Ipv4) }
{
    match IpNet::new(IpAddr::V4(Ipv4Addr::UNSPECIFIED), 0) {
        Some(network) => Ok(network),
        None => Err(AllocError),
    }
}

/// The network of all IPv6 addresses.
fn all_of_ipv6() -> Result<IpNet, AllocError>
    ensures { IfOk result (λ network. network ≡ network_of_all Ipv6) }
{
    match IpNet::new(IpAddr::V6(Ipv6Addr::UNSPECIFIED), 0) {
        Some(network) => Ok(network),
        None => Err(AllocError),
    }
}

/// These networks, and the two of all addresses: if they are denied, only clients of allowed networks are served.
pub fn with_all(alloc: Global, networks: &[IpNet]) -> Result<Vec<IpNet>, AllocError>
    ensures { IfOk result (λ made. made.items ≡ networks.now ++ all_networks) }
{
    let mut made = Vec::from_slice(alloc, networks)?;
    made.push(all_of_ipv4()?)?;
    made.push(all_of_ipv6()?)?;
    Ok(made)
}

/// The half of a family's addresses that this one lies in.
fn half(address: IpAddr) -> Result<IpNet, AllocError>
    ensures { IfOk result (λ network. network ≡ network_of (address_of address) 1) }
{
    match IpNet::new(address, 1) {
        Some(network) => Ok(network),
        None => Err(AllocError),
    }
}

/// Adds the halves in which these addresses lie.
fn put_halves(made: &mut Vec<IpNet>, first: IpAddr, second: IpAddr) -> Result<(), AllocError>
    ensures { OnOk result (made.new.items ≡ made.old.items
        ++ network_of (address_of first) 1 ∷ network_of (address_of second) 1 ∷ []) }
{
    made.push(half(first)?)?;
    Ok(made.push(half(second)?)?)
}

/// Adds a network, or its halves if it has all addresses of its family.
fn put_parts(made: &mut Vec<IpNet>, network: IpNet) -> Result<(), AllocError>
    ensures { OnOk result (made.new.items ≡ made.old.items ++ parts_of network) }
{
    if network.prefix_len() > 0 {
        return Ok(made.push(network)?);
    }
    match network.address() {
        IpAddr::V4(_) => {
            let second = IpAddr::V4(Ipv4Addr::new(128, 0, 0, 0));
            put_halves(made, IpAddr::V4(Ipv4Addr::UNSPECIFIED), second)
        }
        IpAddr::V6(_) => {
            let second = IpAddr::V6(Ipv6Addr::new(0x8000, 0, 0, 0, 0, 0, 0, 0));
            put_halves(made, IpAddr::V6(Ipv6Addr::UNSPECIFIED), second)
        }
    }
}

/// Allowed networks as rules have them: the halves of a network of all addresses, since the longer network decides, and
/// the denied one of two that are as long.
pub fn parts(alloc: Global, networks: &[IpNet]) -> Result<Vec<IpNet>, AllocError>
    ensures { IfOk result (λ made. made.items ≡ flat_map parts_of networks.now) }
{
    let mut made = Vec::new(alloc);
    for network in networks {
        put_parts(&mut made, *network)?;
    }
    Ok(made)
}
