//! Networks as text (RFC 4632 section 3.1, RFC 4291 section 2.3).

ghost use Rattle.std.specs.Prelude.{◌≡◌, IfErr, MatchResult};
ghost use Rattle.std.specs.Char.{is_ascii_digit};
ghost use Rattle.std.specs.List.{list_all};
ghost use Rattle.std.specs.Net.Grammar.{IsNumber, Parses};
ghost use Rattle.server_limits.specs.NetworkTexts.{IsHostText, IsLengthFault, IsNetworkText, IsNoAddress, IsPartsFault, IsPrefixText, IsTextFault};

use crate::access_control::IpNet;
use std::fmt;
use std::net::IpAddr;
use std::str::FromStr;
use thiserror::Error;

/// Why a text is no network.
#[derive(Clone, Copy, Debug, PartialEq, Eq, Error)]
pub enum IpNetTextError {
    /// What stands before the `/`, or all of a text without one, is no address.
    #[error("not an address")]
    Address,
    /// What stands behind the `/` is no decimal number.
    #[error("not a prefix length")]
    PrefixLength,
    /// The prefix is longer than the address: 32 bits for IPv4, and 128 for IPv6.
    #[error("the prefix is longer than the address")]
    PrefixTooLong,
}

/// The first address of the network, `/`, and the length of the prefix in bits.
impl fmt::Display for IpNet {
    fn fmt<W: fmt::Write>(&self, f: &mut fmt::Formatter<W>) -> fmt::Result {
        write!(f, "{}/{}", self.address(), self.prefix_len())
    }
}

/// Whether each byte of a text is a decimal digit.
fn are_digits(text: &str) -> bool
    ensures { result ≡ list_all is_ascii_digit text.now }
{
    text.as_bytes().iter().all(|byte| byte.is_ascii_digit())
}

/// The length that decimal digits spell.
fn prefix_length(digits: &str) -> Result<u8, IpNetTextError>
    ensures { MatchResult result (IsNumber 10 digits.now) (IsLengthFault digits.now) }
{
    if digits.is_empty() || !are_digits(digits) {
        return Err(IpNetTextError::PrefixLength);
    }
    match digits.parse::<u8>() {
        Ok(length) => Ok(length),
        Err(_) => Err(IpNetTextError::PrefixTooLong),
    }
}

/// The network of an address and the length of a prefix.
fn with_length(address: &str, digits: &str) -> Result<IpNet, IpNetTextError>
    ensures spelled { Parses (IsPrefixText address.now) digits.now result }
    ensures fault { IfErr result (IsPartsFault address.now digits.now) }
{
    let Ok(address) = address.parse::<IpAddr>() else {
        return Err(IpNetTextError::Address);
    };
    match IpNet::new(address, prefix_length(digits)?) {
        Some(network) => Ok(network),
        None => Err(IpNetTextError::PrefixTooLong),
    }
}

/// The network that has an address alone.
fn host(address: &str) -> Result<IpNet, IpNetTextError>
    ensures spelled { Parses IsHostText address.now result }
    ensures fault { IfErr result (λ fault. (fault ≡ IpNetTextError.Address) × IsNoAddress address.now) }
{
    let Ok(address) = address.parse::<IpAddr>() else {
        return Err(IpNetTextError::Address);
    };
    let length = match address {
        IpAddr::V4(_) => 32,
        IpAddr::V6(_) => 128,
    };
    match IpNet::new(address, length) {
        Some(network) => Ok(network),
        None => Err(IpNetTextError::PrefixTooLong),
    }
}

/// Reads an address, `/` and the length of the prefix in bits, as `10.0.0.0/8`, or an address alone, whose prefix is
/// all of it. What stands behind the prefix in the address does not matter.
impl FromStr for IpNet {
    type Err = IpNetTextError;

    ghost from_str_gives = { λ text result. Parses IsNetworkText text result × IfErr result (IsTextFault text) };

    fn from_str(text: &str) -> Result<IpNet, IpNetTextError> {
        match text.split_once('/') {
            Some((address, digits)) => with_length(address, digits),
            None => host(text),
        }
    }
}
