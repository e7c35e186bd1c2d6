//! Servers that are told, as texts.

ghost use Rattle.std.specs.Prelude.{◌≡◌, ◌<◌, IfOk};
ghost use Rattle.std.specs.Char.{is_ascii_digit};
ghost use Rattle.std.specs.List.{list_all};
ghost use Rattle.std.specs.Net.Grammar.{IsIpText, IsNumber};
ghost use Rattle.served_notices.specs.TargetTexts.{IsTargetText};

use notices::Target;
use std::net::IpAddr;
use thiserror::Error;

/// Why a text is no server that can be told.
#[derive(Clone, Copy, Debug, PartialEq, Eq, Error)]
pub enum TargetFault {
    /// What stands before the `@`, or all of a text without one, is no address.
    #[error("not ADDRESS[@PORT]")]
    Address,
    /// What stands after the `@` is no port.
    #[error("not a port from 1 to 65535")]
    Port,
}

/// Whether each byte of a text is a decimal digit.
fn are_digits(text: &str) -> bool
    ensures { result ≡ list_all is_ascii_digit text.now }
{
    text.as_bytes().iter().all(|byte| byte.is_ascii_digit())
}

/// The port that decimal digits spell.
fn port_of(digits: &str) -> Result<u16, TargetFault>
    ensures { IfOk result (λ port. IsNumber 10 digits.now port × (0 < port)) }
{
    if digits.is_empty() || !are_digits(digits) {
        return Err(TargetFault::Port);
    }
    match digits.parse::<u16>() {
        Ok(0) | Err(_) => Err(TargetFault::Port),
        Ok(port) => Ok(port),
    }
}

/// The server at the address that a text spells, and at a port.
fn target_at(address: &str, port: u16) -> Result<Target, TargetFault>
    ensures { IfOk result (λ target. IsIpText address.now target.address × (target.port ≡ port)) }
{
    match address.parse::<IpAddr>() {
        Ok(address) => Ok(Target { address, port }),
        Err(_) => Err(TargetFault::Address),
    }
}

/// Reads an address, or an address, `@` and a port. The port is 53 if there is none.
pub fn read_target(text: &str) -> Result<Target, TargetFault>
    ensures { IfOk result (IsTargetText text.now) }
{
    match text.split_once('@') {
        Some((address, digits)) => target_at(address, port_of(digits)?),
        None => target_at(text, 53),
    }
}
