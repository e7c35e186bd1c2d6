//! Whom a server answers, and how often. `access_control` has the networks that may use a server. `RateLimits` limits
//! the replies over UDP to a network of clients: an address of a datagram may be false, and then its replies go to
//! somebody who did not ask. By what NSD's manual says of response rate limiting: replies of a network above a rate are
//! dropped, but of those every so many is sent truncated, so that a client that is there asks again over TCP, where no
//! address is false.
#![tactic(auto)]

pub mod access_control;
mod limits;
mod networks;
mod truncating;

pub use limits::{RateLimits, Verdict};
pub use truncating::truncated;
