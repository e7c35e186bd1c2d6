//! Notices that a zone has changed, for the servers that transfer it (RFC 1996): their octets, when each is sent and
//! sent again, and which datagrams answer them. Sockets, the clock and random numbers are the caller's.
#![tactic(auto)]

pub mod laws;
mod messages;
mod notice;
mod notices;
pub mod worked;

pub use notice::{Notice, Target};
pub use notices::{Datagram, Heard, MOST_WAITING, Notices};
