//! A server with keys: it judges the transaction signature (TSIG, RFC 8945) of every message before its zones are
//! asked, and signs every reply to a signed request over the bytes that leave.
#![tactic(auto)]

mod answers;
mod chains;
mod laws;
mod parts;
mod placeholders;
mod service;

pub use laws::{served_without_keys, signed_replies};
pub use placeholders::LeftToServer;
pub use service::SignedServer;
