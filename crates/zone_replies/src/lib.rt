//! What a zone replies to standard queries, as an authoritative server does (RFC 1034 section 4.3.2).
#![tactic(auto)]

mod answers;
pub mod denials;
pub mod handled;
pub mod laws;
mod prepared;
mod replies;
pub mod worked;

pub use prepared::Prepared;
