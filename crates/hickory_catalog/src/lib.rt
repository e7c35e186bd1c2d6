//! The catalog: which zone answers a request, and with what reply.
#![tactic(auto)]

mod authoritative;
pub mod catalog;
mod chains;
mod contents;
mod denying;
mod edns;
mod forwarded;
pub mod laws;
mod queries;
mod requests;
mod sending;
pub mod signer;
mod signing;
mod transfer_replies;
mod transfers;
mod updates;
mod whole_transfers;
pub mod zones;
