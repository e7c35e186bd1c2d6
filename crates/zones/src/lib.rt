//! Zones that answer standard queries as an authoritative server does (RFC 1034 section 4.3.2), and take dynamic updates
//! (RFC 2136) if they have rules, with a journal or only in memory.
#![tactic(auto)]

mod handler;
mod kept;
pub mod laws;
mod overview;
mod rules;
mod transfers;
mod zone;

pub use zone::Zone;
