//! From bytes to names, records and messages, with the first fault.
#![tactic(auto)]

pub mod op;
pub mod serialize;
