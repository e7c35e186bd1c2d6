//! From names, records and lists of them to bytes, within a limit.
#![tactic(auto)]

pub mod serialize;
