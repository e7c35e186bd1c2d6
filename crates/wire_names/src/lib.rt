//! Names and values: domain names, octets, lists, and why bytes cannot be read or written.
#![tactic(auto)]

pub mod error;
pub mod hex_lines;
pub mod rr;
pub mod values;
