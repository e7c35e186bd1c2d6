//! The options of `zone_serve`: what its arguments say, and what is wrong with them.
#![tactic(auto)]

pub mod arguments;
