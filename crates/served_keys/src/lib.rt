//! What the programs share of keys and networks, whoever owns their files: keys from the bytes of a file and by their
//! names, and the networks of rules of access.
#![tactic(auto)]

pub mod files;
pub mod names;
pub mod networks;
