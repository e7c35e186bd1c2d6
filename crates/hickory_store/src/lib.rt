//! Zone handlers that stand above a plain zone: lists of blocked names, and zones that take updates.
#![tactic(auto)]

pub mod blocklist;
pub mod file;
pub mod updates;
