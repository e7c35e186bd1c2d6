//! The zones of a server, whoever owns its files and sockets: zones and lists of blocked names from the bytes of their
//! files, the catalog of them, and networks; and the updates of zones (RFC 2136) by keys (RFC 8945) and rules, with a
//! journal or only in memory.
#![tactic(auto)]

pub mod chains;
pub mod grants;
pub mod handler;
pub mod holding;
pub mod identifier;
pub mod journals;
pub mod laws;
pub mod lists;
pub mod networks;
pub mod operations;
pub mod worked;
pub mod zone_files;
