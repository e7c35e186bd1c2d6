//! Where the records of a zone are kept, zones that take updates, and lists of names that are blocked.

pub mod blocklist;
pub mod file;
pub mod in_memory;
pub mod sqlite;
