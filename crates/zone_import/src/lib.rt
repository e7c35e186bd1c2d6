//! A zone that has a journal is turned into another one, as that of a zone file that was edited, by updates (RFC 2136)
//! that are in the journal all or none.
#![tactic(auto)]

mod changes;
mod copies;
mod error;
mod importing;
mod places;
mod requests;
mod sameness;
mod serials;

pub use copies::with_serial;
pub use error::ImportError;
pub use importing::{Imported, import};
pub use sameness::is_same_zone;
