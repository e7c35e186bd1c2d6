//! What an update changes of a zone, and the answers to IXFR that are made of it (RFC 1995).
#![tactic(auto)]

mod before;
mod comparing;
mod difference;
mod history;
pub mod laws;
mod names;

pub use before::Before;
pub use difference::Difference;
pub use history::{History, Steps};
