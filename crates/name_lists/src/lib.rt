//! Lists of blocked names as people have them, made into the plain lines that a list of blocked names takes.
#![tactic(auto)]

mod adapter;
mod adding;
mod gives;
pub mod laws;
mod names;
mod report;
mod words;

pub use adapter::{PlainLines, adapt};
pub use adding::add_list;
pub use report::ListReport;
