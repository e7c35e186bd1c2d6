//! What a careful operator asks of the records of a zone before it is served.
#![tactic(auto)]

mod finding;
mod hashed;
mod hashes;
mod hosts;
mod index;
pub mod laws;
mod looking;
mod names;
mod octets;
mod signed;
mod starts;
mod subject;

pub use finding::{Finding, Kind, Severity};
pub use looking::check;
pub use starts::apex_serial;
