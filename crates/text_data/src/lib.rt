//! The data of records that have a grammar of their own, as the words of a zone's text: the parameters of SVCB and
//! HTTPS records (RFC 9460 section 2.1 and appendix A), and the locations of LOC records (RFC 1876).
#![tactic(auto)]

mod altitudes;
mod angles;
mod decimals;
mod items;
mod keys;
mod kinds;
mod locations;
mod parameters;
pub mod service_laws;
mod sizes;
mod texts;
mod values;

pub use locations::put_location;
pub use parameters::put_parameters;
