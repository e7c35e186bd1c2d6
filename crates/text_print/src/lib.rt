//! Records and messages as text. Records are printed as a zone's text has them (RFC 1035 section 5.1, RFC 3597 section
//! 5), so that they read back as themselves.
#![tactic(auto)]

mod data;
mod error;
mod fields;
mod generic;
pub mod laws;
mod line;
mod message_text;
mod rest;
mod text;

pub use data::{is_formed, put_record_data};
pub use error::PrintError;
pub use line::put_record;
pub use message_text::{FlagsText, MessageText};
