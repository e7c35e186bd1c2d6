//! The words of a zone's text (RFC 1035 section 5.1), and what single words spell: bytes, numbers, times, names and
//! character strings.
//!
//! A text is a line, or the entry of a zone file. A fault is told by its place in the text.
#![tactic(auto)]

mod cuts;
mod error;
mod escapes;
mod names;
mod ttl;
pub mod word_laws;
mod words;

pub use cuts::cut_at;
pub use error::{TextError, TextFault};
pub use escapes::{MAX_STRING_LEN, put_spelled, put_string, read_string};
pub use names::{absolute_name, next_name, read_name};
pub use ttl::{seconds_of, ttl_of};
pub use words::{TextKind, Word, Words, fault_at, field_end, number_of_digits};
