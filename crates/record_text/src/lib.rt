//! Records as text: the lines of a zone's text (RFC 1035 section 5.1, RFC 3597 section 5), read.
//!
//! Values are printed by their `Display`.
#![tactic(auto)]

mod data;
mod generic;
mod record;

pub use data::field::{Field, Names, Rest, Row};
pub use data::table::{row_of, type_of};
pub use data::{data_of_words, read_data};
pub use generic::{byte_count, put_data};
pub use record::{class_of, read_record};
pub use text_words::{TextError, TextFault, read_name};
