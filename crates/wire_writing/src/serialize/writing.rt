//! From names, records and lists of them to bytes, within a limit.

pub mod compression_table;
pub mod data_encoder;
pub mod header_encoder;
pub mod list_encoder;
pub mod name_encoder;
pub mod note_list;
pub mod question_name;
pub mod question_notes;
pub mod record_encoder;
