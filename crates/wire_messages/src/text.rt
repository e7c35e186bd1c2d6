//! Records and numbers as text.

pub mod code_text;
pub mod data_text;
pub mod record_text;
