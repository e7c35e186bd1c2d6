//! From bytes to names, records, sections and messages, with laws of what stands in bytes.

pub mod additionals;
pub mod decoder;
pub mod edns_options;
pub mod fault_laws;
pub mod header_decoder;
pub mod known_names;
pub mod message_decoder;
pub mod message_laws;
pub mod name_laws;
pub mod name_reader;
pub mod record_decoder;
