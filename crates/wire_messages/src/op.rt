//! What a message is made of beside its records: the header, questions, EDNS, kinds of requests, response codes.

pub mod comparison_laws;
pub mod edns;
pub mod header;
pub mod op_code;
pub mod query;
pub mod response_code;
