//! What messages are made of: types, classes, records, questions, headers, EDNS, their text, and how they stand in
//! bytes.
#![tactic(auto)]

pub mod named_numbers;
pub mod op;
pub mod protocol;
pub mod rr;
pub mod serialize;
pub mod text;
