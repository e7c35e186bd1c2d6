//! How NSEC and NSEC3 records deny names and types (RFC 4034, RFC 4035, RFC 5155): what their data say, which of them a
//! reply needs, and that these prove what the reply says.
#![tactic(auto)]

pub mod hash_labels;
pub mod laws;
pub mod nsec;
pub mod nsec3;
pub mod nsec3_data;
pub mod rrsig;
pub mod type_bits;
