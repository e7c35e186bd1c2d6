//! What messages come and go over.

pub use hickory_wire::Protocol;
