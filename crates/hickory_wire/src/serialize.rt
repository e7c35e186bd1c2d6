//! Messages in bytes.

pub mod reading;
pub mod writing;
