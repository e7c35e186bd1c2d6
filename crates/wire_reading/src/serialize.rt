//! From bytes to values.

pub mod reading;
