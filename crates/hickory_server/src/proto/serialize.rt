//! From bytes to values, and from values to bytes.

pub mod binary;
