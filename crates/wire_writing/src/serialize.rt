//! From values to bytes.

pub mod writing;
