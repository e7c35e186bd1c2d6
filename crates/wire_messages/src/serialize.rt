//! Values in bytes, in full.

pub mod writing;
