//! Laws of what stands in bytes and what was written.

pub mod record_laws;
