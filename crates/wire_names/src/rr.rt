//! What resource records are made of: their names.

pub mod domain;
