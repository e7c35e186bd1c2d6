//! The configuration file of a server: settings in TOML.
#![tactic(auto)]

pub mod configuration;
pub mod fault;
pub mod names;
pub mod reading;
mod values;
pub mod writing;
mod zones;
