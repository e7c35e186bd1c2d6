//! A zone that takes dynamic updates (RFC 2136), and may be transferred, by who may.

mod access;
mod answers;
mod changed_sets;
mod changes;
mod handler;
pub mod laws;
mod names;
mod prerequisites;
mod prescan;
mod required_sets;
mod set_changes;
mod touched;
mod update_requests;
mod updating;
mod verifier;
pub mod worked;
pub(crate) mod zone_sets;

pub use handler::UpdatableZoneHandler;
pub use verifier::{Verifier, VerifyError};
