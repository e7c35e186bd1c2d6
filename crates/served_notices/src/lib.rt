//! Whom a server tells that its zones have changed (RFC 1996): settings to servers, and notices of zones as they are
//! served.
#![tactic(auto)]

pub mod hosts;
pub mod notifying;
pub mod targets;

pub use notifying::{Mode, Notifying, Secondary};
pub use targets::{TargetFault, read_target};
