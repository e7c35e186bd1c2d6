//! The zone service of a DNS server: requests, zones, replies, under the paths of the Rust crate.
#![tactic(auto)]

pub use hickory_base::access;
pub use hickory_wire as wire;
pub use zone_text;

pub mod proto;
pub mod server;
pub mod store;
pub mod zone_handler;
pub mod zone_store;

/// The version of this library, and of the programs over it.
pub const VERSION: &str = "0.1.0";
