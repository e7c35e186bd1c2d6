//! The data of resource records, by type.

pub use hickory_wire::{EdnsOption, MX, NSIDPayload, SOA, TSIG, TsigError};
