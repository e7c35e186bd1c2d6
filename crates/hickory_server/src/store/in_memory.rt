//! A zone that is held in memory.

pub use hickory_base::zone_store::{InMemoryZoneHandler, RecordSet};
