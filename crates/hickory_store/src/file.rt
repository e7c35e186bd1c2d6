//! Zones of the records that a zone file has (RFC 1035 section 5.1).

mod digests;
mod first_records;
mod zones;

pub use zones::{RecordFault, RecordsError, zone_of_records};
