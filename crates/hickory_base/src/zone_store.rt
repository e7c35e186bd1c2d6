//! Zones: what answers for a zone, what its answers look like, and a zone that is held in memory.

mod boxed;
mod conditions;
mod copies;
mod eithers;
mod find;
mod handler;
mod in_memory;
mod lookup;
mod record_list;
mod record_set;
pub mod serials;
mod shared;

pub use either::Either;
pub use handler::{AxfrPolicy, Nsec3QueryInfo, NxProofKind, ZoneHandler, ZoneType};
pub use in_memory::InMemoryZoneHandler;
pub use lookup::{AuthLookup, Lookup, LookupControlFlow, LookupOptions, WholeReply, ZoneTransfer};
pub use record_list::RecordList;
pub use record_set::RecordSet;
