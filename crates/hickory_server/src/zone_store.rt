//! Zones: what answers for a zone, what its answers look like and why there may be none, and a zone that is held in
//! memory.

pub use hickory_base::errors::{DnsError, LookupError, UpdateFault};
pub use hickory_base::zone_store::{
    AuthLookup, AxfrPolicy, Either, InMemoryZoneHandler, Lookup, LookupControlFlow, LookupOptions,
    Nsec3QueryInfo, NxProofKind, RecordList, RecordSet, WholeReply, ZoneHandler, ZoneTransfer,
    ZoneType,
};
