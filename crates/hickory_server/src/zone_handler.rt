//! Zones, the catalog of them with the laws of its replies, and the messages of which replies are made.

pub mod catalog;
pub mod message_request;
pub mod zone_laws;

pub use hickory_base::errors::{CatalogError, DnsError, LookupError, UpdateFault};
pub use hickory_base::message_request::{MessageRequest, Queries};
pub use hickory_base::message_response::{MessageResponse, MessageResponseBuilder};
pub use hickory_base::message_sameness::message_comparisons;
pub use hickory_base::update_request::UpdateRequest;
pub use hickory_base::zone_store::{
    AuthLookup, AxfrPolicy, Lookup, LookupControlFlow, LookupOptions, Nsec3QueryInfo, NxProofKind,
    RecordList, WholeReply, ZoneHandler, ZoneTransfer, ZoneType,
};
pub use hickory_base::{message_response, request_laws, update_request};
pub use hickory_catalog::catalog::Catalog;
pub use hickory_catalog::laws;
pub use hickory_catalog::signer::{ReplySigner, SignError};
pub use hickory_catalog::zones::find_laws;
