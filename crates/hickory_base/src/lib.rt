//! What the zone service stands on beside the messages themselves: errors, access lists, requests, replies, the sink,
//! the zone store.
#![tactic(auto)]

pub mod errors;
mod requests;
mod responses;
pub mod server;
pub mod zone_store;

pub use requests::{message_request, message_sameness, request_laws, update_request};
pub use responses::{encoding_sink, message_response};
pub use server_limits::access_control as access;
