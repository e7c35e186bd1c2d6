//! Requests, and what replies are handed to.

mod above;
pub mod answer;
mod datagrams;
pub mod form_error;
mod no_keys;
pub mod rule_laws;
pub mod rules;
mod sending;
pub mod serve;
pub mod service;
pub mod writing;

pub use answer::Answer;
pub use hickory_base::encoding_sink::EncodingSink;
pub use hickory_base::server::{
    RecordRef, Request, RequestHandler, RequestInfo, ResponseHandler, ResponseInfo, encode_response,
};
pub use no_keys::NoKeys;
pub use rules::{Rules, Ruling, ZoneTransfers};
pub use service::Server;
