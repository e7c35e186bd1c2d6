//! Requests: the message of a request, how it is read and written, when two are equal, and its sections as a dynamic
//! update.

pub mod message_request;
pub mod message_sameness;
pub mod request_encoding;
pub mod request_laws;
pub mod request_reading;
pub mod update_request;
