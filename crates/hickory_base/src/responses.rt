//! Replies: their parts and builder, how they are encoded, and the sinks that they are handed to.

pub mod encoding_sink;
mod lenders;
pub mod message_response;
pub mod response_encoding;
pub mod response_handler;
