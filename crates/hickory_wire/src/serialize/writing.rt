//! From messages to bytes, within a limit, with laws of what was written.

pub mod encoder;
pub mod encoder_laws;
pub mod message_encoder;
