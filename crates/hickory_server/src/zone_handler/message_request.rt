//! The message of a request, its questions, and its sections as a dynamic update.

pub use hickory_base::message_request::{MessageRequest, Queries};
pub use hickory_base::update_request::UpdateRequest;
