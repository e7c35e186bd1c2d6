//! What becomes of a message by the rules of a server.

use hickory_wire::{Items, Octets};

/// What becomes of a message.
#[derive(Drop)]
pub enum Answer {
    /// Its address may not use the server. Nobody looks at its bytes, and no reply is sent.
    Denied,
    /// It is itself a response, and gets none: two servers would answer each other without end.
    Response,
    /// It is shorter than a header (RFC 1035 section 4.1.1). No reply is sent.
    Unreadable,
    /// The bytes of its replies, in the order in which they are sent. Only a transfer may have several.
    Replies(Items<Octets>),
}
