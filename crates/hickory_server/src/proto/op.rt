//! Whole messages, and what they are made of beside their records.

pub use hickory_wire::{
    Edns, Header, HeaderCounts, LowerQuery, Message, MessageType, Metadata, OpCode, Query,
    ResponseCode,
};
