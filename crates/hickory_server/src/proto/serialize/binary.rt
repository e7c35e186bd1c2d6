//! The decoder and the encoder of messages in bytes.

pub use hickory_wire::{BinDecoder, BinEncoder, DecodeError};
