//! Why a line is not obeyed, or the program ends.

use hickory_wire::{CodeTextError, ProtoError};
use record_text::TextError;
use std::alloc::AllocError;
use std::io;
use std::net::AddrParseError;
use std::num::ParseIntError;
use thiserror::Error;

/// Why a line is not obeyed, or the program ends.
#[derive(Debug, Drop, Error)]
pub enum Fault {
    /// No command is written so.
    #[error("{0}")]
    Line(&'static str),
    /// A number is wanted.
    #[error("{0}")]
    Number(#[from] ParseIntError),
    /// A type or a response code is wanted.
    #[error("{0}")]
    Code(#[from] CodeTextError),
    /// An address is wanted.
    #[error("{0}")]
    Address(#[from] AddrParseError),
    /// The text of a name or of a record is wanted.
    #[error("{0}")]
    Text(TextError),
    /// The bytes are no message.
    #[error("{0}")]
    Message(ProtoError),
    /// Memory was refused: the program ends.
    #[error("no memory")]
    Memory(#[from(alloc)] AllocError),
    /// Input or output failed: the program ends.
    #[error("input or output failed")]
    Stream,
}

impl From<TextError> for Fault {
    fn from(e: TextError) -> Fault {
        match e {
            TextError::Memory => Fault::Memory(AllocError),
            e => Fault::Text(e),
        }
    }
}

impl From<ProtoError> for Fault {
    fn from(e: ProtoError) -> Fault {
        match e {
            ProtoError::Memory => Fault::Memory(AllocError),
            e => Fault::Message(e),
        }
    }
}

impl From<io::Error> for Fault {
    fn from(e: io::Error) -> Fault {
        match e.kind() {
            io::ErrorKind::OutOfMemory => Fault::Memory(AllocError),
            _ => Fault::Stream,
        }
    }
}
