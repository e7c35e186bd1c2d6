//! Why bytes could not be read or written.

ghost use Rattle.std.specs.Prelude.{◌≡◌};
ghost use Rattle.wire_names.specs.declared.error.DecodeError.TheVariants as decode_error;
ghost use Rattle.wire_names.specs.declared.error.ProtoError.TheVariants as proto_error;
ghost use Rattle.wire_names.specs.declared.error.NameError.TheVariants as name_error;

use std::alloc::{AllocError, AllocFailed};
use thiserror::Error;

/// The first fault in reading order, or want of memory.
#[derive(Clone, Copy, Debug, PartialEq, Eq, Error)]
pub enum DecodeError {
    /// The bytes end too early.
    #[error("the bytes end too early")]
    InsufficientBytes,
    /// A length byte's two high bits are 01 or 10 (RFC 1035 section 4.1.4).
    #[error("a length byte begins with the bits 01 or 10")]
    UnrecognizedLabelCode,
    /// A compression pointer does not lead to an earlier place than the labels before it.
    #[error("a compression pointer does not lead before its labels")]
    PointerNotPriorToLabel,
    /// A name has more than 255 bytes (RFC 1035 section 3.1).
    #[error("a name has more than 255 bytes")]
    NameTooLong,
    /// An OPT, TSIG or SIG record stands among answers or authorities.
    #[error("an OPT, TSIG or SIG record stands outside the additional section")]
    RecordNotInAdditionals,
    /// A record stands behind the TSIG (RFC 8945 section 5.2).
    #[error("a record stands behind the TSIG")]
    RecordAfterSignature,
    /// There are two OPT records (RFC 6891 section 6.1.1).
    #[error("there are two OPT records")]
    DuplicateEdns,
    /// The owner name of an OPT record is not the root (RFC 6891 section 6.1.2).
    #[error("the owner name of an OPT record is not the root")]
    EdnsNameNotRoot,
    /// A record's data end at another place than its data length says.
    #[error("a record's data end at another place than their length says")]
    IncorrectDataLength,
    /// Memory was refused.
    #[error("out of memory")]
    Memory,
}

impl From<AllocError> for DecodeError {
    ghost from_gives = { λ _ e. e ≡ decode_error.Memory };

    fn from(_e: AllocError) -> DecodeError {
        DecodeError::Memory
    }
}

impl<T: Drop> From<AllocFailed<T>> for DecodeError {
    ghost from_gives = { λ _ e. e ≡ decode_error.Memory };

    fn from(_e: AllocFailed<T>) -> DecodeError {
        DecodeError::Memory
    }
}

/// Why a text is no name.
#[derive(Clone, Copy, Debug, PartialEq, Eq, Error)]
pub enum NameError {
    /// The text is not that of a name.
    #[error("not the text of a name")]
    Text,
    /// Memory was refused.
    #[error("out of memory")]
    Memory,
}

impl From<AllocError> for NameError {
    ghost from_gives = { λ _ e. e ≡ name_error.Memory };

    fn from(_e: AllocError) -> NameError {
        NameError::Memory
    }
}

/// Why a message could not be read or written. Want of memory is always `Memory`, and never within `Decode`.
#[derive(Clone, Copy, Debug, PartialEq, Eq, Error)]
pub enum ProtoError {
    /// The bytes are no message.
    #[error("{0}")]
    Decode(DecodeError),
    /// Header and questions pass the size limit.
    #[error("header and questions pass the size limit")]
    MaxSizeExceeded,
    /// A character string has more than 255 bytes (RFC 1035 section 3.3).
    #[error("a character string has more than 255 bytes")]
    CharacterDataTooLong,
    /// Data, or a part of them, are too long for their length field.
    #[error("data are too long for their length field")]
    DataTooLong,
    /// Memory was refused.
    #[error("out of memory")]
    Memory,
}

impl From<AllocError> for ProtoError {
    ghost from_gives = { λ _ e. e ≡ proto_error.Memory };

    fn from(_e: AllocError) -> ProtoError {
        ProtoError::Memory
    }
}

impl<T: Drop> From<AllocFailed<T>> for ProtoError {
    ghost from_gives = { λ _ e. e ≡ proto_error.Memory };

    fn from(_e: AllocFailed<T>) -> ProtoError {
        ProtoError::Memory
    }
}
