//! Why a text could not be read.

ghost use Rattle.std.specs.Prelude.{◌≡◌};
ghost use Rattle.text_words.specs.declared.error.TextError.TheVariants.{Memory};

use std::alloc::{AllocError, AllocFailed};
use thiserror::Error;

/// What is wrong with a text.
#[derive(Clone, Copy, Debug, PartialEq, Eq, Error)]
pub enum TextFault {
    /// The text ends before a field.
    #[error("a field is missing")]
    MissingField,
    /// There is text after the last field.
    #[error("text after the last field")]
    TooMuchText,
    /// The field is no TTL: a decimal number of seconds.
    #[error("not a TTL")]
    NotATtl,
    /// The field is neither the mnemonic of a type nor `TYPE` and a number of 16 bits.
    #[error("unknown type")]
    UnknownType,
    /// The field is neither the mnemonic of a class nor `CLASS` and a number of 16 bits.
    #[error("unknown class")]
    UnknownClass,
    /// A name is empty, has an empty label, or holds a `"`, `(`, `)` or `;` with no backslash before it.
    #[error("not a name")]
    BadName,
    /// A label has more than 63 bytes (RFC 1035 section 2.3.4).
    #[error("a label has more than 63 bytes")]
    LabelTooLong,
    /// A name has more than 255 bytes (RFC 1035 section 2.3.4).
    #[error("a name has more than 255 bytes")]
    NameTooLong,
    /// A name does not end in a dot.
    #[error("the name is not fully qualified")]
    NotFullyQualified,
    /// The field is no address of its family.
    #[error("not an address")]
    BadAddress,
    /// The field is no decimal number.
    #[error("not a number")]
    BadNumber,
    /// A number is greater than its field can hold.
    #[error("the number is too large")]
    NumberOutOfRange,
    /// A character string has more than 255 bytes (RFC 1035 section 3.3).
    #[error("a string has more than 255 bytes")]
    StringTooLong,
    /// A backslash stands last, or before a digit that does not begin three decimal digits of at most 255.
    #[error("a backslash that escapes nothing")]
    BadEscape,
    /// A quoted string does not end.
    #[error("the quote is not closed")]
    UnclosedQuote,
    /// A parenthesis of a zone file is not closed.
    #[error("the parenthesis is not closed")]
    OpenParenthesis,
    /// A parenthesis of a zone file closes none that is open.
    #[error("no parenthesis is open")]
    StrayParenthesis,
    /// The field is no hexadecimal digits, two for each byte.
    #[error("not hexadecimal digits")]
    BadHex,
    /// The field is not a hash in base 32: digits and letters up to V, in a last group of 2, 4, 5, 7 or 8 (RFC 5155
    /// section 3.3, RFC 4648 section 7).
    #[error("not base 32")]
    BadBase32,
    /// The field is neither a date with a time of day, of fourteen digits, nor a number of seconds (RFC 4034 section
    /// 3.2).
    #[error("not a date")]
    BadDate,
    /// The fields are not the encoding of bytes in base 64 (RFC 4648 section 4).
    #[error("not base 64")]
    BadBase64,
    /// The length before the hexadecimal digits is not the number of bytes that they spell.
    #[error("the length is not the length of the data")]
    WrongLength,
    /// The bytes are not data of that type without compression.
    #[error("the bytes are not data of the type")]
    WrongData,
    /// The data have more bytes than their length can tell (RFC 1035 section 3.2.1).
    #[error("the data have more than 65535 bytes")]
    DataTooLong,
    /// Data of the type are written only as `\#`, a length and hexadecimal digits (RFC 3597 section 5).
    #[error("data of the type must be written with \\#")]
    NoTextForm,
}

/// Why a text could not be read: what is wrong and where, or an allocation failed.
#[derive(Clone, Copy, Debug, PartialEq, Eq, Error)]
pub enum TextError {
    /// Something is wrong with the text. The message begins with the column.
    #[error("{column}: {fault}")]
    At {
        /// Which byte of the text it begins with; the first is 1. If something is missing, the byte after the last one.
        column: usize,
        /// What is wrong.
        fault: TextFault,
    },
    /// An allocation failed.
    #[error("out of memory")]
    Memory,
}

impl From<AllocError> for TextError {
    ghost from_gives = { λ _ e. e ≡ Memory };

    fn from(_e: AllocError) -> TextError {
        TextError::Memory
    }
}

impl<T: Drop> From<AllocFailed<T>> for TextError {
    ghost from_gives = { λ _ e. e ≡ Memory };

    fn from(_e: AllocFailed<T>) -> TextError {
        TextError::Memory
    }
}
