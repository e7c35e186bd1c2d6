//! Why a text is no list of settings.

use thiserror::Error as Told;
use toml::de::Error;

/// Why a text is no list of settings.
#[derive(Debug, Drop, Told)]
pub enum SettingsFault {
    /// It is not TOML 1.1, or not UTF-8.
    #[error("{line}: {}", .error.message())]
    Syntax {
        /// What is wrong.
        error: Error,
        /// The line of it, from 1.
        line: usize,
    },
    /// There is no option of this name.
    #[error("{line}: there is no option {name:?}")]
    UnknownOption {
        /// The name.
        name: String,
        /// The line with which the document has it, from 1.
        line: usize,
    },
    /// The value of this option is not of a kind that gives it one: a text, a whole number that is not negative, or an
    /// array or a table of these.
    #[error("{line}: {name:?} must be a text, a whole number that is not negative, or a list or a table of these")]
    WrongValue {
        /// The name of the option.
        name: String,
        /// The line with which the document has it, from 1.
        line: usize,
    },
    /// The value of `zone` gives it none: it is of another kind, or has a table with another key, or with a value of
    /// another kind under one of these.
    #[error("{line}: \"zone\" must be texts, a table of them, or tables with name, file, allow-transfer, deny-transfer, allow-transfer-key and update, which has tables with key, rule and types")]
    WrongZone {
        /// The line with which the document has it, from 1.
        line: usize,
    },
    /// Memory was refused.
    #[error("no memory")]
    Memory,
}
