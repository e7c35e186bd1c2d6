//! Why a sample has no answer.

use hickory_server::proto::NameError;
use hickory_server::server::serve::ServeError;
use hickory_server::store::blocklist::AddError;
use hickory_server::store::file::ZoneError;
use hickory_server::zone_text::ZoneFileError;
use std::alloc::AllocError;
use thiserror::Error;

/// Why a sample has no answer.
#[derive(Debug, Drop, Error)]
pub enum Fault {
    /// A text is no name.
    #[error("{0}")]
    Name(#[from] NameError),
    /// A text is no list of records.
    #[error("{0}")]
    Records(#[from] ZoneFileError),
    /// A text is no zone file.
    #[error("{0}")]
    Zone(#[from] ZoneError),
    /// A text is no list of names.
    #[error("{0}")]
    List(#[from] AddError),
    /// A message was not served.
    #[error("{0}")]
    Served(#[from] ServeError),
    /// Memory was refused.
    #[error("no memory")]
    Memory(#[from(alloc)] AllocError),
}
