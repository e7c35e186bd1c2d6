//! The catalog of zones, why it hands over no reply, and who signs its replies.

pub use hickory_base::errors::CatalogError;
pub use hickory_catalog::catalog::Catalog;
pub use hickory_catalog::signer::{ReplySigner, SignError};
