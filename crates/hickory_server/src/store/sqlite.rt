//! Zones that take dynamic updates, why they make one not, the laws of what updates leave, and worked examples of the
//! definitions.

pub use hickory_base::errors::UpdateFault;
pub use hickory_store::updates::{
    UpdatableZoneHandler as SqliteZoneHandler, Verifier, VerifyError, laws, worked,
};
