//! What identifies a server.

ghost use Rattle.std.specs.Prelude.{◌≡◌, IfOk};
ghost use Rattle.served_zones.specs.declared.identifier.IdentifierFault.TheVariants as identifier_fault;

use hickory_server::proto::NSIDPayload;
use std::alloc::{AllocError, Global};
use thiserror::Error;

/// Why a text cannot identify a server.
#[derive(Clone, Copy, Debug, PartialEq, Eq, Error)]
pub enum IdentifierFault {
    /// It has more bytes than an option holds (RFC 6891 section 6.1.2).
    #[error("the identifier is too long")]
    Long,
    /// An allocation failed.
    #[error("no memory")]
    Memory,
}

impl From<AllocError> for IdentifierFault {
    ghost from_gives = { λ _ e. e ≡ identifier_fault.Memory };

    fn from(_e: AllocError) -> IdentifierFault {
        IdentifierFault::Memory
    }
}

/// The identifier that has these bytes (RFC 5001 section 3.1), of which there are at most 65,531.
pub fn identifier(alloc: Global, bytes: &[u8]) -> Result<NSIDPayload, IdentifierFault>
    ensures { IfOk result (λ payload. payload ≡ bytes.now) }
{
    match NSIDPayload::new(bytes.to_vec(alloc)?) {
        Ok(payload) => Ok(payload),
        Err(_) => Err(IdentifierFault::Long),
    }
}
