//! A server without keys.

ghost use Rattle.std.specs.Prelude.{◌≡◌, Err, None, false};

use hickory_catalog::signer::{ReplySigner, SignError};
use hickory_store::updates::{Verifier, VerifyError};
use hickory_wire::{Boxed, Name, Record, TSIG, TSigResponseContext};
use std::alloc::Global;
use std::ops::Range;

/// The keys of a server that has none: it knows no key, finds no signature good, and signs nothing (RFC 8945 section
/// 5.2.1).
#[derive(Drop)]
pub struct NoKeys;

impl Verifier for NoKeys {
    ghost knows_key = { λ _ _. false };

    ghost validity = { λ _ _ _. None };

    fn knows(&self, _key: &Name) -> bool {
        false
    }

    /// `Bad`, whatever the message.
    fn verify(
        &self,
        _alloc: Global,
        _key: &Name,
        _message: &[u8],
    ) -> Result<Range<u64>, VerifyError>
        ensures { result ≡ Err VerifyError.Bad }
    {
        Err(VerifyError::Bad)
    }
}

impl ReplySigner for NoKeys {
    ghost signature_for = { λ _ _ _. None };

    /// `Failed`, whatever the reply.
    fn sign(
        &self,
        _alloc: Global,
        _context: &TSigResponseContext,
        _bytes: &[u8],
    ) -> Result<Boxed<Record<TSIG>>, SignError>
        ensures { result ≡ Err SignError.Failed }
    {
        Err(SignError::Failed)
    }
}
