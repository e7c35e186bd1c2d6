//! Who signs replies.

ghost use Rattle.std.specs.Prelude.{◌≡◌};

use hickory_wire::{Boxed, Record, TSIG, TSigResponseContext};
use std::alloc::Global;
use thiserror::Error;

/// Why a reply was not signed.
#[derive(Clone, Copy, Debug, PartialEq, Eq, Error)]
pub enum SignError {
    /// The signer cannot sign it.
    #[error("the reply cannot be signed")]
    Failed,
    /// Memory was refused.
    #[error("out of memory")]
    Memory,
}

/// What signs replies with transaction signatures (RFC 8945 section 5.3).
///
/// Want of memory aside, the answer is a function of the signer's state, the context and the bytes: `signature_for` has
/// the TSIG record, or `None` where the signer cannot sign.
pub trait ReplySigner: Drop {
    ghost use Rattle.std.specs.Prelude.{◌≡◌, ◌≢◌, ℕ, List, Option, Some, None, IfOk, IfErr};
    ghost use Rattle.wire_messages.specs.declared.rr.record.Record.{Record};
    ghost use Rattle.wire_messages.specs.declared.rr.tsig.TSIG.{TSIG};
    ghost use Rattle.wire_messages.specs.declared.rr.tsig.TSigResponseContext.{TSigResponseContext};

    ghost signature_for: { Self → TSigResponseContext → List ℕ → Option (Record TSIG) };

    /// The TSIG record for the bytes of a reply that has no signature yet. The context says how the request's signature
    /// was judged.
    fn sign(
        &self,
        alloc: Global,
        context: &TSigResponseContext,
        bytes: &[u8],
    ) -> Result<Boxed<Record<TSIG>>, SignError>
        ensures signed { IfOk result (λ signature.
            signature_for self.now context.entry.now bytes.now ≡ Some signature) }
        ensures failed { IfErr result (λ e. e ≢ SignError.Memory →
            signature_for self.now context.entry.now bytes.now ≡ None) };
}
