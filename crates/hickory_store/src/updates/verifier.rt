//! Who judges the signatures of requests.

ghost use Rattle.std.specs.Prelude.{◌≡◌};

use hickory_wire::Name;
use std::alloc::Global;
use std::ops::Range;
use thiserror::Error;

/// Why a signature was not found good.
#[derive(Clone, Copy, Debug, PartialEq, Eq, Error)]
pub enum VerifyError {
    /// It does not fit the message.
    #[error("the signature does not fit the message")]
    Bad,
    /// Memory was refused.
    #[error("out of memory")]
    Memory,
}

/// What judges the transaction signatures of requests (RFC 8945 section 5.2).
///
/// Want of memory aside, the answers are functions of the verifier's state, the name of the key and the bytes:
/// `knows_key` says whether there is such a key, and `validity` has the times at which the signature is good, or `None`
/// where it is bad.
pub trait Verifier: Drop {
    ghost use Rattle.std.specs.Prelude.{◌≡◌, ◌≢◌, ℕ, Bool, List, Option, Some, None, IfOk, IfErr};
    ghost use Rattle.std.specs.declared.ops.Range.{Range as Times};
    ghost use Rattle.wire_names.specs.rr.domain.DomainName.{DomainName};

    ghost knows_key: { Self → DomainName → Bool };

    ghost validity: { Self → DomainName → List ℕ → Option (Times ℕ) };

    /// Whether there is a key of this name.
    fn knows(&self, key: &Name) -> bool
        ensures { result ≡ knows_key self.now key.now };

    /// Judges the signature in the bytes of a message, by the key of this name. The range has the seconds since 1970 at
    /// which the signature is good: from its start on, and before its end.
    fn verify(&self, alloc: Global, key: &Name, message: &[u8]) -> Result<Range<u64>, VerifyError>
        ensures good { IfOk result (λ times. validity self.now key.now message.now ≡ Some times) }
        ensures bad { IfErr result (λ e. e ≢ VerifyError.Memory → validity self.now key.now message.now ≡ None) };
}
