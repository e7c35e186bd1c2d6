//! Who judges the signatures of updates and transfers, for a zone's handler.

ghost use Rattle.std.specs.Prelude.{◌≡◌, IfOk, is_some};
ghost use Rattle.tsig.specs.Keys.{key_of};
ghost use Rattle.tsig.specs.Validity.{is_of, is_signed, times_by, validity};

use crate::judging::{has_fixed_fields, is_mac_len, is_mac_of, is_named, signed_text};
use crate::keys::{Key, Keys};
use crate::reading::{PlacedSignature, signature_of};
use crate::verified::{TIME_BITS, times_of};
use hickory_store::updates::{Verifier, VerifyError};
use std::alloc::{AllocError, Global};
use std::ops::Range;
use wire_messages::rr::record::Record;
use wire_messages::rr::tsig::TSIG;
use wire_names::error::DecodeError;
use wire_names::rr::domain::name::Name;

/// It judges signatures by its keys, for one handler. `judge` says more of a message: this says of a signature only
/// whether it is good, and when, so that a key of another algorithm is as bad as a wrong MAC.
#[derive(Drop)]
pub struct TsigVerifier {
    /// The keys.
    pub keys: Keys,
}

/// Whether a record is of the key.
fn is_of(alloc: Global, key: &Key, s: &Record<TSIG>) -> Result<bool, AllocError>
    ensures { IfOk result (λ answer. answer ≡ is_of key.now s.now) }
{
    let is_named = is_named(alloc, key.algorithm, &s.rdata.algorithm)?;
    let len = s.rdata.mac.len();
    Ok(
        has_fixed_fields(s)
            && s.rdata.time < 1 << TIME_BITS
            && key.name == s.name
            && is_named
            && is_mac_len(key.algorithm, len)
            && key.shortest <= len,
    )
}

/// Whether a signature is of the key, for this message.
fn is_signed(
    alloc: Global,
    key: &Key,
    bytes: &[u8],
    p: &PlacedSignature,
) -> Result<bool, AllocError>
    ensures { IfOk result (λ answer. answer ≡ is_signed key.now bytes.now p.now) }
{
    if !is_of(alloc, key, &p.signature)? {
        return Ok(false);
    }
    let text = signed_text(alloc, key, bytes, p)?;
    is_mac_of(alloc, key, &text, p.signature.rdata.mac.as_slice())
}

/// When the signature of a message is good by the key.
fn times_by(
    alloc: Global,
    key: &Key,
    bytes: &[u8],
    p: &PlacedSignature,
) -> Result<Option<Range<u64>>, AllocError>
    ensures { IfOk result (λ times. times ≡ times_by key.now bytes.now p.now) }
{
    let is_good = is_signed(alloc, key, bytes, p)?;
    if is_good && p.signature.rdata.time < 1 << TIME_BITS {
        return Ok(Some(times_of(&p.signature.rdata)));
    }
    Ok(None)
}

impl Verifier for TsigVerifier {
    ghost knows_key = { λ verifier name. is_some (key_of verifier.keys name) };

    ghost validity = { λ verifier name bytes. validity verifier.keys name bytes };

    fn knows(&self, key: &Name) -> bool {
        self.keys.find(key).is_some()
    }

    #[tactic(auto, unfolding(crate::specs::Validity::validity))]
    fn verify(&self, alloc: Global, key: &Name, message: &[u8]) -> Result<Range<u64>, VerifyError> {
        let Some(key) = self.keys.find(key) else {
            return Err(VerifyError::Bad);
        };
        if let Some(times) = self.keys.remembered(key, message) {
            return Ok(times);
        }
        let p = match signature_of(alloc, message) {
            Ok(Some(p)) => p,
            Ok(None) => return Err(VerifyError::Bad),
            Err(DecodeError::Memory) => return Err(VerifyError::Memory),
            Err(_) => return Err(VerifyError::Bad),
        };
        match times_by(alloc, key, message, &p) {
            Ok(Some(times)) => Ok(times),
            Ok(None) => Err(VerifyError::Bad),
            Err(AllocError) => Err(VerifyError::Memory),
        }
    }
}
