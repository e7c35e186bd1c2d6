//! The verifier and the signer of a script: what they do depends on the name of the key, and on nothing else.

ghost use Rattle.std.specs.Prelude.{◌≡◌, IfErr, IfOk, not};
ghost use Rattle.wire_names.specs.rr.domain.NameOrder.{name_eq};
ghost use Rattle.tests.specs.Keys.{error_of, mac_of, signature_of, signature_unless, times_unless};

use crate::calls::CallLog;
use hickory_catalog::signer::{ReplySigner, SignError};
use hickory_store::updates::{Verifier, VerifyError};
use hickory_wire::{
    Boxed, DNSClass, Name, Octets, Proof, Record, TSIG, TSigResponseContext, TSigResponseKind,
};
use std::alloc::{AllocError, Global};
use std::ops::Range;

/// It judges the signatures of requests: good from 100 until 200, unless the name of the key says otherwise.
#[derive(Drop)]
pub struct KeyVerifier {
    /// The key that it does not know.
    pub unknown: Name,
    /// The key whose signatures are bad.
    pub bad: Name,
    /// The key for which it lacks memory.
    pub lacking: Name,
    /// Where it notes that it answered so.
    pub log: CallLog,
}

impl Verifier for KeyVerifier {
    ghost knows_key = { λ verifier key. not (name_eq key verifier.unknown) };

    ghost validity = { λ verifier key _. times_unless (name_eq key verifier.bad) };

    fn knows(&self, key: &Name) -> bool {
        *key != self.unknown
    }

    fn verify(
        &self,
        _alloc: Global,
        key: &Name,
        _message: &[u8],
    ) -> Result<Range<u64>, VerifyError> {
        if *key == self.lacking {
            self.log.want_memory();
            Err(VerifyError::Memory)
        } else if *key == self.bad {
            Err(VerifyError::Bad)
        } else {
            Ok(100..200)
        }
    }
}

/// It signs each reply with the MAC 01020304, unless the name of the key says otherwise.
#[derive(Drop)]
pub struct KeySigner {
    /// The key that it cannot sign by.
    pub failing: Name,
    /// The key for which it lacks memory.
    pub lacking: Name,
    /// The key by which it signs with the bytes themselves.
    pub echoing: Name,
    /// Where it notes that it answered so.
    pub log: CallLog,
}

/// The error of a reply whose request was signed so (RFC 8945 section 3).
pub fn error_of(kind: &TSigResponseKind) -> u16
    ensures { result ≡ error_of kind.now }
{
    match kind {
        TSigResponseKind::UnknownKey => 17,
        TSigResponseKind::BadSignature => 16,
        TSigResponseKind::Known { error: None, .. } => 0,
        TSigResponseKind::Known { error: Some(_), .. } => 18,
    }
}

/// The TSIG record of a reply with this MAC.
fn record_of(
    alloc: Global,
    context: &TSigResponseContext,
    mac: &[u8],
) -> Result<Record<TSIG>, AllocError>
    ensures { IfOk result (λ made. made ≡ signature_of context.entry.now mac.now) }
{
    let rdata = TSIG {
        algorithm: Name::root(),
        time: context.now,
        fudge: 300,
        mac: Octets::from_slice(alloc, mac)?,
        oid: context.request_id,
        error: error_of(&context.kind),
        other: Octets::from_slice(alloc, b"")?,
    };
    Ok(Record {
        name: context.key_name.clone()?,
        dns_class: DNSClass::ANY,
        ttl: 0,
        rdata,
        proof: Proof::Indeterminate,
    })
}

/// The TSIG record of a reply with this MAC, on the heap.
fn signature(
    alloc: Global,
    context: &TSigResponseContext,
    mac: &[u8],
) -> Result<Boxed<Record<TSIG>>, SignError>
    ensures signed { IfOk result (λ signature. signature ≡ signature_of context.entry.now mac.now) }
    ensures refused { IfErr result (λ e. e ≡ SignError.Memory) }
{
    let Ok(record) = record_of(alloc, context, mac) else {
        return Err(SignError::Memory);
    };
    Boxed::new(alloc, record).map_err(|_| SignError::Memory)
}

impl ReplySigner for KeySigner {
    ghost signature_for = { λ signer context bytes. signature_unless (name_eq context.key_name signer.failing)
        (signature_of context (mac_of (name_eq context.key_name signer.echoing) bytes)) };

    fn sign(
        &self,
        alloc: Global,
        context: &TSigResponseContext,
        bytes: &[u8],
    ) -> Result<Boxed<Record<TSIG>>, SignError> {
        if context.key_name == self.lacking {
            self.log.want_memory();
            Err(SignError::Memory)
        } else if context.key_name == self.failing {
            Err(SignError::Failed)
        } else if context.key_name == self.echoing {
            signature(alloc, context, bytes)
        } else {
            signature(alloc, context, b"\x01\x02\x03\x04")
        }
    }
}
