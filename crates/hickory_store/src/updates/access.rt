//! Who may update the zone, and who may have a transfer of it.

ghost use Rattle.std.specs.Prelude.{◌≡◌, Some, None, Err, IfOk};
ghost use Rattle.hickory_base.specs.declared.errors.UpdateFault.TheVariants as update_fault;
ghost use Rattle.hickory_store.specs.updates.Permission.{TellsPermission, judged, kind_refusal, signature_kind, signed_permission, transfer_permission, update_permission};
ghost use Rattle.hickory_store.specs.updates.Refusals.{TellsCode};

use crate::updates::handler::UpdatableZoneHandler;
use crate::updates::verifier::{Verifier, VerifyError};
use hickory_base::errors::UpdateFault;
use hickory_base::server::Request;
use hickory_base::zone_store::AxfrPolicy;
use hickory_wire::{Record, ResponseCode, TSIG, TSigResponseContext, TSigResponseKind, TsigError};
use std::alloc::{AllocError, Global};

/// How a verifier judges the signature of a request, at a moment in seconds since 1970.
fn judge<V: Verifier>(
    verifier: &V,
    alloc: Global,
    request: &Request,
    signature: &Record<TSIG>,
    now: u64,
) -> Result<TSigResponseKind, AllocError>
    ensures { IfOk result (λ kind. kind ≡ signature_kind V.Verifier verifier.now request.now now signature.now) }
{
    if !verifier.knows(&signature.name) {
        return Ok(TSigResponseKind::UnknownKey);
    }
    match verifier.verify(alloc, &signature.name, request.as_slice()) {
        Ok(times) => {
            let is_good = times.start <= now && now < times.end;
            Ok(TSigResponseKind::Known {
                mac: signature.rdata.mac.clone()?,
                error: if is_good {
                    None
                } else {
                    Some(TsigError::BadTime)
                },
            })
        }
        Err(VerifyError::Bad) => Ok(TSigResponseKind::BadSignature),
        Err(VerifyError::Memory) => Err(AllocError),
    }
}

/// Whether a request may do what it asks for, by how its signature was judged.
fn permit(kind: &TSigResponseKind) -> Result<(), ResponseCode>
    ensures { TellsCode (kind_refusal kind.now) result }
{
    match kind {
        TSigResponseKind::Known { error: None, .. } => Ok(()),
        _ => Err(ResponseCode::NOT_AUTH),
    }
}

/// Whether a request may do what it asks for, and what the signer of the reply has to know. Where memory is refused,
/// there is nothing for the signer.
type Permission = (Result<(), UpdateFault>, Option<TSigResponseContext>);

/// What the signer of the reply has to know.
fn context(
    request: &Request,
    signature: &Record<TSIG>,
    now: u64,
    kind: TSigResponseKind,
) -> Result<TSigResponseContext, AllocError>
    ensures { IfOk result (λ context. (judged request.now now signature.now kind).context ≡ Some context) }
{
    Ok(TSigResponseContext {
        request_id: request.metadata().id,
        now,
        key_name: signature.name.clone()?,
        kind,
    })
}

/// By a signature.
fn permit_signed<V: Verifier>(
    verifier: &V,
    alloc: Global,
    request: &Request,
    signature: &Record<TSIG>,
    now: u64,
) -> Permission
    ensures { TellsPermission (judged request.now now signature.now
        (signature_kind V.Verifier verifier.now request.now now signature.now)) result.0 result.1 }
{
    let Ok(kind) = judge(verifier, alloc, request, signature, now) else {
        return (Err(UpdateFault::Memory), None);
    };
    let permission = permit(&kind);
    match context(request, signature, now, kind) {
        Ok(context) => (permission.map_err(UpdateFault::Code), Some(context)),
        Err(AllocError) => (Err(UpdateFault::Memory), None),
    }
}

/// Refused, with nothing for the signer.
fn refused() -> Permission
    ensures { result ≡ (Err (update_fault.Code 5), None) }
{
    (Err(UpdateFault::Code(ResponseCode::REFUSED)), None)
}

/// By the signature of a request, if it has one.
fn permit_request<V: Verifier>(
    verifier: &V,
    alloc: Global,
    request: &Request,
    now: u64,
) -> Permission
    ensures { TellsPermission (signed_permission V.Verifier verifier.now request.now now) result.0 result.1 }
{
    match &request.message().signature {
        None => refused(),
        Some(signature) => permit_signed(verifier, alloc, request, signature.get(), now),
    }
}

impl<V: Verifier> UpdatableZoneHandler<V> {
    /// Whether a request may update the zone, at a moment in seconds since 1970, and what the signer of the reply has
    /// to know (RFC 2136 section 3.3, RFC 8945 section 5.2).
    ///
    /// Where updates are not allowed, or the request is not signed, it is Refused. Else the verifier is asked whether
    /// it knows the key and whether the signature is good now; where one of these fails it is NotAuth, and the context
    /// tells the signer which. The context is `None` with Refused and with `Memory`.
    pub fn authorize_update(&self, alloc: Global, request: &Request, now: u64) -> Permission
        ensures { TellsPermission (update_permission V.Verifier self.now.verifier self.now.allow_update request.now now)
            result.0 result.1 }
    {
        if !self.allow_update {
            return refused();
        }
        permit_request(&self.verifier, alloc, request, now)
    }

    /// Whether a request may have a transfer of the zone.
    pub(crate) fn authorize_transfer(
        &self,
        alloc: Global,
        request: &Request,
        now: u64,
    ) -> Permission
        ensures { TellsPermission (transfer_permission V.Verifier self.now.verifier self.now.axfr_policy request.now
            now) result.0 result.1 }
    {
        match self.axfr_policy {
            AxfrPolicy::Deny => refused(),
            AxfrPolicy::AllowAll => (Ok(()), None),
            AxfrPolicy::AllowSigned => permit_request(&self.verifier, alloc, request, now),
        }
    }
}
