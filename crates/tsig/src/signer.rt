//! Who signs the replies of a catalog, by what a handler told of the request's signature.

ghost use Rattle.std.specs.Prelude.{◌≡◌, [], IfOk};
ghost use Rattle.std.specs.Option.{option_copied};
ghost use Rattle.tsig.specs.ContextSigning.{context_signature, data_of, signature_by, signed_record, time_data, time_error, unsigned_error};
ghost use Rattle.tsig.specs.Signing.{record_of};

use crate::algorithm::Algorithm;
use crate::digest::{put_time, reply_digest};
use crate::keys::{Key, Keys};
use crate::signing::{FUDGE, record_of, time_of};
use hickory_catalog::signer::{ReplySigner, SignError};
use std::alloc::{AllocError, Global};
use wire_messages::rr::record::Record;
use wire_messages::rr::tsig::{TSIG, TSigResponseContext, TSigResponseKind, TsigError};
use wire_names::values::boxed::Boxed;
use wire_names::values::octets::Octets;

/// The error of a reply where the key is not known (RFC 8945 section 3).
const BAD_KEY: u16 = 17;

/// The error where the MAC does not fit.
const BAD_SIG: u16 = 16;

/// The error where the time does not fit.
const BAD_TIME: u16 = 18;

/// It signs by its keys what a catalog has it sign. A context tells less of a request than a `Judgement`: where the key
/// is not known the record names hmac-sha256, and a BADTIME reply has the server's time in the place of the client's.
/// `sign` does both as RFC 8945 wants it.
#[derive(Drop)]
pub struct TsigSigner {
    /// The keys.
    pub keys: Keys,
}

/// What the record of a reply says, but for the MAC.
fn data_of(
    alloc: Global,
    algorithm: Algorithm,
    context: &TSigResponseContext,
    error: u16,
    other: Octets,
) -> Result<TSIG, AllocError>
    ensures { IfOk result (λ t. t ≡ data_of algorithm context.entry.now error other) }
{
    Ok(TSIG {
        algorithm: algorithm.name(alloc)?,
        time: time_of(context.now),
        fudge: FUDGE,
        mac: Octets::from_vec(Vec::new(alloc)),
        oid: context.request_id,
        error,
        other,
    })
}

/// A record that tells an error, without a MAC.
fn unsigned_error(
    alloc: Global,
    algorithm: Algorithm,
    context: &TSigResponseContext,
    error: u16,
) -> Result<Record<TSIG>, AllocError>
    ensures { IfOk result (λ made. made ≡ unsigned_error algorithm context.entry.now error) }
{
    let other = Octets::from_vec(Vec::new(alloc));
    let t = data_of(alloc, algorithm, context, error, other)?;
    record_of(&context.key_name, t)
}

/// The number of an error.
fn time_error(error: &Option<TsigError>) -> u16
    ensures { result ≡ time_error error.now }
{
    match error {
        None => 0,
        Some(TsigError::BadTime) => BAD_TIME,
    }
}

/// The other data that go with it.
fn time_data(
    alloc: Global,
    context: &TSigResponseContext,
    error: &Option<TsigError>,
) -> Result<Octets, AllocError>
    ensures { IfOk result (λ other. other ≡ time_data context.entry.now error.now) }
{
    let mut other = Vec::new(alloc);
    if let Some(TsigError::BadTime) = error {
        put_time(&mut other, time_of(context.now))?;
    }
    Ok(Octets::from_vec(other))
}

/// The record with its MAC.
fn signed_record(
    alloc: Global,
    key: &Key,
    context: &TSigResponseContext,
    prior: &[u8],
    bytes: &[u8],
    mut t: TSIG,
) -> Result<Record<TSIG>, AllocError>
    ensures { IfOk result (λ made. made ≡ signed_record key.now context.entry.now prior.now bytes.now t) }
{
    let text = reply_digest(alloc, prior, &key.name, key.algorithm, &t, bytes)?;
    t.mac = Octets::from_vec(key.mac(alloc, &text)?);
    record_of(&context.key_name, t)
}

/// The record of a reply to a request that was judged so, or `None` where there is no key for it.
fn signature_by(
    alloc: Global,
    key: Option<&Key>,
    context: &TSigResponseContext,
    bytes: &[u8],
) -> Result<Option<Record<TSIG>>, AllocError>
    ensures { IfOk result (λ made. made ≡ signature_by (option_copied key.entry) context.entry.now bytes.now
        context.entry.now.kind) }
{
    if let TSigResponseKind::UnknownKey = &context.kind {
        let made = unsigned_error(alloc, Algorithm::HmacSha256, context, BAD_KEY)?;
        return Ok(Some(made));
    }
    let Some(key) = key else {
        return Ok(None);
    };
    let TSigResponseKind::Known { mac, error } = &context.kind else {
        let made = unsigned_error(alloc, key.algorithm, context, BAD_SIG)?;
        return Ok(Some(made));
    };
    let other = time_data(alloc, context, error)?;
    let t = data_of(alloc, key.algorithm, context, time_error(error), other)?;
    let made = signed_record(alloc, key, context, mac.as_slice(), bytes, t)?;
    Ok(Some(made))
}

impl ReplySigner for TsigSigner {
    ghost signature_for = { λ signer context bytes. context_signature signer.keys context bytes };

    #[tactic(auto, unfolding(crate::specs::ContextSigning::context_signature))]
    fn sign(
        &self,
        alloc: Global,
        context: &TSigResponseContext,
        bytes: &[u8],
    ) -> Result<Boxed<Record<TSIG>>, SignError> {
        match signature_by(alloc, self.keys.find(&context.key_name), context, bytes) {
            Ok(Some(made)) => match Boxed::new(alloc, made) {
                Ok(made) => Ok(made),
                Err(_) => Err(SignError::Memory),
            },
            Ok(None) => Err(SignError::Failed),
            Err(AllocError) => Err(SignError::Memory),
        }
    }
}
