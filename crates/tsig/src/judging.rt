//! Judging a message by the signature that it carries (RFC 8945 section 5.2).

ghost use Rattle.std.specs.Prelude.{◌≡◌, ◌<◌, ◌^◌, ℕ, List, IfOk};
ghost use Rattle.std.specs.Option.{option_copied};
ghost use Rattle.wire_names.specs.serialize.layout.Bytes.{AreBytes};
ghost use Rattle.tsig.specs.Judging.{Judged, has_fixed_fields, is_in_time, is_mac_len, is_mac_of, is_named, signed_text};
ghost use Rattle.tsig.specs.JudgingSteps.{judged_by, judged_of, judged_with, judgement_of, timed_verdict, verdict_of};
ghost use Rattle.tsig.specs.declared.judgement.Judgement.{Judgement as Answer};
ghost use Rattle.tsig.specs.declared.keys.Key.{Key as AnyKey};

use crate::algorithm::Algorithm;
use crate::digest::{front, request_digest, unsigned_message, variables_room};
use crate::judgement::{Judgement, Verdict};
use crate::keys::{Key, Keys};
use crate::macs::is_same_mac;
use crate::reading::{PlacedSignature, signature_of};
use crate::verified::{TIME_BITS, times_of};
use std::alloc::{AllocError, Global};
use wire_messages::rr::dns_class::DNSClass;
use wire_messages::rr::record::Record;
use wire_messages::rr::tsig::TSIG;
use wire_names::error::DecodeError;
use wire_names::rr::domain::name::Name;
use wire_names::values::boxed::Boxed;

/// Whether the record has the class ANY and the TTL 0.
pub(crate) fn has_fixed_fields(signature: &Record<TSIG>) -> bool
    ensures { result ≡ has_fixed_fields signature.now }
{
    signature.dns_class == DNSClass::ANY && signature.ttl == 0
}

/// Whether a name is the algorithm's.
pub(crate) fn is_named(alloc: Global, algorithm: Algorithm, name: &Name) -> Result<bool, AllocError>
    ensures { IfOk result (λ answer. answer ≡ is_named algorithm name.now) }
{
    Ok(algorithm.name(alloc)? == *name)
}

/// Whether a MAC of the algorithm may have this length.
pub(crate) fn is_mac_len(algorithm: Algorithm, len: usize) -> bool
    ensures { result ≡ is_mac_len algorithm len }
{
    algorithm.least_len() <= len && len <= algorithm.mac_len()
}

/// Whether a MAC is the one of a text, truncated to its own length.
pub(crate) fn is_mac_of(
    alloc: Global,
    key: &Key,
    text: &[u8],
    told: &[u8],
) -> Result<bool, AllocError>
    ensures { IfOk result (λ answer. answer ≡ is_mac_of key.now text.now told.now) }
{
    let right = key.mac(alloc, text)?;
    Ok(is_same_mac(front(&right, told.len()), told))
}

/// Whether a moment lies in the fudge around the time.
fn is_in_time(t: &TSIG, now: u64) -> bool
    ensures { result ≡ is_in_time t.now now }
{
    let fudge = u64::from(t.fudge);
    t.time.saturating_sub(now) <= fudge && now.saturating_sub(t.time) <= fudge
}

/// What a request is signed over by a key.
pub(crate) fn signed_text(
    alloc: Global,
    key: &Key,
    bytes: &[u8],
    p: &PlacedSignature,
) -> Result<Vec<u8>, AllocError>
    ensures { IfOk result (λ text. text.items ≡ signed_text key.now bytes.now p.now.additionals p.now.place
        p.now.signature) }
{
    let t = &p.signature.rdata;
    let room = variables_room(&key.name, t);
    let message = unsigned_message(alloc, bytes, t.oid, p.additionals, p.place, room)?;
    request_digest(&key.name, key.algorithm, t, message)
}

/// Time, and what local policy demands, of a MAC that is right.
fn timed_verdict(key: &Key, t: &TSIG, now: u64) -> Verdict
    ensures { result ≡ timed_verdict key.now t.now now }
{
    if !is_in_time(t, now) {
        return Verdict::BadTime;
    }
    if t.mac.len() < key.shortest {
        return Verdict::BadTrunc;
    }
    Verdict::Good
}

/// The verdict on a MAC that has a length.
fn verdict_of(
    alloc: Global,
    key: &Key,
    text: &[u8],
    t: &TSIG,
    now: u64,
) -> Result<Verdict, AllocError>
    ensures { IfOk result (λ verdict. verdict ≡ verdict_of key.now text.now t.now now) }
{
    if !is_mac_of(alloc, key, text, t.mac.as_slice())? {
        return Ok(Verdict::BadSig);
    }
    Ok(timed_verdict(key, t, now))
}

/// The judgement that a record was judged so.
fn signed(alloc: Global, signature: Record<TSIG>, verdict: Verdict) -> Result<Judgement, AllocError>
    ensures { IfOk result (λ judgement. judgement ≡ Answer.Signed signature verdict) }
{
    let signature = Boxed::new(alloc, signature)?;
    Ok(Judgement::Signed { signature, verdict })
}

/// By a key of this algorithm.
fn judged_with(
    alloc: Global,
    key: &Key,
    bytes: &[u8],
    now: u64,
    p: PlacedSignature,
) -> Result<Judgement, AllocError>
    ensures { IfOk result (λ judgement. judgement ≡ judged_with key.now bytes.now now p) }
{
    if !is_mac_len(key.algorithm, p.signature.rdata.mac.len()) {
        return Ok(Judgement::FormErr);
    }
    let text = signed_text(alloc, key, bytes, &p)?;
    let verdict = verdict_of(alloc, key, &text, &p.signature.rdata, now)?;
    signed(alloc, p.signature, verdict)
}

/// By the key of its name, if there is one.
fn judged_by(
    alloc: Global,
    key: Option<&Key>,
    bytes: &[u8],
    now: u64,
    p: PlacedSignature,
) -> Result<Judgement, AllocError>
    ensures { IfOk result (λ judgement. judgement ≡ judged_by (option_copied key.entry) bytes.now now p) }
{
    let Some(key) = key else {
        return signed(alloc, p.signature, Verdict::BadKey);
    };
    if !is_named(alloc, key.algorithm, &p.signature.rdata.algorithm)? {
        return signed(alloc, p.signature, Verdict::BadKey);
    }
    judged_with(alloc, key, bytes, now, p)
}

/// By the TSIG record.
fn judged_of(
    alloc: Global,
    keys: &Keys,
    bytes: &[u8],
    now: u64,
    p: PlacedSignature,
) -> Result<Judgement, AllocError>
    ensures { IfOk result (λ judgement. judgement ≡ judged_of keys.now bytes.now now p) }
{
    if has_fixed_fields(&p.signature) {
        return judged_by(alloc, keys.find(&p.signature.name), bytes, now, p);
    }
    Ok(Judgement::FormErr)
}

/// The judgement of a message, as a function of keys, bytes and moment.
#[tactic(auto, unfolding(crate::specs::JudgingSteps::judgement_of))]
fn judgement_of(alloc: Global, keys: &Keys, bytes: &[u8], now: u64) -> Result<Judgement, AllocError>
    ensures { IfOk result (λ judgement. judgement ≡ judgement_of keys.now bytes.now now) }
{
    match signature_of(alloc, bytes) {
        Ok(None) => Ok(Judgement::Unsigned),
        Ok(Some(p)) => judged_of(alloc, keys, bytes, now, p),
        Err(DecodeError::Memory) => Err(AllocError),
        Err(_) => Ok(Judgement::FormErr),
    }
}

/// Remembers a signature that was judged good, for the verifiers of zones, which have copies of the keys.
fn remember(
    alloc: Global,
    keys: &Keys,
    bytes: &[u8],
    now: u64,
    judgement: &Judgement,
) -> Result<(), AllocError>
    requires { judgement.now ≡ judgement_of keys.now bytes.now now }
{
    let Judgement::Signed {
        signature,
        verdict: Verdict::Good,
    } = judgement
    else {
        return Ok(());
    };
    let s = signature.get();
    match keys.find(&s.name) {
        Some(key) if s.rdata.time < 1 << TIME_BITS => {
            keys.remember(alloc, key, bytes, times_of(&s.rdata))
        }
        _ => Ok(()),
    }
}

/// Judges a message by its signature (RFC 8945 section 5.2), at a moment in seconds since 1970. What stands behind the
/// message in the bytes is not looked at.
///
/// It reads each record once and hashes the message once, where there is a key for it. Of a MAC it looks at every byte.
/// It remembers the last message whose signature is good: a [`TsigVerifier`](crate::TsigVerifier) with a copy of the
/// keys then compares the bytes and does not hash them again.
pub fn judge(alloc: Global, keys: &Keys, bytes: &[u8], now: u64) -> Result<Judgement, AllocError>
    // What is answered is the judgement, and there is but one.
    ensures judged { IfOk result (λ judgement. Judged keys.now bytes.now now judgement) }
    ensures only { (judgement : Answer) → Judged keys.now bytes.now now judgement →
        IfOk result (λ answer. answer ≡ judgement) }
{
    let judgement = judgement_of(alloc, keys, bytes, now)?;
    remember(alloc, keys, bytes, now, &judgement)?;
    Ok(judgement)
}

/// Any bytes have one judgement, at any moment.
pub fn one_judgement()
    ensures same { (keys : List AnyKey) (bytes : List ℕ) (now : ℕ) (a b : Answer) → AreBytes bytes →
        Judged keys bytes now a → Judged keys bytes now b → a ≡ b }
    ensures some { (keys : List AnyKey) (bytes : List ℕ) (now : ℕ) → AreBytes bytes → (a : Answer) ×
        Judged keys bytes now a }
{}
