//! Signing replies over the bytes that leave (RFC 8945 section 5.3).

ghost use Rattle.std.specs.Prelude.{◌≡◌, ◌≤◌, ◌<◌, ◌+◌, ◌++◌, ◌^◌, ◌≢◌, ◌⊎◌, ◌↔◌, [], Err, IfErr, IfOk, OnOk, IsTrue, Some, length};
ghost use Rattle.std.specs.Option.{option_copied};
ghost use Rattle.tsig.specs.Hmac.{mac_len};
ghost use Rattle.tsig.specs.Signing.{HasRoom, Puts, answered, appended, error_of, id_of, mac_room, needs_record, next_by, next_mac, next_needs_record, next_of, record_of, reply_data, reply_mac, reply_of, room_of, signed_by, time_of, variable_room, with_mac, without_mac};
ghost use Rattle.tsig.specs.declared.judgement.Verdict.TheVariants as a_verdict;
ghost use Rattle.tsig.specs.declared.signing.SigningError.TheVariants as signing_error;

use crate::digest::{next_digest, put_time, reply_digest};
use crate::judgement::{Judgement, Verdict};
use crate::keys::{Key, Keys};
use crate::writing::{has_room, id_of, write_appended};
use std::alloc::{AllocError, AllocFailed, Global};
use thiserror::Error;
use wire_messages::rr::dns_class::DNSClass;
use wire_messages::rr::record::{Proof, Record};
use wire_messages::rr::tsig::TSIG;
use wire_messages::serialize::writing::full_form::full_name_len;
use wire_names::rr::domain::name::Name;
use wire_names::values::octets::Octets;

/// How many seconds the clocks may differ, as replies tell it (RFC 8945 section 10 recommends it).
pub(crate) const FUDGE: u16 = 300;

/// The latest moment that 48 bits hold.
const LAST_TIME: u64 = 0xffff_ffff_ffff;

/// Why a reply was not signed.
#[derive(Clone, Copy, Debug, PartialEq, Eq, Error)]
pub enum SigningError {
    /// The bytes have no header, or no more additional record can be counted in it.
    #[error("no room for a signature in the header of the message")]
    Message,
    /// The key of the request is not among the keys.
    #[error("the key of the request is not among the keys")]
    Key,
    /// Memory was refused.
    #[error("out of memory")]
    Memory,
}

impl From<AllocError> for SigningError {
    ghost from_gives = { λ _ e. e ≡ signing_error.Memory };

    fn from(_e: AllocError) -> SigningError {
        SigningError::Memory
    }
}

/// The number of an error.
fn error_of(verdict: Verdict) -> u16
    ensures { result ≡ error_of verdict }
{
    match verdict {
        Verdict::Good => 0,
        Verdict::BadSig => 16,
        Verdict::BadKey => 17,
        Verdict::BadTime => 18,
        Verdict::BadTrunc => 22,
    }
}

/// A moment in 48 bits.
pub(crate) fn time_of(now: u64) -> u64
    ensures { result ≡ time_of now }
{
    now.min(LAST_TIME)
}

/// What the record of a reply says, but for the MAC, of any verdict but BADTIME.
fn plain_data(
    alloc: Global,
    t: &TSIG,
    verdict: Verdict,
    now: u64,
    id: u16,
) -> Result<TSIG, AllocError>
    ensures { IfOk result (λ made.
        made ≡ record {
          algorithm = t.now.algorithm;
          time = time_of now;
          fudge = 300;
          mac = [];
          oid = id;
          error =
              error_of verdict;
          other = [];
        }) }
{
    Ok(TSIG {
        algorithm: t.algorithm.clone()?,
        time: time_of(now),
        fudge: FUDGE,
        mac: Octets::from_vec(Vec::new(alloc)),
        oid: id,
        error: error_of(verdict),
        other: Octets::from_vec(Vec::new(alloc)),
    })
}

/// What the record of a BADTIME reply says, but for the MAC.
fn bad_time_data(alloc: Global, t: &TSIG, now: u64, id: u16) -> Result<TSIG, AllocError>
    ensures { IfOk result (λ made. made ≡ reply_data t.now a_verdict.BadTime now id) }
{
    let mut other = Vec::new(alloc);
    put_time(&mut other, time_of(now))?;
    Ok(TSIG {
        algorithm: t.algorithm.clone()?,
        time: time_of(t.time),
        fudge: t.fudge,
        mac: Octets::from_vec(Vec::new(alloc)),
        oid: id,
        error: error_of(Verdict::BadTime),
        other: Octets::from_vec(other),
    })
}

/// What the record of a reply says, but for the MAC.
fn reply_data(
    alloc: Global,
    t: &TSIG,
    verdict: Verdict,
    now: u64,
    id: u16,
) -> Result<TSIG, AllocError>
    ensures { IfOk result (λ made. made ≡ reply_data t.now verdict now id) }
{
    match verdict {
        Verdict::BadTime => bad_time_data(alloc, t, now, id),
        Verdict::Good => plain_data(alloc, t, Verdict::Good, now, id),
        Verdict::BadKey => plain_data(alloc, t, Verdict::BadKey, now, id),
        Verdict::BadSig => plain_data(alloc, t, Verdict::BadSig, now, id),
        Verdict::BadTrunc => plain_data(alloc, t, Verdict::BadTrunc, now, id),
    }
}

/// The record of these data.
pub(crate) fn record_of(name: &Name, t: TSIG) -> Result<Record<TSIG>, AllocError>
    ensures { IfOk result (λ made. made ≡ record_of name.now t) }
{
    Ok(Record {
        name: name.clone()?,
        dns_class: DNSClass::ANY,
        ttl: 0,
        rdata: t,
        proof: Proof::Indeterminate,
    })
}

/// Puts a message behind the bytes, with the record of these data and this MAC, which it returns.
fn put_with_mac(
    out: &mut Vec<u8>,
    message: &[u8],
    name: &Name,
    t: TSIG,
    mac: Vec<u8>,
) -> Result<Octets, AllocError>
    requires room { HasRoom message.now }
    requires time { t.time < 2 ^ 48 }
    requires short { length mac.items ≤ 64 }
    requires other { length t.other ≤ 6 }
    ensures mac { IfOk result (λ put. put ≡ mac.items) }
    ensures bytes { OnOk result (out.new.items ≡ out.old.items ++ appended message.now
        (record_of name.now (with_mac t mac.items))) }
{
    let mac = Octets::from_vec(mac);
    let t = TSIG { mac, ..t };
    write_appended(out, message, name, &t)?;
    let TSIG { mac, .. } = t;
    Ok(mac)
}

/// The MAC of a reply, over the MAC of the request.
fn reply_mac(
    alloc: Global,
    key: &Key,
    s: &Record<TSIG>,
    t: &TSIG,
    message: &[u8],
) -> Result<Vec<u8>, AllocError>
    ensures value { IfOk result (λ mac. mac.items ≡ reply_mac key.now s.now t.now message.now) }
    ensures len { IfOk result (λ mac. length mac.items ≤ 64) }
{
    let prior = s.rdata.mac.as_slice();
    let text = reply_digest(alloc, prior, &key.name, key.algorithm, t, message)?;
    key.mac(alloc, &text)
}

/// The MAC of a further message, over the MAC of the one before.
fn next_mac(
    alloc: Global,
    key: &Key,
    prior: &[u8],
    t: &TSIG,
    message: &[u8],
) -> Result<Vec<u8>, AllocError>
    ensures value { IfOk result (λ mac. mac.items ≡ next_mac key.now prior.now t.now message.now) }
    ensures len { IfOk result (λ mac. length mac.items ≤ 64) }
{
    let text = next_digest(alloc, prior, t, message)?;
    key.mac(alloc, &text)
}

/// Puts a reply with its MAC behind the bytes.
fn put_signed(
    alloc: Global,
    key: Option<&Key>,
    s: &Record<TSIG>,
    t: TSIG,
    message: &[u8],
    out: &mut Vec<u8>,
) -> Result<Octets, SigningError>
    requires room { HasRoom message.now }
    requires time { t.time < 2 ^ 48 }
    requires other { length t.other ≤ 6 }
    ensures puts { Puts (signed_by (option_copied key.entry) s.now t message.now) out.old.items out.new.items result }
    ensures room { IfErr result (λ e. e ≢ SigningError.Message) }
{
    let Some(key) = key else {
        return Err(SigningError::Key);
    };
    let mac = reply_mac(alloc, key, s, &t, message)?;
    Ok(put_with_mac(out, message, &s.name, t, mac)?)
}

/// Puts a further message of a transfer with its MAC behind the bytes.
fn put_next(
    alloc: Global,
    key: Option<&Key>,
    s: &Record<TSIG>,
    prior: &[u8],
    t: TSIG,
    message: &[u8],
    out: &mut Vec<u8>,
) -> Result<Octets, SigningError>
    requires room { HasRoom message.now }
    requires time { t.time < 2 ^ 48 }
    requires other { length t.other ≤ 6 }
    ensures puts { Puts (next_by (option_copied key.entry) s.now prior.now t message.now) out.old.items out.new.items
        result }
    ensures room { IfErr result (λ e. e ≢ SigningError.Message) }
{
    let Some(key) = key else {
        return Err(SigningError::Key);
    };
    let mac = next_mac(alloc, key, prior, &t, message)?;
    Ok(put_with_mac(out, message, &s.name, t, mac)?)
}

/// Puts a reply that tells an error, without a MAC, behind the bytes.
fn put_without_mac(
    alloc: Global,
    s: &Record<TSIG>,
    t: TSIG,
    message: &[u8],
    out: &mut Vec<u8>,
) -> Result<Octets, SigningError>
    requires room { HasRoom message.now }
    requires time { t.time < 2 ^ 48 }
    requires mac { length t.mac ≤ 64 }
    requires other { length t.other ≤ 6 }
    ensures puts { Puts (Some (without_mac s.now t message.now)) out.old.items out.new.items result }
    ensures room { IfErr result (λ e. e ≢ SigningError.Message) }
{
    write_appended(out, message, &s.name, &t)?;
    Ok(Octets::from_vec(Vec::new(alloc)))
}

/// Puts the reply to a request whose TSIG record was judged so behind the bytes.
fn answered(
    alloc: Global,
    keys: &Keys,
    s: &Record<TSIG>,
    verdict: Verdict,
    message: &[u8],
    now: u64,
    out: &mut Vec<u8>,
) -> Result<Octets, SigningError>
    requires { HasRoom message.now }
    ensures puts { Puts (answered keys.now s.now verdict message.now now) out.old.items out.new.items result }
    ensures room { IfErr result (λ e. e ≢ SigningError.Message) }
{
    let t = reply_data(alloc, &s.rdata, verdict, now, id_of(message))?;
    match verdict {
        Verdict::BadKey => put_without_mac(alloc, s, t, message, out),
        Verdict::BadSig => put_without_mac(alloc, s, t, message, out),
        Verdict::Good => put_signed(alloc, keys.find(&s.name), s, t, message, out),
        Verdict::BadTime => put_signed(alloc, keys.find(&s.name), s, t, message, out),
        Verdict::BadTrunc => put_signed(alloc, keys.find(&s.name), s, t, message, out),
    }
}

/// Puts a reply that has no TSIG record behind the bytes.
fn put_plain(alloc: Global, message: &[u8], out: &mut Vec<u8>) -> Result<Octets, AllocError>
    ensures mac { IfOk result (λ mac. mac ≡ []) }
    ensures bytes { OnOk result (out.new.items ≡ out.old.items ++ message.now) }
{
    out.extend_from_slice(message)?;
    Ok(Octets::from_vec(Vec::new(alloc)))
}

/// Signs a reply, over the bytes that leave, and puts it behind those that `out` has (RFC 8945 sections 5.3 and 5.3.2).
/// `message` is the reply without a TSIG record, to a request that was judged so by these keys; the moment is in
/// seconds since
/// 1970. It returns the MAC, which the next message of a transfer is signed over; it is empty where there is none.
///
/// The reply is the message with its id, one more additional record counted, and the TSIG record in full behind it. It
/// is signed where the request's key and MAC are right, also where its time is wrong (then with the request's time and
/// fudge, and the server's time as other data) or its MAC too short for local policy. For a wrong key or MAC the record
/// tells the error without a MAC. Where the request had no TSIG record, or one without its form, the message is put as
/// it is.
///
/// Errors: `Message` where a record is needed and the bytes have no header, or count 65535 additional records; `Key`
/// only where the key is not among these, and then there is an error. After an error nothing is promised of `out`. It
/// hashes the message once, and takes memory for a copy of it.
pub fn sign(
    alloc: Global,
    keys: &Keys,
    judgement: &Judgement,
    message: &[u8],
    now: u64,
    out: &mut Vec<u8>,
) -> Result<Octets, SigningError>
    ensures puts { Puts (reply_of keys.now judgement.now message.now now) out.old.items out.new.items result ⊎
        (result ≡ Err SigningError.Message) }
    ensures message { (result ≡ Err SigningError.Message) ↔
        (IsTrue (needs_record judgement.now) × (HasRoom message.now → ⊥)) }
{
    match judgement {
        Judgement::Unsigned => Ok(put_plain(alloc, message, out)?),
        Judgement::FormErr => Ok(put_plain(alloc, message, out)?),
        Judgement::Signed { signature, verdict } => {
            if !has_room(message) {
                return Err(SigningError::Message);
            }
            answered(alloc, keys, signature.get(), *verdict, message, now, out)
        }
    }
}

/// Signs a further message of a transfer, as `sign` does its first (RFC 8945 section 5.3.1): over the MAC of the
/// message before it, `prior`, the message, and the timers alone. Where the request was not judged good, the message is
/// put as it is. Errors and costs are those of `sign`.
pub fn sign_next(
    alloc: Global,
    keys: &Keys,
    judgement: &Judgement,
    prior: &[u8],
    message: &[u8],
    now: u64,
    out: &mut Vec<u8>,
) -> Result<Octets, SigningError>
    ensures puts { Puts (next_of keys.now judgement.now prior.now message.now now) out.old.items out.new.items result ⊎
        (result ≡ Err SigningError.Message) }
    ensures message { (result ≡ Err SigningError.Message) ↔
        (IsTrue (next_needs_record judgement.now) × (HasRoom message.now → ⊥)) }
{
    let Judgement::Signed {
        signature,
        verdict: Verdict::Good,
    } = judgement
    else {
        return Ok(put_plain(alloc, message, out)?);
    };
    if !has_room(message) {
        return Err(SigningError::Message);
    }
    let s = signature.get();
    let t = reply_data(alloc, &s.rdata, Verdict::Good, now, id_of(message))?;
    put_next(alloc, keys.find(&s.name), s, prior, t, message, out)
}

/// How many bytes the MAC of a key has.
fn mac_room(key: Option<&Key>) -> usize
    ensures value { result ≡ mac_room (option_copied key.entry) }
    ensures bound { result ≤ 64 }
{
    match key {
        None => 0,
        Some(key) => key.algorithm.mac_len(),
    }
}

/// How many bytes MAC and other data of a reply take.
fn variable_room(keys: &Keys, s: &Record<TSIG>, verdict: Verdict) -> usize
    ensures value { result ≡ variable_room keys.now s.now verdict }
    ensures bound { result ≤ 70 }
{
    match verdict {
        Verdict::BadKey => 0,
        Verdict::BadSig => 0,
        Verdict::BadTime => mac_room(keys.find(&s.name)) + 6,
        Verdict::Good => mac_room(keys.find(&s.name)),
        Verdict::BadTrunc => mac_room(keys.find(&s.name)),
    }
}

/// How many bytes more a reply to a request that was judged so has once it is signed: 606 at most. So that the reply
/// keeps a limit, it is to be written within that limit less this.
pub fn room(keys: &Keys, judgement: &Judgement) -> usize
    ensures value { result ≡ room_of keys.now judgement.now }
    ensures bound { result ≤ 606 }
{
    let Judgement::Signed { signature, verdict } = judgement else {
        return 0;
    };
    let s = signature.get();
    let names = full_name_len(&s.name) + full_name_len(&s.rdata.algorithm);
    usize::from(names) + 26 + variable_room(keys, s, *verdict)
}
