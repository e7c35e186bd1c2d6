//! What a signature is computed over (RFC 8945 section 4.3).

ghost use Rattle.std.specs.Prelude.{◌≡◌, ◌++◌, ◌%◌, ◌^◌, IfOk, OnOk, length, slice_range, take};
ghost use Rattle.std.specs.Int.{w16, to_be_bytes};
ghost use Rattle.tsig.specs.Digest.{canonical, next_digest, octets_48, prior_mac, reply_digest, request_digest, timers, unsigned_message, variables};
ghost use Rattle.tsig.specs.Hmac.{algorithm_name};

use crate::algorithm::Algorithm;
use std::alloc::{AllocError, Global};
use wire_messages::rr::tsig::TSIG;
use wire_messages::serialize::writing::full_form::{full_name_len, write_name, write_u16};
use wire_names::rr::domain::lower_name::LowerName;
use wire_names::rr::domain::name::Name;

/// How many bytes the longest name of an algorithm takes.
const LONGEST_ALGORITHM: usize = 17;

/// How many bytes the TSIG variables take beside their names and the other data.
const FIXED_VARIABLES: usize = 18;

/// How many bytes the TSIG timers take.
const TIMERS_LEN: usize = 8;

/// The bytes from a place up to another one, so far as they are there.
pub(crate) fn part(bytes: &[u8], from: usize, to: usize) -> &[u8]
    ensures { result.now ≡ slice_range bytes.now from to }
{
    let end = to.min(bytes.len());
    if from >= end {
        return b"";
    }
    &bytes[from..end]
}

/// The first bytes, so many as there are.
pub(crate) fn front(bytes: &[u8], count: usize) -> &[u8]
    ensures { result.now ≡ take count bytes.now }
{
    if count >= bytes.len() {
        return bytes;
    }
    &bytes[..count]
}

/// How many bytes there are, in 16 bits.
fn len_u16(bytes: &[u8]) -> u16
    ensures { result ≡ length bytes.now % 2 ^ 16 }
{
    (bytes.len() % 65536) as u16
}

/// Puts a name behind the bytes, in canonical wire form.
fn put_name(out: &mut Vec<u8>, name: &Name) -> Result<(), AllocError>
    ensures { OnOk result (out.new.items ≡ out.old.items ++ canonical name.now) }
{
    let lower = LowerName::new(*out.allocator(), name)?;
    write_name(out, lower.as_name())
}

/// Puts the last six bytes of a number behind the bytes.
pub(crate) fn put_time(out: &mut Vec<u8>, time: u64) -> Result<(), AllocError>
    ensures { OnOk result (out.new.items ≡ out.old.items ++ octets_48 time) }
{
    out.extend_from_slice(&time.to_be_bytes()[2..])
}

/// Puts a MAC behind the bytes, behind its length.
fn put_prior_mac(out: &mut Vec<u8>, mac: &[u8]) -> Result<(), AllocError>
    ensures { OnOk result (out.new.items ≡ out.old.items ++ prior_mac mac.now) }
{
    write_u16(out, len_u16(mac))?;
    out.extend_from_slice(mac)
}

/// Puts the TSIG timers behind the bytes.
fn put_timers(out: &mut Vec<u8>, t: &TSIG) -> Result<(), AllocError>
    ensures { OnOk result (out.new.items ≡ out.old.items ++ timers t.now) }
{
    put_time(out, t.time)?;
    write_u16(out, t.fudge)
}

/// Puts the TSIG variables behind the bytes.
fn put_variables(
    out: &mut Vec<u8>,
    key: &Name,
    algorithm: Algorithm,
    t: &TSIG,
) -> Result<(), AllocError>
    ensures { OnOk result (out.new.items ≡ out.old.items ++ variables key.now (algorithm_name algorithm) t.now) }
{
    put_name(out, key)?;
    write_u16(out, 255)?;
    out.extend_from_slice(&0u32.to_be_bytes())?;
    out.extend_from_slice(algorithm.canonical())?;
    put_timers(out, t)?;
    write_u16(out, t.error)?;
    write_u16(out, len_u16(t.other.as_slice()))?;
    out.extend_from_slice(t.other.as_slice())
}

/// For how many bytes room is made before TSIG variables are put: no fewer than they take.
pub(crate) fn variables_room(key: &Name, t: &TSIG) -> usize {
    let names = usize::from(full_name_len(key)) + LONGEST_ALGORITHM;
    (names + FIXED_VARIABLES).saturating_add(t.other.len())
}

/// The message as it was before it was signed, where its last record begins at this place, with room for some bytes
/// behind it.
pub(crate) fn unsigned_message(
    alloc: Global,
    bytes: &[u8],
    original: u16,
    additionals: u16,
    place: usize,
    room: usize,
) -> Result<Vec<u8>, AllocError>
    ensures { IfOk result (λ out. out.items ≡ unsigned_message bytes.now original additionals place) }
{
    let mut out = Vec::with_capacity(alloc, bytes.len().min(place).saturating_add(room))?;
    write_u16(&mut out, original)?;
    out.extend_from_slice(part(bytes, 2, 10))?;
    write_u16(&mut out, additionals.saturating_sub(1))?;
    out.extend_from_slice(part(bytes, 12, place))?;
    Ok(out)
}

/// What a request is signed over, the message before it was signed in front.
pub(crate) fn request_digest(
    key: &Name,
    algorithm: Algorithm,
    t: &TSIG,
    mut message: Vec<u8>,
) -> Result<Vec<u8>, AllocError>
    ensures { IfOk result (λ out. out.items ≡ request_digest key.now (algorithm_name algorithm) t.now message.items) }
{
    put_variables(&mut message, key, algorithm, t)?;
    Ok(message)
}

/// The MAC before a message, and the message, with room for some bytes behind it.
fn digest_begun(
    alloc: Global,
    mac: &[u8],
    message: &[u8],
    room: usize,
) -> Result<Vec<u8>, AllocError>
    ensures { IfOk result (λ out. out.items ≡ prior_mac mac.now ++ message.now) }
{
    let len = mac.len().saturating_add(message.len()).saturating_add(2);
    let mut out = Vec::with_capacity(alloc, len.saturating_add(room))?;
    put_prior_mac(&mut out, mac)?;
    out.extend_from_slice(message)?;
    Ok(out)
}

/// What a reply is signed over.
pub(crate) fn reply_digest(
    alloc: Global,
    mac: &[u8],
    key: &Name,
    algorithm: Algorithm,
    t: &TSIG,
    message: &[u8],
) -> Result<Vec<u8>, AllocError>
    ensures { IfOk result (λ out. out.items ≡ reply_digest mac.now key.now
        (algorithm_name algorithm) t.now message.now) }
{
    let mut out = digest_begun(alloc, mac, message, variables_room(key, t))?;
    put_variables(&mut out, key, algorithm, t)?;
    Ok(out)
}

/// What each further message of a transfer is signed over.
pub(crate) fn next_digest(
    alloc: Global,
    mac: &[u8],
    t: &TSIG,
    message: &[u8],
) -> Result<Vec<u8>, AllocError>
    ensures { IfOk result (λ out. out.items ≡ next_digest mac.now t.now message.now) }
{
    let mut out = digest_begun(alloc, mac, message, TIMERS_LEN)?;
    put_timers(&mut out, t)?;
    Ok(out)
}
