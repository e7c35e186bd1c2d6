//! A message without the TSIG record that it ends in.

ghost use Rattle.std.specs.Prelude.{◌≡◌, IfOk, MatchOption};
ghost use Rattle.tsig.specs.Stripping.{IsStripped, without_last};

use crate::digest::{front, part};
use crate::reading::signature_of;
use std::alloc::{AllocError, Global};
use wire_messages::serialize::writing::full_form::write_u16;
use wire_names::error::DecodeError;
use wire_names::values::octets::Octets;

/// The message without its last record, which begins at this place, where it has so many additional records.
fn without_last(
    alloc: Global,
    bytes: &[u8],
    additionals: u16,
    place: usize,
) -> Result<Vec<u8>, AllocError>
    ensures { IfOk result (λ out. out.items ≡ without_last bytes.now additionals place) }
{
    let mut out = Vec::with_capacity(alloc, bytes.len().min(place))?;
    out.extend_from_slice(front(bytes, 10))?;
    write_u16(&mut out, additionals.saturating_sub(1))?;
    out.extend_from_slice(part(bytes, 12, place))?;
    Ok(out)
}

/// The message without its TSIG record, where its last record is one.
fn without_signature(alloc: Global, bytes: &[u8]) -> Result<Option<Vec<u8>>, AllocError>
    ensures { IfOk result (λ found. MatchOption found (IsStripped bytes.now bytes.now)
        (λ out. IsStripped bytes.now out.items)) }
{
    match signature_of(alloc, bytes) {
        Ok(Some(p)) => {
            let out = without_last(alloc, bytes, p.additionals, p.place)?;
            Ok(Some(out))
        }
        Ok(None) => Ok(None),
        Err(DecodeError::Memory) => Err(AllocError),
        Err(_) => Ok(None),
    }
}

/// The message without its TSIG record, where its last record is one (RFC 8945 section 5.1); and else the message as it
/// is. The id stays. It reads each record once, and takes memory for a copy only where there is a TSIG.
pub fn stripped(alloc: Global, message: Octets) -> Result<Octets, AllocError>
    ensures { IfOk result (IsStripped message) }
{
    match without_signature(alloc, message.as_slice())? {
        None => Ok(message),
        Some(out) => Ok(Octets::from_vec(out)),
    }
}
