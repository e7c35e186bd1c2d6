//! Messages that are signed, one behind the other.

ghost use Rattle.std.specs.Prelude.{◌≡◌, IfOk, List, ℕ, Option, Some, [], ◌++◌};
ghost use Rattle.std.specs.Option.{option_copied};
ghost use Rattle.signed_server.specs.SignedAnswers.{AreSigned, signed_behind};

use hickory_wire::{Items, Octets};
use std::alloc::{AllocError, Global};
use tsig::{Judgement, Keys, SigningError, sign, sign_next};

/// A message that leaves, and the MAC that it carries.
#[derive(Drop)]
pub(crate) struct Leaving {
    /// Its bytes.
    pub bytes: Octets,
    /// Its MAC, of no byte where it is not signed.
    pub mac: Octets,
}

/// Signs a message behind the MAC of the one before it, or as the first, and puts it behind the bytes.
fn put_signed(
    alloc: Global,
    keys: &Keys,
    judgement: &Judgement,
    prior: Option<&Octets>,
    message: &[u8],
    now: u64,
    out: &mut Vec<u8>,
) -> Result<Octets, SigningError>
    requires { out.old.items ≡ [] }
    ensures { IfOk result (λ mac. signed_behind keys.now judgement.now (option_copied prior.entry) message.now
        now ≡ Some (record { bytes = out.new.items; mac = mac })) }
{
    match prior {
        None => sign(alloc, keys, judgement, message, now, out),
        Some(mac) => sign_next(alloc, keys, judgement, mac.as_slice(), message, now, out),
    }
}

/// A message signed behind the MAC of the one before it, or as the first.
fn signed_behind(
    alloc: Global,
    keys: &Keys,
    judgement: &Judgement,
    prior: Option<&Octets>,
    message: &[u8],
    now: u64,
) -> Result<Leaving, AllocError>
    ensures { IfOk result (λ made. signed_behind keys.now judgement.now (option_copied prior.entry) message.now
        now ≡ Some (record { bytes = made.bytes; mac = made.mac })) }
{
    let mut out = Vec::new(alloc);
    match put_signed(alloc, keys, judgement, prior, message, now, &mut out) {
        Ok(mac) => Ok(Leaving {
            bytes: Octets::from_vec(out),
            mac,
        }),
        Err(_) => Err(AllocError),
    }
}

/// What leaves of messages: the first is signed over the MAC of the request, and each further one over the MAC of the
/// one before it.
pub(crate) fn signed(
    alloc: Global,
    keys: &Keys,
    judgement: &Judgement,
    messages: Vec<Octets>,
    now: u64,
) -> Result<Items<Octets>, AllocError>
    ensures { IfOk result (λ leaving. (last : Option (List ℕ)) ×
        AreSigned keys.now judgement.now now messages.items leaving last) }
{
    let mut leaving = Items::new(alloc);
    let mut prior: Option<Octets> = None;
    for message in messages {
        let made = signed_behind(
            alloc,
            keys,
            judgement,
            prior.as_ref(),
            message.as_slice(),
            now,
        )?;
        leaving.push(made.bytes)?;
        prior = Some(made.mac);
    }
    Ok(leaving)
}
