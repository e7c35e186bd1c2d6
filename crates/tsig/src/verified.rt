//! The signature that was found good last.

ghost use Rattle.std.specs.Prelude.{◌≡◌, ◌<◌, ◌^◌, IfSome, Some};
ghost use Rattle.tsig.specs.Validity.{times_if_known, times_of};

use crate::keys::Key;
use std::alloc::{AllocError, Global};
use std::cell::RefCell;
use std::marker::Model;
use std::ops::Range;
use std::rc::Rc;
use wire_messages::rr::tsig::TSIG;

/// The seconds since 1970 have so many bits in a signature.
pub(crate) const TIME_BITS: u32 = 48;

/// When a signature is good.
pub(crate) fn times_of(t: &TSIG) -> Range<u64>
    requires { t.now.time < 2 ^ 48 }
    ensures { result ≡ times_of t.now }
{
    let fudge = u64::from(t.fudge);
    t.time.saturating_sub(fudge)..t.time + fudge + 1
}

/// A message whose signature is good by a key, and when it is good.
#[derive(Drop)]
pub(crate) struct Verified {
    key: Key,
    message: Vec<u8>,
    times: Range<u64>,
}

impl Model for Verified {
    ghost use Rattle.std.specs.Prelude.{◌≡◌, List, ℕ, Some};
    ghost use Rattle.std.specs.declared.ops.Range.{Range as Times};
    ghost use Rattle.tsig.specs.declared.keys.Key.{Key as AnyKey};
    ghost use Rattle.tsig.specs.Validity.{times_if_known};

    ghost Value = { AnyKey × List ℕ × Times ℕ };

    ghost view = { λ v. (v.key, v.message.items, v.times) };

    ghost invariant = { λ v. times_if_known (Some v.key) v.message.items ≡ Some v.times };
}

impl Verified {
    /// A copy of a key and of a message that it signed.
    pub(crate) fn new(
        alloc: Global,
        key: &Key,
        message: &[u8],
        times: Range<u64>,
    ) -> Result<Verified, AllocError>
        requires { times_if_known (Some key.now) message.now ≡ Some times }
    {
        Ok(Verified {
            key: key.copied(alloc)?,
            message: Vec::from_slice(alloc, message)?,
            times,
        })
    }

    /// When the signature of a message is good by a key, if they are these.
    fn times(&self, key: &Key, message: &[u8]) -> Option<Range<u64>>
        ensures { IfSome result (λ times. times_if_known (Some key.now) message.now ≡ Some times) }
    {
        if self.message.as_slice() == message && self.key.is_same(key) {
            return Some(self.times.start..self.times.end);
        }
        None
    }
}

/// What was found good last, for all who share it.
#[derive(Drop)]
pub(crate) struct LastVerified {
    last: Rc<RefCell<Option<Verified>>>,
}

impl LastVerified {
    /// Nothing was found good.
    pub(crate) fn new(alloc: Global) -> Result<LastVerified, AllocError> {
        Ok(LastVerified {
            last: Rc::new(alloc, RefCell::new(None))?,
        })
    }

    /// The same for one more.
    pub(crate) fn share(&self) -> Result<LastVerified, AllocError> {
        Ok(LastVerified {
            last: self.last.clone()?,
        })
    }

    /// Replaces what was found good last.
    pub(crate) fn set(&self, verified: Verified) {
        if let Ok(mut last) = self.last.try_borrow_mut() {
            *last = Some(verified);
        }
    }

    /// When the signature of a message is good by a key, if that was found last.
    pub(crate) fn times(&self, key: &Key, message: &[u8]) -> Option<Range<u64>>
        ensures { IfSome result (λ times. times_if_known (Some key.now) message.now ≡ Some times) }
    {
        match self.last.try_borrow() {
            Ok(last) => match &*last {
                Some(verified) => verified.times(key, message),
                None => None,
            },
            Err(_) => None,
        }
    }
}
