//! Numbers that tell most records apart.

ghost use Rattle.std.specs.Prelude.{◌≡◌, ◌&&◌, nat_eq, fold};
ghost use Rattle.std.specs.Hash as fed;
ghost use Rattle.std.specs.Hash.DefaultHasher as sip;
ghost use Rattle.std.specs.Cmp.Rules.{comparing, hashing};
ghost use Rattle.std.proofs.Common.{rules};
ghost use Rattle.hickory_store.specs.representation.Digests.{data_writes, digest_of};

use hickory_wire::{Octets, RData, Record};
use std::hash::{DefaultHasher, Hash, Hasher};

/// A value beside a number that equal values have in common, and by which alone it is hashed.
#[derive(Drop)]
pub(crate) struct Digested<T> {
    /// The number.
    pub(crate) digest: u64,
    /// The value.
    pub(crate) value: T,
}

impl<T: PartialEq> PartialEq for Digested<T> {
    ghost eq = { λ x y. nat_eq x.digest y.digest && T.eq x.value y.value };

    ghost laws = { Prim.search (comparing, rules) };

    fn eq(&self, other: &Digested<T>) -> bool {
        self.digest == other.digest && self.value == other.value
    }
}

impl<T: Eq> Eq for Digested<T> {
    ghost laws = { Prim.search (comparing, rules) };
}

impl<T: Eq> Hash for Digested<T> {
    ghost hash_input = { λ x. fed.u64 x.digest };

    ghost respects_eq = { Prim.search (hashing, rules) };

    fn hash<H: Hasher>(&self, state: &mut H) {
        self.digest.hash(state);
    }
}

/// Feeds a hasher character strings.
fn feed_strings(strings: &[Octets], hasher: &mut DefaultHasher)
    ensures { hasher.new ≡ fold sip.write hasher.old strings.now }
{
    let mut rest = strings;
    while let [first, others @ ..] = rest {
        hasher.write(first.as_slice());
        rest = others;
    }
}

/// Feeds a hasher the data of a record: the same what is the same data.
fn feed_data(rdata: &RData, hasher: &mut DefaultHasher)
    ensures { hasher.new ≡ fold sip.write hasher.old (data_writes rdata.now) }
{
    match rdata {
        RData::A(address) => hasher.write(&address.octets()),
        RData::AAAA(address) => hasher.write(&address.octets()),
        RData::NS(name) | RData::CNAME(name) | RData::PTR(name) => name.hash(hasher),
        RData::MX(mx) => mx.exchange.hash(hasher),
        RData::TXT(strings) => feed_strings(strings.as_slice(), hasher),
        RData::NULL(bytes) | RData::Unknown { bytes, .. } => hasher.write(bytes.as_slice()),
        // Of the others a zone has few at one name.
        _ => {}
    }
}

/// The number of a record, by owner name and data.
pub(crate) fn digest(q: &Record) -> u64
    ensures { result ≡ digest_of q.now }
{
    let mut hasher = DefaultHasher::new();
    q.name.hash(&mut hasher);
    feed_data(&q.rdata, &mut hasher);
    hasher.finish()
}
