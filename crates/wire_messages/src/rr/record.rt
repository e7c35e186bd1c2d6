//! Resource records.

ghost use Rattle.std.specs.Prelude.{◌≡◌};

use crate::rr::dns_class::DNSClass;
use crate::rr::rdata::RData;
use std::alloc::AllocError;
use std::fmt;
use wire_names::rr::domain::name::Name;

/// What is known of a record's DNSSEC proof (RFC 4035 section 4.3).
#[derive(Clone, Copy, Debug, PartialEq, Eq)]
pub enum Proof {
    /// A chain of trust leads to it.
    Secure,
    /// It lies below a delegation that is known to be unsigned.
    Insecure,
    /// Its proof should be there and is not, or is wrong.
    Bogus,
    /// Nothing is known. Records read from bytes have this.
    Indeterminate,
}

/// A resource record (RFC 1035 section 4.1.3).
///
/// Equal are records of one owner name in any letter case, one class and equal data; the type is that of the data.
/// TTL and proof are not compared, as in RFC 2136 section 1.1.
#[derive(Drop)]
#[derive_where(PartialEq, Eq; R)]
pub struct Record<R = RData> {
    /// The owner name.
    pub name: Name,
    /// The class.
    pub dns_class: DNSClass,
    /// How long it may be kept, in seconds.
    #[derive_where(skip)]
    pub ttl: u32,
    /// The data, with their type.
    pub rdata: R,
    /// What is known of its proof.
    #[derive_where(skip(EqHashOrd))]
    pub proof: Proof,
}

impl<R: Clone> Clone for Record<R> {
    // The copy is the record itself, where a clone of its data is the data.
    ghost is_clone = { λ source copy. (R.is_clone source.rdata copy.rdata → copy.rdata ≡ source.rdata) →
        copy ≡ source };

    fn clone(&self) -> Result<Record<R>, AllocError> {
        Ok(Record {
            name: self.name.clone()?,
            dns_class: self.dns_class,
            ttl: self.ttl,
            rdata: self.rdata.clone()?,
            proof: self.proof,
        })
    }
}

/// All fields, as a derived form has them.
impl<R: fmt::Debug> fmt::Debug for Record<R> {
    fn fmt<W: fmt::Write>(&self, f: &mut fmt::Formatter<W>) -> fmt::Result {
        f.debug_struct("Record")
            .field("name", &self.name)
            .field("dns_class", &self.dns_class)
            .field("ttl", &self.ttl)
            .field("rdata", &self.rdata)
            .field("proof", &self.proof)
            .finish()
    }
}
