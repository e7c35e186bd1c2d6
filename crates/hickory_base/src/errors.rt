//! Why a lookup, an update or a call of the catalog has no answer.

ghost use Rattle.std.specs.Prelude.{◌≡◌};
ghost use Rattle.std.specs.Option.{option_copied};
ghost use Rattle.hickory_base.specs.Failures.{is_nx_domain, is_no_records_found, authorities_of, soa_of};
ghost use Rattle.hickory_base.specs.declared.errors.LookupError.TheVariants as lookup_error;
ghost use Rattle.hickory_base.specs.declared.errors.UpdateFault.TheVariants as update_fault;
ghost use Rattle.hickory_base.specs.declared.errors.CatalogError.TheVariants as catalog_error;

use hickory_wire::{Boxed, Items, Record, ResponseCode};
use std::alloc::{AllocError, AllocFailed};
use thiserror::Error;

/// What a resolver or another source of records tells in place of an answer.
#[derive(Drop, Error)]
#[derive_where(Debug)]
pub enum DnsError {
    /// There are no records of the name and type asked for.
    #[error("no records: code {response_code:?}")]
    NoRecords {
        /// The code that came with it.
        response_code: ResponseCode,
        /// The authority section that came with it.
        #[derive_where(skip)]
        authorities: Items<Record>,
        /// The SOA record that came with it, of which a negative answer is made (RFC 2308 section 3).
        #[derive_where(skip)]
        soa: Option<Boxed<Record>>,
    },
    /// The DNSSEC proof of the answer is wrong (RFC 4035 section 4.3).
    #[error("the DNSSEC proof is bogus")]
    DnssecBogus,
    /// Anything else.
    #[error("the answer cannot be had")]
    Other,
}

/// Why a lookup has no records.
#[derive(Debug, Drop, Error)]
pub enum LookupError {
    /// This response code is the answer.
    #[error("response code {0:?}")]
    ResponseCode(ResponseCode),
    /// The source of the records has no answer.
    #[error("{0}")]
    Net(DnsError),
    /// The request has this many questions, and not one.
    #[error("{0} questions where one is wanted")]
    BadQueryCount(usize),
    /// The records could not be read.
    #[error("the records could not be read")]
    Io,
    /// Memory was refused.
    #[error("out of memory")]
    Memory,
}

impl LookupError {
    /// Whether the name does not exist: the code, or the code of `NoRecords`, is NXDomain (RFC 8020).
    pub fn is_nx_domain(&self) -> bool
        ensures { result ≡ is_nx_domain self.now }
    {
        match self {
            LookupError::ResponseCode(code) => code.value() == ResponseCode::NX_DOMAIN.value(),
            LookupError::Net(DnsError::NoRecords { response_code, .. }) => {
                response_code.value() == ResponseCode::NX_DOMAIN.value()
            }
            _ => false,
        }
    }

    /// Whether it is `NoRecords`, whatever the code.
    pub fn is_no_records_found(&self) -> bool
        ensures { result ≡ is_no_records_found self.now }
    {
        matches!(self, LookupError::Net(DnsError::NoRecords { .. }))
    }

    /// The authority section that came with `NoRecords`.
    pub fn authorities(&self) -> Option<&[Record]>
        ensures { option_copied result ≡ authorities_of self.now }
    {
        match self {
            LookupError::Net(DnsError::NoRecords { authorities, .. }) => {
                Some(authorities.as_slice())
            }
            _ => None,
        }
    }

    /// The SOA record that came with `NoRecords`.
    pub fn into_soa(self) -> Option<Boxed<Record>>
        ensures { result ≡ soa_of self }
    {
        match self {
            LookupError::Net(DnsError::NoRecords { soa, .. }) => soa,
            _ => None,
        }
    }
}

impl From<AllocError> for LookupError {
    ghost from_gives = { λ _ e. e ≡ lookup_error.Memory };

    fn from(_e: AllocError) -> LookupError {
        LookupError::Memory
    }
}

impl<T: Drop> From<AllocFailed<T>> for LookupError {
    ghost from_gives = { λ _ e. e ≡ lookup_error.Memory };

    fn from(_e: AllocFailed<T>) -> LookupError {
        LookupError::Memory
    }
}

/// Why an update was not made. The zone is as it was before.
#[derive(Clone, Copy, Debug, PartialEq, Eq, Error)]
pub enum UpdateFault {
    /// It is refused with this response code (RFC 2136 section 2.2).
    #[error("response code {0:?}")]
    Code(ResponseCode),
    /// Memory was refused.
    #[error("out of memory")]
    Memory,
}

impl From<AllocError> for UpdateFault {
    ghost from_gives = { λ _ e. e ≡ update_fault.Memory };

    fn from(_e: AllocError) -> UpdateFault {
        UpdateFault::Memory
    }
}

impl<T: Drop> From<AllocFailed<T>> for UpdateFault {
    ghost from_gives = { λ _ e. e ≡ update_fault.Memory };

    fn from(_e: AllocFailed<T>) -> UpdateFault {
        UpdateFault::Memory
    }
}

/// Why no reply was handed over.
#[derive(Clone, Copy, Debug, PartialEq, Eq, Error)]
pub enum CatalogError {
    /// Memory was refused, and nothing changed.
    #[error("out of memory")]
    Memory,
    /// Memory was refused after an update had been made, which stands.
    #[error("out of memory after an update was made")]
    MemoryAfterUpdate,
}

impl From<AllocError> for CatalogError {
    ghost from_gives = { λ _ e. e ≡ catalog_error.Memory };

    fn from(_e: AllocError) -> CatalogError {
        CatalogError::Memory
    }
}
