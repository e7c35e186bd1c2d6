//! By what sets of records are found.

ghost use Rattle.std.specs.Prelude.{◌≡◌};

use crate::rr::record_type::RecordType;
use std::alloc::AllocError;
use wire_names::rr::domain::lower_name::LowerName;

/// By what a set of records is found: keys are ordered by name, then by type.
#[derive(Debug, PartialEq, Eq, PartialOrd, Ord, Hash, Drop)]
pub struct RrKey {
    /// The owner name of the records.
    pub name: LowerName,
    /// Their type.
    pub record_type: RecordType,
}

impl RrKey {
    /// The key of this name and type.
    pub fn new(name: LowerName, record_type: RecordType) -> RrKey
        ensures { result ≡ record { name = name; record_type = record_type } }
    {
        RrKey { name, record_type }
    }
}

impl Clone for RrKey {
    ghost is_clone = { λ key copy. copy ≡ key };

    fn clone(&self) -> Result<RrKey, AllocError> {
        Ok(RrKey {
            name: self.name.clone()?,
            record_type: self.record_type,
        })
    }
}
