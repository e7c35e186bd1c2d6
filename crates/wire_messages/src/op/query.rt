//! Questions.

ghost use Rattle.std.specs.Prelude.{◌≡◌};

use crate::rr::dns_class::DNSClass;
use crate::rr::record_type::RecordType;
use std::alloc::AllocError;
use wire_names::rr::domain::name::Name;

/// A question: what is asked of a name (RFC 1035 section 4.1.2).
///
/// Equal are questions of one name in any letter case, one type and one class.
#[derive(Debug, Drop, PartialEq, Eq)]
pub struct Query {
    /// The name asked about.
    pub name: Name,
    /// The type asked for.
    pub query_type: RecordType,
    /// The class asked for.
    pub query_class: DNSClass,
}

impl Clone for Query {
    ghost is_clone = { λ source copy. copy ≡ source };

    fn clone(&self) -> Result<Query, AllocError> {
        Ok(Query {
            name: self.name.clone()?,
            query_type: self.query_type,
            query_class: self.query_class,
        })
    }
}
