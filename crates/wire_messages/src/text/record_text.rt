//! Records and questions as text.

use crate::op::query::Query;
use crate::rr::rdata::RData;
use crate::rr::record::Record;
use crate::rr::record_type::RecordType;
use crate::rr::tsig::TSIG;
use std::fmt;

/// The record as a line of a zone's text, without an end of line (RFC 1035 section 5.1): owner name, TTL, class, type,
/// data, with a space between.
impl fmt::Display for Record<RData> {
    fn fmt<W: fmt::Write>(&self, f: &mut fmt::Formatter<W>) -> fmt::Result {
        write!(f, "{} {} {} ", &self.name, self.ttl, self.dns_class)?;
        write!(f, "{} {}", self.rdata.record_type(), &self.rdata)
    }
}

/// The name, the class and the type, with a space between.
impl fmt::Display for Query {
    fn fmt<W: fmt::Write>(&self, f: &mut fmt::Formatter<W>) -> fmt::Result {
        write!(f, "{} {} {}", &self.name, self.query_class, self.query_type)
    }
}
