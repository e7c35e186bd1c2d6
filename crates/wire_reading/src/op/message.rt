//! Whole messages.

use wire_messages::op::edns::Edns;
use wire_messages::op::header::Metadata;
use wire_messages::op::query::Query;
use wire_messages::rr::record::Record;
use wire_messages::rr::tsig::TSIG;
use wire_names::values::boxed::Boxed;
use wire_names::values::items::Items;

/// A message (RFC 1035 section 4.1), with its OPT and TSIG records taken out of the additional section.
#[derive(Debug, Drop)]
pub struct Message {
    /// The header but for its counts, with the response code joined of header and OPT record.
    pub metadata: Metadata,
    /// The question section.
    pub queries: Items<Query>,
    /// The answer section; in an update the prerequisites.
    pub answers: Items<Record>,
    /// The authority section; in an update the changes.
    pub authorities: Items<Record>,
    /// The additional section without OPT and TSIG.
    pub additionals: Items<Record>,
    /// What the OPT record says.
    pub edns: Option<Edns>,
    /// The TSIG record.
    pub signature: Option<Boxed<Record<TSIG>>>,
}
