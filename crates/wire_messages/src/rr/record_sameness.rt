//! Laws of the comparison of records, each the contract of a function with nothing to do.

ghost use Rattle.std.specs.Prelude.{◌≡◌, ◌↔◌, IsTrue, ℕ};
ghost use Rattle.wire_messages.specs.rr.RecordSameness.{SameData, SameRecord};
ghost use Rattle.wire_messages.specs.declared.rr.rdata.RData.{RData as Data};
ghost use Rattle.wire_messages.specs.declared.rr.record.Record.{Record as ResourceRecord};

use crate::rr::rdata::RData;
use crate::rr::record::Record;

/// `==` on records and on their data compares owner name, class, type and data, names in any letter case, and neither
/// TTL nor proof.
pub fn record_comparisons()
    ensures rdata { (a b : Data) → IsTrue (⟦<RData as PartialEq>⟧.eq a b) ↔ SameData a b }
    ensures records { (a b : ResourceRecord Data) → IsTrue (⟦<Record<RData> as PartialEq>⟧.eq a b) ↔ SameRecord a b }
{}
