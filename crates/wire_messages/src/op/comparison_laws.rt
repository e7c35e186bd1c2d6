//! Laws of the comparisons of headers, questions, options and signatures, each the contract of a function with nothing
//! to do.

ghost use Rattle.std.specs.Prelude.{◌≡◌, ◌↔◌, IsTrue, ℕ};
ghost use Rattle.wire_messages.specs.op.EdnsFields.{EdnsFields};
ghost use Rattle.wire_messages.specs.serialize.layout.MessageLayout.{tsig_record};
ghost use Rattle.wire_messages.specs.op.QuestionSameness.{SameQuestion};
ghost use Rattle.wire_messages.specs.rr.RecordSameness.{SameRecord};
ghost use Rattle.wire_messages.specs.declared.op.edns.EdnsOption.{EdnsOption as OptionFields};
ghost use Rattle.wire_messages.specs.declared.op.header.Header.{Header as HeaderFields};
ghost use Rattle.wire_messages.specs.declared.op.header.HeaderCounts.{HeaderCounts as Counts};
ghost use Rattle.wire_messages.specs.declared.op.header.Metadata.{Metadata as MetadataFields};
ghost use Rattle.wire_messages.specs.declared.op.query.Query.{Query as Question};
ghost use Rattle.wire_messages.specs.declared.rr.record.Record.{Record as ResourceRecord};
ghost use Rattle.wire_messages.specs.declared.rr.tsig.TSIG.{TSIG as Signature};

use crate::op::edns::{Edns, EdnsOption};
use crate::op::header::{Header, HeaderCounts, Metadata};
use crate::op::query::Query;
use crate::rr::record::Record;
use crate::rr::tsig::TSIG;

/// `==` on headers and their parts compares each field (RFC 1035 section 4.1.1).
pub fn header_comparisons()
    ensures metadata { (a b : MetadataFields) → IsTrue (⟦<Metadata as PartialEq>⟧.eq a b) ↔ (a ≡ b) }
    ensures counts { (a b : Counts) → IsTrue (⟦<HeaderCounts as PartialEq>⟧.eq a b) ↔ (a ≡ b) }
    ensures headers { (a b : HeaderFields) → IsTrue (⟦<Header as PartialEq>⟧.eq a b) ↔ (a ≡ b) }
{}

/// `==` on questions compares name, type and class, names in any letter case (RFC 1035 section 2.3.3).
pub fn question_comparisons()
    ensures { (a b : Question) → IsTrue (⟦<Query as PartialEq>⟧.eq a b) ↔ SameQuestion a b }
{}

/// `==` on options and on what an OPT record says compares each field (RFC 6891 section 6.1).
pub fn edns_comparisons()
    ensures options { (a b : OptionFields) → IsTrue (⟦<EdnsOption as PartialEq>⟧.eq a b) ↔ (a ≡ b) }
    ensures edns { (a b : EdnsFields) → IsTrue (⟦<Edns as PartialEq>⟧.eq a b) ↔ (a ≡ b) }
{}

/// `==` on signatures compares them as records of their type: owner name, class and data, names in any letter case.
pub fn signature_comparisons()
    ensures { (a b : ResourceRecord Signature) → IsTrue (⟦<Record<TSIG> as PartialEq>⟧.eq a b) ↔
        SameRecord (tsig_record a) (tsig_record b) }
{}
