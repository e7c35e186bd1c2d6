//! Requests as they are read.

ghost use Rattle.std.specs.Prelude.{◌≡◌, ◌==◌, ◌≤◌, length, max, IfOk, IfErr};
ghost use Rattle.std.specs.Cmp.Lexicographic.{pointwise};
ghost use Rattle.std.specs.Cmp.{partial_equiv_from_equiv};
ghost use Rattle.hickory_base.specs.representation.QuestionList.{question_list};
ghost use Rattle.hickory_base.specs.requests.Questions.{QuestionSection, one_query, payload_limit, edns_version, query_eq, section_eq, section_eq_equiv};

use crate::errors::LookupError;
use hickory_wire::{Boxed, Edns, Items, LowerQuery, Metadata, Record, ShortOctets, TSIG};
use std::marker::Model;
use std::slice;

/// Questions: the one of nearly every request in the value itself, and else a list of them.
///
/// Contracts speak of the questions as `question_list`.
#[derive(Drop)]
pub(crate) enum Questions {
    /// Just one.
    One(LowerQuery),
    /// Any number.
    Many(Items<LowerQuery>),
}

impl Questions {
    /// The questions, in their order.
    fn as_slice(&self) -> &[LowerQuery]
        ensures { result.now ≡ question_list self.now }
    {
        match self {
            Questions::One(query) => slice::from_ref(query),
            Questions::Many(queries) => queries.as_slice(),
        }
    }

    /// How many questions there are.
    fn len(&self) -> usize
        ensures { result ≡ length (question_list self.now) }
    {
        self.as_slice().len()
    }
}

/// The questions of a request, and the bytes that hold them.
#[derive(Drop)]
pub struct Queries {
    pub(crate) queries: Questions,
    pub(crate) original: ShortOctets,
}

impl Model for Queries {
    ghost use Rattle.std.specs.Prelude.{◌≤◌, length};
    ghost use Rattle.hickory_base.specs.representation.QuestionList.{question_list};
    ghost use Rattle.hickory_base.specs.requests.Questions.{QuestionSection};

    ghost Value = { QuestionSection };

    ghost view = { λ q. record { queries = question_list q.queries; bytes = q.original } };

    ghost invariant = { λ q. length (question_list q.queries) ≤ 65535 };
}

impl Queries {
    /// The questions that stand in these bytes. Their number has 16 bits.
    pub(crate) fn new(queries: Questions, original: ShortOctets) -> Queries
        requires { length (question_list queries) ≤ 65535 }
        ensures { result ≡ record { queries = question_list queries; bytes = original } }
    {
        Queries { queries, original }
    }

    /// How many questions there are, at most 65,535.
    pub fn len(&self) -> usize
        ensures count { result ≡ length self.now.queries }
        ensures fits { result ≤ 65535 }
    {
        self.queries.len()
    }

    /// How many questions there are, in the 16 bits of a header's count.
    pub(crate) fn count(&self) -> u16
        ensures { result ≡ length self.now.queries }
    {
        self.queries.len() as u16
    }

    /// Whether there is no question.
    pub fn is_empty(&self) -> bool
        ensures { result ≡ (length self.now.queries == 0) }
    {
        self.queries.len() == 0
    }

    /// The questions, in their order.
    pub fn queries(&self) -> &[LowerQuery]
        ensures { result.now ≡ self.now.queries }
    {
        self.queries.as_slice()
    }

    /// The bytes of the message that hold the questions.
    pub fn as_bytes(&self) -> &[u8]
        ensures { result.now ≡ self.now.bytes }
    {
        self.original.as_slice()
    }

    /// The question, where there is just one; else `BadQueryCount` with how many there are.
    pub(crate) fn try_as_query(&self) -> Result<&LowerQuery, LookupError>
        ensures ok { IfOk result (λ query. one_query self.now.queries ≡ Ok query.now) }
        ensures err { IfErr result (λ e. one_query self.now.queries ≡ Err e) }
    {
        match self.queries.as_slice() {
            [query] => Ok(query),
            others => Err(LookupError::BadQueryCount(others.len())),
        }
    }
}

/// Whether the questions are the same one by one, names in any letter case.
fn are_same(queries: &[LowerQuery], others: &[LowerQuery]) -> bool
    ensures { result ≡ pointwise query_eq queries.now others.now }
{
    let mut rest = queries;
    let mut others = others;
    while let ([query, left @ ..], [other, others_left @ ..]) = (rest, others) {
        if query.original() != other.original() {
            return false;
        }
        rest = left;
        others = others_left;
    }
    rest.is_empty() && others.is_empty()
}

impl PartialEq for Queries {
    ghost eq = { section_eq };

    ghost laws = { partial_equiv_from_equiv section_eq_equiv };

    /// The names of questions are compared in any letter case, and the bytes as bytes.
    fn eq(&self, other: &Queries) -> bool {
        are_same(self.queries(), other.queries()) && self.as_bytes() == other.as_bytes()
    }
}

impl Eq for Queries {
    ghost laws = { section_eq_equiv };
}

/// A message as a server takes it: each question with its name in lower case beside it, OPT and TSIG records taken out
/// of the additional section.
///
/// In an update the answers are the prerequisites and the authorities the changes (RFC 2136 section 2).
///
/// Equal are messages of equal fields: records and questions as they compare, so that neither a record's TTL nor its
/// proof counts and names are compared in any letter case, and the bytes of the questions as bytes.
#[derive(Drop, PartialEq, Eq)]
pub struct MessageRequest {
    /// The header but for its counts, with the response code joined of header and OPT record.
    pub metadata: Metadata,
    /// The question section.
    pub queries: Queries,
    /// The answer section.
    pub answers: Items<Record>,
    /// The authority section.
    pub authorities: Items<Record>,
    /// The additional section without OPT and TSIG.
    pub additionals: Items<Record>,
    /// The TSIG record (RFC 8945).
    pub signature: Option<Boxed<Record<TSIG>>>,
    /// What the OPT record says (RFC 6891).
    pub edns: Option<Edns>,
}

impl MessageRequest {
    /// How many bytes a UDP reply may have, as the sender says: 512 without EDNS, and never less (RFC 6891 section
    /// 6.2.3).
    pub fn max_payload(&self) -> u16
        ensures { result ≡ payload_limit self.now.edns }
    {
        match &self.edns {
            None => 512,
            Some(edns) => edns.max_payload().max(512),
        }
    }

    /// The version of EDNS, 0 without EDNS.
    pub fn version(&self) -> u8
        ensures { result ≡ edns_version self.now.edns }
    {
        match &self.edns {
            None => 0,
            Some(edns) => edns.version(),
        }
    }
}
