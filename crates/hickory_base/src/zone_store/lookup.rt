//! What is asked of a zone, and what it answers.

ghost use Rattle.std.specs.Prelude.{◌≡◌, []};
ghost use Rattle.std.specs.Option.{option_copied};
ghost use Rattle.std.specs.Slice.Iter.{iter_rest};
ghost use Rattle.hickory_base.specs.zone_store.Lookups.{asks_for_dnssec, result_of, is_continue, is_break, answers_of, additionals_of, without_additionals};
ghost use Rattle.hickory_base.specs.declared.zone_store.lookup.AuthLookup.TheVariants.{Records};

use crate::errors::LookupError;
use crate::zone_store::record_list::RecordList;
use hickory_wire::{Edns, Items, Query, Record, ResponseCode};
use std::slice::Iter;

/// What a lookup is to take care of; nothing by default.
#[derive(Clone, Copy, Debug, Default, PartialEq, Eq)]
pub struct LookupOptions {
    /// Whether DNSSEC records are asked for (RFC 3225).
    pub dnssec_ok: bool,
}

impl LookupOptions {
    /// The options that the EDNS of a request asks for; none without EDNS.
    pub fn from_edns(edns: Option<&Edns>) -> LookupOptions
        ensures { result ≡ record { dnssec_ok = asks_for_dnssec (option_copied edns.entry) } }
    {
        match edns {
            None => LookupOptions { dnssec_ok: false },
            Some(edns) => LookupOptions {
                dnssec_ok: edns.dnssec_ok(),
            },
        }
    }
}

/// What a handler answers, and whether the next handler of the chain may look at it.
#[derive(Debug, Drop)]
pub enum LookupControlFlow<T> {
    /// An answer that the other handlers of the chain are consulted about.
    Continue(Result<T, LookupError>),
    /// An answer that stands.
    Break(Result<T, LookupError>),
    /// No answer: the next handler is asked.
    Skip,
}

impl<T> LookupControlFlow<T> {
    /// The answer, if there is one.
    pub fn map_result(self) -> Option<Result<T, LookupError>>
        ensures { result ≡ result_of self }
    {
        match self {
            LookupControlFlow::Continue(result) => Some(result),
            LookupControlFlow::Break(result) => Some(result),
            LookupControlFlow::Skip => None,
        }
    }

    /// Whether it is `Continue`.
    pub fn is_continue(&self) -> bool
        ensures { result ≡ is_continue self.now }
    {
        matches!(self, LookupControlFlow::Continue(_))
    }

    /// Whether it is `Break`.
    pub fn is_break(&self) -> bool
        ensures { result ≡ is_break self.now }
    {
        matches!(self, LookupControlFlow::Break(_))
    }
}

/// What a resolver found for a question: the sections of the message that answered it.
#[derive(Debug, Drop)]
pub struct Lookup {
    /// The question.
    pub query: Query,
    /// The answer section.
    pub answers: Items<Record>,
    /// The authority section.
    pub authorities: Items<Record>,
    /// The additional section.
    pub additionals: Items<Record>,
}

/// A reply as a handler has it: its code, AA, and the records of its sections.
///
/// Id, opcode, RD, CD and the question are the request's, and the OPT record is the server's. RA and AD are clear, and
/// TC is set only where the reply is cut when it is written. No OPT, TSIG or SIG record may stand in the sections: such
/// a reply cannot be read back as it was meant.
///
/// A handler that is consulted afterwards may still replace it. As the answer to a further lookup, of an SOA, of
/// servers or of a denial, only its answers count.
#[derive(Debug, Drop)]
pub struct WholeReply<'z> {
    /// The response code. One of 16 or more needs a request with EDNS: its high eight bits go into the OPT record, and
    /// without one they are lost (RFC 6891 section 6.1.3).
    pub response_code: ResponseCode,
    /// Whether the reply is authority's word, by AA (RFC 1035 section 4.1.1).
    pub authoritative: bool,
    /// The answer section.
    pub answers: RecordList<'z>,
    /// The authority section.
    pub authorities: RecordList<'z>,
    /// The additional section, without OPT and TSIG.
    pub additionals: RecordList<'z>,
}

/// What a lookup found.
#[derive(Debug, Drop)]
pub enum AuthLookup<'z> {
    /// Nothing.
    Empty,
    /// What was resolved elsewhere.
    Resolved(Lookup),
    /// Records of the zone.
    Records {
        /// Those that were asked for.
        answers: RecordList<'z>,
        /// Those that help to use them.
        additionals: RecordList<'z>,
    },
    /// The whole reply, whatever the handler is to the zone: nothing more is looked up for it.
    Whole(WholeReply<'z>),
}

impl<'z> AuthLookup<'z> {
    /// Records of the zone, where they lie, and no additionals. It needs no memory.
    pub fn lent(answers: &'z [Record]) -> AuthLookup<'z>
        ensures { result ≡ Records answers.now [] }
    {
        AuthLookup::Records {
            answers: RecordList::lent(answers),
            additionals: RecordList::empty(),
        }
    }

    /// Records of its own, and no additionals. It needs no memory.
    pub fn owned(answers: Items<Record>) -> AuthLookup<'z>
        ensures { result ≡ Records answers [] }
    {
        AuthLookup::Records {
            answers: RecordList::owned(answers),
            additionals: RecordList::empty(),
        }
    }

    /// The answers.
    pub fn answers(&self) -> &[Record]
        ensures { result.now ≡ answers_of self.now }
    {
        match self {
            AuthLookup::Empty => &[],
            AuthLookup::Resolved(found) => found.answers.as_slice(),
            AuthLookup::Records { answers, .. } => answers.as_slice(),
            AuthLookup::Whole(reply) => reply.answers.as_slice(),
        }
    }

    /// The answers, in their order.
    pub fn iter(&self) -> Iter<'_, Record>
        ensures { iter_rest result ≡ answers_of self.now }
    {
        self.answers().iter()
    }

    /// Takes the additionals out of `Records`, which has none after that. It needs no memory.
    pub fn take_additionals(&mut self) -> Option<RecordList<'z>>
        ensures taken { result ≡ additionals_of self.old }
        ensures left { self.new ≡ without_additionals self.old }
    {
        match self {
            AuthLookup::Records { additionals, .. } => Some(additionals.take()),
            _ => None,
        }
    }
}

/// The records of a zone transfer, in the order in which they are sent (RFC 5936 section 2.2).
#[derive(Debug, Drop)]
pub struct ZoneTransfer {
    /// The SOA record, all other records, and the SOA record again.
    pub records: Items<Record>,
}
