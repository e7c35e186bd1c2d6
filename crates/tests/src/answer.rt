//! What a scripted handler answers.

use hickory_base::errors::{DnsError, LookupError};
use hickory_base::zone_store::{
    AuthLookup, Lookup, LookupControlFlow, RecordList, WholeReply, ZoneTransfer,
};
use hickory_wire::{Boxed, DNSClass, Items, Name, Proof, Query, Record, RecordType, ResponseCode};
use std::alloc::{AllocError, Global};

/// A call of a handler.
#[derive(Clone, Copy, Debug, PartialEq, Eq)]
pub enum Call {
    /// `search`.
    Search,
    /// `consult`.
    Consult,
    /// `lookup`.
    Lookup,
    /// `nsec_records` or `nsec3_records`.
    Denial,
    /// `zone_transfer`.
    Transfer,
}

/// Whether the next handler may look at an answer.
#[derive(Clone, Copy, Debug, PartialEq, Eq)]
pub enum Flow {
    /// There is no answer.
    Skip,
    /// The other handlers are consulted about it.
    Continue,
    /// It is final.
    Break,
    /// To a consult: the answers that there are so far, and then these.
    Add,
}

/// What an answer is.
#[derive(Clone, Copy)]
pub enum Outcome {
    /// Records of the zone.
    Found,
    /// What was resolved elsewhere, its records with this proof.
    Resolved(Proof),
    /// The whole reply, with this code, and with AA or without.
    Whole(ResponseCode, bool),
    /// Nothing.
    Empty,
    /// A response code.
    Code(ResponseCode),
    /// That there are no records, with this code.
    NoRecords(ResponseCode),
    /// That a DNSSEC proof is wrong.
    Bogus,
    /// That the source of the records has no answer.
    Failed,
    /// That the records cannot be read.
    Unreadable,
    /// Want of memory.
    Memory,
}

/// A section of a message, as records are given for it.
#[derive(Clone, Copy, Debug, PartialEq, Eq)]
pub enum Section {
    /// The answer section.
    Answers,
    /// The authority section without the SOA record at its end.
    Authorities,
    /// The SOA record at the end of the authority section.
    Soa,
    /// The additional section without OPT and TSIG.
    Additionals,
}

/// What a call answers.
#[derive(Drop)]
pub struct Answer {
    /// The call.
    pub call: Call,
    /// Whether the next handler may look at it.
    pub flow: Flow,
    /// What it is.
    pub outcome: Outcome,
    /// The records of its answer section.
    pub answers: Vec<Record>,
    /// The records of its authority section, without the SOA record at its end.
    pub authorities: Vec<Record>,
    /// The SOA record at the end of its authority section.
    pub soa: Vec<Record>,
    /// The records of its additional section.
    pub additionals: Vec<Record>,
}

/// Copies of records with this proof.
fn proved(alloc: Global, records: &[Record], proof: Proof) -> Result<Items<Record>, AllocError> {
    let mut copies = Items::new(alloc);
    for record in records {
        let mut copy = record.clone()?;
        copy.proof = proof;
        copies.push(copy)?;
    }
    Ok(copies)
}

/// A list of copies of records.
fn listed<'z>(alloc: Global, records: &[Record]) -> Result<RecordList<'z>, AllocError> {
    Ok(RecordList::owned(proved(alloc, records, Proof::Indeterminate)?))
}

/// The fault that an answer without records is.
fn fault(outcome: Outcome) -> LookupError {
    match outcome {
        Outcome::Code(code) | Outcome::NoRecords(code) => LookupError::ResponseCode(code),
        Outcome::Bogus => LookupError::Net(DnsError::DnssecBogus),
        Outcome::Unreadable => LookupError::Io,
        Outcome::Memory => LookupError::Memory,
        Outcome::Failed
        | Outcome::Found
        | Outcome::Resolved(_)
        | Outcome::Whole(_, _)
        | Outcome::Empty => LookupError::Net(DnsError::Other),
    }
}

impl Answer {
    /// Records of the zone.
    fn found<'z>(&self, alloc: Global) -> Result<AuthLookup<'z>, AllocError> {
        let answers = listed(alloc, &self.answers)?;
        let additionals = listed(alloc, &self.additionals)?;
        Ok(AuthLookup::Records {
            answers,
            additionals,
        })
    }

    /// What was resolved elsewhere.
    fn resolved<'z>(&self, alloc: Global, proof: Proof) -> Result<AuthLookup<'z>, AllocError> {
        let answers = proved(alloc, &self.answers, proof)?;
        let authorities = proved(alloc, &self.authorities, proof)?;
        let additionals = proved(alloc, &self.additionals, proof)?;
        Ok(AuthLookup::Resolved(Lookup {
            query: Query {
                name: Name::root(),
                query_type: RecordType::ANY,
                query_class: DNSClass::IN,
            },
            answers,
            authorities,
            additionals,
        }))
    }

    /// The whole reply, with this code, and with AA or without.
    fn whole<'z>(
        &self,
        alloc: Global,
        response_code: ResponseCode,
        authoritative: bool,
    ) -> Result<AuthLookup<'z>, AllocError> {
        let answers = listed(alloc, &self.answers)?;
        let authorities = listed(alloc, &self.authorities)?;
        let additionals = listed(alloc, &self.additionals)?;
        Ok(AuthLookup::Whole(WholeReply {
            response_code,
            authoritative,
            answers,
            authorities,
            additionals,
        }))
    }

    /// That there are no records.
    fn no_records(
        &self,
        alloc: Global,
        response_code: ResponseCode,
    ) -> Result<LookupError, AllocError> {
        let authorities = proved(alloc, &self.authorities, Proof::Indeterminate)?;
        let soa = match self.soa.first() {
            None => None,
            Some(record) => Some(Boxed::new(alloc, record.clone()?)?),
        };
        Ok(LookupError::Net(DnsError::NoRecords {
            response_code,
            authorities,
            soa,
        }))
    }

    /// The answer without its flow.
    fn outcome<'z>(&self, alloc: Global) -> Result<AuthLookup<'z>, LookupError> {
        match self.outcome {
            Outcome::Found => Ok(self.found(alloc)?),
            Outcome::Resolved(proof) => Ok(self.resolved(alloc, proof)?),
            Outcome::Whole(code, authoritative) => Ok(self.whole(alloc, code, authoritative)?),
            Outcome::Empty => Ok(AuthLookup::Empty),
            Outcome::NoRecords(code) => Err(self.no_records(alloc, code)?),
            other => Err(fault(other)),
        }
    }

    /// The answer.
    pub fn given<'z>(&self, alloc: Global) -> LookupControlFlow<AuthLookup<'z>> {
        match self.flow {
            Flow::Skip | Flow::Add => LookupControlFlow::Skip,
            Flow::Continue => LookupControlFlow::Continue(self.outcome(alloc)),
            Flow::Break => LookupControlFlow::Break(self.outcome(alloc)),
        }
    }

    /// The answers that there are so far, and then those of this one.
    fn added<'z>(
        &self,
        alloc: Global,
        last: &LookupControlFlow<AuthLookup<'_>>,
    ) -> Result<AuthLookup<'z>, LookupError> {
        let mut answers = Items::new(alloc);
        if let LookupControlFlow::Continue(Ok(found)) | LookupControlFlow::Break(Ok(found)) = last {
            for record in found.iter() {
                answers.push(record.clone()?)?;
            }
        }
        for record in &self.answers {
            answers.push(record.clone()?)?;
        }
        Ok(AuthLookup::owned(answers))
    }

    /// The answer to a consult about another answer.
    pub fn consulted<'z>(
        &self,
        alloc: Global,
        last: LookupControlFlow<AuthLookup<'z>>,
    ) -> LookupControlFlow<AuthLookup<'z>> {
        let given = match self.flow {
            Flow::Add => LookupControlFlow::Break(self.added(alloc, &last)),
            _ => self.given(alloc),
        };
        drop(last);
        given
    }

    /// The transfer that it is of.
    pub fn transferred(&self, alloc: Global) -> Result<ZoneTransfer, LookupError> {
        match self.outcome {
            Outcome::Found => Ok(ZoneTransfer {
                records: proved(alloc, &self.answers, Proof::Indeterminate)?,
            }),
            other => Err(fault(other)),
        }
    }
}
