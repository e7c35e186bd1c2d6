//! The handlers of chains: zones in memory, zones that take updates, lists of blocked names and scripted ones, as one
//! type.

use crate::answer::{Answer, Call, Outcome, Section};
use crate::calls::{Asked, CallLog};
use crate::fault::Fault;
use crate::keys::KeyVerifier;
use hickory_base::errors::{LookupError, UpdateFault};
use hickory_base::server::{Request, RequestInfo};
use hickory_base::zone_store::{
    AuthLookup, AxfrPolicy, InMemoryZoneHandler, LookupControlFlow, LookupOptions, Nsec3QueryInfo,
    NxProofKind, ZoneHandler, ZoneTransfer, ZoneType,
};
use hickory_store::blocklist::BlocklistZoneHandler;
use hickory_store::updates::UpdatableZoneHandler;
use hickory_wire::{
    LowerName, Name, Record, RecordType, ResponseCode, TSigResponseContext, TSigResponseKind,
};
use std::alloc::{AllocError, Global};

/// The part of a scripted handler.
#[derive(Drop)]
pub struct Part {
    /// Its place in the chain.
    pub place: usize,
    /// The key that its answers are to be signed with, if they are to be signed.
    pub key: Option<Name>,
    /// What its calls answer; of two answers to one call the later counts. A call without an answer is skipped, and a
    /// consult without one gives back what it is about.
    pub answers: Vec<Answer>,
    /// What an update answers.
    pub update: Result<bool, UpdateFault>,
    /// Where its calls are noted.
    pub log: CallLog,
}

/// What a handler answers by.
#[derive(Drop)]
pub enum Source {
    /// A zone in memory.
    Zone(InMemoryZoneHandler),
    /// A zone that takes dynamic updates.
    Updatable(UpdatableZoneHandler<KeyVerifier>),
    /// A list of blocked names.
    List(BlocklistZoneHandler),
    /// A script.
    Part(Part),
}

/// A handler: what it says of itself, and what it answers by.
#[derive(Drop)]
pub struct Handler {
    /// What the server is to the zone.
    pub zone_type: ZoneType,
    /// Who may have a transfer.
    pub axfr_policy: AxfrPolicy,
    /// The name at the top of the zone.
    pub origin: LowerName,
    /// Whether its records come with what is known of their proofs.
    pub validates: bool,
    /// By which records it denies.
    pub proof_kind: Option<NxProofKind>,
    /// What it answers by.
    pub source: Source,
}

/// An answer with what the signer of the reply has to know.
type Signed<'z> = (
    LookupControlFlow<AuthLookup<'z>>,
    Option<TSigResponseContext>,
);

/// How many answers there are so far.
fn count(last: &LookupControlFlow<AuthLookup<'_>>) -> usize {
    match last {
        LookupControlFlow::Continue(Ok(found)) | LookupControlFlow::Break(Ok(found)) => {
            found.iter().len()
        }
        _ => 0,
    }
}

impl Part {
    /// What a signer of the reply to a request of this id has to know, if it is to be signed.
    fn context(&self, request_id: u16) -> Result<Option<TSigResponseContext>, AllocError> {
        match &self.key {
            None => Ok(None),
            Some(key) => Ok(Some(TSigResponseContext {
                request_id,
                now: 0,
                key_name: key.clone()?,
                kind: TSigResponseKind::UnknownKey,
            })),
        }
    }

    /// An answer with what the signer of the reply has to know.
    fn signed<'z>(&self, answer: LookupControlFlow<AuthLookup<'z>>, id: u16) -> Signed<'z> {
        match self.context(id) {
            Ok(context) => (answer, context),
            Err(_) => {
                drop(answer);
                (LookupControlFlow::Break(Err(LookupError::Memory)), None)
            }
        }
    }

    /// Adds a record to a section of the answer begun last.
    pub fn put(&mut self, section: Section, record: Record) -> Result<(), Fault> {
        match self.answers.last_mut() {
            Some(answer) => {
                let records = match section {
                    Section::Answers => &mut answer.answers,
                    Section::Authorities => &mut answer.authorities,
                    Section::Soa => &mut answer.soa,
                    Section::Additionals => &mut answer.additionals,
                };
                records.push(record)?;
                Ok(())
            }
            None => {
                drop(record);
                Err(Fault::Line("no answer is begun"))
            }
        }
    }

    /// What a call answers, if that is said.
    fn answer_to(&self, call: Call) -> Option<&Answer> {
        let answer = self
            .answers
            .iter()
            .rev()
            .find(|answer| answer.call == call)?;
        if matches!(answer.outcome, Outcome::Memory) {
            self.log.want_memory();
        }
        Some(answer)
    }

    /// The answer to a call that is noted. A call that could not be noted has none: want of memory is answered then.
    fn given<'z>(
        &self,
        alloc: Global,
        asked: &Asked<'_>,
        call: Call,
    ) -> LookupControlFlow<AuthLookup<'z>> {
        if let Err(e) = self.log.note(alloc, self.place, asked) {
            return LookupControlFlow::Break(Err(e));
        }
        match self.answer_to(call) {
            None => LookupControlFlow::Skip,
            Some(answer) => answer.given(alloc),
        }
    }

    /// The answer to a request.
    fn search<'z>(
        &self,
        alloc: Global,
        request: &Request,
        options: LookupOptions,
    ) -> LookupControlFlow<AuthLookup<'z>> {
        let id = Some(request.metadata().id);
        match request.message().queries.queries() {
            [query] => {
                let asked = Asked::new(
                    "search",
                    query.name(),
                    Some(query.query_type()),
                    id,
                    options,
                );
                self.given(alloc, &asked, Call::Search)
            }
            _ => LookupControlFlow::Skip,
        }
    }

    /// The answer to a consult.
    fn consult<'z>(
        &self,
        alloc: Global,
        asked: &Asked<'_>,
        last: LookupControlFlow<AuthLookup<'z>>,
    ) -> LookupControlFlow<AuthLookup<'z>> {
        let asked = Asked {
            count: Some((" answers=", count(&last))),
            ..*asked
        };
        if let Err(e) = self.log.note(alloc, self.place, &asked) {
            drop(last);
            return LookupControlFlow::Break(Err(e));
        }
        match self.answer_to(Call::Consult) {
            None => last,
            Some(answer) => answer.consulted(alloc, last),
        }
    }

    /// The answer to an update.
    fn update(&self, alloc: Global, request: &Request) -> Result<bool, UpdateFault> {
        if let [query] = request.message().queries.queries() {
            let options = LookupOptions { dnssec_ok: false };
            let id = Some(request.metadata().id);
            let asked = Asked::new(
                "update",
                query.name(),
                Some(query.query_type()),
                id,
                options,
            );
            if let Err(e) = self.log.note(alloc, self.place, &asked) {
                drop(e);
                return Err(UpdateFault::Memory);
            }
        }
        if matches!(self.update, Err(UpdateFault::Memory)) {
            self.log.want_memory();
        }
        self.update
    }
}

impl ZoneHandler for Handler {
    ghost zone_type_of = { λ handler. handler.zone_type };

    ghost axfr_policy_of = { λ handler. handler.axfr_policy };

    ghost origin_of = { λ handler. handler.origin };

    ghost validates_dnssec = { λ handler. handler.validates };

    ghost nx_proof_kind_of = { λ handler. handler.proof_kind };

    ghost lookup_gives = { λ _ _ _ _ _ _. Unit {0} };

    ghost search_gives = { λ _ _ _ _ _. Unit {0} };

    ghost consult_gives = { λ _ _ _ _ _ _ _ _. Unit {0} };

    ghost transfer_gives = { λ _ _ _ _ _. Unit {0} };

    ghost nsec_gives = { λ _ _ _ _. Unit {0} };

    ghost nsec3_gives = { λ _ _ _ _. Unit {0} };

    ghost update_gives = { λ _ _ _ _ _ _. Unit {0} };

    fn zone_type(&self) -> ZoneType {
        self.zone_type
    }

    fn axfr_policy(&self) -> AxfrPolicy {
        self.axfr_policy
    }

    fn origin(&self) -> &LowerName {
        &self.origin
    }

    fn can_validate_dnssec(&self) -> bool {
        self.validates
    }

    fn nx_proof_kind(&self) -> Option<&NxProofKind> {
        self.proof_kind.as_ref()
    }

    fn lookup(
        &self,
        alloc: Global,
        name: &LowerName,
        record_type: RecordType,
        info: Option<&RequestInfo<'_>>,
        options: LookupOptions,
    ) -> LookupControlFlow<AuthLookup<'_>> {
        match &self.source {
            Source::Zone(zone) => zone.lookup(alloc, name, record_type, info, options),
            Source::List(list) => list.lookup(alloc, name, record_type, info, options),
            Source::Updatable(zone) => zone.lookup(alloc, name, record_type, info, options),
            Source::Part(part) => {
                let asked = Asked::new(
                    "lookup",
                    name,
                    Some(record_type),
                    info.map(|info| info.metadata.id),
                    options,
                );
                part.given(alloc, &asked, Call::Lookup)
            }
        }
    }

    fn search(
        &self,
        alloc: Global,
        request: &Request,
        options: LookupOptions,
    ) -> (
        LookupControlFlow<AuthLookup<'_>>,
        Option<TSigResponseContext>,
    ) {
        match &self.source {
            Source::Zone(zone) => zone.search(alloc, request, options),
            Source::List(list) => list.search(alloc, request, options),
            Source::Updatable(zone) => zone.search(alloc, request, options),
            Source::Part(part) => {
                let answer = part.search(alloc, request, options);
                part.signed(answer, request.metadata().id)
            }
        }
    }

    fn consult<'z>(
        &'z self,
        alloc: Global,
        name: &LowerName,
        record_type: RecordType,
        info: Option<&RequestInfo<'_>>,
        options: LookupOptions,
        last: LookupControlFlow<AuthLookup<'z>>,
    ) -> (
        LookupControlFlow<AuthLookup<'z>>,
        Option<TSigResponseContext>,
    ) {
        match &self.source {
            Source::Zone(zone) => zone.consult(alloc, name, record_type, info, options, last),
            Source::List(list) => list.consult(alloc, name, record_type, info, options, last),
            Source::Updatable(zone) => zone.consult(alloc, name, record_type, info, options, last),
            Source::Part(part) => {
                let id = info.map(|info| info.metadata.id);
                let asked = Asked::new("consult", name, Some(record_type), id, options);
                let answer = part.consult(alloc, &asked, last);
                part.signed(answer, id.unwrap_or(0))
            }
        }
    }

    fn zone_transfer(
        &self,
        alloc: Global,
        request: &Request,
        options: LookupOptions,
        now: u64,
    ) -> Option<
        (
            Result<ZoneTransfer, LookupError>,
            Option<TSigResponseContext>,
        ),
    > {
        match &self.source {
            Source::Zone(zone) => zone.zone_transfer(alloc, request, options, now),
            Source::List(list) => list.zone_transfer(alloc, request, options, now),
            Source::Updatable(zone) => zone.zone_transfer(alloc, request, options, now),
            Source::Part(part) => {
                let outcome = part.answer_to(Call::Transfer)?.transferred(alloc);
                match part.context(request.metadata().id) {
                    Ok(context) => Some((outcome, context)),
                    Err(_) => {
                        drop(outcome);
                        Some((Err(LookupError::Memory), None))
                    }
                }
            }
        }
    }

    fn nsec_records(
        &self,
        alloc: Global,
        name: &LowerName,
        options: LookupOptions,
    ) -> LookupControlFlow<AuthLookup<'_>> {
        match &self.source {
            Source::Zone(zone) => zone.nsec_records(alloc, name, options),
            Source::List(list) => list.nsec_records(alloc, name, options),
            Source::Updatable(zone) => zone.nsec_records(alloc, name, options),
            Source::Part(part) => {
                let asked = Asked::new("nsec", name, None, None, options);
                part.given(alloc, &asked, Call::Denial)
            }
        }
    }

    fn nsec3_records(
        &self,
        alloc: Global,
        info: Nsec3QueryInfo<'_>,
        options: LookupOptions,
    ) -> LookupControlFlow<AuthLookup<'_>> {
        let info = Nsec3QueryInfo {
            qtype: info.qtype,
            ..info
        };
        match &self.source {
            Source::Zone(zone) => zone.nsec3_records(alloc, info, options),
            Source::List(list) => list.nsec3_records(alloc, info, options),
            Source::Updatable(zone) => zone.nsec3_records(alloc, info, options),
            Source::Part(part) => {
                let asked = Asked {
                    count: Some((" iterations=", usize::from(info.iterations))),
                    from_wildcard: info.has_wildcard_match,
                    ..Asked::new("nsec3", info.qname, Some(info.qtype), None, options)
                };
                part.given(alloc, &asked, Call::Denial)
            }
        }
    }

    fn update(
        &mut self,
        alloc: Global,
        request: &Request,
        now: u64,
    ) -> (Result<bool, UpdateFault>, Option<TSigResponseContext>) {
        match &mut self.source {
            Source::Updatable(zone) => zone.update(alloc, request, now),
            Source::Part(part) => match part.context(request.metadata().id) {
                Ok(context) => (part.update(alloc, request), context),
                Err(_) => (Err(UpdateFault::Memory), None),
            },
            _ => (Err(UpdateFault::Code(ResponseCode::NOT_IMP)), None),
        }
    }
}
