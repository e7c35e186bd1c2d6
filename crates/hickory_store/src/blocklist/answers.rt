//! What the handler answers.

ghost use Rattle.std.specs.Prelude.{◌≡◌, ◌↔◌, ◌⊎◌, Ok, Err, None, IfOk, IfErr, IfSome, IfNone, IsTrue, false};
ghost use Rattle.hickory_base.specs.declared.errors.LookupError.TheVariants as lookup_error;
ghost use Rattle.hickory_base.specs.declared.errors.UpdateFault.TheVariants as update_fault;
ghost use Rattle.hickory_base.specs.declared.zone_store.handler.AxfrPolicy.TheVariants as axfr_policy;
ghost use Rattle.hickory_base.specs.declared.zone_store.handler.ZoneType.TheVariants as zone_type;
ghost use Rattle.hickory_base.specs.declared.zone_store.lookup.LookupControlFlow.TheVariants.{Continue, Skip};
ghost use Rattle.hickory_store.specs.blocklist.BlockAnswers.{Answers, Consulted, Searched, IsBlockedBy, block_record, block_records, found_for, sinkhole_data};

use crate::blocklist::config::{BlocklistConfig, BlocklistConsultAction};
use crate::blocklist::handler::BlocklistZoneHandler;
use hickory_base::errors::{LookupError, UpdateFault};
use hickory_base::server::{Request, RequestInfo};
use hickory_base::zone_store::{
    AuthLookup, AxfrPolicy, Lookup, LookupControlFlow, LookupOptions, Nsec3QueryInfo, NxProofKind,
    ZoneHandler, ZoneTransfer, ZoneType,
};
use hickory_wire::{
    DNSClass, Items, LowerName, Name, Octets, Proof, Query, RData, Record, RecordType,
    ResponseCode, TSigResponseContext,
};
use std::alloc::{AllocError, Global};
use std::net::{Ipv4Addr, Ipv6Addr};

impl BlocklistConfig {
    /// The address that blocked names have.
    fn sinkhole(&self, record_type: RecordType) -> RData
        ensures { result ≡ sinkhole_data self.now record_type }
    {
        if record_type.value() == RecordType::AAAA.value() {
            RData::AAAA(self.sinkhole_ipv6.unwrap_or(Ipv6Addr::UNSPECIFIED))
        } else {
            RData::A(self.sinkhole_ipv4.unwrap_or(Ipv4Addr::UNSPECIFIED))
        }
    }

    /// A record of an answer for a blocked name.
    fn record(&self, name: &Name, rdata: RData) -> Result<Record, AllocError>
        ensures { IfOk result (λ r. r ≡ block_record self.now name.now rdata) }
    {
        Ok(Record {
            name: name.clone()?,
            dns_class: DNSClass::IN,
            ttl: self.ttl,
            rdata,
            proof: Proof::Indeterminate,
        })
    }

    /// The records that answer for a blocked name.
    fn records(
        &self,
        alloc: Global,
        name: &Name,
        record_type: RecordType,
    ) -> Result<Items<Record>, AllocError>
        ensures { IfOk result (λ records. records ≡ block_records self.now name.now record_type) }
    {
        let mut records = Items::new(alloc);
        records.push(self.record(name, self.sinkhole(record_type))?)?;
        if let Some(message) = &self.block_message {
            let mut strings = Items::new(alloc);
            strings.push(Octets::from_slice(alloc, message.as_bytes())?)?;
            records.push(self.record(name, RData::TXT(strings))?)?;
        }
        Ok(records)
    }

    /// The answer for a blocked name, as a resolver would give it.
    fn resolve<'z>(
        &self,
        alloc: Global,
        name: &Name,
        record_type: RecordType,
    ) -> Result<AuthLookup<'z>, LookupError>
        ensures answered { IfOk result (λ found. found ≡ found_for self.now name.now record_type) }
        ensures refused { IfErr result (λ e. e ≡ lookup_error.Memory) }
    {
        let query = Query {
            name: name.clone()?,
            query_type: record_type,
            query_class: DNSClass::IN,
        };
        Ok(AuthLookup::Resolved(Lookup {
            query,
            answers: self.records(alloc, name, record_type)?,
            authorities: Items::new(alloc),
            additionals: Items::new(alloc),
        }))
    }
}

impl BlocklistZoneHandler {
    /// Whether a name is blocked.
    fn is_blocked(&self, name: &LowerName) -> Result<bool, AllocError>
        ensures { IfOk result (λ blocked. IsTrue blocked ↔ IsBlockedBy self.now name.now) }
    {
        if !name.as_name().is_fqdn() {
            return Ok(false);
        }
        if self.entries.contains(name) {
            return Ok(true);
        }
        if !self.config.wildcard_match {
            return Ok(false);
        }
        self.entries
            .is_under_wildcard(name, self.config.min_wildcard_depth)
    }

    /// Whether a name is not blocked; `false` also where memory is refused.
    fn is_free(&self, name: &LowerName) -> bool
        ensures { IsTrue result → ¬ (IsBlockedBy self.now name.now) }
    {
        matches!(self.is_blocked(name), Ok(false))
    }

    /// What a blocked name is answered with, and nothing for any other name.
    fn block<'z>(
        &self,
        alloc: Global,
        name: &LowerName,
        record_type: RecordType,
    ) -> Option<Result<AuthLookup<'z>, LookupError>>
        ensures blocked { IfSome result
            (λ found. (IsBlockedBy self.now name.now × (found ≡ Ok (found_for self.now.config name.now record_type))) ⊎
            (found ≡ Err lookup_error.Memory)) }
        ensures free { IfNone result (¬ (IsBlockedBy self.now name.now)) }
    {
        match self.is_blocked(name) {
            Ok(false) => None,
            Ok(true) => Some(self.config.resolve(alloc, name.as_name(), record_type)),
            Err(AllocError) => Some(Err(LookupError::Memory)),
        }
    }

    /// The answer for a blocked name, and for any other `otherwise`.
    fn answer<'z>(
        &self,
        alloc: Global,
        name: &LowerName,
        record_type: RecordType,
        otherwise: LookupControlFlow<AuthLookup<'z>>,
    ) -> LookupControlFlow<AuthLookup<'z>>
        ensures { Answers self.now name.now record_type otherwise.entry result }
    {
        match self.block(alloc, name, record_type) {
            Some(found) => LookupControlFlow::Break(found),
            None => otherwise,
        }
    }
}

impl ZoneHandler for BlocklistZoneHandler {
    ghost zone_type_of = { λ _. zone_type.External };

    ghost axfr_policy_of = { λ _. axfr_policy.Deny };

    ghost origin_of = { λ list. list.origin };

    ghost validates_dnssec = { λ _. false };

    ghost nx_proof_kind_of = { λ _. None };

    ghost lookup_gives = { λ list name record_type _ _ answer. Answers list name record_type Skip answer };

    ghost search_gives = { λ list request _ answer context. Searched list request answer × (context ≡ None) };

    ghost consult_gives = { λ list name record_type _ _ last answer context.
        Consulted list name record_type last answer × (context ≡ None) };

    ghost transfer_gives = { λ _ _ _ _ answer. answer ≡ None };

    ghost nsec_gives = { λ _ _ _ answer. answer ≡ Continue (Err lookup_error.Io) };

    ghost nsec3_gives = { λ _ _ _ answer. answer ≡ Continue (Err lookup_error.Io) };

    ghost update_gives = { λ list _ _ answer context new. (answer ≡ Err (update_fault.Code 4)) × (context ≡ None) ×
        (new ≡ list) };

    fn zone_type(&self) -> ZoneType {
        ZoneType::External
    }

    fn axfr_policy(&self) -> AxfrPolicy {
        AxfrPolicy::Deny
    }

    fn origin(&self) -> &LowerName {
        &self.origin
    }

    fn can_validate_dnssec(&self) -> bool {
        false
    }

    fn nx_proof_kind(&self) -> Option<&NxProofKind> {
        None
    }

    fn lookup(
        &self,
        alloc: Global,
        name: &LowerName,
        record_type: RecordType,
        _info: Option<&RequestInfo<'_>>,
        _options: LookupOptions,
    ) -> LookupControlFlow<AuthLookup<'_>> {
        self.answer(alloc, name, record_type, LookupControlFlow::Skip)
    }

    fn search(
        &self,
        alloc: Global,
        request: &Request,
        _options: LookupOptions,
    ) -> (
        LookupControlFlow<AuthLookup<'_>>,
        Option<TSigResponseContext>,
    ) {
        match request.request_info() {
            Ok(RequestInfo { query, .. }) => {
                let skip = LookupControlFlow::Skip;
                let answer = self.answer(alloc, query.name(), query.query_type(), skip);
                (answer, None)
            }
            Err(e) => (LookupControlFlow::Break(Err(e)), None),
        }
    }

    fn leaves(
        &self,
        name: &LowerName,
        _record_type: RecordType,
        _info: Option<&RequestInfo<'_>>,
        _options: LookupOptions,
    ) -> bool {
        match self.config.consult_action {
            BlocklistConsultAction::Enforce => self.is_free(name),
            BlocklistConsultAction::Disabled | BlocklistConsultAction::Log => true,
        }
    }

    fn consult<'z>(
        &'z self,
        alloc: Global,
        name: &LowerName,
        record_type: RecordType,
        _info: Option<&RequestInfo<'_>>,
        _options: LookupOptions,
        last: LookupControlFlow<AuthLookup<'z>>,
    ) -> (
        LookupControlFlow<AuthLookup<'z>>,
        Option<TSigResponseContext>,
    ) {
        match self.config.consult_action {
            BlocklistConsultAction::Enforce => (self.answer(alloc, name, record_type, last), None),
            BlocklistConsultAction::Disabled | BlocklistConsultAction::Log => (last, None),
        }
    }

    fn zone_transfer(
        &self,
        _alloc: Global,
        _request: &Request,
        _options: LookupOptions,
        _now: u64,
    ) -> Option<
        (
            Result<ZoneTransfer, LookupError>,
            Option<TSigResponseContext>,
        ),
    > {
        None
    }

    fn nsec_records(
        &self,
        _alloc: Global,
        _name: &LowerName,
        _options: LookupOptions,
    ) -> LookupControlFlow<AuthLookup<'_>> {
        LookupControlFlow::Continue(Err(LookupError::Io))
    }

    fn nsec3_records(
        &self,
        _alloc: Global,
        _info: Nsec3QueryInfo<'_>,
        _options: LookupOptions,
    ) -> LookupControlFlow<AuthLookup<'_>> {
        LookupControlFlow::Continue(Err(LookupError::Io))
    }

    fn update(
        &mut self,
        _alloc: Global,
        _request: &Request,
        _now: u64,
    ) -> (Result<bool, UpdateFault>, Option<TSigResponseContext>) {
        (Err(UpdateFault::Code(ResponseCode::NOT_IMP)), None)
    }
}
