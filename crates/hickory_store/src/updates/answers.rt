//! What the handler answers: transfers by its own policy, and for the rest what the zone in memory answers.

ghost use Rattle.std.specs.Prelude.{◌≡◌, ◌⊎◌, Err, None, Some, false};
ghost use Rattle.hickory_base.specs.requests.Questions.{one_query};
ghost use Rattle.hickory_base.specs.zone_store.ZoneAnswers.{LookedUp, soa_alone, whole_zone, zone_soa};
ghost use Rattle.hickory_base.specs.declared.errors.LookupError.TheVariants as lookup_error;
ghost use Rattle.hickory_base.specs.declared.zone_store.lookup.LookupControlFlow.TheVariants.{Skip};
ghost use Rattle.hickory_store.specs.updates.Permission.{transfer_permission};
ghost use Rattle.hickory_store.specs.updates.TransferAnswers.{SearchedIn, SoaTransferredAs, TransferredAs, asks_for_transfer, transfer_failure};
ghost use Rattle.hickory_store.specs.updates.UpdateAnswers.{AnswersUpdate};

use crate::updates::handler::UpdatableZoneHandler;
use crate::updates::verifier::Verifier;
use hickory_base::errors::{DnsError, LookupError, UpdateFault};
use hickory_base::server::{Request, RequestInfo};
use hickory_base::zone_store::{
    AuthLookup, AxfrPolicy, InMemoryZoneHandler, LookupControlFlow, LookupOptions, Nsec3QueryInfo,
    NxProofKind, ZoneHandler, ZoneTransfer, ZoneType,
};
use hickory_wire::{LowerName, Record, RecordType, TSigResponseContext};
use std::alloc::Global;

/// Why a transfer is not given, where the permission to it is refused.
fn failure(fault: UpdateFault) -> LookupError
    ensures { result ≡ transfer_failure fault }
{
    match fault {
        UpdateFault::Code(code) => LookupError::ResponseCode(code),
        UpdateFault::Memory => LookupError::Memory,
    }
}

/// What is given for a transfer, and what the signer of the reply has to know; nothing of that where memory is refused.
fn given(
    made: Result<ZoneTransfer, LookupError>,
    context: Option<TSigResponseContext>,
) -> (
    Result<ZoneTransfer, LookupError>,
    Option<TSigResponseContext>,
)
    ensures given { (result ≡ (made, context)) ⊎ (result ≡ (Err lookup_error.Memory, None)) }
    ensures memory { made ≡ Err lookup_error.Memory → result ≡ (Err lookup_error.Memory, None) }
{
    match made {
        Err(LookupError::Memory) => (Err(LookupError::Memory), None),
        answer => (answer, context),
    }
}

/// The whole zone as a transfer.
fn transfer(
    zone: &InMemoryZoneHandler,
    alloc: Global,
    context: Option<TSigResponseContext>,
) -> (
    Result<ZoneTransfer, LookupError>,
    Option<TSigResponseContext>,
)
    ensures { (result ≡ (whole_zone zone.now (zone_soa zone.now), context)) ⊎
        (result ≡ (Err lookup_error.Memory, None)) }
{
    given(zone.whole_zone(alloc), context)
}

/// The zone's SOA record alone in the place of a transfer.
fn soa_alone(
    zone: &InMemoryZoneHandler,
    alloc: Global,
    context: Option<TSigResponseContext>,
) -> (
    Result<ZoneTransfer, LookupError>,
    Option<TSigResponseContext>,
)
    ensures { (result ≡ (soa_alone (whole_zone zone.now (zone_soa zone.now)), context)) ⊎
        (result ≡ (Err lookup_error.Memory, None)) }
{
    given(zone.soa_alone(alloc), context)
}

/// Whether a request asks for a transfer.
fn asks_for_transfer(request: &Request) -> bool
    ensures { result ≡ asks_for_transfer (one_query request.now.message.queries.queries) }
{
    match request.request_info() {
        Ok(RequestInfo { query, .. }) => query.query_type() == RecordType::AXFR,
        Err(_) => false,
    }
}

impl<V: Verifier> UpdatableZoneHandler<V> {
    /// The zone's SOA record alone in the place of a transfer (RFC 1995 section 2), for whoever may have one, with what
    /// the signer of the reply has to know. Without an SOA it is ServFail.
    pub fn soa_transfer(
        &self,
        alloc: Global,
        request: &Request,
        now: u64,
    ) -> (
        Result<ZoneTransfer, LookupError>,
        Option<TSigResponseContext>,
    )
        ensures { SoaTransferredAs self.now.zone
            (transfer_permission V.Verifier self.now.verifier self.now.axfr_policy request.now now) (Some result) }
    {
        let (permission, context) = self.authorize_transfer(alloc, request, now);
        match permission {
            Ok(()) => soa_alone(&self.in_memory, alloc, context),
            Err(fault) => (Err(failure(fault)), context),
        }
    }
}

impl<V: Verifier> ZoneHandler for UpdatableZoneHandler<V> {
    ghost zone_type_of = { λ handler. handler.zone.zone_type };

    ghost axfr_policy_of = { λ handler. handler.axfr_policy };

    ghost origin_of = { λ handler. handler.zone.origin };

    ghost validates_dnssec = { λ _. false };

    ghost nx_proof_kind_of = { λ _. None };

    ghost lookup_gives = { λ handler name record_type _ _ answer. LookedUp handler.zone name record_type answer };

    ghost search_gives = { λ handler request _ answer context. SearchedIn handler.zone request answer ×
        (context ≡ None) };

    ghost consult_gives = { λ _ _ _ _ _ last answer context. (answer ≡ last) × (context ≡ None) };

    ghost transfer_gives = { λ handler request _ now answer.
        TransferredAs handler.zone (transfer_permission V.Verifier handler.verifier handler.axfr_policy request now)
        answer };

    ghost nsec_gives = { λ _ _ _ answer. answer ≡ Skip };

    ghost nsec3_gives = { λ _ _ _ answer. answer ≡ Skip };

    ghost update_gives = { λ old request now answer context new.
        AnswersUpdate false V.Verifier old (request, now) answer context new };

    fn zone_type(&self) -> ZoneType {
        self.in_memory.zone_type()
    }

    fn axfr_policy(&self) -> AxfrPolicy {
        self.axfr_policy
    }

    fn origin(&self) -> &LowerName {
        self.in_memory.origin()
    }

    fn can_validate_dnssec(&self) -> bool {
        self.in_memory.can_validate_dnssec()
    }

    fn nx_proof_kind(&self) -> Option<&NxProofKind> {
        self.in_memory.nx_proof_kind()
    }

    fn lookup(
        &self,
        alloc: Global,
        name: &LowerName,
        record_type: RecordType,
        info: Option<&RequestInfo<'_>>,
        options: LookupOptions,
    ) -> LookupControlFlow<AuthLookup<'_>> {
        self.in_memory
            .lookup(alloc, name, record_type, info, options)
    }

    fn search(
        &self,
        alloc: Global,
        request: &Request,
        options: LookupOptions,
    ) -> (
        LookupControlFlow<AuthLookup<'_>>,
        Option<TSigResponseContext>,
    ) {
        if asks_for_transfer(request) {
            let failed = Err(LookupError::Net(DnsError::Other));
            return (LookupControlFlow::Break(failed), None);
        }
        self.in_memory.search(alloc, request, options)
    }

    fn leaves(
        &self,
        _name: &LowerName,
        _record_type: RecordType,
        _info: Option<&RequestInfo<'_>>,
        _options: LookupOptions,
    ) -> bool {
        true
    }

    fn consult<'z>(
        &'z self,
        _alloc: Global,
        _name: &LowerName,
        _record_type: RecordType,
        _info: Option<&RequestInfo<'_>>,
        _options: LookupOptions,
        last: LookupControlFlow<AuthLookup<'z>>,
    ) -> (
        LookupControlFlow<AuthLookup<'z>>,
        Option<TSigResponseContext>,
    ) {
        (last, None)
    }

    fn zone_transfer(
        &self,
        alloc: Global,
        request: &Request,
        _options: LookupOptions,
        now: u64,
    ) -> Option<
        (
            Result<ZoneTransfer, LookupError>,
            Option<TSigResponseContext>,
        ),
    > {
        let (permission, context) = self.authorize_transfer(alloc, request, now);
        let answer = match permission {
            Ok(()) => transfer(&self.in_memory, alloc, context),
            Err(fault) => (Err(failure(fault)), context),
        };
        Some(answer)
    }

    fn nsec_records(
        &self,
        alloc: Global,
        name: &LowerName,
        options: LookupOptions,
    ) -> LookupControlFlow<AuthLookup<'_>> {
        self.in_memory.nsec_records(alloc, name, options)
    }

    fn nsec3_records(
        &self,
        alloc: Global,
        info: Nsec3QueryInfo<'_>,
        options: LookupOptions,
    ) -> LookupControlFlow<AuthLookup<'_>> {
        let info = Nsec3QueryInfo {
            qtype: info.qtype,
            ..info
        };
        self.in_memory.nsec3_records(alloc, info, options)
    }

    fn update(
        &mut self,
        alloc: Global,
        request: &Request,
        now: u64,
    ) -> (Result<bool, UpdateFault>, Option<TSigResponseContext>) {
        self.update_by(alloc, request, now, false)
    }
}
