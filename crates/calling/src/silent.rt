//! A handler that promises nothing.

ghost use Rattle.std.specs.Prelude.{None, false};
ghost use Rattle.hickory_base.specs.declared.zone_store.handler.AxfrPolicy.TheVariants.{Deny};
ghost use Rattle.hickory_base.specs.declared.zone_store.handler.ZoneType.TheVariants.{Primary};

use hickory_server::proto::{LowerName, RecordType, ResponseCode, TSigResponseContext};
use hickory_server::server::{Request, RequestInfo};
use hickory_server::zone_handler::{
    AuthLookup, AxfrPolicy, LookupControlFlow, LookupError, LookupOptions, Nsec3QueryInfo,
    NxProofKind, UpdateFault, ZoneHandler, ZoneTransfer, ZoneType,
};
use std::alloc::Global;

/// A handler that never has an answer.
#[derive(Drop)]
pub struct Silent {
    /// The apex of its zone.
    pub origin: LowerName,
}

impl ZoneHandler for Silent {
    ghost zone_type_of = { λ _. Primary };

    ghost axfr_policy_of = { λ _. Deny };

    ghost origin_of = { λ silent. silent.origin };

    ghost validates_dnssec = { λ _. false };

    ghost nx_proof_kind_of = { λ _. None };

    ghost lookup_gives = { λ _ _ _ _ _ _. Unit {0} };

    ghost search_gives = { λ _ _ _ _ _. Unit {0} };

    ghost consult_gives = { λ _ _ _ _ _ _ _ _. Unit {0} };

    ghost transfer_gives = { λ _ _ _ _ _. Unit {0} };

    ghost nsec_gives = { λ _ _ _ _. Unit {0} };

    ghost nsec3_gives = { λ _ _ _ _. Unit {0} };

    ghost update_gives = { λ _ _ _ _ _ _. Unit {0} };

    fn zone_type(&self) -> ZoneType {
        ZoneType::Primary
    }

    fn axfr_policy(&self) -> AxfrPolicy {
        AxfrPolicy::Deny
    }

    fn origin(&self) -> &LowerName {
        &self.origin
    }

    fn can_validate_dnssec(&self) -> bool {
        false
    }

    fn nx_proof_kind(&self) -> Option<&NxProofKind> {
        None
    }

    fn lookup(
        &self,
        _alloc: Global,
        _name: &LowerName,
        _record_type: RecordType,
        _info: Option<&RequestInfo<'_>>,
        _options: LookupOptions,
    ) -> LookupControlFlow<AuthLookup<'_>> {
        LookupControlFlow::Skip
    }

    fn search(
        &self,
        _alloc: Global,
        _request: &Request,
        _options: LookupOptions,
    ) -> (
        LookupControlFlow<AuthLookup<'_>>,
        Option<TSigResponseContext>,
    ) {
        (LookupControlFlow::Skip, None)
    }

    fn consult<'z>(
        &'z self,
        _alloc: Global,
        _name: &LowerName,
        _record_type: RecordType,
        _info: Option<&RequestInfo<'_>>,
        _options: LookupOptions,
        last: LookupControlFlow<AuthLookup<'z>>,
    ) -> (
        LookupControlFlow<AuthLookup<'z>>,
        Option<TSigResponseContext>,
    ) {
        (last, None)
    }

    fn zone_transfer(
        &self,
        _alloc: Global,
        _request: &Request,
        _options: LookupOptions,
        _now: u64,
    ) -> Option<
        (
            Result<ZoneTransfer, LookupError>,
            Option<TSigResponseContext>,
        ),
    > {
        None
    }

    fn nsec_records(
        &self,
        _alloc: Global,
        _name: &LowerName,
        _options: LookupOptions,
    ) -> LookupControlFlow<AuthLookup<'_>> {
        LookupControlFlow::Skip
    }

    fn nsec3_records(
        &self,
        _alloc: Global,
        _info: Nsec3QueryInfo<'_>,
        _options: LookupOptions,
    ) -> LookupControlFlow<AuthLookup<'_>> {
        LookupControlFlow::Skip
    }

    fn update(
        &mut self,
        _alloc: Global,
        _request: &Request,
        _now: u64,
    ) -> (Result<bool, UpdateFault>, Option<TSigResponseContext>) {
        (Err(UpdateFault::Code(ResponseCode::NOT_IMP)), None)
    }
}
