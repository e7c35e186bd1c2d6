//! How a zone that is held in memory answers.

ghost use Rattle.std.specs.Prelude.{◌≡◌, ◌≢◌, Err, IfSome, None, false, true};
ghost use Rattle.std.specs.Map.{lookup};
ghost use Rattle.std.specs.Option.{option_copied};
ghost use Rattle.wire_messages.specs.Numbers.{code_not_imp, type_soa};
ghost use Rattle.hickory_base.specs.requests.Questions.{one_query};
ghost use Rattle.hickory_base.specs.zone_store.ZoneAnswers.{LookedUp, OrMemory, Searched, Transferred, asks_for_set, found, soa_alone, transfer_answer, zone_answer};
ghost use Rattle.hickory_base.specs.zone_store.ZoneSets.{is_key};
ghost use Rattle.hickory_base.specs.declared.errors.UpdateFault.TheVariants.{Code};
ghost use Rattle.hickory_base.specs.declared.errors.LookupError.TheVariants.{Memory};
ghost use Rattle.hickory_base.specs.declared.zone_store.lookup.LookupControlFlow.TheVariants.{Continue, Skip};

use crate::errors::{LookupError, UpdateFault};
use crate::server::{Request, RequestInfo};
use crate::zone_store::find::{find, find_from};
use crate::zone_store::handler::{AxfrPolicy, Nsec3QueryInfo, NxProofKind, ZoneHandler, ZoneType};
use crate::zone_store::in_memory::InMemoryZoneHandler;
use crate::zone_store::lookup::{AuthLookup, LookupControlFlow, LookupOptions, ZoneTransfer};
use hickory_wire::{LowerName, Record, RecordType, ResponseCode, TSigResponseContext};
use std::alloc::Global;

impl InMemoryZoneHandler {
    /// The records of type SOA at the origin, where these are asked for. It needs no memory.
    fn soa_asked(&self, name: &LowerName, record_type: RecordType) -> Option<&[Record]>
        ensures asked { IfSome result (λ records. zone_answer self.now.sets name.now record_type ≡ found records.now) }
        ensures given { name.now ≡ self.now.origin → record_type ≡ type_soa →
            option_copied result ≡ lookup (is_key self.now.origin type_soa) self.now.sets }
    {
        if record_type.value() == RecordType::SOA.value() && *name == self.apex.name {
            self.soa_set()
        } else {
            None
        }
    }

    /// The zone's records for whoever may have them.
    fn transfer(&self, alloc: Global) -> Result<ZoneTransfer, LookupError>
        ensures { OrMemory (transfer_answer self.now) result }
    {
        match self.axfr_policy {
            AxfrPolicy::AllowAll => self.whole_zone(alloc),
            _ => Err(LookupError::ResponseCode(ResponseCode::REFUSED)),
        }
    }

    /// The zone's SOA record alone in the place of a transfer, for whoever may have one (RFC 1995 section 2). Without
    /// an SOA it is ServFail.
    pub fn soa_transfer(&self, alloc: Global) -> Result<ZoneTransfer, LookupError>
        ensures { OrMemory (soa_alone (transfer_answer self.now)) result }
    {
        match self.axfr_policy {
            AxfrPolicy::AllowAll => self.soa_alone(alloc),
            _ => Err(LookupError::ResponseCode(ResponseCode::REFUSED)),
        }
    }
}

impl ZoneHandler for InMemoryZoneHandler {
    ghost zone_type_of = { λ zone. zone.zone_type };

    ghost axfr_policy_of = { λ zone. zone.axfr_policy };

    ghost origin_of = { λ zone. zone.origin };

    ghost validates_dnssec = { λ _. false };

    ghost nx_proof_kind_of = { λ _. None };

    ghost lookup_gives = { λ zone name record_type _ _ answer. LookedUp zone name record_type answer };

    ghost search_gives = { λ zone request _ answer context. Searched zone request answer × (context ≡ None) };

    ghost consult_gives = { λ _ _ _ _ _ last answer context. (answer ≡ last) × (context ≡ None) };

    ghost transfer_gives = { λ zone _ _ _ answer. Transferred zone answer };

    ghost nsec_gives = { λ _ _ _ answer. answer ≡ Skip };

    ghost nsec3_gives = { λ _ _ _ answer. answer ≡ Skip };

    ghost update_gives = { λ zone _ _ answer context new. (answer ≡ Err (Code code_not_imp)) × (context ≡ None) ×
        (new ≡ zone) };

    fn zone_type(&self) -> ZoneType {
        self.zone_type
    }

    fn axfr_policy(&self) -> AxfrPolicy {
        self.axfr_policy
    }

    fn origin(&self) -> &LowerName {
        &self.apex.name
    }

    fn can_validate_dnssec(&self) -> bool {
        false
    }

    fn nx_proof_kind(&self) -> Option<&NxProofKind> {
        None
    }

    /// What is lent of a set takes no memory, but a key to find it does; the SOA of the zone takes none.
    fn lookup(
        &self,
        alloc: Global,
        name: &LowerName,
        record_type: RecordType,
        _info: Option<&RequestInfo<'_>>,
        _options: LookupOptions,
    ) -> LookupControlFlow<AuthLookup<'_>>
        ensures gives { LookedUp self.now name.now record_type result }
        ensures soa { name.now ≡ self.now.origin → record_type ≡ type_soa →
            IfSome (lookup (is_key self.now.origin type_soa) self.now.sets) (λ records.
            result ≡ Continue (found records)) }
    {
        if let Some(records) = self.soa_asked(name, record_type) {
            return LookupControlFlow::Continue(Ok(AuthLookup::lent(records)));
        }
        LookupControlFlow::Continue(find(alloc, &self.records, name, record_type))
    }

    /// It takes no memory, unless records of any type are asked for, which are copied.
    fn search(
        &self,
        alloc: Global,
        request: &Request,
        _options: LookupOptions,
    ) -> (
        LookupControlFlow<AuthLookup<'_>>,
        Option<TSigResponseContext>,
    )
        ensures gives { Searched self.now request.now result.0 × (result.1 ≡ None) }
        ensures lent { asks_for_set (one_query request.now.message.queries.queries) ≡ true →
            result.0 ≢ Continue (Err Memory) }
    {
        let query = match request.message().queries.try_as_query() {
            Ok(query) => query,
            Err(e) => return (LookupControlFlow::Break(Err(e)), None),
        };
        let found = find_from(alloc, &self.records, query.first_key(), query.query_type());
        (LookupControlFlow::Continue(found), None)
    }

    fn leaves(
        &self,
        _name: &LowerName,
        _record_type: RecordType,
        _info: Option<&RequestInfo<'_>>,
        _options: LookupOptions,
    ) -> bool {
        true
    }

    fn consult<'z>(
        &'z self,
        _alloc: Global,
        _name: &LowerName,
        _record_type: RecordType,
        _info: Option<&RequestInfo<'_>>,
        _options: LookupOptions,
        last: LookupControlFlow<AuthLookup<'z>>,
    ) -> (
        LookupControlFlow<AuthLookup<'z>>,
        Option<TSigResponseContext>,
    ) {
        (last, None)
    }

    fn zone_transfer(
        &self,
        alloc: Global,
        _request: &Request,
        _options: LookupOptions,
        _now: u64,
    ) -> Option<
        (
            Result<ZoneTransfer, LookupError>,
            Option<TSigResponseContext>,
        ),
    > {
        Some((self.transfer(alloc), None))
    }

    fn nsec_records(
        &self,
        _alloc: Global,
        _name: &LowerName,
        _options: LookupOptions,
    ) -> LookupControlFlow<AuthLookup<'_>> {
        LookupControlFlow::Skip
    }

    fn nsec3_records(
        &self,
        _alloc: Global,
        _info: Nsec3QueryInfo<'_>,
        _options: LookupOptions,
    ) -> LookupControlFlow<AuthLookup<'_>> {
        LookupControlFlow::Skip
    }

    fn update(
        &mut self,
        _alloc: Global,
        _request: &Request,
        _now: u64,
    ) -> (Result<bool, UpdateFault>, Option<TSigResponseContext>) {
        (Err(UpdateFault::Code(ResponseCode::NOT_IMP)), None)
    }
}
