//! A handler that promises what it answers: every name of its zone has one address.

ghost use Rattle.std.specs.Prelude.{◌≡◌, ◌∷◌, [], Err, IfOk, None, false};
ghost use Rattle.hickory_base.specs.requests.Questions.{one_query};
ghost use Rattle.hickory_base.specs.declared.errors.UpdateFault.TheVariants as update_fault;
ghost use Rattle.hickory_base.specs.declared.zone_store.handler.AxfrPolicy.TheVariants.{Deny};
ghost use Rattle.hickory_base.specs.declared.zone_store.handler.ZoneType.TheVariants.{Primary};
ghost use Rattle.hickory_base.specs.declared.zone_store.lookup.LookupControlFlow.TheVariants.{Skip};
ghost use Rattle.calling.specs.Parking.{IsParked, IsParkedFor, address_record};

use hickory_server::proto::{
    DNSClass, Items, LowerName, Name, Proof, RData, Record, RecordType, ResponseCode,
    TSigResponseContext,
};
use hickory_server::server::{Request, RequestInfo};
use hickory_server::zone_handler::{
    AuthLookup, AxfrPolicy, DnsError, LookupControlFlow, LookupError, LookupOptions,
    Nsec3QueryInfo, NxProofKind, UpdateFault, ZoneHandler, ZoneTransfer, ZoneType,
};
use std::alloc::{AllocError, Global};
use std::net::Ipv4Addr;

/// A zone in which every name has one address and nothing else.
#[derive(Drop)]
pub struct Parked {
    /// The apex of the zone.
    pub origin: LowerName,
    /// The address.
    pub address: Ipv4Addr,
}

impl Parked {
    /// The records of a name.
    fn records(&self, alloc: Global, name: &Name) -> Result<Items<Record>, AllocError>
        ensures { IfOk result (λ records. records ≡ address_record self.now.address name.now ∷ []) }
    {
        let record = Record {
            name: name.clone()?,
            dns_class: DNSClass::IN,
            ttl: 300,
            rdata: RData::A(self.address),
            proof: Proof::Indeterminate,
        };
        let mut records = Items::new(alloc);
        records.push(record)?;
        Ok(records)
    }

    /// The answer to a question for this name and type.
    fn answer(
        &self,
        alloc: Global,
        name: &LowerName,
        record_type: RecordType,
    ) -> LookupControlFlow<AuthLookup<'_>>
        ensures { IsParked self.now.address name.now record_type result }
    {
        if record_type.value() != RecordType::A.value() {
            return LookupControlFlow::Continue(Err(LookupError::Net(DnsError::NoRecords {
                response_code: ResponseCode::NO_ERROR,
                authorities: Items::new(alloc),
                soa: None,
            })));
        }
        match self.records(alloc, name.as_name()) {
            Ok(answers) => LookupControlFlow::Continue(Ok(AuthLookup::owned(answers))),
            Err(AllocError) => LookupControlFlow::Continue(Err(LookupError::Memory)),
        }
    }
}

impl ZoneHandler for Parked {
    ghost zone_type_of = { λ _. Primary };

    ghost axfr_policy_of = { λ _. Deny };

    ghost origin_of = { λ parked. parked.origin };

    ghost validates_dnssec = { λ _. false };

    ghost nx_proof_kind_of = { λ _. None };

    ghost lookup_gives = { λ parked name record_type _ _ answer. IsParked parked.address name record_type answer };

    ghost search_gives = { λ parked request _ answer context.
        IsParkedFor parked.address (one_query request.message.queries.queries) answer × (context ≡ None) };

    ghost consult_gives = { λ _ _ _ _ _ last answer context. (answer ≡ last) × (context ≡ None) };

    ghost transfer_gives = { λ _ _ _ _ answer. answer ≡ None };

    ghost nsec_gives = { λ _ _ _ answer. answer ≡ Skip };

    ghost nsec3_gives = { λ _ _ _ answer. answer ≡ Skip };

    ghost update_gives = { λ parked _ _ answer context new. (answer ≡ Err (update_fault.Code 4)) × (context ≡ None) ×
        (new ≡ parked) };

    fn zone_type(&self) -> ZoneType {
        ZoneType::Primary
    }

    fn axfr_policy(&self) -> AxfrPolicy {
        AxfrPolicy::Deny
    }

    fn origin(&self) -> &LowerName {
        &self.origin
    }

    fn can_validate_dnssec(&self) -> bool {
        false
    }

    fn nx_proof_kind(&self) -> Option<&NxProofKind> {
        None
    }

    fn lookup(
        &self,
        alloc: Global,
        name: &LowerName,
        record_type: RecordType,
        _info: Option<&RequestInfo<'_>>,
        _options: LookupOptions,
    ) -> LookupControlFlow<AuthLookup<'_>> {
        self.answer(alloc, name, record_type)
    }

    fn search(
        &self,
        alloc: Global,
        request: &Request,
        _options: LookupOptions,
    ) -> (
        LookupControlFlow<AuthLookup<'_>>,
        Option<TSigResponseContext>,
    ) {
        match request.request_info() {
            Ok(RequestInfo { query, .. }) => {
                (self.answer(alloc, query.name(), query.query_type()), None)
            }
            Err(e) => (LookupControlFlow::Continue(Err(e)), None),
        }
    }

    fn consult<'z>(
        &'z self,
        _alloc: Global,
        _name: &LowerName,
        _record_type: RecordType,
        _info: Option<&RequestInfo<'_>>,
        _options: LookupOptions,
        last: LookupControlFlow<AuthLookup<'z>>,
    ) -> (
        LookupControlFlow<AuthLookup<'z>>,
        Option<TSigResponseContext>,
    ) {
        (last, None)
    }

    fn zone_transfer(
        &self,
        _alloc: Global,
        _request: &Request,
        _options: LookupOptions,
        _now: u64,
    ) -> Option<
        (
            Result<ZoneTransfer, LookupError>,
            Option<TSigResponseContext>,
        ),
    > {
        None
    }

    fn nsec_records(
        &self,
        _alloc: Global,
        _name: &LowerName,
        _options: LookupOptions,
    ) -> LookupControlFlow<AuthLookup<'_>> {
        LookupControlFlow::Skip
    }

    fn nsec3_records(
        &self,
        _alloc: Global,
        _info: Nsec3QueryInfo<'_>,
        _options: LookupOptions,
    ) -> LookupControlFlow<AuthLookup<'_>> {
        LookupControlFlow::Skip
    }

    fn update(
        &mut self,
        _alloc: Global,
        _request: &Request,
        _now: u64,
    ) -> (Result<bool, UpdateFault>, Option<TSigResponseContext>) {
        (Err(UpdateFault::Code(ResponseCode::NOT_IMP)), None)
    }
}
