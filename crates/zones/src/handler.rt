//! The zone as a handler of the catalog.

ghost use Rattle.std.specs.Prelude.{◌≡◌, ◌↔◌, IsTrue, None, Ok, OnErr, false, true};
ghost use Rattle.hickory_base.specs.declared.zone_store.lookup.LookupControlFlow.TheVariants.{Skip};
ghost use Rattle.zones.specs.ZoneQueries.{LookedUp, Searched};
ghost use Rattle.zones.specs.ZoneTransfers.{TransferGiven};
ghost use Rattle.zones.specs.ZoneUpdates.{IsMade, Updates};

use crate::overview::read_sets;
use crate::transfers::transfer;
use crate::zone::Zone;
use durable_updates::UpdateAnswer;
use hickory_base::errors::{LookupError, UpdateFault};
use hickory_base::server::{Request, RequestInfo};
use hickory_base::update_request::UpdateRequest;
use hickory_base::zone_store::{
    AuthLookup, AxfrPolicy, LookupControlFlow, LookupOptions, Nsec3QueryInfo, NxProofKind,
    WholeReply, ZoneHandler, ZoneTransfer, ZoneType,
};
use hickory_store::updates::Verifier;
use hickory_wire::{LowerName, RecordType, TSigResponseContext};
use sqlite_disk::Disk;
use std::alloc::Global;
use zone_differences::Before;

/// Whether an update was answered by a change of the zone.
fn has_changed(answer: &Result<bool, UpdateFault>) -> bool
    ensures { IsTrue result ↔ (answer.now ≡ Ok true) }
{
    match answer {
        Ok(changed) => *changed,
        Err(_) => false,
    }
}

impl<V: Verifier, D: Disk + Drop> Zone<V, D> {
    /// Makes an update that the rules grant, and keeps the difference that it made.
    fn make_update(&mut self, alloc: Global, request: &Request, now: u64) -> UpdateAnswer
        ensures made { IsMade V.Verifier self.old (request.now, now) result.0 result.1 self.new }
        ensures kept { OnErr result.0 (self.new ≡ self.old) }
    {
        let updates = request.message().updates();
        let zone = self.kept.updatable().in_memory();
        read_sets(zone);
        let before = Before::of(alloc, zone, updates);
        let (answer, context) = self.kept.update(alloc, request, now);
        if has_changed(&answer) {
            let zone = self.kept.updatable();
            self.overview.follow(alloc, zone, request);
            self.history.follow(alloc, before, zone.in_memory());
        }
        (answer, context)
    }
}

impl<V: Verifier, D: Disk + Drop> ZoneHandler for Zone<V, D> {
    ghost zone_type_of = { λ zone. zone.updatable.zone.zone_type };

    ghost axfr_policy_of = { λ zone. zone.updatable.axfr_policy };

    ghost origin_of = { λ zone. zone.updatable.zone.origin };

    ghost validates_dnssec = { λ _. false };

    ghost nx_proof_kind_of = { λ _. None };

    ghost lookup_gives = { λ zone name record_type _ _ answer. LookedUp zone.updatable.zone name record_type answer };

    ghost search_gives = { λ zone request _ answer context. Searched zone.updatable.zone request answer ×
        (context ≡ None) };

    ghost consult_gives = { λ _ _ _ _ _ last answer context. (answer ≡ last) × (context ≡ None) };

    ghost transfer_gives = { λ zone request _ now answer.
        TransferGiven V.Verifier zone.updatable zone.history request now answer };

    ghost nsec_gives = { λ _ _ _ answer. answer ≡ Skip };

    ghost nsec3_gives = { λ _ _ _ answer. answer ≡ Skip };

    ghost update_gives = { λ old request now answer context new.
        Updates V.Verifier old (request, now) answer context new };

    fn zone_type(&self) -> ZoneType {
        self.updatable().zone_type()
    }

    fn axfr_policy(&self) -> AxfrPolicy {
        self.updatable().axfr_policy()
    }

    fn origin(&self) -> &LowerName {
        self.updatable().origin()
    }

    fn can_validate_dnssec(&self) -> bool {
        false
    }

    fn nx_proof_kind(&self) -> Option<&NxProofKind> {
        None
    }

    fn lookup(
        &self,
        alloc: Global,
        name: &LowerName,
        record_type: RecordType,
        _info: Option<&RequestInfo<'_>>,
        _options: LookupOptions,
    ) -> LookupControlFlow<AuthLookup<'_>> {
        let zone = self.kept.updatable().in_memory();
        self.overview.lookup(alloc, zone, name, record_type)
    }

    fn search(
        &self,
        alloc: Global,
        request: &Request,
        _options: LookupOptions,
    ) -> (
        LookupControlFlow<AuthLookup<'_>>,
        Option<TSigResponseContext>,
    ) {
        let zone = self.kept.updatable().in_memory();
        (self.overview.search(alloc, zone, request), None)
    }

    #[inline(always)]
    fn search_whole<'z>(
        &'z self,
        alloc: Global,
        request: &Request,
        _options: LookupOptions,
        reply: &mut WholeReply<'z>,
    ) -> bool {
        let zone = self.kept.updatable().in_memory();
        self.overview.search_whole(alloc, zone, request, reply)
    }

    fn consult<'z>(
        &'z self,
        _alloc: Global,
        _name: &LowerName,
        _record_type: RecordType,
        _info: Option<&RequestInfo<'_>>,
        _options: LookupOptions,
        last: LookupControlFlow<AuthLookup<'z>>,
    ) -> (
        LookupControlFlow<AuthLookup<'z>>,
        Option<TSigResponseContext>,
    ) {
        (last, None)
    }

    fn zone_transfer(
        &self,
        alloc: Global,
        request: &Request,
        options: LookupOptions,
        now: u64,
    ) -> Option<
        (
            Result<ZoneTransfer, LookupError>,
            Option<TSigResponseContext>,
        ),
    > {
        let zone = self.kept.updatable();
        transfer(zone, &self.history, alloc, request, options, now)
    }

    fn nsec_records(
        &self,
        _alloc: Global,
        _name: &LowerName,
        _options: LookupOptions,
    ) -> LookupControlFlow<AuthLookup<'_>> {
        LookupControlFlow::Skip
    }

    fn nsec3_records(
        &self,
        _alloc: Global,
        _info: Nsec3QueryInfo<'_>,
        _options: LookupOptions,
    ) -> LookupControlFlow<AuthLookup<'_>> {
        LookupControlFlow::Skip
    }

    fn update(
        &mut self,
        alloc: Global,
        request: &Request,
        now: u64,
    ) -> (Result<bool, UpdateFault>, Option<TSigResponseContext>) {
        if self.is_granted(request) {
            self.make_update(alloc, request, now)
        } else {
            self.refusal(alloc, request, now)
        }
    }
}
