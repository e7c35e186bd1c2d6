//! A box of a handler is a handler: each call goes to the value inside.

ghost use Rattle.std.specs.Prelude.{◌≡◌};

use crate::errors::{LookupError, UpdateFault};
use crate::server::{Request, RequestInfo};
use crate::zone_store::handler::{AxfrPolicy, Nsec3QueryInfo, NxProofKind, ZoneHandler, ZoneType};
use crate::zone_store::lookup::{
    AuthLookup, LookupControlFlow, LookupOptions, WholeReply, ZoneTransfer,
};
use hickory_wire::{LowerName, RecordType, TSigResponseContext};
use std::alloc::Global;

impl ZoneHandler for Box<dyn ZoneHandler> {
    ghost zone_type_of = { λ b. (ZoneHandler-box b).zone_type_of b.value };

    ghost axfr_policy_of = { λ b. (ZoneHandler-box b).axfr_policy_of b.value };

    ghost origin_of = { λ b. (ZoneHandler-box b).origin_of b.value };

    ghost validates_dnssec = { λ b. (ZoneHandler-box b).validates_dnssec b.value };

    ghost nx_proof_kind_of = { λ b. (ZoneHandler-box b).nx_proof_kind_of b.value };

    ghost lookup_gives = { λ b. (ZoneHandler-box b).lookup_gives b.value };

    ghost search_gives = { λ b. (ZoneHandler-box b).search_gives b.value };

    ghost consult_gives = { λ b. (ZoneHandler-box b).consult_gives b.value };

    ghost transfer_gives = { λ b. (ZoneHandler-box b).transfer_gives b.value };

    ghost nsec_gives = { λ b. (ZoneHandler-box b).nsec_gives b.value };

    ghost nsec3_gives = { λ b. (ZoneHandler-box b).nsec3_gives b.value };

    ghost update_gives = { λ b request now answer context new. (state : _) ×
        (ZoneHandler-box b).update_gives b.value request now answer context state ×
        (new ≡ record b { value = state }) };

    fn zone_type(&self) -> ZoneType {
        (**self).zone_type()
    }

    fn axfr_policy(&self) -> AxfrPolicy {
        (**self).axfr_policy()
    }

    fn origin(&self) -> &LowerName {
        (**self).origin()
    }

    fn can_validate_dnssec(&self) -> bool {
        (**self).can_validate_dnssec()
    }

    fn nx_proof_kind(&self) -> Option<&NxProofKind> {
        (**self).nx_proof_kind()
    }

    fn lookup(
        &self,
        alloc: Global,
        name: &LowerName,
        record_type: RecordType,
        info: Option<&RequestInfo<'_>>,
        options: LookupOptions,
    ) -> LookupControlFlow<AuthLookup<'_>> {
        (**self).lookup(alloc, name, record_type, info, options)
    }

    fn search(
        &self,
        alloc: Global,
        request: &Request,
        options: LookupOptions,
    ) -> (
        LookupControlFlow<AuthLookup<'_>>,
        Option<TSigResponseContext>,
    ) {
        (**self).search(alloc, request, options)
    }

    fn search_whole<'z>(
        &'z self,
        alloc: Global,
        request: &Request,
        options: LookupOptions,
        reply: &mut WholeReply<'z>,
    ) -> bool {
        (**self).search_whole(alloc, request, options, reply)
    }

    fn leaves(
        &self,
        name: &LowerName,
        record_type: RecordType,
        info: Option<&RequestInfo<'_>>,
        options: LookupOptions,
    ) -> bool {
        (**self).leaves(name, record_type, info, options)
    }

    fn consult<'z>(
        &'z self,
        alloc: Global,
        name: &LowerName,
        record_type: RecordType,
        info: Option<&RequestInfo<'_>>,
        options: LookupOptions,
        last: LookupControlFlow<AuthLookup<'z>>,
    ) -> (
        LookupControlFlow<AuthLookup<'z>>,
        Option<TSigResponseContext>,
    ) {
        (**self).consult(alloc, name, record_type, info, options, last)
    }

    fn zone_transfer(
        &self,
        alloc: Global,
        request: &Request,
        options: LookupOptions,
        now: u64,
    ) -> Option<
        (
            Result<ZoneTransfer, LookupError>,
            Option<TSigResponseContext>,
        ),
    > {
        (**self).zone_transfer(alloc, request, options, now)
    }

    fn nsec_records(
        &self,
        alloc: Global,
        name: &LowerName,
        options: LookupOptions,
    ) -> LookupControlFlow<AuthLookup<'_>> {
        (**self).nsec_records(alloc, name, options)
    }

    fn nsec3_records(
        &self,
        alloc: Global,
        info: Nsec3QueryInfo<'_>,
        options: LookupOptions,
    ) -> LookupControlFlow<AuthLookup<'_>> {
        // Made anew, so that the argument keeps the lifetime that the signature gives it: lent to the handler inside as
        // it is, it would have that of the call.
        let info = Nsec3QueryInfo {
            qtype: info.qtype,
            ..info
        };
        (**self).nsec3_records(alloc, info, options)
    }

    fn update(
        &mut self,
        alloc: Global,
        request: &Request,
        now: u64,
    ) -> (Result<bool, UpdateFault>, Option<TSigResponseContext>) {
        (**self).update(alloc, request, now)
    }
}
