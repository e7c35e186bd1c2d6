//! A share of a handler is a handler: each call goes to the value inside, but for updates, which none takes.

ghost use Rattle.std.specs.Prelude.{◌≡◌, None, Err};
ghost use Rattle.wire_messages.specs.Numbers.{code_not_imp};
ghost use Rattle.hickory_base.specs.declared.errors.UpdateFault.TheVariants.{Code};

use crate::errors::{LookupError, UpdateFault};
use crate::server::{Request, RequestInfo};
use crate::zone_store::handler::{AxfrPolicy, Nsec3QueryInfo, NxProofKind, ZoneHandler, ZoneType};
use crate::zone_store::lookup::{
    AuthLookup, LookupControlFlow, LookupOptions, WholeReply, ZoneTransfer,
};
use hickory_wire::{LowerName, RecordType, ResponseCode, TSigResponseContext};
use std::alloc::Global;
use std::rc::Rc;

impl<H: ZoneHandler> ZoneHandler for Rc<H> {
    ghost zone_type_of = { λ shared. H.zone_type_of shared.value };

    ghost axfr_policy_of = { λ shared. H.axfr_policy_of shared.value };

    ghost origin_of = { λ shared. H.origin_of shared.value };

    ghost validates_dnssec = { λ shared. H.validates_dnssec shared.value };

    ghost nx_proof_kind_of = { λ shared. H.nx_proof_kind_of shared.value };

    ghost lookup_gives = { λ shared. H.lookup_gives shared.value };

    ghost search_gives = { λ shared. H.search_gives shared.value };

    ghost consult_gives = { λ shared. H.consult_gives shared.value };

    ghost transfer_gives = { λ shared. H.transfer_gives shared.value };

    ghost nsec_gives = { λ shared. H.nsec_gives shared.value };

    ghost nsec3_gives = { λ shared. H.nsec3_gives shared.value };

    ghost update_gives = { λ shared request now answer context new. (answer ≡ Err (Code code_not_imp)) ×
        (context ≡ None) × (new ≡ shared) };

    fn zone_type(&self) -> ZoneType {
        (**self).zone_type()
    }

    fn axfr_policy(&self) -> AxfrPolicy {
        (**self).axfr_policy()
    }

    fn origin(&self) -> &LowerName {
        (**self).origin()
    }

    fn can_validate_dnssec(&self) -> bool {
        (**self).can_validate_dnssec()
    }

    fn nx_proof_kind(&self) -> Option<&NxProofKind> {
        (**self).nx_proof_kind()
    }

    fn lookup(
        &self,
        alloc: Global,
        name: &LowerName,
        record_type: RecordType,
        info: Option<&RequestInfo<'_>>,
        options: LookupOptions,
    ) -> LookupControlFlow<AuthLookup<'_>> {
        (**self).lookup(alloc, name, record_type, info, options)
    }

    fn search(
        &self,
        alloc: Global,
        request: &Request,
        options: LookupOptions,
    ) -> (
        LookupControlFlow<AuthLookup<'_>>,
        Option<TSigResponseContext>,
    ) {
        (**self).search(alloc, request, options)
    }

    #[inline(always)]
    fn search_whole<'z>(
        &'z self,
        alloc: Global,
        request: &Request,
        options: LookupOptions,
        reply: &mut WholeReply<'z>,
    ) -> bool {
        (**self).search_whole(alloc, request, options, reply)
    }

    #[inline(always)]
    fn leaves(
        &self,
        name: &LowerName,
        record_type: RecordType,
        info: Option<&RequestInfo<'_>>,
        options: LookupOptions,
    ) -> bool {
        (**self).leaves(name, record_type, info, options)
    }

    fn consult<'z>(
        &'z self,
        alloc: Global,
        name: &LowerName,
        record_type: RecordType,
        info: Option<&RequestInfo<'_>>,
        options: LookupOptions,
        last: LookupControlFlow<AuthLookup<'z>>,
    ) -> (
        LookupControlFlow<AuthLookup<'z>>,
        Option<TSigResponseContext>,
    ) {
        (**self).consult(alloc, name, record_type, info, options, last)
    }

    fn zone_transfer(
        &self,
        alloc: Global,
        request: &Request,
        options: LookupOptions,
        now: u64,
    ) -> Option<
        (
            Result<ZoneTransfer, LookupError>,
            Option<TSigResponseContext>,
        ),
    > {
        (**self).zone_transfer(alloc, request, options, now)
    }

    fn nsec_records(
        &self,
        alloc: Global,
        name: &LowerName,
        options: LookupOptions,
    ) -> LookupControlFlow<AuthLookup<'_>> {
        (**self).nsec_records(alloc, name, options)
    }

    fn nsec3_records(
        &self,
        alloc: Global,
        info: Nsec3QueryInfo<'_>,
        options: LookupOptions,
    ) -> LookupControlFlow<AuthLookup<'_>> {
        // Made anew, so that the argument keeps the lifetime that the signature gives it: lent to the handler inside as
        // it is, it would have that of the call.
        let info = Nsec3QueryInfo {
            qtype: info.qtype,
            ..info
        };
        (**self).nsec3_records(alloc, info, options)
    }

    /// None is made: `NotImp` (RFC 2136 section 2.2). A value that others hold too is not to be changed.
    fn update(
        &mut self,
        _alloc: Global,
        _request: &Request,
        _now: u64,
    ) -> (Result<bool, UpdateFault>, Option<TSigResponseContext>) {
        (Err(UpdateFault::Code(ResponseCode::NOT_IMP)), None)
    }
}
