//! Either of two handlers is a handler: each call goes to the one that is there.

ghost use Rattle.std.specs.Prelude.{◌≡◌};
ghost use Rattle.either.specs.Either.{MatchEither, either};
ghost use Rattle.hickory_base.specs.zone_store.Eithers.{UpdatesEither};

use crate::errors::{LookupError, UpdateFault};
use crate::server::{Request, RequestInfo};
use crate::zone_store::handler::{AxfrPolicy, Nsec3QueryInfo, NxProofKind, ZoneHandler, ZoneType};
use crate::zone_store::lookup::{
    AuthLookup, LookupControlFlow, LookupOptions, WholeReply, ZoneTransfer,
};
use either::{Either, Left, Right};
use hickory_wire::{LowerName, RecordType, TSigResponseContext};
use std::alloc::Global;

impl<L: ZoneHandler, R: ZoneHandler> ZoneHandler for Either<L, R> {
    ghost zone_type_of = { either L.zone_type_of R.zone_type_of };

    ghost axfr_policy_of = { either L.axfr_policy_of R.axfr_policy_of };

    ghost origin_of = { either L.origin_of R.origin_of };

    ghost validates_dnssec = { either L.validates_dnssec R.validates_dnssec };

    ghost nx_proof_kind_of = { either L.nx_proof_kind_of R.nx_proof_kind_of };

    ghost lookup_gives = { λ handler name record_type info options flow.
        MatchEither handler (λ left. L.lookup_gives left name record_type info options flow)
        (λ right. R.lookup_gives right name record_type info options flow) };

    ghost search_gives = { λ handler request options flow context.
        MatchEither handler (λ left. L.search_gives left request options flow context)
        (λ right. R.search_gives right request options flow context) };

    ghost consult_gives = { λ handler name record_type info options last flow context.
        MatchEither handler (λ left. L.consult_gives left name record_type info options last flow context)
        (λ right. R.consult_gives right name record_type info options last flow context) };

    ghost transfer_gives = { λ handler request options now answer.
        MatchEither handler (λ left. L.transfer_gives left request options now answer)
        (λ right. R.transfer_gives right request options now answer) };

    ghost nsec_gives = { λ handler name options flow. MatchEither handler (λ left. L.nsec_gives left name options flow)
        (λ right. R.nsec_gives right name options flow) };

    ghost nsec3_gives = { λ handler question options flow.
        MatchEither handler (λ left. L.nsec3_gives left question options flow)
        (λ right. R.nsec3_gives right question options flow) };

    ghost update_gives = { UpdatesEither L.update_gives R.update_gives };

    fn zone_type(&self) -> ZoneType {
        match self {
            Left(handler) => handler.zone_type(),
            Right(handler) => handler.zone_type(),
        }
    }

    fn axfr_policy(&self) -> AxfrPolicy {
        match self {
            Left(handler) => handler.axfr_policy(),
            Right(handler) => handler.axfr_policy(),
        }
    }

    fn origin(&self) -> &LowerName {
        match self {
            Left(handler) => handler.origin(),
            Right(handler) => handler.origin(),
        }
    }

    fn can_validate_dnssec(&self) -> bool {
        match self {
            Left(handler) => handler.can_validate_dnssec(),
            Right(handler) => handler.can_validate_dnssec(),
        }
    }

    fn nx_proof_kind(&self) -> Option<&NxProofKind> {
        match self {
            Left(handler) => handler.nx_proof_kind(),
            Right(handler) => handler.nx_proof_kind(),
        }
    }

    fn lookup(
        &self,
        alloc: Global,
        name: &LowerName,
        record_type: RecordType,
        info: Option<&RequestInfo<'_>>,
        options: LookupOptions,
    ) -> LookupControlFlow<AuthLookup<'_>> {
        match self {
            Left(handler) => handler.lookup(alloc, name, record_type, info, options),
            Right(handler) => handler.lookup(alloc, name, record_type, info, options),
        }
    }

    fn search(
        &self,
        alloc: Global,
        request: &Request,
        options: LookupOptions,
    ) -> (
        LookupControlFlow<AuthLookup<'_>>,
        Option<TSigResponseContext>,
    ) {
        match self {
            Left(handler) => handler.search(alloc, request, options),
            Right(handler) => handler.search(alloc, request, options),
        }
    }

    #[inline(always)]
    fn search_whole<'z>(
        &'z self,
        alloc: Global,
        request: &Request,
        options: LookupOptions,
        reply: &mut WholeReply<'z>,
    ) -> bool {
        match self {
            Left(handler) => handler.search_whole(alloc, request, options, reply),
            Right(handler) => handler.search_whole(alloc, request, options, reply),
        }
    }

    #[inline(always)]
    fn leaves(
        &self,
        name: &LowerName,
        record_type: RecordType,
        info: Option<&RequestInfo<'_>>,
        options: LookupOptions,
    ) -> bool {
        match self {
            Left(handler) => handler.leaves(name, record_type, info, options),
            Right(handler) => handler.leaves(name, record_type, info, options),
        }
    }

    fn consult<'z>(
        &'z self,
        alloc: Global,
        name: &LowerName,
        record_type: RecordType,
        info: Option<&RequestInfo<'_>>,
        options: LookupOptions,
        last: LookupControlFlow<AuthLookup<'z>>,
    ) -> (
        LookupControlFlow<AuthLookup<'z>>,
        Option<TSigResponseContext>,
    ) {
        match self {
            Left(handler) => handler.consult(alloc, name, record_type, info, options, last),
            Right(handler) => handler.consult(alloc, name, record_type, info, options, last),
        }
    }

    fn zone_transfer(
        &self,
        alloc: Global,
        request: &Request,
        options: LookupOptions,
        now: u64,
    ) -> Option<
        (
            Result<ZoneTransfer, LookupError>,
            Option<TSigResponseContext>,
        ),
    > {
        match self {
            Left(handler) => handler.zone_transfer(alloc, request, options, now),
            Right(handler) => handler.zone_transfer(alloc, request, options, now),
        }
    }

    fn nsec_records(
        &self,
        alloc: Global,
        name: &LowerName,
        options: LookupOptions,
    ) -> LookupControlFlow<AuthLookup<'_>> {
        match self {
            Left(handler) => handler.nsec_records(alloc, name, options),
            Right(handler) => handler.nsec_records(alloc, name, options),
        }
    }

    fn nsec3_records(
        &self,
        alloc: Global,
        info: Nsec3QueryInfo<'_>,
        options: LookupOptions,
    ) -> LookupControlFlow<AuthLookup<'_>> {
        // Made anew, so that the argument keeps the lifetime that the signature gives it: lent to the handler inside as
        // it is, it would have that of the call.
        let info = Nsec3QueryInfo {
            qtype: info.qtype,
            ..info
        };
        match self {
            Left(handler) => handler.nsec3_records(alloc, info, options),
            Right(handler) => handler.nsec3_records(alloc, info, options),
        }
    }

    fn update(
        &mut self,
        alloc: Global,
        request: &Request,
        now: u64,
    ) -> (Result<bool, UpdateFault>, Option<TSigResponseContext>) {
        match self {
            Left(handler) => handler.update(alloc, request, now),
            Right(handler) => handler.update(alloc, request, now),
        }
    }
}
