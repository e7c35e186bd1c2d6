//! What answers for a zone.

ghost use Rattle.std.specs.Prelude.{◌≡◌};

use crate::errors::{LookupError, UpdateFault};
use crate::server::{Request, RequestInfo};
use crate::zone_store::lookup::{
    AuthLookup, LookupControlFlow, LookupOptions, WholeReply, ZoneTransfer,
};
use hickory_wire::{LowerName, Octets, RecordType, TSigResponseContext};
use std::alloc::Global;

/// What a server is to a zone.
#[derive(Clone, Copy, Debug, PartialEq, Eq)]
pub enum ZoneType {
    /// It holds the zone itself, and takes updates (RFC 2136 section 1).
    Primary,
    /// It holds a copy (RFC 1034 section 4.3.5).
    Secondary,
    /// It asks elsewhere.
    External,
}

/// Who may have a transfer of the whole zone (RFC 5936 section 5).
#[derive(Clone, Copy, Debug, PartialEq, Eq)]
pub enum AxfrPolicy {
    /// Nobody.
    Deny,
    /// Everybody.
    AllowAll,
    /// Who signs the request (RFC 8945).
    AllowSigned,
}

/// By which records a zone shows that a name or a type does not exist.
#[derive(Drop)]
pub enum NxProofKind {
    /// NSEC (RFC 4034 section 4).
    Nsec,
    /// NSEC3, with these parameters (RFC 5155 section 3.1).
    Nsec3 {
        /// The number of the hash algorithm.
        algorithm: u8,
        /// What is hashed with each name.
        salt: Octets,
        /// How often the hash is taken again.
        iterations: u16,
        /// Whether unsigned delegations may be left out.
        opt_out: bool,
    },
}

/// For what a denial by NSEC3 records is asked.
#[derive(Clone, Copy)]
pub struct Nsec3QueryInfo<'q> {
    /// The name asked for.
    pub qname: &'q LowerName,
    /// The type asked for.
    pub qtype: RecordType,
    /// Whether the answer comes of a wildcard (RFC 5155 section 7.2.6).
    pub has_wildcard_match: bool,
    /// The number of the hash algorithm.
    pub algorithm: u8,
    /// What is hashed with each name.
    pub salt: &'q [u8],
    /// How often the hash is taken again.
    pub iterations: u16,
}

/// What answers for a zone: a handler in the chain of its zone.
///
/// A contract sees a handler by its ghost members: the first five are functions of its state, the others relate its
/// state and the arguments of a call with the answer. Want of memory is `LookupError::Memory` or
/// `UpdateFault::Memory` within the answer.
pub trait ZoneHandler: Drop {
    ghost use Rattle.std.specs.Prelude.{◌≡◌, ℕ, Bool, None, Option, Result, IsTrue, OnErr};
    ghost use Rattle.std.specs.Option.{option_copied, option_map};
    ghost use Rattle.wire_names.specs.rr.domain.DomainName.{DomainName};
    ghost use Rattle.wire_messages.specs.declared.rr.tsig.TSigResponseContext.{TSigResponseContext};
    ghost use Rattle.hickory_base.specs.zone_store.Denials.{Nsec3Question, nsec3_question};
    ghost use Rattle.hickory_base.specs.zone_store.Lookups.{Flow, whole_answer};
    ghost use Rattle.hickory_base.specs.requests.Requests.{ReceivedRequest, RequestInformation, information_of};
    ghost use Rattle.hickory_base.specs.declared.errors.LookupError.{LookupError};
    ghost use Rattle.hickory_base.specs.declared.errors.UpdateFault.{UpdateFault};
    ghost use Rattle.hickory_base.specs.declared.zone_store.handler.AxfrPolicy.{AxfrPolicy};
    ghost use Rattle.hickory_base.specs.declared.zone_store.handler.NxProofKind.{NxProofKind};
    ghost use Rattle.hickory_base.specs.declared.zone_store.handler.ZoneType.{ZoneType};
    ghost use Rattle.hickory_base.specs.declared.zone_store.lookup.LookupOptions.{LookupOptions};
    ghost use Rattle.hickory_base.specs.declared.zone_store.lookup.ZoneTransfer.{ZoneTransfer};

    ghost zone_type_of: { Self → ZoneType };

    ghost axfr_policy_of: { Self → AxfrPolicy };

    ghost origin_of: { Self → DomainName };

    ghost validates_dnssec: { Self → Bool };

    ghost nx_proof_kind_of: { Self → Option NxProofKind };

    ghost lookup_gives: { Self → DomainName → ℕ → Option RequestInformation → LookupOptions → Flow → Type 0 };

    ghost search_gives: { Self → ReceivedRequest → LookupOptions → Flow → Option TSigResponseContext → Type 0 };

    ghost consult_gives: { Self → DomainName → ℕ → Option RequestInformation → LookupOptions → Flow → Flow →
        Option TSigResponseContext → Type 0 };

    ghost transfer_gives: { Self → ReceivedRequest → LookupOptions → ℕ →
        Option (Result ZoneTransfer LookupError × Option TSigResponseContext) → Type 0 };

    ghost nsec_gives: { Self → DomainName → LookupOptions → Flow → Type 0 };

    ghost nsec3_gives: { Self → Nsec3Question → LookupOptions → Flow → Type 0 };

    ghost update_gives: { Self → ReceivedRequest → ℕ → Result Bool UpdateFault → Option TSigResponseContext → Self →
        Type 0 };

    /// What the server is to the zone.
    fn zone_type(&self) -> ZoneType
        ensures { result ≡ zone_type_of self.now };

    /// Who may have a transfer of the zone.
    fn axfr_policy(&self) -> AxfrPolicy
        ensures { result ≡ axfr_policy_of self.now };

    /// The name at the top of the zone.
    fn origin(&self) -> &LowerName
        ensures { result.now ≡ origin_of self.now };

    /// Whether the records that it answers with tell what is known of their DNSSEC proof.
    fn can_validate_dnssec(&self) -> bool
        ensures { result ≡ validates_dnssec self.now };

    /// By which records the zone denies, if it can.
    fn nx_proof_kind(&self) -> Option<&NxProofKind>
        ensures { option_copied result ≡ nx_proof_kind_of self.now };

    /// Looks a name and a type up. The records of the answer may lie in the handler.
    fn lookup(
        &self,
        alloc: Global,
        name: &LowerName,
        record_type: RecordType,
        info: Option<&RequestInfo<'_>>,
        options: LookupOptions,
    ) -> LookupControlFlow<AuthLookup<'_>>
        ensures { lookup_gives self.now name.now record_type (option_map information_of (option_copied info.entry))
            options result };

    /// Answers a request, with what a signer of the reply has to know. The records of the answer may lie in the
    /// handler.
    fn search(
        &self,
        alloc: Global,
        request: &Request,
        options: LookupOptions,
    ) -> (
        LookupControlFlow<AuthLookup<'_>>,
        Option<TSigResponseContext>,
    )
        ensures { search_gives self.now request.now options result.0 result.1 };

    /// Puts the whole reply to a request where the caller sends it from, where `search` may answer with it and with
    /// nothing for a signer. Returns whether it did; where it did not, `search` is to be asked, and nothing is promised
    /// of the reply. A handler that does not say otherwise never does.
    fn search_whole<'z>(
        &'z self,
        alloc: Global,
        request: &Request,
        options: LookupOptions,
        reply: &mut WholeReply<'z>,
    ) -> bool
        ensures { IsTrue result → search_gives self.now request.now options (whole_answer reply.new) None }
    {
        false
    }

    /// Whether it gives any answer back as it is, with nothing for a signer, where it is consulted about this name and
    /// type. Where it does not say so, `consult` is to be asked. A handler that does not say otherwise never says so.
    fn leaves(
        &self,
        name: &LowerName,
        record_type: RecordType,
        info: Option<&RequestInfo<'_>>,
        options: LookupOptions,
    ) -> bool
        ensures { IsTrue result → (last : Flow) → consult_gives self.now name.now record_type
            (option_map information_of (option_copied info.entry)) options last last None }
    {
        false
    }

    /// Looks at what another handler of the chain answered, and answers in its place or gives it back.
    fn consult<'z>(
        &'z self,
        alloc: Global,
        name: &LowerName,
        record_type: RecordType,
        info: Option<&RequestInfo<'_>>,
        options: LookupOptions,
        last: LookupControlFlow<AuthLookup<'z>>,
    ) -> (
        LookupControlFlow<AuthLookup<'z>>,
        Option<TSigResponseContext>,
    )
        ensures { consult_gives self.now name.now record_type (option_map information_of (option_copied info.entry))
            options last.entry result.0 result.1 };

    /// Gives the whole zone, or `None` where another handler is to be asked. `now` is in seconds since 1970.
    fn zone_transfer(
        &self,
        alloc: Global,
        request: &Request,
        options: LookupOptions,
        now: u64,
    ) -> Option<
        (
            Result<ZoneTransfer, LookupError>,
            Option<TSigResponseContext>,
        ),
    >
        ensures { transfer_gives self.now request.now options now result };

    /// The NSEC records that deny a name (RFC 4035 section 3.1.3).
    fn nsec_records(
        &self,
        alloc: Global,
        name: &LowerName,
        options: LookupOptions,
    ) -> LookupControlFlow<AuthLookup<'_>>
        ensures { nsec_gives self.now name.now options result };

    /// The NSEC3 records of a denial (RFC 5155 section 7.2).
    fn nsec3_records(
        &self,
        alloc: Global,
        info: Nsec3QueryInfo<'_>,
        options: LookupOptions,
    ) -> LookupControlFlow<AuthLookup<'_>>
        ensures { nsec3_gives self.now (nsec3_question info.entry) options result };

    /// Makes a dynamic update (RFC 2136), and tells whether the zone changed. `now` is in seconds since 1970. Where it
    /// fails, the handler is as it was before.
    fn update(
        &mut self,
        alloc: Global,
        request: &Request,
        now: u64,
    ) -> (Result<bool, UpdateFault>, Option<TSigResponseContext>)
        ensures gives { update_gives self.old request.now now result.0 result.1 self.new }
        ensures kept { OnErr result.0 (self.new ≡ self.old) };
}
