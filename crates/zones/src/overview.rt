//! What is known of a zone as a whole, by which queries are answered in it.

ghost use Rattle.std.specs.Prelude.{◌≡◌, ◌⊎◌, ◌↔◌, All, Err, IfSome, IsTrue, None};
ghost use Rattle.hickory_base.specs.zone_store.Lookups.{whole_answer};
ghost use Rattle.hickory_base.specs.zone_store.ZoneAnswers.{MemoryZone};
ghost use Rattle.hickory_base.specs.zone_store.ZoneSets.{AreSetsInOrder, IsZone};
ghost use Rattle.hickory_base.specs.declared.errors.LookupError.TheVariants.{Memory};
ghost use Rattle.zone_answers.specs.representation.Features.{AreFeatures};
ghost use Rattle.zone_answers.specs.representation.Indexes.{KeepsOthers};
ghost use Rattle.zone_replies.specs.representation.PreparedZones.{IsPrepared};
ghost use Rattle.zone_replies.specs.Replies.{as_zone};
ghost use Rattle.zone_answers.specs.Zones.{AreOwners};
ghost use Rattle.zones.specs.Overviews.{Follows, IsOverview};
ghost use Rattle.zones.specs.Owners.{IsNamed};
ghost use Rattle.zones.specs.ZoneQueries.{IsAnswered, IsFound, LookedUp, Searched, failure};

use hickory_base::errors::LookupError;
use hickory_base::server::Request;
use hickory_base::update_request::UpdateRequest;
use hickory_base::zone_store::{
    AuthLookup, InMemoryZoneHandler, LookupControlFlow, RecordList, WholeReply, ZoneHandler,
};
use hickory_store::updates::laws::identities;
use hickory_store::updates::{UpdatableZoneHandler, Verifier};
use hickory_wire::{LowerName, LowerQuery, Record, RecordType, ResponseCode};
use std::alloc::Global;
use zone_answers::{Features, are_owners, features_of, with_records};
use zone_replies::Prepared;
use zone_replies::handled::{put_whole, records, whole};

/// What is known of a zone as a whole: by it the zone answers standard queries (RFC 1034 section 4.3.2), and it is
/// followed while the zone takes updates.
#[derive(Drop)]
pub(crate) struct Overview {
    /// What the zone has at all.
    pub(crate) has: Features,
    /// Whether each owner name may own records of the zone.
    pub(crate) is_owned: bool,
    /// What was made of the zone to answer faster, unless memory was refused.
    pub(crate) prepared: Option<Prepared>,
}

/// What is known of a zone whose sets were read: they are those of a zone, in their order.
pub(crate) fn read_sets(zone: &InMemoryZoneHandler)
    ensures zone { IsZone zone.now.sets }
    ensures ordered { AreSetsInOrder zone.now.sets }
{
    let _ = zone.records();
}

/// Whether the owner name of a record is fully qualified.
fn is_named(r: &Record) -> bool
    ensures { IsTrue result ↔ IsNamed r.now }
{
    // A name whose bytes were read is known to have the labels of a name.
    let _ = r.name.as_wire();
    r.name.is_fqdn()
}

/// Whether the owner names of all records are fully qualified.
fn are_named(records: &[Record]) -> bool
    ensures { IsTrue result ↔ All IsNamed records.now }
{
    records.iter().all(|r| is_named(r))
}

/// The reply of a zone that cannot be answered from (RFC 1035 section 4.1.1).
#[inline(never)]
fn failure<'z>() -> WholeReply<'z>
    ensures { result ≡ failure }
{
    WholeReply {
        response_code: ResponseCode::SERV_FAIL,
        authoritative: false,
        answers: RecordList::empty(),
        authorities: RecordList::empty(),
        additionals: RecordList::empty(),
    }
}

/// What makes answers faster in the zone that an update with these records has left, by what made them faster before.
fn prepared_after(
    alloc: Global,
    prepared: Option<Prepared>,
    zone: &InMemoryZoneHandler,
    updates: &[Record],
) -> Option<Prepared>
    ensures { (old : MemoryZone) → zone.now.origin ≡ old.origin → IfSome prepared (IsPrepared old) →
        KeepsOthers updates.now old.origin old.sets zone.now.sets
        → IfSome result (IsPrepared zone.now) }
{
    match prepared {
        Some(prepared) => prepared.after(alloc, zone, updates),
        None => None,
    }
}

impl Overview {
    /// The overview of a zone, without what makes answers faster. It takes time by the zone's record sets, and no
    /// memory.
    fn seen(zone: &InMemoryZoneHandler) -> Overview
        ensures has { AreFeatures (as_zone zone.now) result.has }
        ensures owned { IsTrue result.is_owned ↔ AreOwners zone.now.origin zone.now.sets }
        ensures prepared { result.prepared ≡ None }
    {
        Overview {
            has: features_of(zone.origin(), zone.records()),
            is_owned: are_owners(zone.origin(), zone.records()),
            prepared: None,
        }
    }

    /// The overview of a zone, with what makes answers faster if memory allows. It takes time and memory by the zone's
    /// record sets.
    pub(crate) fn of(alloc: Global, zone: &InMemoryZoneHandler) -> Overview
        ensures { IsOverview zone.now result }
    {
        let seen = Overview::seen(zone);
        if !seen.is_owned {
            return seen;
        }
        match Prepared::new(alloc, zone, seen.has) {
            Ok(prepared) => Overview {
                has: seen.has,
                is_owned: seen.is_owned,
                prepared: Some(prepared),
            },
            Err(_) => seen,
        }
    }

    /// Follows an update that has changed the zone. It takes time by the records of the update; or by the zone's record
    /// sets if an owner name is outside of the zone, or if it is time to prepare the zone again.
    pub(crate) fn follow<V: Verifier>(
        &mut self,
        alloc: Global,
        zone: &UpdatableZoneHandler<V>,
        request: &Request,
    )
        ensures { Follows V.Verifier request.now zone.now self.old self.new }
    {
        let prepared = self.prepared.take();
        *self = self.after(alloc, prepared, zone, request);
        if self.is_worn() {
            *self = Overview::of(alloc, zone.in_memory());
        }
    }

    /// Whether it is time to prepare the zone again.
    fn is_worn(&self) -> bool {
        match &self.prepared {
            Some(prepared) => prepared.is_worn(),
            None => false,
        }
    }

    /// The overview of the zone that an update has changed, from the overview before it, and what was made of the zone
    /// before it to answer faster.
    fn after<V: Verifier>(
        &self,
        alloc: Global,
        prepared: Option<Prepared>,
        zone: &UpdatableZoneHandler<V>,
        request: &Request,
    ) -> Overview
        ensures { Follows V.Verifier request.now zone.now (record self.now { prepared = prepared }) result }
    {
        read_sets(zone.in_memory());
        let updates = request.message().updates();
        if self.is_owned && are_named(updates) {
            identities();
            Overview {
                has: with_records(self.has, updates),
                is_owned: self.is_owned,
                prepared: prepared_after(alloc, prepared, zone.in_memory(), updates),
            }
        } else {
            Overview::seen(zone.in_memory())
        }
    }

    /// What the zone replies to a question; ServFail if an owner name is outside of the zone.
    fn answer<'z>(
        &'z self,
        alloc: Global,
        zone: &'z InMemoryZoneHandler,
        query: &LowerQuery,
    ) -> Result<AuthLookup<'z>, LookupError>
        requires { IsOverview zone.now self.now }
        ensures { IsAnswered zone.now query.now result ⊎ (result ≡ Err Memory) }
    {
        if !self.is_owned {
            read_sets(zone);
            return Ok(AuthLookup::Whole(failure()));
        }
        whole(alloc, zone, query, self.has, self.prepared.as_ref())
    }

    /// The records by which the catalog completes a reply; ServFail if an owner name is outside of the zone.
    fn found<'z>(
        &'z self,
        alloc: Global,
        zone: &'z InMemoryZoneHandler,
        name: &LowerName,
        record_type: RecordType,
    ) -> Result<AuthLookup<'z>, LookupError>
        requires { IsOverview zone.now self.now }
        ensures { IsFound zone.now name.now record_type result ⊎ (result ≡ Err Memory) }
    {
        if self.is_owned {
            let prepared = self.prepared.as_ref();
            return records(alloc, zone, name, record_type, self.has, prepared);
        }
        Err(LookupError::ResponseCode(ResponseCode::SERV_FAIL))
    }

    /// Answers the one question of a request; ServFail if an owner name is outside of the zone.
    pub(crate) fn search<'z>(
        &'z self,
        alloc: Global,
        zone: &'z InMemoryZoneHandler,
        request: &Request,
    ) -> LookupControlFlow<AuthLookup<'z>>
        requires { IsOverview zone.now self.now }
        ensures { Searched zone.now request.now result }
    {
        match request.request_info() {
            Ok(info) => LookupControlFlow::Continue(self.answer(alloc, zone, info.query)),
            Err(e) => LookupControlFlow::Break(Err(e)),
        }
    }

    /// Writes the whole reply to the one question of a request over another reply. Returns whether it did. It does not
    /// if there is not just one question, if an owner name is outside of the zone, or if memory was refused; then
    /// nothing is promised of the reply.
    #[inline(always)]
    pub(crate) fn search_whole<'z>(
        &'z self,
        alloc: Global,
        zone: &'z InMemoryZoneHandler,
        request: &Request,
        reply: &mut WholeReply<'z>,
    ) -> bool
        requires { IsOverview zone.now self.now }
        ensures { IsTrue result → Searched zone.now request.now (whole_answer reply.new) }
    {
        if !self.is_owned {
            return false;
        }
        let Ok(info) = request.request_info() else {
            return false;
        };
        let prepared = self.prepared.as_ref();
        put_whole(alloc, zone, info.query, self.has, prepared, reply)
    }

    /// Looks up the records by which the catalog completes a reply; ServFail if an owner name is outside of the zone.
    pub(crate) fn lookup<'z>(
        &'z self,
        alloc: Global,
        zone: &'z InMemoryZoneHandler,
        name: &LowerName,
        record_type: RecordType,
    ) -> LookupControlFlow<AuthLookup<'z>>
        requires { IsOverview zone.now self.now }
        ensures { LookedUp zone.now name.now record_type result }
    {
        LookupControlFlow::Continue(self.found(alloc, zone, name, record_type))
    }
}
