//! How the zone's replies are given to the catalog.

ghost use Rattle.std.specs.Prelude.{◌≡◌, ◌⊎◌, Err, IfSome, IsTrue};
ghost use Rattle.std.specs.Option.{option_copied};
ghost use Rattle.hickory_base.specs.declared.errors.LookupError.TheVariants.{Memory};
ghost use Rattle.hickory_base.specs.zone_store.ZoneAnswers.{MemoryZone};
ghost use Rattle.zone_answers.specs.representation.Features.{AreFeatures};
ghost use Rattle.zone_answers.specs.representation.Indexes.{IsIndexOf};
ghost use Rattle.zone_replies.specs.representation.PreparedZones.{IsPrepared};
ghost use Rattle.zone_replies.specs.Handled.{IsLookedUp, StandsFor, held_serial, is_by_soa, is_no_older, is_soa, names_zone, records_of};
ghost use Rattle.zone_replies.specs.Replies.{RepliesTo, as_zone, denial_soa};
ghost use Rattle.zone_answers.specs.Zones.{AreOwners, Zone};

use crate::answers::{answer, is_class, refused, reply_to};
use crate::denials::soa_of;
use crate::prepared::Prepared;
use hickory_base::errors::LookupError;
use hickory_base::server::Request;
use hickory_base::zone_store::serials::is_greater;
use hickory_base::zone_store::{
    AuthLookup, InMemoryZoneHandler, RecordList, WholeReply, ZoneHandler,
};
use hickory_wire::{LowerName, LowerQuery, Protocol, RData, Record, RecordType, ResponseCode};
use std::alloc::Global;
use zone_answers::features::Features;
use zone_answers::index::Index;

/// The SOA record of denials and the index of what was prepared, if it was.
#[inline(always)]
fn parts<'z>(prepared: Option<&'z Prepared>) -> (Option<&'z [Record]>, Option<&'z Index>)
    ensures soa { (zone : MemoryZone) → IfSome (option_copied prepared.entry) (IsPrepared zone)
        → IfSome (option_copied result.0) (λ rs. rs ≡ denial_soa (as_zone zone)) }
    ensures index { (zone : MemoryZone) → IfSome (option_copied prepared.entry) (IsPrepared zone)
        → IfSome (option_copied result.1) (IsIndexOf zone.origin zone.sets) }
{
    match prepared {
        Some(it) => (Some(it.soa.as_slice()), Some(&it.index)),
        None => (None, None),
    }
}

/// The whole reply to a question. Records that lie in the zone are lent. In a zone that was prepared, one search among
/// its record sets tells most names apart.
///
/// # Errors
///
/// Memory was refused.
#[inline(always)]
pub fn whole<'z>(
    alloc: Global,
    zone: &'z InMemoryZoneHandler,
    query: &LowerQuery,
    has: Features,
    prepared: Option<&'z Prepared>,
) -> Result<AuthLookup<'z>, LookupError>
    requires owners { AreOwners zone.now.origin zone.now.sets }
    requires features { AreFeatures (as_zone zone.now) has }
    requires prepared { IfSome (option_copied prepared) (IsPrepared zone.now) }
    ensures { StandsFor zone.now query.now result ⊎ (result ≡ Err Memory) }
{
    let mut reply = refused();
    let (soa, index) = parts(prepared);
    answer(alloc, zone, query, has, soa, index, &mut reply)?;
    Ok(AuthLookup::Whole(reply))
}

/// Writes the whole reply to a question, as [`whole`] has it, over another reply, and returns whether it did: not if
/// memory was refused. Then nothing is promised of the reply.
#[inline(always)]
pub fn put_whole<'z>(
    alloc: Global,
    zone: &'z InMemoryZoneHandler,
    query: &LowerQuery,
    has: Features,
    prepared: Option<&'z Prepared>,
    reply: &mut WholeReply<'z>,
) -> bool
    requires owners { AreOwners zone.now.origin zone.now.sets }
    requires features { AreFeatures (as_zone zone.now) has }
    requires prepared { IfSome (option_copied prepared) (IsPrepared zone.now) }
    ensures { IsTrue result → RepliesTo (as_zone zone.now) query.now reply.new }
{
    let (soa, index) = parts(prepared);
    answer(alloc, zone, query, has, soa, index, reply).is_ok()
}

/// Whether the SOA of the zone of this origin is looked up.
fn is_soa(origin: &LowerName, name: &LowerName, record_type: RecordType) -> bool
    ensures { (zone : Zone) → zone.origin ≡ origin.now → result ≡ is_soa zone name.now record_type }
{
    origin == name && record_type.value() == RecordType::SOA.value()
}

/// Whether a question names the zone of this origin, by its apex and its class.
pub fn names_zone(origin: &LowerName, query: &LowerQuery) -> bool
    ensures { (zone : Zone) → zone.origin ≡ origin.now → result ≡ names_zone zone query.now }
{
    is_class(query.query_class()) && origin == query.name()
}

/// The answer section of a reply, or its code as an error.
fn records_of<'z>(reply: WholeReply<'z>) -> Result<AuthLookup<'z>, LookupError>
    ensures { result ≡ records_of reply.entry }
{
    let WholeReply {
        response_code,
        answers,
        ..
    } = reply;
    if response_code == ResponseCode::NO_ERROR {
        Ok(AuthLookup::Records {
            answers,
            additionals: RecordList::empty(),
        })
    } else {
        Err(LookupError::ResponseCode(response_code))
    }
}

/// The records by which the catalog completes a reply.
///
/// # Errors
///
/// The code of the zone's reply to a question for this name and type, if it is not NOERROR; or memory was refused.
pub fn records<'z>(
    alloc: Global,
    zone: &'z InMemoryZoneHandler,
    name: &LowerName,
    record_type: RecordType,
    has: Features,
    prepared: Option<&'z Prepared>,
) -> Result<AuthLookup<'z>, LookupError>
    requires owners { AreOwners zone.now.origin zone.now.sets }
    requires features { AreFeatures (as_zone zone.now) has }
    requires prepared { IfSome (option_copied prepared) (IsPrepared zone.now) }
    ensures { IsLookedUp (as_zone zone.now) name.now record_type result ⊎ (result ≡ Err Memory) }
{
    let (soa, _) = parts(prepared);
    if is_soa(zone.origin(), name, record_type) {
        return Ok(AuthLookup::Records {
            answers: soa_of(alloc, zone.origin(), zone.records(), soa)?,
            additionals: RecordList::empty(),
        });
    }
    records_of(reply_to(alloc, zone, name, record_type, has, soa)?)
}

/// The serial of the version of a zone that the client of an IXFR has, by the authority section (RFC 1995 section 3).
pub fn held_serial(authorities: &[Record]) -> Option<u32>
    ensures { result ≡ held_serial authorities.now }
{
    match authorities {
        [
            Record {
                rdata: RData::SOA(soa),
                ..
            },
            ..
        ] => Some(soa.get().serial),
        _ => None,
    }
}

/// Whether a version of this serial, if there is one, is the zone's, of this serial, or newer.
fn is_no_older(held: Option<u32>, own: u32) -> bool
    ensures { result ≡ is_no_older held own }
{
    match held {
        Some(held) => !is_greater(own, held),
        None => false,
    }
}

/// Whether a transfer of the zone that is asked for so is answered only by its SOA record: a query for what changed
/// (IXFR) over UDP, or of a client whose version is no older than the zone's (RFC 1995 section 2).
pub fn is_by_soa(zone: &InMemoryZoneHandler, request: &Request, query: &LowerQuery) -> bool
    ensures { result ≡ is_by_soa zone.now request.now query.now }
{
    if query.query_type().value() != RecordType::IXFR.value() {
        return false;
    }
    match request.protocol() {
        Protocol::Udp => true,
        _ => is_no_older(
            held_serial(request.message().authorities.as_slice()),
            zone.serial(),
        ),
    }
}
