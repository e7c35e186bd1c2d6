//! What the zone replies to a question.

ghost use Rattle.std.specs.Prelude.{◌≡◌, [], IfOk, IfSome, OnOk, false};
ghost use Rattle.std.specs.Option.{option_copied};
ghost use Rattle.hickory_base.specs.zone_store.ZoneSets.{sets_of};
ghost use Rattle.wire_names.specs.rr.domain.NameOrder.{lower_name};
ghost use Rattle.wire_messages.specs.Numbers.{code_refused};
ghost use Rattle.zone_answers.specs.Chains.{IsIn};
ghost use Rattle.zone_answers.specs.representation.Features.{AreFeatures};
ghost use Rattle.zone_replies.specs.Handled.{question};
ghost use Rattle.zone_answers.specs.representation.Indexes.{IsIndexOf};
ghost use Rattle.zone_replies.specs.Replies.{IsReplied, RepliesTo, denial_soa, in_class, is_class, whole, as_zone};
ghost use Rattle.zone_answers.specs.representation.FoundRecords.{outcome_of};
ghost use Rattle.zone_answers.specs.Zones.{Answers, AreOwners};
ghost use Rattle.zone_answers.specs.Views.{viewed};

use crate::replies::{put_at_once, put_referral_at_once, put_reply};
use hickory_base::zone_store::{InMemoryZoneHandler, RecordList, WholeReply, ZoneHandler};
use hickory_wire::{
    DNSClass, Items, LowerName, LowerQuery, Name, Record, RecordType, ResponseCode, RrKey,
};
use std::alloc::{AllocError, Global};
use zone_answers::chains::{follow, is_in, one_link};
use zone_answers::features::Features;
use zone_answers::find::{Found, cut_above, look_up_by, servers_at};
use zone_answers::index::Index;
use zone_answers::view::ZoneView;

/// How many CNAMEs are followed for one question.
const MAX_ALIASES: u8 = 8;

/// Makes this what the zone of this origin replies where this was found for the name that is asked for, which is the
/// key's in some letter case: the reply in which the chain ends that begins there. No type is below that of the key.
#[inline(always)]
fn put_chain<'z>(
    alloc: Global,
    zone: ZoneView<'z>,
    name: &Name,
    first: &RrKey,
    record_type: RecordType,
    soa: Option<&'z [Record]>,
    found: Found<'z>,
    reply: &mut WholeReply<'z>,
) -> Result<(), AllocError>
    requires least { first.now.record_type ≡ 0 }
    requires owners { AreOwners zone.origin.now (sets_of zone.sets.now) }
    requires features { AreFeatures (viewed zone) zone.has }
    requires soa { IfSome (option_copied soa)
        (λ rs. rs ≡ denial_soa (viewed zone)) }
    requires spelled { first.now.name ≡ lower_name name.now }
    requires within { IsIn (viewed zone) first.now.name }
    requires found { Answers (viewed zone) first.now.name record_type
        (outcome_of (sets_of zone.sets.now) first.now.name found) }
    ensures { OnOk result (IsReplied (viewed zone.entry) name.now record_type
        reply.new) }
{
    if let Some(link) = one_link(found) {
        let answers = RecordList::lent(link.answers);
        return put_reply(alloc, zone, soa, answers, link.end, reply);
    }
    let mut answers = Vec::new(alloc);
    let end = follow(
        alloc,
        zone,
        name,
        first,
        record_type,
        MAX_ALIASES,
        found,
        &mut answers,
    )?;
    let answers = RecordList::owned(Items::from_vec(answers));
    put_reply(alloc, zone, soa, answers, end, reply)
}

/// Makes this what the zone replies where a name in it is asked for, which is the key's in some letter case. No type is
/// below that of the key.
#[inline(always)]
fn put_within<'z>(
    alloc: Global,
    zone: &'z InMemoryZoneHandler,
    name: &Name,
    first: &RrKey,
    record_type: RecordType,
    has: Features,
    soa: Option<&'z [Record]>,
    index: Option<&'z Index>,
    reply: &mut WholeReply<'z>,
) -> Result<(), AllocError>
    requires least { first.now.record_type ≡ 0 }
    requires owners { AreOwners zone.now.origin zone.now.sets }
    requires features { AreFeatures (as_zone zone.now) has }
    requires soa { IfSome (option_copied soa) (λ rs. rs ≡ denial_soa (as_zone zone.now)) }
    requires index { IfSome (option_copied index) (IsIndexOf zone.now.origin zone.now.sets) }
    requires spelled { first.now.name ≡ lower_name name.now }
    requires within { IsIn (as_zone zone.now) first.now.name }
    ensures { OnOk result (IsReplied (as_zone zone.now) name.now record_type reply.new) }
{
    let view = ZoneView {
        origin: zone.origin(),
        sets: zone.records(),
        has,
    };
    let cut = cut_above(alloc, view, first, index)?;
    // speed: served, a referral
    if put_referral_at_once(cut, has, reply) {
        return Ok(());
    }
    let above = servers_at(cut);
    let found = look_up_by(alloc, view, first, record_type, above, index)?;
    // Mostly the reply is made of what was found alone.
    // speed: served, an address
    if put_at_once(&found, soa, reply) {
        return Ok(());
    }
    put_chain(alloc, view, name, first, record_type, soa, found, reply)
}

/// Whether the class is IN or any.
pub(crate) fn is_class(class: DNSClass) -> bool
    ensures { result ≡ is_class class }
{
    class == DNSClass::IN || class == DNSClass::ANY
}

/// Makes this the reply to a question of this class: no reply to any class is authoritative (RFC 1035 section 6.2).
#[inline(always)]
fn put_class(class: DNSClass, reply: &mut WholeReply<'_>)
    ensures { reply.new ≡ in_class class reply.old }
{
    if class == DNSClass::ANY {
        reply.authoritative = false;
    }
}

/// The reply to a question that is not of the zone.
pub(crate) fn refused<'z>() -> WholeReply<'z>
    ensures { result ≡ whole code_refused false [] [] [] }
{
    WholeReply {
        response_code: ResponseCode::REFUSED,
        authoritative: false,
        answers: RecordList::empty(),
        authorities: RecordList::empty(),
        additionals: RecordList::empty(),
    }
}

/// Makes this what the zone replies to a question: records where they lie, but for those that are synthesized, followed
/// or put together. `soa` is its SOA record as it stands in denials, and `index` its index, if those were made before.
#[inline(always)]
pub(crate) fn answer<'z>(
    alloc: Global,
    zone: &'z InMemoryZoneHandler,
    query: &LowerQuery,
    has: Features,
    soa: Option<&'z [Record]>,
    index: Option<&'z Index>,
    reply: &mut WholeReply<'z>,
) -> Result<(), AllocError>
    requires owners { AreOwners zone.now.origin zone.now.sets }
    requires features { AreFeatures (as_zone zone.now) has }
    requires soa { IfSome (option_copied soa) (λ rs. rs ≡ denial_soa (as_zone zone.now)) }
    requires index { IfSome (option_copied index) (IsIndexOf zone.now.origin zone.now.sets) }
    ensures { OnOk result (RepliesTo (as_zone zone.now) query.now reply.new) }
{
    if !is_class(query.query_class()) || !is_in(zone.origin(), query.name()) {
        *reply = refused();
        return Ok(());
    }
    put_within(
        alloc,
        zone,
        &query.original().name,
        query.first_key(),
        query.query_type(),
        has,
        soa,
        index,
        reply,
    )?;
    put_class(query.query_class(), reply);
    Ok(())
}

/// What a zone replies to a question for a name and a type in class IN.
pub(crate) fn reply_to<'z>(
    alloc: Global,
    zone: &'z InMemoryZoneHandler,
    name: &LowerName,
    record_type: RecordType,
    has: Features,
    soa: Option<&'z [Record]>,
) -> Result<WholeReply<'z>, AllocError>
    requires owners { AreOwners zone.now.origin zone.now.sets }
    requires features { AreFeatures (as_zone zone.now) has }
    requires soa { IfSome (option_copied soa) (λ rs. rs ≡ denial_soa (as_zone zone.now)) }
    ensures { IfOk result (RepliesTo (as_zone zone.now) (question name.now record_type)) }
{
    let mut reply = refused();
    if !is_in(zone.origin(), name) {
        return Ok(reply);
    }
    let first = RrKey::new(name.clone()?, RecordType::new(0));
    let name = name.as_name();
    put_within(
        alloc,
        zone,
        name,
        &first,
        record_type,
        has,
        soa,
        None,
        &mut reply,
    )?;
    Ok(reply)
}
