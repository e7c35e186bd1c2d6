//! The whole reply in which a chain ends.

ghost use Rattle.std.specs.Prelude.{◌≡◌, ℕ, [], true, IfSome, IsTrue, OnOk, Some};
ghost use Rattle.wire_names.specs.rr.domain.DomainName.{DomainName};
ghost use Rattle.zone_answers.specs.representation.FoundRecords.{outcome_of};
ghost use Rattle.std.specs.Option.{option_copied};
ghost use Rattle.hickory_base.specs.zone_store.ZoneSets.{sets_of};
ghost use Rattle.zone_answers.specs.representation.ChainEnds.{ending_of};
ghost use Rattle.zone_answers.specs.Endings as ended;
ghost use Rattle.zone_answers.specs.representation.Features.{AreFeatures};
ghost use Rattle.zone_replies.specs.representation.ReplyAtOnce.{IsReferredAtOnce, IsReplyAtOnce};
ghost use Rattle.zone_replies.specs.Replies.{EndsIn, denial_soa, whole};
ghost use Rattle.zone_answers.specs.Zones.{AreOwners, Records, Zone};
ghost use Rattle.zone_answers.specs.Views.{viewed};

use crate::denials::soa_of;
use hickory_base::zone_store::{RecordList, WholeReply};
use hickory_wire::{Items, Record, ResponseCode};
use std::alloc::{AllocError, Global};
use zone_answers::additionals::{Source, additionals, are_hostless};
use zone_answers::chains::ChainEnd;
use zone_answers::cuts::Cut;
use zone_answers::features::Features;
use zone_answers::find::Found;
use zone_answers::view::ZoneView;

/// Makes this the reply of these parts.
fn put<'z>(
    reply: &mut WholeReply<'z>,
    response_code: ResponseCode,
    authoritative: bool,
    answers: RecordList<'z>,
    authorities: RecordList<'z>,
    additionals: RecordList<'z>,
)
    ensures { reply.new ≡ whole response_code authoritative answers.entry authorities.entry additionals.entry }
{
    *reply = WholeReply {
        response_code,
        authoritative,
        answers,
        authorities,
        additionals,
    };
}

/// Makes this the reply of records that lie in the zone.
#[inline(always)]
fn put_lent<'z>(
    reply: &mut WholeReply<'z>,
    response_code: ResponseCode,
    answers: &'z [Record],
    authorities: &'z [Record],
)
    ensures { reply.new ≡ whole response_code true answers.now authorities.now [] }
{
    reply.response_code = response_code;
    reply.authoritative = true;
    reply.answers = RecordList::lent(answers);
    reply.authorities = RecordList::lent(authorities);
    reply.additionals = RecordList::empty();
}

/// Makes this the reply where a name has no such records, if the SOA record was made before. Whether it was.
#[inline(always)]
fn put_lent_denial<'z>(
    reply: &mut WholeReply<'z>,
    response_code: ResponseCode,
    soa: Option<&'z [Record]>,
) -> bool
    ensures { IsTrue result → (rs : Records) × (option_copied soa.entry ≡ Some rs) ×
        (reply.new ≡ whole response_code true [] rs []) }
{
    match soa {
        Some(soa) => {
            put_lent(reply, response_code, &[], soa);
            true
        }
        None => false,
    }
}

/// Makes this the reply where what was found is records that name no host, or nothing, and the zone's SOA record was
/// made before. Whether it is one.
#[inline(always)]
pub(crate) fn put_at_once<'z>(
    found: &Found<'z>,
    soa: Option<&'z [Record]>,
    reply: &mut WholeReply<'z>,
) -> bool
    ensures { IsTrue result → (zone : Zone) (low name : DomainName) (t : ℕ) →
        IfSome (option_copied soa.entry) (λ rs. rs ≡ denial_soa zone) →
        IsReplyAtOnce zone t name (outcome_of zone.sets low found.now) reply.new }
{
    match found {
        Found::Answer(records) => {
            if !are_hostless(*records) {
                return false;
            }
            put_lent(reply, ResponseCode::NO_ERROR, *records, &[]);
            true
        }
        Found::NoData => put_lent_denial(reply, ResponseCode::NO_ERROR, soa),
        Found::NoName => put_lent_denial(reply, ResponseCode::NX_DOMAIN, soa),
        _ => false,
    }
}

/// Makes this the referral to the servers of a cut, where nothing can redirect a name below it before, and their
/// addresses were looked up before. Whether it is one.
#[inline(always)]
pub(crate) fn put_referral_at_once<'z>(
    cut: Option<Cut<'z>>,
    has: Features,
    reply: &mut WholeReply<'z>,
) -> bool
    ensures { IsTrue result → IsReferredAtOnce cut.entry has reply.new }
{
    let Some(cut) = cut else {
        return false;
    };
    let Some(glue) = cut.glue else {
        return false;
    };
    if has.dnames {
        return false;
    }
    reply.response_code = ResponseCode::NO_ERROR;
    reply.authoritative = false;
    reply.answers = RecordList::empty();
    reply.authorities = RecordList::lent(cut.servers);
    reply.additionals = RecordList::lent(glue);
    true
}

/// Makes this a reply with answers alone.
fn put_bare<'z>(reply: &mut WholeReply<'z>, response_code: ResponseCode, answers: RecordList<'z>)
    ensures { reply.new ≡ whole response_code true answers.entry [] [] }
{
    put(
        reply,
        response_code,
        true,
        answers,
        RecordList::empty(),
        RecordList::empty(),
    );
}

/// Records that were asked for, with the addresses of the hosts that they name.
fn put_answer<'z>(
    alloc: Global,
    zone: ZoneView<'z>,
    answers: RecordList<'z>,
    reply: &mut WholeReply<'z>,
) -> Result<(), AllocError>
    requires owners { AreOwners zone.origin.now (sets_of zone.sets.now) }
    requires features { AreFeatures (viewed zone) zone.has }
    ensures { OnOk result (EndsIn (viewed zone.entry) answers.entry ended.answer
        reply.new) }
{
    let records = answers.as_slice();
    let added = additionals(alloc, zone, Source::Answer, records, records)?;
    put(
        reply,
        ResponseCode::NO_ERROR,
        true,
        answers,
        RecordList::empty(),
        RecordList::owned(Items::from_vec(added)),
    );
    Ok(())
}

/// A referral to the servers of a zone below, with their addresses.
#[inline(never)]
fn put_referral<'z>(
    alloc: Global,
    zone: ZoneView<'z>,
    answers: RecordList<'z>,
    servers: &'z [Record],
    reply: &mut WholeReply<'z>,
) -> Result<(), AllocError>
    requires owners { AreOwners zone.origin.now (sets_of zone.sets.now) }
    requires features { AreFeatures (viewed zone) zone.has }
    ensures { OnOk result (EndsIn (viewed zone.entry) answers.entry
        (ended.referral servers.now) reply.new) }
{
    let records = answers.as_slice();
    let added = additionals(alloc, zone, Source::Glue, records, servers)?;
    let is_behind_alias = !records.is_empty();
    put(
        reply,
        ResponseCode::NO_ERROR,
        is_behind_alias,
        answers,
        RecordList::lent(servers),
        RecordList::owned(Items::from_vec(added)),
    );
    Ok(())
}

/// A denial, with the SOA record of the zone as it stands in denials.
fn put_denial<'z>(
    reply: &mut WholeReply<'z>,
    response_code: ResponseCode,
    answers: RecordList<'z>,
    soa: RecordList<'z>,
)
    ensures { reply.new ≡ whole response_code true answers.entry soa.entry [] }
{
    let none = RecordList::empty();
    put(reply, response_code, true, answers, soa, none);
}

/// Makes this the reply where the answer section has the records of a chain that ends so.
#[inline(never)]
pub(crate) fn put_reply<'z>(
    alloc: Global,
    zone: ZoneView<'z>,
    soa: Option<&'z [Record]>,
    answers: RecordList<'z>,
    end: ChainEnd<'z>,
    reply: &mut WholeReply<'z>,
) -> Result<(), AllocError>
    requires owners { AreOwners zone.origin.now (sets_of zone.sets.now) }
    requires features { AreFeatures (viewed zone) zone.has }
    requires soa { IfSome (option_copied soa)
        (λ rs. rs ≡ denial_soa (viewed zone)) }
    ensures { OnOk result (EndsIn (viewed zone.entry) answers.entry
        (ending_of end.entry) reply.new) }
{
    match end {
        ChainEnd::Answer => put_answer(alloc, zone, answers, reply),
        ChainEnd::Referral(servers) => { put_referral(alloc, zone, answers, servers, reply) }
        ChainEnd::NoData => {
            let soa = soa_of(alloc, zone.origin, zone.sets, soa)?;
            put_denial(reply, ResponseCode::NO_ERROR, answers, soa);
            Ok(())
        }
        ChainEnd::NoName => {
            let soa = soa_of(alloc, zone.origin, zone.sets, soa)?;
            put_denial(reply, ResponseCode::NX_DOMAIN, answers, soa);
            Ok(())
        }
        ChainEnd::NameTooLong => {
            put_bare(reply, ResponseCode::YX_DOMAIN, answers);
            Ok(())
        }
        ChainEnd::LeftOpen => {
            put_bare(reply, ResponseCode::NO_ERROR, answers);
            Ok(())
        }
    }
}
