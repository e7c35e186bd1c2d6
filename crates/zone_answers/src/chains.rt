//! CNAMEs that are followed, those too that a DNAME makes.

ghost use Rattle.std.specs.Prelude.{◌≡◌, ◌↔◌, ◌++◌, ◌&&◌, ◌⊎◌, ℕ, [], IsTrue, OnOk, IfOk, IfSome, MatchOption, false, true, cond};
ghost use Rattle.wire_names.specs.rr.domain.DomainName.{DomainName};
ghost use Rattle.hickory_base.specs.zone_store.ZoneAnswers.{records_at};
ghost use Rattle.hickory_base.specs.zone_store.ZoneRecords.{is_at};
ghost use Rattle.hickory_base.specs.zone_store.ZoneSets.{sets_of};
ghost use Rattle.wire_names.specs.rr.domain.NameOrder.{Encloses, lower_name};
ghost use Rattle.zone_answers.specs.Zones.{Answers, AreOwners, Sets, Zone};
ghost use Rattle.zone_answers.specs.representation.FoundRecords.{outcome_of};
ghost use Rattle.zone_answers.specs.Chains.{IsIn, canonical, ends, is_cname, is_dname, not_yet, owned_by, owns_cname, step, without_dname};
ghost use Rattle.zone_answers.specs.representation.Features.{AreFeatures};
ghost use Rattle.zone_answers.specs.representation.ChainEnds.{Chased, IsAllPut, Linked, ending_of};
ghost use Rattle.zone_answers.specs.declared.chains.ChainEnd.TheVariants.{Answer, NoData};
ghost use Rattle.zone_answers.specs.declared.chains.Link.TheVariants.{End};
ghost use Rattle.zone_answers.specs.Views.{viewed};

use crate::find::{Found, look_up};
use crate::redirections::{append_redirection, is_dname, owns_dname};
use crate::view::ZoneView;
use hickory_base::zone_store::RecordSet;
use hickory_wire::{LowerName, Name, RData, Record, RecordType, RrKey};
use std::alloc::{AllocError, Global};
use std::collections::BTreeMap;
use std::rc::Rc;

/// Puts copies of the records last. Where memory is refused, those of a front of them may have been put.
pub(crate) fn append_copies(all: &mut Vec<Record>, records: &[Record]) -> Result<(), AllocError>
    ensures { OnOk result (all.new.items ≡ all.old.items ++ records.now) }
{
    for q in records {
        all.push(q.clone()?)?;
    }
    Ok(())
}

/// A copy of a record, owned by another name.
fn owned_copy(q: &Record, owner: &Name) -> Result<Record, AllocError>
    ensures { IfOk result (λ copy. copy ≡ record q.now { name = owner.now }) }
{
    Ok(Record {
        name: owner.clone()?,
        dns_class: q.dns_class,
        ttl: q.ttl,
        rdata: q.rdata.clone()?,
        proof: q.proof,
    })
}

/// Puts copies of the records last, owned by another name. Where memory is refused, those of a front of them may have
/// been put.
pub(crate) fn append_owned(
    all: &mut Vec<Record>,
    owner: &Name,
    records: &[Record],
) -> Result<(), AllocError>
    ensures { OnOk result (all.new.items ≡ all.old.items ++ owned_by owner.now records.now) }
{
    for q in records {
        all.push(owned_copy(q, owner)?)?;
    }
    Ok(())
}

/// Puts copies of the records but DNAMEs last. Where memory is refused, those of a front of them may have been put.
fn append_without_dname(all: &mut Vec<Record>, records: &[Record]) -> Result<(), AllocError>
    ensures { OnOk result (all.new.items ≡ all.old.items ++ without_dname records.now) }
{
    for q in records {
        if !is_dname(q) {
            all.push(q.clone()?)?;
        }
    }
    Ok(())
}

/// Puts copies of the records of a name last, of its DNAME only where it does not stand there already (RFC 2181 section
/// 5). Where memory is refused, those of a front of them may have been put.
fn append_once(all: &mut Vec<Record>, name: &Name, records: &[Record]) -> Result<(), AllocError>
    ensures { OnOk result (all.new.items ≡ all.old.items ++ not_yet all.old.items name.now records.now) }
{
    if owns_dname(name, all.as_slice()) {
        append_without_dname(all, records)
    } else {
        append_copies(all, records)
    }
}

/// How the chain of CNAMEs of a name ends.
#[derive(Clone, Copy)]
pub enum ChainEnd<'z> {
    /// The records asked for stand last.
    Answer,
    /// At the servers of a zone below.
    Referral(&'z [Record]),
    /// At a name without such records.
    NoData,
    /// At a name that does not exist.
    NoName,
    /// At a name that a DNAME makes too long.
    NameTooLong,
    /// Outside of the zone, at a name that the chain has been at, where data give no name, or where no more is
    /// followed.
    LeftOpen,
}

/// One link of a chain.
#[derive(Drop)]
pub(crate) enum Link<'z> {
    /// It is the last.
    End(ChainEnd<'z>),
    /// Its records lead on to this name, if they give one.
    Leads(Option<Name>),
}

/// Puts copies of all records of the key's name last. No type is below that of the key. Where memory is refused, those
/// of a front of them may have been put.
pub(crate) fn append_name(
    sets: &BTreeMap<RrKey, Rc<RecordSet>>,
    first: &RrKey,
    all: &mut Vec<Record>,
) -> Result<(), AllocError>
    requires { first.now.record_type ≡ 0 }
    ensures { OnOk result (all.new.items ≡ all.old.items ++ records_at first.now.name (sets_of sets.now)) }
{
    for (key, set) in sets.range(first..) {
        if first.name != key.name {
            return Ok(());
        }
        append_copies(all, set.records())?;
    }
    Ok(())
}

/// The end of a chain at a name that was asked for records of any type, and has some or none.
fn end_at_all<'z>(has_some: bool) -> Link<'z>
    ensures { result ≡ cond has_some (End Answer) (End NoData) }
{
    if has_some {
        Link::End(ChainEnd::Answer)
    } else {
        Link::End(ChainEnd::NoData)
    }
}

/// Puts copies of all records of the key's name but its DNAME last. No type is below that of the key.
fn append_rest<'z>(
    alloc: Global,
    sets: &BTreeMap<RrKey, Rc<RecordSet>>,
    first: &RrKey,
    answers: &mut Vec<Record>,
) -> Result<Link<'z>, AllocError>
    requires { first.now.record_type ≡ 0 }
    ensures { let all = records_at first.now.name (sets_of sets.now) in IfOk result
        (IsAllPut all (without_dname all) answers.old.items answers.new.items) }
{
    let mut own = Vec::new(alloc);
    append_name(sets, first, &mut own)?;
    append_without_dname(answers, own.as_slice())?;
    Ok(end_at_all(!own.is_empty()))
}

/// Puts copies of all records of the key's name last, of its DNAME only where it does not stand there already. No type
/// is below that of the key.
fn append_all<'z>(
    alloc: Global,
    sets: &BTreeMap<RrKey, Rc<RecordSet>>,
    name: &Name,
    first: &RrKey,
    answers: &mut Vec<Record>,
) -> Result<Link<'z>, AllocError>
    requires { first.now.record_type ≡ 0 }
    ensures { let all = records_at first.now.name (sets_of sets.now) in IfOk result
        (IsAllPut all (not_yet answers.old.items name.now all) answers.old.items answers.new.items) }
{
    if owns_dname(name, answers.as_slice()) {
        return append_rest(alloc, sets, first, answers);
    }
    let before = answers.len();
    append_name(sets, first, answers)?;
    Ok(end_at_all(before < answers.len()))
}

/// Puts copies of all records of the key's name last, owned by another name. Where memory is refused, those of a front
/// of them may have been put.
pub(crate) fn append_name_owned(
    alloc: Global,
    sets: &BTreeMap<RrKey, Rc<RecordSet>>,
    key: &RrKey,
    owner: &Name,
    all: &mut Vec<Record>,
) -> Result<(), AllocError>
    ensures { OnOk result (all.new.items ≡ all.old.items ++ owned_by owner.now
        (records_at key.now.name (sets_of sets.now))) }
{
    let first = RrKey::new(key.name.clone()?, RecordType::new(0));
    let mut own = Vec::new(alloc);
    append_name(sets, &first, &mut own)?;
    append_owned(all, owner, own.as_slice())
}

/// Puts copies of all records of the key's name last, owned by another name.
fn append_all_owned<'z>(
    alloc: Global,
    sets: &BTreeMap<RrKey, Rc<RecordSet>>,
    key: &RrKey,
    owner: &Name,
    answers: &mut Vec<Record>,
) -> Result<Link<'z>, AllocError>
    ensures { let all = owned_by owner.now (records_at key.now.name (sets_of sets.now)) in IfOk result
        (IsAllPut all all answers.old.items answers.new.items) }
{
    let before = answers.len();
    append_name_owned(alloc, sets, key, owner, answers)?;
    Ok(end_at_all(before < answers.len()))
}

/// The canonical name of CNAME records.
fn canonical(cname: &[Record]) -> Result<Option<Name>, AllocError>
    ensures { IfOk result (λ found. found ≡ canonical cname.now) }
{
    match cname.first() {
        Some(
            Record {
                rdata: RData::CNAME(target),
                ..
            },
        ) => Ok(Some(target.clone()?)),
        _ => Ok(None),
    }
}

/// A chain of one name, with records that lie in the zone as they are asked for, if it has any.
#[derive(Clone, Copy)]
pub struct OneLink<'z> {
    pub answers: &'z [Record],
    pub end: ChainEnd<'z>,
}

/// What was found for the first name of a chain, where the chain ends there and nothing is synthesized or put together.
pub fn one_link<'z>(found: Found<'z>) -> Option<OneLink<'z>>
    ensures { IfSome result (λ link. (sets : Sets) (low name : DomainName) (t : ℕ) →
        step t [] name (outcome_of sets low found.entry) ≡ ends link.answers.now (ending_of link.end)) }
{
    let (answers, end): (&'z [Record], ChainEnd<'z>) = match found {
        Found::Answer(records) => (records, ChainEnd::Answer),
        Found::Referral(servers) => (&[], ChainEnd::Referral(servers)),
        Found::NoData => (&[], ChainEnd::NoData),
        Found::NoName => (&[], ChainEnd::NoName),
        _ => return None,
    };
    Some(OneLink { answers, end })
}

/// Puts what was found for one name last, which is the key's in the letter case in which it was asked.
fn append_link<'z>(
    alloc: Global,
    sets: &'z BTreeMap<RrKey, Rc<RecordSet>>,
    name: &Name,
    first: &RrKey,
    record_type: RecordType,
    found: Found<'z>,
    answers: &mut Vec<Record>,
) -> Result<Link<'z>, AllocError>
    requires least { first.now.record_type ≡ 0 }
    requires spelled { first.now.name ≡ lower_name name.now }
    ensures { IfOk result (λ link. (zone : Zone) → zone.sets ≡ sets_of sets.now →
        Answers zone first.now.name record_type (outcome_of (sets_of sets.now) first.now.name found.entry)
        → Linked zone record_type name.now answers.old.items answers.new.items link) }
{
    match found {
        Found::Answer(records) => {
            append_once(answers, name, records)?;
            Ok(Link::End(ChainEnd::Answer))
        }
        Found::WildAnswer(records) => {
            append_owned(answers, name, records)?;
            Ok(Link::End(ChainEnd::Answer))
        }
        Found::Every => append_all(alloc, sets, name, first, answers),
        Found::WildEvery(key) => append_all_owned(alloc, sets, key, name, answers),
        Found::Alias(records) => {
            append_copies(answers, records)?;
            Ok(Link::Leads(canonical(records)?))
        }
        Found::WildAlias(records) => {
            append_owned(answers, name, records)?;
            Ok(Link::Leads(canonical(records)?))
        }
        Found::Referral(servers) => Ok(Link::End(ChainEnd::Referral(servers))),
        Found::NoData => Ok(Link::End(ChainEnd::NoData)),
        Found::NoName => Ok(Link::End(ChainEnd::NoName)),
        Found::Redirected(by) => append_redirection(alloc, name, record_type, by, answers),
    }
}

/// Whether a name is in the zone of this origin.
#[inline(always)]
pub fn is_in(origin: &LowerName, name: &LowerName) -> bool
    ensures { (sets : Sets) → IsTrue result ↔ IsIn (record { origin = origin.now; sets = sets }) name.now }
{
    name.as_name().is_fqdn() && origin.zone_of(name)
}

/// The first key of a name, in lower case, if the zone of this origin has the name.
fn first_key_within(
    alloc: Global,
    origin: &LowerName,
    name: &Name,
) -> Result<Option<RrKey>, AllocError>
    ensures { IfOk result (λ found. MatchOption found
        ((sets : Sets) → ¬ (IsIn (record { origin = origin.now; sets = sets }) name.now))
        (λ key. (key ≡ record { name = lower_name name.now; record_type = 0 }) × (name.now.is_fqdn ≡ true) ×
        Encloses origin.now.labels key.name.labels)) }
{
    let key = RrKey::new(LowerName::new(alloc, name)?, RecordType::new(0));
    if name.is_fqdn() && origin.zone_of(&key.name) {
        Ok(Some(key))
    } else {
        Ok(None)
    }
}

/// Whether the record is a CNAME that this name owns.
fn is_cname_of(name: &LowerName, q: &Record) -> bool
    ensures { result ≡ (is_at name.now q.now && is_cname q.now.rdata) }
{
    matches!(&q.rdata, RData::CNAME(_)) && name.as_name() == &q.name
}

/// Whether the name owns a CNAME among the records.
fn owns_cname(name: &LowerName, records: &[Record]) -> bool
    ensures { result ≡ owns_cname name.now records.now }
{
    records.iter().any(|q| is_cname_of(name, q))
}

/// The first key, in lower case, of a name that a chain with these records leads on to, if the zone of this origin has
/// the name and the chain was not at it.
fn next_key(
    alloc: Global,
    origin: &LowerName,
    target: &Name,
    chain: &[Record],
) -> Result<Option<RrKey>, AllocError>
    ensures { IfOk result (λ found. MatchOption found
        ((sets : Sets) → ¬ (IsIn (record { origin = origin.now; sets = sets }) target.now) ⊎
        (owns_cname (lower_name target.now) chain.now ≡ true))
        (λ key. (key ≡ record { name = lower_name target.now; record_type = 0 }) × (target.now.is_fqdn ≡ true) ×
        Encloses origin.now.labels key.name.labels × (owns_cname key.name chain.now ≡ false))) }
{
    let Some(next) = first_key_within(alloc, origin, target)? else {
        return Ok(None);
    };
    if owns_cname(&next.name, chain) {
        return Ok(None);
    }
    Ok(Some(next))
}

/// Puts the records of the answer section for a name in the zone last, with at most so many CNAMEs followed. The name
/// is the key's, in the letter case in which it was asked, and this was found for it. The records of a chain that led
/// here stand there.
#[inline(never)]
pub fn follow<'z>(
    alloc: Global,
    zone: ZoneView<'z>,
    name: &Name,
    first: &RrKey,
    record_type: RecordType,
    left: u8,
    found: Found<'z>,
    answers: &mut Vec<Record>,
) -> Result<ChainEnd<'z>, AllocError>
    requires least { first.now.record_type ≡ 0 }
    requires spelled { first.now.name ≡ lower_name name.now }
    requires qualified { first.now.name.is_fqdn ≡ true }
    requires owners { AreOwners zone.origin.now (sets_of zone.sets.now) }
    requires within { Encloses zone.origin.now.labels first.now.name.labels }
    requires features { AreFeatures (viewed zone) zone.has }
    requires found { Answers (viewed zone) first.now.name record_type
        (outcome_of (sets_of zone.sets.now) first.now.name found) }
    ensures { IfOk result (λ end. Chased (viewed zone.entry)
        (record { name = name.now; record_type = record_type; left = left }) answers.old.items answers.new.items
        (ending_of end)) }
{
    let to = match append_link(alloc, zone.sets, name, first, record_type, found, answers)? {
        Link::End(end) => return Ok(end),
        Link::Leads(to) => to,
    };
    if left == 0 {
        return Ok(ChainEnd::LeftOpen);
    }
    let Some(target) = to else {
        return Ok(ChainEnd::LeftOpen);
    };
    let Some(next) = next_key(alloc, zone.origin, &target, answers.as_slice())? else {
        return Ok(ChainEnd::LeftOpen);
    };
    let found = look_up(alloc, zone, &next, record_type)?;
    follow(
        alloc,
        zone,
        &target,
        &next,
        record_type,
        left - 1,
        found,
        answers,
    )
}
