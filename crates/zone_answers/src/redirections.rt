//! Names that a DNAME redirects (RFC 6672).

ghost use Rattle.std.specs.Prelude.{◌≡◌, ◌≤◌, ◌-◌, ◌++◌, ◌∷◌, ◌&&◌, [], length, cond, IfOk, OnOk, Some, None};
ghost use Rattle.wire_names.specs.rr.domain.DomainName.{label_offset};
ghost use Rattle.wire_names.specs.rr.domain.NameOrder.{Encloses};
ghost use Rattle.hickory_base.specs.zone_store.ZoneRecords.{is_at};
ghost use Rattle.zone_answers.specs.representation.Features.{AreFeatures};
ghost use Rattle.zone_answers.specs.representation.FoundRecords.{RedirectedAt, TopDname, higher};
ghost use Rattle.zone_answers.specs.Redirections.{cname_for, is_too_long, substitute, target_in, whole_name};
ghost use Rattle.zone_answers.specs.Chains.{by_cname, is_dname, once, owns_dname, redirect, redirect_to};
ghost use Rattle.zone_answers.specs.representation.ChainEnds.{IsStep};
ghost use Rattle.zone_answers.specs.Views.{viewed};

use crate::additionals::is_memory;
use crate::chains::{ChainEnd, Link, append_copies};
use crate::find::set_under;
use crate::view::ZoneView;
use hickory_wire::{BinDecoder, Labels, LowerName, Name, RData, Record, RecordType, RrKey};
use std::alloc::{AllocError, Global};

/// The type of what redirects the names below its owner (RFC 6672 section 2.1).
pub(crate) const DNAME: u16 = 39;

/// DNAME records that redirect names below their owner.
#[derive(Clone, Copy)]
pub struct Redirection<'z> {
    /// The records.
    pub dname: &'z [Record],
    /// How many labels their owner has.
    pub labels: usize,
}

/// How many labels a name has.
fn label_count(name: &Name) -> usize
    ensures { result ≡ length name.now.labels }
{
    let wire = name.as_wire();
    let mut count = 0;
    let mut place = 0;
    while place < wire.len() {
        place += 1 + usize::from(wire[place]);
        count += 1;
    }
    count
}

/// How many bytes the first labels of a name take in wire form.
fn front_len(name: &Name, labels: usize) -> usize
    requires { labels ≤ length name.now.labels }
    ensures { result ≡ label_offset name.now.labels labels }
{
    let wire = name.as_wire();
    let mut place = 0;
    for _ in 0..labels {
        place += 1 + usize::from(wire[place]);
    }
    place
}

/// What redirects names at this name or below it: nothing that was found below where the zone is cut here, else the
/// DNAME records here, or else what was found below.
fn higher<'z>(
    name: &LowerName,
    is_cut: bool,
    dname: Option<&'z [Record]>,
    below: Option<Redirection<'z>>,
) -> Option<Redirection<'z>>
    ensures { result ≡ higher (length name.now.labels) is_cut dname.entry below.entry }
{
    if is_cut {
        return None;
    }
    match dname {
        None => below,
        Some(dname) => Some(Redirection {
            dname,
            labels: label_count(name.as_name()),
        }),
    }
}

/// The highest DNAME records from a name in the zone up, at or above which the zone is not cut.
#[inline(never)]
fn top_dname<'z>(zone: ZoneView<'z>, name: LowerName) -> Option<Redirection<'z>>
    requires within { Encloses zone.origin.now.labels name.labels }
    requires features { AreFeatures (viewed zone) zone.has }
    ensures { TopDname (viewed zone.entry) name result }
{
    if !zone.has.dnames {
        return None;
    }
    let mut key = RrKey::new(name, RecordType::NS);
    let mut highest = None;
    while !key.name.zone_of(zone.origin) {
        key.record_type = RecordType::NS;
        let is_cut = set_under(zone.sets, &key).is_some();
        key.record_type = RecordType::new(DNAME);
        highest = higher(&key.name, is_cut, set_under(zone.sets, &key), highest);
        key.name.remove_first_label();
    }
    key.record_type = RecordType::new(DNAME);
    higher(&key.name, false, set_under(zone.sets, &key), highest)
}

/// The highest DNAME above a name that is kept.
pub(crate) fn redirection_from<'z>(
    zone: ZoneView<'z>,
    name: &LowerName,
) -> Result<Option<Redirection<'z>>, AllocError>
    requires within { Encloses zone.origin.now.labels name.now.labels }
    requires features { AreFeatures (viewed zone) zone.has }
    ensures { IfOk result (TopDname (viewed zone.entry) name.now) }
{
    if !zone.has.dnames {
        return Ok(None);
    }
    Ok(top_dname(zone, name.clone()?))
}

/// What redirects a name in the zone, if something above it does.
#[inline(always)]
pub(crate) fn redirection_of<'z>(
    zone: ZoneView<'z>,
    name: &LowerName,
) -> Result<Option<Redirection<'z>>, AllocError>
    requires within { Encloses zone.origin.now.labels name.now.labels }
    requires features { AreFeatures (viewed zone) zone.has }
    ensures { IfOk result (RedirectedAt (viewed zone.entry) name.now) }
{
    if !zone.has.dnames {
        return Ok(None);
    }
    if name.zone_of(zone.origin) {
        return Ok(None);
    }
    let mut parent = name.clone()?;
    parent.remove_first_label();
    Ok(top_dname(zone, parent))
}

/// The name that these octets are, if they are one and nothing more.
fn whole_name(alloc: Global, bytes: &[u8]) -> Result<Option<Name>, AllocError>
    ensures { IfOk result (λ found. found ≡ whole_name bytes.now) }
{
    let mut decoder = BinDecoder::new(bytes);
    match decoder.read_name(alloc) {
        Ok(name) => {
            if decoder.index() == bytes.len() {
                Ok(Some(name))
            } else {
                Ok(None)
            }
        }
        Err(e) => {
            if is_memory(&e) {
                Err(AllocError)
            } else {
                Ok(None)
            }
        }
    }
}

/// The target of a DNAME record, if its data give one.
fn target_in(alloc: Global, q: &Record) -> Result<Option<Name>, AllocError>
    ensures { IfOk result (λ found. found ≡ target_in q.now.rdata) }
{
    match &q.rdata {
        RData::Unknown { code, bytes } => {
            if code.value() == DNAME {
                whole_name(alloc, bytes.as_slice())
            } else {
                Ok(None)
            }
        }
        _ => Ok(None),
    }
}

/// The name with its first labels kept and the target in the place of the others, if it isn't too long for a name.
fn substituted(
    alloc: Global,
    name: &Name,
    kept: usize,
    target: &Name,
) -> Result<Option<Name>, AllocError>
    requires { kept ≤ length name.now.labels }
    ensures { IfOk result (λ found. found ≡ cond (is_too_long (substitute name.now kept target.now)) None
        (Some (substitute name.now kept target.now))) }
{
    let front = &name.as_wire()[..front_len(name, kept)];
    let end = target.as_wire();
    if front.len() + end.len() > 254 {
        return Ok(None);
    }
    let mut labels = Labels::new();
    labels.append(front);
    labels.append(end);
    Ok(Some(labels.to_name(alloc, target.is_fqdn())?))
}

/// Whether a record is a DNAME.
pub(crate) fn is_dname(q: &Record) -> bool
    ensures { result ≡ is_dname q.now.rdata }
{
    match &q.rdata {
        RData::Unknown { code, .. } => code.value() == DNAME,
        _ => false,
    }
}

/// Whether a record is a DNAME that this name owns.
fn is_dname_of(name: &Name, q: &Record) -> bool
    ensures { result ≡ (is_at name.now q.now && is_dname q.now.rdata) }
{
    is_dname(q) && name == &q.name
}

/// Whether the name owns a DNAME among the records.
pub(crate) fn owns_dname(name: &Name, records: &[Record]) -> bool
    ensures { result ≡ owns_dname name.now records.now }
{
    records.iter().any(|q| is_dname_of(name, q))
}

/// Puts copies of DNAME records last, of which this is the first, unless they stand there already.
fn append_dname(
    first: &Record,
    dname: &[Record],
    answers: &mut Vec<Record>,
) -> Result<(), AllocError>
    ensures { OnOk result (answers.new.items ≡ answers.old.items ++ cond (owns_dname first.now.name answers.old.items)
        [] dname.now) }
{
    if owns_dname(&first.name, answers.as_slice()) {
        Ok(())
    } else {
        append_copies(answers, dname)
    }
}

/// The CNAME that is synthesized from a DNAME record for a name.
fn cname_for(name: &Name, target: Name, q: &Record) -> Result<Record, AllocError>
    ensures { IfOk result (λ cname. cname ≡ cname_for name.now target q.now) }
{
    Ok(Record {
        name: name.clone()?,
        dns_class: q.dns_class,
        ttl: q.ttl,
        rdata: RData::CNAME(target),
        proof: q.proof,
    })
}

/// Puts the CNAME last that is synthesized from a DNAME record for a name.
fn append_cname<'z>(
    name: &Name,
    target: Name,
    q: &Record,
    record_type: RecordType,
    answers: &mut Vec<Record>,
) -> Result<Link<'z>, AllocError>
    ensures { IfOk result (IsStep (by_cname record_type [] (cname_for name.now target q.now) target) answers.old.items
        answers.new.items) }
{
    let next = target.clone()?;
    answers.push(cname_for(name, target, q)?)?;
    if record_type == RecordType::CNAME {
        Ok(Link::End(ChainEnd::Answer))
    } else {
        Ok(Link::Leads(Some(next)))
    }
}

/// Puts what a DNAME record makes of a name last, of which so many labels stand in front of the record's owner.
fn append_target<'z>(
    alloc: Global,
    name: &Name,
    kept: usize,
    q: &Record,
    record_type: RecordType,
    answers: &mut Vec<Record>,
) -> Result<Link<'z>, AllocError>
    requires { kept ≤ length name.now.labels }
    ensures { IfOk result (IsStep (redirect_to record_type name.now kept [] q.now (target_in q.now.rdata))
        answers.old.items answers.new.items) }
{
    let Some(target) = target_in(alloc, q)? else {
        return Ok(Link::Leads(None));
    };
    match substituted(alloc, name, kept, &target)? {
        None => Ok(Link::End(ChainEnd::NameTooLong)),
        Some(name_made) => append_cname(name, name_made, q, record_type, answers),
    }
}

/// Puts DNAME records last, unless they stand there already, and the CNAME that is synthesized from them for a name.
pub(crate) fn append_redirection<'z>(
    alloc: Global,
    name: &Name,
    record_type: RecordType,
    by: Redirection<'_>,
    answers: &mut Vec<Record>,
) -> Result<Link<'z>, AllocError>
    ensures { IfOk result (IsStep (redirect record_type name.now (length name.now.labels - by.entry.labels)
        (once answers.old.items by.entry.dname.now) by.entry.dname.now) answers.old.items answers.new.items) }
{
    let Some(q) = by.dname.first() else {
        return Ok(Link::Leads(None));
    };
    append_dname(q, by.dname, answers)?;
    let kept = label_count(name).saturating_sub(by.labels);
    append_target(alloc, name, kept, q, record_type, answers)
}
