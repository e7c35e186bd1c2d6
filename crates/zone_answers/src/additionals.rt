//! Records that help to use others.

ghost use Rattle.std.specs.Prelude.{◌≡◌, ◌↔◌, ◌++◌, IfOk, IsTrue, OnOk, true};
ghost use Rattle.std.specs.List.{AllByRecursion, list_any};
ghost use Rattle.std.specs.Option.{option_copied};
ghost use Rattle.hickory_base.specs.zone_store.ZoneRecords.{is_of};
ghost use Rattle.hickory_base.specs.zone_store.ZoneSets.{sets_of};
ghost use Rattle.wire_names.specs.declared.error.DecodeError.TheVariants as decode_error;
ghost use Rattle.wire_messages.specs.Numbers.{type_a, type_aaaa};
ghost use Rattle.zone_answers.specs.Zones.{AreOwners};
ghost use Rattle.wire_names.specs.rr.domain.DomainName.{DomainName};
ghost use Rattle.zone_answers.specs.representation.Features.{AreFeatures};
ghost use Rattle.zone_answers.specs.declared.additionals.Source.TheVariants as source;
ghost use Rattle.zone_answers.specs.Additionals.{AreAdditionals, Gains, GainsFor, IsAnswered, IsHad, first_name, glue_of, has_glue, host_in, is_hostless, is_of_hosts, name_from, some_records, source_of, target_start};
ghost use Rattle.zone_answers.specs.representation.Grown.{AreGained, IsGrown};
ghost use Rattle.zone_answers.specs.Views.{viewed};

use crate::chains::{append_copies, append_name, append_name_owned, append_owned, is_in};
use crate::find::{Addresses, Found, addresses_at, look_up};
use crate::view::ZoneView;
use hickory_base::zone_store::RecordSet;
use hickory_wire::{BinDecoder, DecodeError, LowerName, Name, RData, Record, RecordType, RrKey};
use std::alloc::{AllocError, Global};
use std::collections::BTreeMap;
use std::rc::Rc;

/// The type of what a service is offered by (RFC 2782).
const SRV: u16 = 33;

/// The type of how a service is reached (RFC 9460).
const SVCB: u16 = 64;

/// The type of how a server of web pages is reached (RFC 9460 section 9).
const HTTPS: u16 = 65;

/// Where the name of a host begins in octets of a type, if they hold one.
fn target_start(record_type: RecordType) -> Option<usize>
    ensures { result ≡ target_start record_type }
{
    let number = record_type.value();
    if number == SRV {
        Some(6)
    } else if number == SVCB || number == HTTPS {
        Some(2)
    } else {
        None
    }
}

/// Whether data of the type may name a host.
fn is_of_hosts(record_type: RecordType) -> bool
    ensures { result ≡ is_of_hosts record_type }
{
    record_type == RecordType::NS
        || record_type == RecordType::MX
        || target_start(record_type).is_some()
}

/// Whether a record is of a type whose data name no host.
fn is_hostless(q: &Record) -> bool
    ensures { result ≡ is_hostless q.now.rdata }
{
    !is_of_hosts(q.rdata.record_type())
}

/// Whether all records are.
#[inline(always)]
pub fn are_hostless(records: &[Record]) -> bool
    ensures { IsTrue result ↔ AllByRecursion (λ q. is_hostless q.rdata ≡ true) records.now }
{
    for q in records {
        if !is_hostless(q) {
            return false;
        }
    }
    true
}

/// Whether memory was refused.
pub(crate) fn is_memory(e: &DecodeError) -> bool
    ensures { IsTrue result ↔ (e.now ≡ decode_error.Memory) }
{
    matches!(e, DecodeError::Memory)
}

/// The name that these octets begin with, if they do.
fn first_name(alloc: Global, bytes: &[u8]) -> Result<Option<Name>, AllocError>
    ensures { IfOk result (λ found. found ≡ first_name bytes.now) }
{
    match BinDecoder::new(bytes).read_name(alloc) {
        Ok(name) => Ok(Some(name)),
        Err(e) => {
            if is_memory(&e) {
                Err(AllocError)
            } else {
                Ok(None)
            }
        }
    }
}

/// The name that stands in these octets from a place on, if one does.
fn name_from(alloc: Global, start: Option<usize>, bytes: &[u8]) -> Result<Option<Name>, AllocError>
    ensures { IfOk result (λ found. found ≡ name_from start bytes.now) }
{
    match start {
        None => Ok(None),
        Some(start) => {
            if bytes.len() < start {
                Ok(None)
            } else {
                first_name(alloc, &bytes[start..])
            }
        }
    }
}

/// The host that a record names, if it names one.
pub(crate) fn host(alloc: Global, q: &Record) -> Result<Option<Name>, AllocError>
    ensures { IfOk result (λ found. found ≡ host_in q.now.rdata) }
{
    match &q.rdata {
        RData::NS(name) => Ok(Some(name.clone()?)),
        RData::MX(mx) => Ok(Some(mx.exchange.clone()?)),
        RData::Unknown { code, bytes } => name_from(alloc, target_start(*code), bytes.as_slice()),
        _ => Ok(None),
    }
}

/// Where the addresses of a host are taken from.
#[derive(Clone, Copy)]
pub enum Source {
    /// From what the zone answers for it.
    Answer,
    /// From what the zone answers for it, or from glue if it is at a cut or below it.
    AnswerOrGlue,
    /// From what the zone has, glue too.
    Glue,
}

/// Whether glue is added to an answer for a host that data of the type name.
fn has_glue(record_type: RecordType) -> bool
    ensures { result ≡ has_glue record_type }
{
    record_type == RecordType::NS || record_type == RecordType::MX || record_type.value() == SRV
}

/// Where the addresses of the host that a record names are taken from.
fn source_of(source: Source, q: &Record) -> Source
    ensures { result ≡ source_of source q.now.rdata }
{
    match source {
        Source::Answer => {
            if has_glue(q.rdata.record_type()) {
                Source::AnswerOrGlue
            } else {
                Source::Answer
            }
        }
        _ => source,
    }
}

/// Whether a record is of the key's name and of a type.
fn is_of(key: &RrKey, record_type: RecordType, q: &Record) -> bool
    ensures { result ≡ is_of key.now.name record_type q.now }
{
    // The types first: most records are told apart by them, and names take longer.
    record_type.value() == q.rdata.record_type().value() && key.name.as_name() == &q.name
}

/// Whether one of the records is.
fn has_of(key: &RrKey, record_type: RecordType, records: &[Record]) -> bool
    ensures { result ≡ list_any (is_of key.now.name record_type) records.now }
{
    records.iter().any(|q| is_of(key, record_type, q))
}

/// The addresses that the zone has under the key's name, glue too, if the source has glue. No type is below that of the
/// key.
fn glue<'z>(source: Source, sets: &'z BTreeMap<RrKey, Rc<RecordSet>>, host: &RrKey) -> Addresses<'z>
    requires { host.now.record_type ≡ 0 }
    ensures four { (origin : DomainName) → some_records (option_copied result.four) ≡
        glue_of source (record { origin = origin; sets = sets_of sets.now }) host.now.name type_a }
    ensures six { (origin : DomainName) → some_records (option_copied result.six) ≡
        glue_of source (record { origin = origin; sets = sets_of sets.now }) host.now.name type_aaaa }
{
    match source {
        Source::Answer => Addresses {
            four: None,
            six: None,
        },
        _ => addresses_at(sets, host),
    }
}

/// Puts copies of the records last, if there are any.
fn append_glue(found: Option<&[Record]>, all: &mut Vec<Record>) -> Result<(), AllocError>
    ensures { OnOk result (all.new.items ≡ all.old.items ++ some_records (option_copied found.entry)) }
{
    match found {
        Some(records) => append_copies(all, records),
        None => Ok(()),
    }
}

/// Puts copies of what the zone answers for the key's name and a type last, or of this glue if the name is at a cut or
/// below it. No type is below that of the key.
fn append_answer(
    alloc: Global,
    zone: ZoneView<'_>,
    host: &RrKey,
    record_type: RecordType,
    glue: Option<&[Record]>,
    all: &mut Vec<Record>,
) -> Result<(), AllocError>
    requires least { host.now.record_type ≡ 0 }
    requires owners { AreOwners zone.origin.now (sets_of zone.sets.now) }
    requires features { AreFeatures (viewed zone) zone.has }
    ensures { OnOk result (IsGrown (IsAnswered (some_records (option_copied glue.entry))
        (viewed zone.entry) host.now.name record_type)
        all.old.items all.new.items) }
{
    if !is_in(zone.origin, &host.name) {
        return Ok(());
    }
    match look_up(alloc, zone, host, record_type)? {
        Found::Answer(records) => append_copies(all, records),
        Found::WildAnswer(records) => append_owned(all, host.name.as_name(), records),
        Found::Every => append_name(zone.sets, host, all),
        Found::WildEvery(key) => append_name_owned(alloc, zone.sets, key, host.name.as_name(), all),
        Found::Referral(_) => append_glue(glue, all),
        _ => Ok(()),
    }
}

/// Puts copies of the records last that are to be had for the key's name and a type, of which these are the zone's if
/// the source has glue. No type is below that of the key.
fn append_from(
    alloc: Global,
    zone: ZoneView<'_>,
    source: Source,
    host: &RrKey,
    record_type: RecordType,
    glue: Option<&[Record]>,
    all: &mut Vec<Record>,
) -> Result<(), AllocError>
    requires least { host.now.record_type ≡ 0 }
    requires owners { AreOwners zone.origin.now (sets_of zone.sets.now) }
    requires features { AreFeatures (viewed zone) zone.has }
    requires glue { some_records (option_copied glue) ≡
        glue_of source (viewed zone) host.now.name record_type }
    ensures { OnOk result (IsGrown
        (IsHad source (viewed zone.entry) host.now.name record_type) all.old.items
        all.new.items) }
{
    match source {
        Source::Glue => append_glue(glue, all),
        _ => append_answer(alloc, zone, host, record_type, glue, all),
    }
}

/// Puts the addresses of a host after the others, if a reply of these answers and additionals has no such records yet.
fn append_once(
    alloc: Global,
    zone: ZoneView<'_>,
    source: Source,
    answers: &[Record],
    host: &RrKey,
    record_type: RecordType,
    glue: Option<&[Record]>,
    all: &mut Vec<Record>,
) -> Result<(), AllocError>
    requires least { host.now.record_type ≡ 0 }
    requires owners { AreOwners zone.origin.now (sets_of zone.sets.now) }
    requires features { AreFeatures (viewed zone) zone.has }
    requires glue { some_records (option_copied glue) ≡
        glue_of source (viewed zone) host.now.name record_type }
    ensures { OnOk result (IsGrown
        (Gains source (viewed zone.entry)
        (answers.now ++ all.old.items) host.now.name record_type) all.old.items all.new.items) }
{
    if has_of(host, record_type, answers) || has_of(host, record_type, all.as_slice()) {
        return Ok(());
    }
    append_from(alloc, zone, source, host, record_type, glue, all)
}

/// Puts copies of a host's addresses last that the reply does not have yet.
fn append_addresses(
    alloc: Global,
    zone: ZoneView<'_>,
    source: Source,
    answers: &[Record],
    name: &Name,
    all: &mut Vec<Record>,
) -> Result<(), AllocError>
    requires owners { AreOwners zone.origin.now (sets_of zone.sets.now) }
    requires features { AreFeatures (viewed zone) zone.has }
    ensures { OnOk result (AreGained source (viewed zone.entry) answers.now
        name.now all.old.items all.new.items) }
{
    let host = RrKey::new(LowerName::new(alloc, name)?, RecordType::new(0));
    let stored = glue(source, zone.sets, &host);
    append_once(
        alloc,
        zone,
        source,
        answers,
        &host,
        RecordType::A,
        stored.four,
        all,
    )?;
    append_once(
        alloc,
        zone,
        source,
        answers,
        &host,
        RecordType::AAAA,
        stored.six,
        all,
    )
}

/// Puts copies of the addresses of the host that a record names last, if it names one, that the reply does not have
/// yet.
fn append_host(
    alloc: Global,
    zone: ZoneView<'_>,
    source: Source,
    answers: &[Record],
    q: &Record,
    all: &mut Vec<Record>,
) -> Result<(), AllocError>
    requires owners { AreOwners zone.origin.now (sets_of zone.sets.now) }
    requires features { AreFeatures (viewed zone) zone.has }
    ensures { OnOk result (IsGrown
        (GainsFor source (viewed zone.entry)
        (answers.now ++ all.old.items) q.now.rdata) all.old.items all.new.items) }
{
    match host(alloc, q)? {
        Some(name) => {
            let source = source_of(source, q);
            append_addresses(alloc, zone, source, answers, &name, all)
        }
        None => Ok(()),
    }
}

/// Puts copies of the addresses of the hosts that records name last that the reply does not have yet.
fn append_each(
    alloc: Global,
    zone: ZoneView<'_>,
    source: Source,
    answers: &[Record],
    naming: &[Record],
    all: &mut Vec<Record>,
) -> Result<(), AllocError>
    requires owners { AreOwners zone.origin.now (sets_of zone.sets.now) }
    requires features { AreFeatures (viewed zone) zone.has }
    ensures { OnOk result (IsGrown
        (AreAdditionals source (viewed zone.entry)
        (answers.now ++ all.old.items) naming.now) all.old.items all.new.items) }
{
    for q in naming {
        append_host(alloc, zone, source, answers, q, all)?;
    }
    Ok(())
}

/// The additional section of a reply with these answers: the addresses of the hosts that the records name.
pub fn additionals(
    alloc: Global,
    zone: ZoneView<'_>,
    source: Source,
    answers: &[Record],
    naming: &[Record],
) -> Result<Vec<Record>, AllocError>
    requires owners { AreOwners zone.origin.now (sets_of zone.sets.now) }
    requires features { AreFeatures (viewed zone) zone.has }
    ensures { IfOk result (λ found. AreAdditionals source (viewed zone.entry)
        answers.now naming.now found.items) }
{
    let mut all = Vec::new(alloc);
    append_each(alloc, zone, source, answers, naming, &mut all)?;
    Ok(all)
}
