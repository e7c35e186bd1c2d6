//! One entry of a zone file (RFC 1035 section 5.1).

ghost use Rattle.std.specs.Prelude.{◌≡◌, ◌≢◌, ◌↔◌, ◌≤◌, ◌++◌, ◌⊎◌, ℕ, [], ◌∷◌, All, List, Option, Some, None, false, true, take, IfErr, IfNone, IfOk, IfSome, IsTrue, OnErr, OnOk};
ghost use Rattle.wire_messages.specs.declared.rr.rdata.RData.{RData as RDataOf};
ghost use Rattle.wire_messages.specs.declared.rr.record.Proof.TheVariants.{Indeterminate};
ghost use Rattle.wire_messages.specs.rr.RecordData.{type_of};
ghost use Rattle.wire_messages.specs.serialize.layout.RecordLayout.{IsFormed};
ghost use Rattle.wire_messages.specs.serialize.writing.RecordSize.{data_len};
ghost use Rattle.hickory_wire.specs.serialize.writing.ReadingBack.{ReadsBack};
ghost use Rattle.text_words.specs.declared.words.Word.{Word as WordOf};
ghost use Rattle.record_text.specs.RecordText.{HasNone, SpellsData};
ghost use Rattle.zone_text.specs.ZoneFiles.{AreNoOctets, AreTtlAndClass, BeginsWith, IsBehindOwner, IsClass1, IsClassIn, IsDirective, IsEntry, IsFrontOf, IsRecordEntry, IsTyped};
ghost use Rattle.zone_text.specs.declared.zone_file.fault.EntryError.TheVariants.{Memory};
ghost use Rattle.zone_text.specs.ZoneFaults.{BeginsWithNoFront, IsNoEntry, IsNoFront};
ghost use Rattle.zone_text.specs.ZoneFiles.{IsTtl, IsTypeWord, IsZoneRecord, IsZoneType, MayBeData, MayBeginWithTtl, after, has_octets, last_owner, ttl_in_force, zone_minimum};

use crate::error::ZoneFileFault;
use crate::zone_file::fault::{EntryError, fault_of};
use crate::zone_file::generate::read_generate;
use hickory_wire::record_laws::reading_back;
use hickory_wire::{DNSClass, Items, Name, Proof, RData, Record, RecordType};
use record_text::{class_of, data_of_words, type_of};
use std::alloc::{AllocError, Global};
use std::mem;
use text_print::is_formed;
use text_words::{TextFault, Word, absolute_name, fault_at, number_of_digits, seconds_of};
use wire_messages::serialize::writing::full_form::full_name_len;

/// What the entries before leave to an entry.
#[derive(Drop)]
pub(crate) struct Before {
    /// What names without a dot at their end are relative to.
    pub(crate) origin: Name,
    /// The TTL of the last `$TTL`, in seconds.
    pub(crate) default_ttl: Option<u32>,
    /// How many of the records stand up to the last one whose owner name a line that begins with a blank has.
    pub(crate) owned: usize,
    /// The records so far.
    pub(crate) records: Items<Record>,
}

/// An entry.
#[derive(Drop)]
pub(crate) enum Entry {
    /// Blanks, or a comment, or both.
    Blank,
    /// The origin of what follows (RFC 1035 section 5.1).
    Origin(Name),
    /// The TTL of records that follow and have none, in seconds (RFC 2308 section 4).
    DefaultTtl(u32),
    /// A record.
    Record(Record),
    /// The records of a `$GENERATE` directive.
    Generated(Items<Record>),
}

/// What stands between an owner name and data.
#[derive(Clone, Copy)]
pub(crate) struct Front {
    /// The TTL in seconds, where one stands there.
    pub(crate) ttl: Option<u32>,
    /// The type.
    pub(crate) record_type: RecordType,
    /// How many bytes of the file stand before the field of the type.
    pub(crate) place: usize,
}

/// The TTL of a record in seconds: its own, else that of the last `$TTL` (RFC 2308 section 4), else that of the record
/// before (RFC 1035 section 5.1), else the last number of a zone's start (RFC 2308 section 4).
fn ttl_in_force(
    own: Option<u32>,
    default_ttl: Option<u32>,
    last: Option<u32>,
    minimum: Option<u32>,
) -> Option<u32>
    ensures { result ≡ ttl_in_force own default_ttl last minimum }
{
    own.or(default_ttl).or(last).or(minimum)
}

/// The last number of a zone's start, where data are one (RFC 1035 section 3.3.13).
fn zone_minimum(rdata: &RData) -> Option<u32>
    ensures { result ≡ zone_minimum rdata.now }
{
    match rdata {
        RData::SOA(soa) => Some(soa.get().minimum),
        RData::Update0(code) | RData::Unknown { code, .. } if code.value() == 6 => Some(0),
        _ => None,
    }
}

/// The TTL that a field is, if it begins with a digit, as neither a class nor a type does.
fn own_ttl(word: &Word<'_>) -> Result<Option<u32>, EntryError>
    ensures ttl { IfOk result (λ own. IfSome own (IsTtl word.now)) }
    ensures none { IfOk result (λ own. IfNone own (HasNone (IsTtl word.now))) }
    ensures refused { IfErr result (λ e. e ≢ Memory → IsNoFront word.now) }
{
    match word.bytes {
        [first, ..] if first.is_ascii_digit() => {
            let seconds = seconds_of(word)?;
            Ok(Some(seconds))
        }
        _ => Ok(None),
    }
}

/// Whether a text is `CLASS1` (RFC 3597 section 5).
fn is_class_1(text: &[u8]) -> bool
    ensures { IsTrue result ↔ IsClass1 text.now }
{
    let Some((front, digits)) = text.split_at_checked(5) else {
        return false;
    };
    if !front.eq_ignore_ascii_case(b"CLASS") {
        return false;
    }
    match number_of_digits(digits) {
        Some(number) => number == 1,
        None => false,
    }
}

/// Whether a field is the class IN.
fn is_class_in(word: &Word<'_>) -> bool
    ensures { IsTrue result ↔ IsClassIn word.now }
{
    if word.quoted {
        return false;
    }
    if word.bytes.eq_ignore_ascii_case(b"IN") {
        return true;
    }
    is_class_1(word.bytes)
}

/// The fields behind the class IN, where the first of them is that.
fn behind_class<'a, 'w>(words: &'w [Word<'a>]) -> Option<&'w [Word<'a>]>
    ensures class { IfSome result (λ behind. BeginsWith IsClassIn words.now behind.now) }
    ensures none { IfNone result (HasNone (BeginsWith IsClassIn words.now)) }
{
    let (word, behind) = words.split_first()?;
    if is_class_in(word) {
        Some(behind)
    } else {
        None
    }
}

/// The TTL that fields begin with, if they do, and those behind it.
fn ttl_and_behind<'a, 'w>(
    words: &'w [Word<'a>],
) -> Result<(Option<u32>, &'w [Word<'a>]), EntryError>
    ensures ttl { IfOk result (λ found. MayBeginWithTtl words.now found.0 found.1.now) }
    ensures none { IfOk result (λ found.
        IfNone found.0 ((seconds : ℕ) → HasNone (BeginsWith (λ word. IsTtl word seconds) words.now))) }
    ensures refused { IfErr result (λ e. e ≢ Memory → BeginsWithNoFront words.now) }
{
    let Some((word, behind)) = words.split_first() else {
        return Ok((None, words));
    };
    match own_ttl(word)? {
        Some(seconds) => Ok((Some(seconds), behind)),
        None => Ok((None, words)),
    }
}

/// TTL and class, in either order and either left out: the TTL, if there is one, and the fields behind them.
pub(crate) fn ttl_and_class<'a, 'w>(
    words: &'w [Word<'a>],
) -> Result<(Option<u32>, &'w [Word<'a>]), EntryError>
    ensures timed { IfOk result (λ found. (front : List WordOf) × (words.now ≡ front ++ found.1.now) ×
        AreTtlAndClass front found.0) }
    ensures most { IfOk result (λ found. (own : Option ℕ) (number : ℕ) → (behind : List WordOf) →
        IsFrontOf words.now own number behind → (own ≡ found.0) × BeginsWith (IsTypeWord number) found.1.now behind) }
    ensures refused { IfErr result (λ e. e ≢ Memory → (own : Option ℕ) (number : ℕ) →
        HasNone (IsFrontOf words.now own number)) }
{
    let (ttl, fields) = ttl_and_behind(words)?;
    let Some(behind) = behind_class(fields) else {
        return Ok((ttl, fields));
    };
    match ttl {
        Some(seconds) => Ok((Some(seconds), behind)),
        None => ttl_and_behind(behind),
    }
}

/// Whether zones have records of this type: it is none of those of messages alone (RFC 6895 section 3.1).
fn is_zone_type(record_type: RecordType) -> bool
    ensures { IsTrue result ↔ IsZoneType record_type }
{
    !matches!(record_type.value(), 0 | 41 | 128..=255)
}

/// Whether the data of a type are never no bytes. Of types that are not known any bytes are data (RFC 3597 section 5).
fn has_octets(record_type: RecordType) -> bool
    ensures { result ≡ has_octets record_type }
{
    matches!(record_type.value(), 1 | 2 | 5 | 6 | 12 | 15 | 16 | 28)
}

/// Whether fields are `\#` and a length, with no bytes behind (RFC 3597 section 5).
fn are_no_octets(words: &[Word<'_>]) -> bool
    ensures { IsTrue result ↔ AreNoOctets words.now }
{
    match words {
        [mark, _] => !mark.quoted && mark.bytes == b"\\#".as_slice(),
        _ => false,
    }
}

/// Why a field is no type of a zone's records: it is another class than IN, or what else is wrong with it.
fn type_fault(word: &Word<'_>, fault: EntryError) -> EntryError {
    match class_of(word) {
        Ok(class) if class.value() != 1 => fault_of(word, ZoneFileFault::ClassNotIn),
        _ => fault,
    }
}

/// The type of a record of a zone.
pub(crate) fn zone_type(word: &Word<'_>) -> Result<RecordType, EntryError>
    ensures typed { IfOk result (λ number. IsTypeWord number word.now) }
    ensures stored { IfOk result IsZoneType }
    ensures refused { IfErr result (λ e. e ≢ Memory → (number : ℕ) → IsTypeWord number word.now → IsZoneType number →
        ⊥) }
{
    let record_type = match type_of(word) {
        Ok(record_type) => record_type,
        Err(e) => return Err(type_fault(word, EntryError::from(e))),
    };
    if !is_zone_type(record_type) {
        return Err(type_fault(word, fault_of(word, ZoneFileFault::NotZoneData)));
    }
    Ok(record_type)
}

/// The data of a record of a zone, of the type of a field before them, at this place.
fn zone_data(
    alloc: Global,
    place: usize,
    record_type: RecordType,
    words: &[Word<'_>],
    end: usize,
    origin: &Name,
) -> Result<RData, EntryError>
    ensures form { IfOk result (λ rdata. type_of rdata ≡ record_type) }
    ensures fits { IfOk result (λ rdata. data_len rdata ≤ 65535) }
    ensures spelled { IfOk result (SpellsData (Some origin.now) record_type words.now) }
    ensures some { OnOk result (MayBeData record_type words.now) }
    ensures refused { IfErr result (λ e. e ≢ Memory → (rdata : RDataOf) →
        SpellsData (Some origin.now) record_type words.now rdata → MayBeData record_type words.now → ⊥) }
{
    let rdata = data_of_words(alloc, record_type, words, end, Some(origin))?;
    if has_octets(record_type) && are_no_octets(words) {
        return Err(EntryError::from(fault_at(place, TextFault::WrongData)));
    }
    Ok(rdata)
}

/// The owner name of the last record, for an entry that begins with this field.
fn last_owner(first: &Word<'_>, records: &[Record]) -> Result<Name, EntryError>
    ensures owner { IfOk result (λ name. last_owner records.now ≡ Some name) }
    ensures fault { IfErr result (λ e. e ≢ Memory → last_owner records.now ≡ None) }
{
    match records.last() {
        Some(record) => Ok(record.name.clone()?),
        None => Err(fault_of(first, ZoneFileFault::NoOwner)),
    }
}

/// Of these parts a record reads back as itself.
fn reads_back(name: &Name, ttl: u32, rdata: &RData)
    requires qualified { name.now.is_fqdn ≡ true }
    requires formed { IsFormed rdata.now }
    requires fits { data_len rdata.now ≤ 65535 }
    ensures { ReadsBack
        (record { name = name.now; dns_class = 1; ttl = ttl; rdata = rdata.now; proof = Indeterminate }) }
{
    reading_back();
    let _len = full_name_len(name);
    let _formed = is_formed(rdata);
}

/// The record of this owner name and of what stands between it and the data, which these fields are. `first` is the
/// field that the entry begins with, and `end` the place behind all fields.
pub(crate) fn typed_record(
    alloc: Global,
    first: &Word<'_>,
    name: Name,
    front: &Front,
    data: &[Word<'_>],
    end: usize,
    before: &Before,
) -> Result<Record, EntryError>
    requires qualified { name.is_fqdn ≡ true }
    requires stored { IsZoneType front.now.record_type }
    ensures named { IfOk result (λ r. r.name ≡ name) }
    ensures typed { IfOk result (IsTyped before.now front.now.ttl front.now.record_type data.now) }
    ensures refused { IfErr result
        (λ e. e ≢ Memory → HasNone (IsTyped before.now front.now.ttl front.now.record_type data.now)) }
{
    let rdata = zone_data(
        alloc,
        front.place,
        front.record_type,
        data,
        end,
        &before.origin,
    )?;
    let last = before.records.as_slice().last().map(|record| record.ttl);
    let minimum = zone_minimum(&rdata);
    let Some(ttl) = ttl_in_force(front.ttl, before.default_ttl, last, minimum) else {
        return Err(fault_of(first, ZoneFileFault::NoTtl));
    };
    reads_back(&name, ttl, &rdata);
    Ok(Record {
        name,
        dns_class: DNSClass::IN,
        ttl,
        rdata,
        proof: Proof::Indeterminate,
    })
}

/// The record of this owner name that stands behind it: TTL and class, where they are there, type and data. `first` is
/// the field that the entry begins with, and `end` the place behind all fields.
fn record_behind(
    alloc: Global,
    first: &Word<'_>,
    name: Name,
    words: &[Word<'_>],
    end: usize,
    before: &Before,
) -> Result<Record, EntryError>
    requires { name.is_fqdn ≡ true }
    ensures named { IfOk result (λ r. r.name ≡ name) }
    ensures behind { IfOk result (IsBehindOwner before.now words.now) }
    ensures refused { IfErr result (λ e. e ≢ Memory → HasNone (IsBehindOwner before.now words.now)) }
{
    let (ttl, fields) = ttl_and_class(words)?;
    let Some((word, data)) = fields.split_first() else {
        return Err(EntryError::from(fault_at(end, TextFault::MissingField)));
    };
    let front = Front {
        ttl,
        record_type: zone_type(word)?,
        place: word.start,
    };
    typed_record(alloc, first, name, &front, data, end, before)
}

/// The records up to the last one whose owner name a line that begins with a blank has.
fn owned_records(before: &Before) -> &[Record]
    ensures { result.now ≡ take before.now.owned before.now.records }
{
    let records = before.records.as_slice();
    let owned = before.owned.min(records.len());
    &records[..owned]
}

/// The record of an entry whose line begins with a blank, of which these are the first field and all fields.
fn repeated_record(
    alloc: Global,
    first: &Word<'_>,
    words: &[Word<'_>],
    end: usize,
    before: &Before,
) -> Result<Record, EntryError>
    requires { All IsZoneRecord before.now.records }
    ensures entry { IfOk result (IsRecordEntry before.now true words.now) }
    ensures refused { IfErr result (λ e. e ≢ Memory → HasNone (IsRecordEntry before.now true words.now)) }
{
    let name = last_owner(first, owned_records(before))?;
    record_behind(alloc, first, name, words, end, before)
}

/// The record of an entry that begins with its owner name, and the fields behind it.
fn named_record(
    alloc: Global,
    owner: &Word<'_>,
    behind: &[Word<'_>],
    end: usize,
    before: &Before,
) -> Result<Record, EntryError>
    requires { IsDirective owner.now → ⊥ }
    ensures entry { IfOk result (IsRecordEntry before.now false (owner.now ∷ behind.now)) }
    ensures refused { IfErr result
        (λ e. e ≢ Memory → HasNone (IsRecordEntry before.now false (owner.now ∷ behind.now))) }
{
    let name = absolute_name(alloc, owner, Some(&before.origin))?;
    record_behind(alloc, owner, name, behind, end, before)
}

/// The field behind that of a directive, which is the last one.
pub(crate) fn only_field<'a, 'w>(
    behind: &'w [Word<'a>],
    end: usize,
) -> Result<&'w Word<'a>, EntryError>
    ensures only { IfOk result (λ word. behind.now ≡ word.now ∷ []) }
    ensures refused { OnErr result ((word : WordOf) → behind.now ≡ word ∷ [] → ⊥) }
{
    match behind {
        [] => Err(EntryError::from(fault_at(end, TextFault::MissingField))),
        [word] => Ok(word),
        [_, more, ..] => Err(EntryError::from(more.fault(TextFault::TooMuchText))),
    }
}

/// The directive that an entry is of this field and those behind it.
fn read_directive(
    alloc: Global,
    first: &Word<'_>,
    behind: &[Word<'_>],
    end: usize,
    before: &Before,
) -> Result<Entry, EntryError>
    requires { IsDirective first.now }
    ensures entry { IfOk result (IsEntry before.now false (first.now ∷ behind.now)) }
    ensures refused { IfErr result (λ e. e ≢ Memory → IsNoEntry before.now false (first.now ∷ behind.now)) }
{
    if first.bytes.eq_ignore_ascii_case(b"$ORIGIN") {
        let word = only_field(behind, end)?;
        let name = absolute_name(alloc, word, Some(&before.origin))?;
        return Ok(Entry::Origin(name));
    }
    if first.bytes.eq_ignore_ascii_case(b"$TTL") {
        let word = only_field(behind, end)?;
        let seconds = seconds_of(word)?;
        return Ok(Entry::DefaultTtl(seconds));
    }
    if first.bytes.eq_ignore_ascii_case(b"$GENERATE") {
        let records = read_generate(alloc, behind, end, before)?;
        return Ok(Entry::Generated(records));
    }
    if first.bytes.eq_ignore_ascii_case(b"$INCLUDE") {
        return Err(fault_of(first, ZoneFileFault::IncludeNotTaken));
    }
    Err(fault_of(first, ZoneFileFault::UnknownDirective))
}

/// Whether a field is written as a directive.
fn is_directive(word: &Word<'_>) -> bool
    ensures { IsTrue result ↔ IsDirective word.now }
{
    match word.bytes {
        [b'$', ..] => !word.quoted,
        _ => false,
    }
}

/// The entry of which these are the fields, whose line begins with a blank or does not. `end` is the place behind the
/// fields.
pub(crate) fn read_entry(
    alloc: Global,
    begins_blank: bool,
    words: &[Word<'_>],
    end: usize,
    before: &Before,
) -> Result<Entry, EntryError>
    requires { All IsZoneRecord before.now.records }
    ensures entry { IfOk result (IsEntry before.now begins_blank words.now) }
    ensures refused { IfErr result (λ e. e ≢ Memory → IsNoEntry before.now begins_blank words.now) }
{
    let (first, behind) = match words.split_first() {
        Some(parts) => parts,
        None => return Ok(Entry::Blank),
    };
    if begins_blank {
        let record = repeated_record(alloc, first, words, end, before)?;
        return Ok(Entry::Record(record));
    }
    if is_directive(first) {
        return read_directive(alloc, first, behind, end, before);
    }
    let record = named_record(alloc, first, behind, end, before)?;
    Ok(Entry::Record(record))
}

/// Puts records behind others.
fn append(alloc: Global, records: &mut Items<Record>, more: Items<Record>) -> Result<(), AllocError>
    ensures { OnOk result (records.new ≡ records.old ++ more) }
{
    let mut all = mem::replace(records, Items::new(alloc)).into_vec();
    let mut more = more.into_vec();
    all.append(&mut more)?;
    *records = Items::from_vec(all);
    Ok(())
}

impl Before {
    /// What is left to the entry behind this one. Where memory is refused, nothing is said of what is left.
    pub(crate) fn take(&mut self, alloc: Global, entry: Entry) -> Result<(), AllocError>
        ensures { OnOk result (self.new ≡ after self.old entry) }
    {
        match entry {
            Entry::Blank => {}
            Entry::Origin(name) => self.origin = name,
            Entry::DefaultTtl(ttl) => self.default_ttl = Some(ttl),
            Entry::Record(record) => {
                self.records.push(record)?;
                self.owned = self.records.len();
            }
            Entry::Generated(more) => append(alloc, &mut self.records, more)?,
        }
        Ok(())
    }
}
