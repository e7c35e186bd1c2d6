//! The records of a `$GENERATE` directive.

ghost use Rattle.std.specs.Prelude.{◌≡◌, ◌≢◌, ◌^◌, ◌+◌, ◌*◌, ◌<◌, ◌∷◌, ℕ, List, IfErr, IfOk, OnErr};
ghost use Rattle.record_text.specs.RecordText.{HasNone};
ghost use Rattle.text_words.specs.declared.words.Word.{Word as WordOf};
ghost use Rattle.zone_text.specs.Numbered.{Reaches};
ghost use Rattle.zone_text.specs.ZoneFiles.{AreEach, HasWordsOf, IsGenerated, IsNumberedOwner, IsNumberedRecord, IsRangeWord, IsZoneType, template};
ghost use Rattle.zone_text.specs.declared.zone_file.fault.EntryError.TheVariants.{Memory};

use crate::error::ZoneFileFault;
use crate::zone_file::entry::{Before, Front, only_field, ttl_and_class, typed_record, zone_type};
use crate::zone_file::expand::numbered;
use crate::zone_file::fault::{EntryError, fault_of};
use crate::zone_file::number_range::{NumberRange, range_of};
use hickory_wire::{Items, Name, Record};
use std::alloc::Global;
use text_data::service_laws::parameters_once;
use text_words::word_laws::words_stand_once;
use text_words::{TextFault, Word, Words, absolute_name, fault_at};

/// The owner name that a field stands for with a number for its dollar signs.
fn numbered_owner(
    alloc: Global,
    lhs: &Word<'_>,
    number: u32,
    before: &Before,
) -> Result<Name, EntryError>
    requires { number < 2 ^ 31 }
    ensures owner { IfOk result (IsNumberedOwner before.now.origin lhs.now number) }
    ensures refused { IfErr result (λ e. e ≢ Memory → HasNone (IsNumberedOwner before.now.origin lhs.now number)) }
{
    let bytes = numbered(alloc, lhs, number)?;
    let word = Word {
        bytes: bytes.as_slice(),
        start: lhs.start,
        quoted: lhs.quoted,
    };
    let name = absolute_name(alloc, &word, Some(&before.origin))?;
    Ok(name)
}

/// The fields of a text that is all of an entry. A fault is told at this field.
fn words_of<'a>(
    alloc: Global,
    text: &'a [u8],
    field: &Word<'_>,
) -> Result<Vec<Word<'a>>, EntryError>
    ensures words { IfOk result (λ words. HasWordsOf text.now words.items) }
    ensures refused { IfErr result (λ e. e ≢ Memory → (words : List WordOf) → HasWordsOf text.now words → ⊥) }
{
    // Words stand in a text in one way.
    words_stand_once();
    let mut left = Words::entry(text, 0);
    let words = match left.rest(alloc) {
        Ok(words) => words,
        Err(e) => return Err(EntryError::from(e).within(field.start, field.start)),
    };
    if left.place() < text.len() {
        return Err(fault_of(field, ZoneFileFault::Text(TextFault::TooMuchText)));
    }
    Ok(words)
}

/// The record that a `$GENERATE` directive makes of a number. `end` is the place behind all fields.
fn numbered_record(
    alloc: Global,
    lhs: &Word<'_>,
    front: &Front,
    rhs: &Word<'_>,
    number: u32,
    end: usize,
    before: &Before,
) -> Result<Record, EntryError>
    requires small { number < 2 ^ 31 }
    requires stored { IsZoneType front.now.record_type }
    ensures record_is { IfOk result
        (IsNumberedRecord before.now (template lhs.now front.now.ttl front.now.record_type rhs.now) number) }
    ensures refused { IfErr result
        (λ e. e ≢ Memory → HasNone (IsNumberedRecord before.now
        (template lhs.now front.now.ttl front.now.record_type rhs.now) number)) }
{
    // Words stand in a text in one way, and the same words are the same service parameters.
    words_stand_once();
    parameters_once();
    let name = numbered_owner(alloc, lhs, number, before)?;
    let text = numbered(alloc, rhs, number)?;
    let data = words_of(alloc, text.as_slice(), rhs)?;
    match typed_record(alloc, lhs, name, front, data.as_slice(), end, before) {
        Ok(record) => Ok(record),
        Err(e) => Err(e.within(rhs.start, rhs.start)),
    }
}

/// The records that a `$GENERATE` directive makes of the numbers of a range.
fn numbered_records(
    alloc: Global,
    range: &NumberRange,
    lhs: &Word<'_>,
    front: &Front,
    rhs: &Word<'_>,
    end: usize,
    before: &Before,
) -> Result<Items<Record>, EntryError>
    requires last { range.now.last < 2 ^ 31 }
    requires step { range.now.step < 2 ^ 31 }
    requires some { 0 < range.now.step }
    requires stored { IsZoneType front.now.record_type }
    ensures each { IfOk result (λ records. (count : ℕ) × Reaches range.now count ×
        AreEach (λ k. IsNumberedRecord before.now (template lhs.now front.now.ttl front.now.record_type rhs.now)
        (range.now.first + k * range.now.step)) count records) }
    ensures refused { IfErr result (λ e. e ≢ Memory → (count : ℕ) → Reaches range.now count →
        HasNone (AreEach (λ k. IsNumberedRecord before.now
        (template lhs.now front.now.ttl front.now.record_type rhs.now) (range.now.first + k * range.now.step)) count)) }
{
    let mut records = Items::new(alloc);
    let mut number = range.first;
    'numbers: while number <= range.last {
        let record = numbered_record(alloc, lhs, front, rhs, number, end, before)?;
        records.push(record)?;
        number += range.step;
    }
    Ok(records)
}

/// The range that a field is.
fn range_of_field(word: &Word<'_>) -> Result<NumberRange, EntryError>
    ensures range { IfOk result (IsRangeWord word.now) }
    ensures small { IfOk result (λ range. (range.last < 2 ^ 31) × (range.step < 2 ^ 31)) }
    ensures refused { IfErr result (λ e. e ≢ Memory → HasNone (IsRangeWord word.now)) }
{
    let bad = fault_of(word, ZoneFileFault::BadRange);
    if word.quoted {
        return Err(bad);
    }
    match range_of(word.bytes) {
        Some(range) => Ok(range),
        None => Err(bad),
    }
}

/// The fields of the range and of the owner name, and those behind them.
fn range_and_owner<'a, 'w>(
    behind: &'w [Word<'a>],
    end: usize,
) -> Result<(&'w Word<'a>, &'w Word<'a>, &'w [Word<'a>]), EntryError>
    ensures parts { IfOk result (λ parts. behind.now ≡ parts.0.now ∷ parts.1.now ∷ parts.2.now) }
    ensures refused { OnErr result ((range owner : WordOf) (fields : List WordOf) →
        behind.now ≡ range ∷ owner ∷ fields → ⊥) }
{
    match behind {
        [range, owner, fields @ ..] => Ok((range, owner, fields)),
        _ => Err(EntryError::from(fault_at(end, TextFault::MissingField))),
    }
}

/// The records of a `$GENERATE` directive of which these are the fields behind its name.
pub(crate) fn read_generate(
    alloc: Global,
    behind: &[Word<'_>],
    end: usize,
    before: &Before,
) -> Result<Items<Record>, EntryError>
    ensures generated { IfOk result (IsGenerated before.now behind.now) }
    ensures refused { IfErr result (λ e. e ≢ Memory → HasNone (IsGenerated before.now behind.now)) }
{
    let (range, lhs, fields) = range_and_owner(behind, end)?;
    let (ttl, types) = ttl_and_class(fields)?;
    let Some((word, data)) = types.split_first() else {
        return Err(EntryError::from(fault_at(end, TextFault::MissingField)));
    };
    let front = Front {
        ttl,
        record_type: zone_type(word)?,
        place: word.start,
    };
    let rhs = only_field(data, end)?;
    let numbers = range_of_field(range)?;
    numbered_records(alloc, &numbers, lhs, &front, rhs, end, before)
}
