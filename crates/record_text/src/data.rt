//! The data of records in text.

pub(crate) mod field;
mod fields;
mod forms;
mod gateway;
mod hashes;
mod hex_groups;
mod host_identity;
mod mnemonics;
mod moment;
mod nsap;
mod ports;
mod prefixes;
mod relay;
pub(crate) mod rest;
pub(crate) mod table;
mod types;

ghost use Rattle.std.specs.Prelude.{◌≡◌, ◌≢◌, ◌↔◌, ◌<◌, ◌≤◌, [], ◌∷◌, false, IfErr, IfNone, IfOk, IfSome, IsTrue};
ghost use Rattle.std.specs.Option.{option_copied};
ghost use Rattle.wire_messages.specs.rr.RecordData.{type_of};
ghost use Rattle.wire_messages.specs.serialize.layout.RecordLayout.{IsFormed};
ghost use Rattle.wire_messages.specs.serialize.writing.FullForm.{data_octets};
ghost use Rattle.wire_messages.specs.serialize.writing.RecordSize.{data_len};
ghost use Rattle.text_words.specs.declared.error.TextError.TheVariants.{Memory};
ghost use Rattle.text_words.specs.declared.words.TextKind.TheVariants.{Line};
ghost use Rattle.text_words.specs.Words.{words_left};
ghost use Rattle.record_text.specs.RecordText.{BeginGeneric, HasData, HasNone, IsData, SpellsData};

use crate::data::forms::data_in_form;
use crate::generic::read_generic;
use hickory_wire::record_laws::full_forms;
use hickory_wire::{DNSClass, Name, Proof, RData, Record, RecordType};
use std::alloc::Global;
use text_data::service_laws::parameters_once;
use text_words::word_laws::{words_spell_once, words_stand_once};
use text_words::{TextError, TextFault, Word, Words, fault_at};

/// What a record of the root takes whose data have all the bytes that their length can tell: its name has one byte, and
/// type, class, TTL and length have ten (RFC 1035 section 3.2.1).
const MOST_OF_ROOT: usize = 1 + 10 + 65_535;

/// Data whose length has 16 bits, or `None` where they have more.
fn fitting(rdata: RData) -> Option<RData>
    ensures fits { IfSome result (λ fitting. (fitting ≡ rdata) × (data_len rdata ≤ 65535)) }
    ensures too_long { IfNone result (65535 < data_len rdata) }
{
    let record = Record {
        name: Name::root(),
        dns_class: DNSClass::IN,
        ttl: 0,
        rdata,
        proof: Proof::Indeterminate,
    };
    let fits = record.fits(MOST_OF_ROOT);
    let Record { rdata, .. } = record;
    if fits {
        Some(rdata)
    } else {
        drop(rdata);
        None
    }
}

/// Data in the form of their type, of no more bytes than their length can tell. `end` is the place where a word is
/// missing.
fn data_within(
    alloc: Global,
    record_type: RecordType,
    words: &[Word<'_>],
    end: usize,
    origin: Option<&Name>,
) -> Result<RData, TextError>
    ensures form { IfOk result (λ rdata. type_of rdata ≡ record_type) }
    ensures formed { IfOk result IsFormed }
    ensures fits { IfOk result (λ rdata. data_len rdata ≤ 65535) }
    ensures spelled { IfOk result (λ rdata. IsData (option_copied origin.entry) record_type words.now
        (data_octets rdata)) }
    ensures refused { IfErr result
        (λ e. e ≢ Memory → HasNone (λ rdata. IsData (option_copied origin.entry) record_type words.now
        (data_octets rdata) × (data_len rdata ≤ 65535))) }
{
    // What words spell, they spell in one way, and data have as many bytes as they take in full.
    words_spell_once();
    parameters_once();
    full_forms();
    let place = words.first().map_or(end, |word| word.start);
    let rdata = data_in_form(alloc, record_type, words, end, origin)?;
    match fitting(rdata) {
        Some(rdata) => Ok(rdata),
        None => Err(fault_at(place, TextFault::DataTooLong)),
    }
}

/// Whether a word is `\#`.
fn is_mark(word: &Word<'_>) -> bool
    ensures { IsTrue result ↔ ((word.now.quoted ≡ false) × (word.now.bytes.now ≡ 92 ∷ 35 ∷ [])) }
{
    if word.quoted {
        return false;
    }
    word.bytes == b"\\#".as_slice()
}

/// Whether words begin in the form that is one for all types: `\#`, and at least one word behind it.
fn begin_generic(words: &[Word<'_>]) -> bool
    ensures { IsTrue result ↔ BeginGeneric words.now }
{
    match words {
        [mark, _, ..] => is_mark(mark),
        _ => false,
    }
}

/// The data of a type that these words are, in any form that it has, of no more bytes than their length can tell. `end`
/// is the place where a word is missing. Names that are not fully qualified are relative to the origin, and without one
/// a fault.
pub fn data_of_words(
    alloc: Global,
    record_type: RecordType,
    words: &[Word<'_>],
    end: usize,
    origin: Option<&Name>,
) -> Result<RData, TextError>
    ensures form { IfOk result (λ rdata. type_of rdata ≡ record_type) }
    ensures fits { IfOk result (λ rdata. data_len rdata ≤ 65535) }
    ensures spelled { IfOk result (SpellsData (option_copied origin.entry) record_type words.now) }
    ensures refused { IfErr result
        (λ e. e ≢ Memory → HasNone (SpellsData (option_copied origin.entry) record_type words.now)) }
{
    if begin_generic(words) {
        return read_generic(alloc, record_type, &words[1], &words[2..]);
    }
    data_within(alloc, record_type, words, end, origin)
}

/// The data that stand next, to the end of the line.
pub(crate) fn data_of(
    alloc: Global,
    record_type: RecordType,
    words: &mut Words<'_>,
) -> Result<RData, TextError>
    ensures form { IfOk result (λ rdata. type_of rdata ≡ record_type) }
    ensures fits { IfOk result (λ rdata. data_len rdata ≤ 65535) }
    ensures spelled { IfOk result (HasData None record_type words.old) }
    ensures refused { IfErr result (λ e. e ≢ Memory → HasNone (HasData None record_type words.old)) }
{
    // Words stand in a text in one way, and the same ones are the same parameters.
    words_stand_once();
    parameters_once();
    let fields = words.rest(alloc)?;
    data_of_words(alloc, record_type, fields.as_slice(), words.place(), None)
}

/// Reads the data of a record of this type (RFC 1035 section 5.1).
///
/// What data are made of is told by the table of types: numbers, names, addresses, character strings in quotes or not,
/// times in seconds or as `1h30m`, bytes as hexadecimal digits or in base 64. Names are fully qualified. Data of any
/// type may be `\#`, their length, and two hexadecimal digits for each byte, which blanks may stand between; of a type
/// that has no form in the table they have to be (RFC 3597 section 5). Then no bytes are `RData::Update0`, but for an
/// OPT record, and names may not be compressed. Data have at most 65,535 bytes.
///
/// What is refused, but for want of memory, is no data of the type.
pub fn read_data(alloc: Global, record_type: RecordType, text: &str) -> Result<RData, TextError>
    ensures form { IfOk result (λ rdata. type_of rdata ≡ record_type) }
    ensures fits { IfOk result (λ rdata. data_len rdata ≤ 65535) }
    ensures spelled { IfOk result (HasData None record_type (words_left Line text.now 0 0)) }
    ensures refused { IfErr result
        (λ e. e ≢ Memory → HasNone (HasData None record_type (words_left Line text.now 0 0))) }
{
    data_of(alloc, record_type, &mut Words::new(text))
}
