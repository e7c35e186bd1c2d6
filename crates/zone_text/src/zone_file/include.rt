//! Zone files that include others (RFC 1035 section 5.1).

ghost use Rattle.std.specs.Prelude.{◌≡◌, ◌≢◌, ◌↔◌, ◌<◌, ◌≤◌, ◌⊎◌, ℕ, [], List, length, codes, All, IfErr, IfOk, IfSome, IfNone, IsTrue, OnOk};
ghost use Rattle.record_text.specs.RecordText.{HasNone};
ghost use Rattle.text_words.specs.Spelling.{Spells, any_byte, SpellsNoBytes};
ghost use Rattle.zone_text.specs.declared.error.FileRefusal.TheVariants.{Memory as NoMemory};
ghost use Rattle.zone_text.specs.declared.error.ZoneFileError.TheVariants as told;
ghost use Rattle.zone_text.specs.declared.error.ZoneFileFault.TheVariants.{FileRefused};
ghost use Rattle.zone_text.specs.declared.zone_file.entry.Before.{Before as BeforeOf};
ghost use Rattle.zone_text.specs.declared.zone_file.fault.EntryError.TheVariants.{At, Memory};
ghost use Rattle.zone_text.specs.Included.{AreIncluded, IncludesNone, IsFaultWithFiles, IsFrontWithFiles, IsInclude, IsIncludeFrom, IsNamedFile, IsZoneWithFiles};
ghost use Rattle.zone_text.specs.ZoneFaults.{IsEntryFault, IsToldOf, IsWithin};
ghost use Rattle.zone_text.specs.ZoneFiles.{IsKeyword, IsZoneRecord, start_of};

use crate::error::{FileRefusal, IncludedError, ZoneFileError, ZoneFileFault};
use crate::zone_file::entry::Before;
use crate::zone_file::fault::EntryError;
use crate::zone_file::{entry_at, first_entry};
use hickory_wire::{Items, Name, Octets, Record};
use std::alloc::Global;
use std::mem;
use text_words::word_laws::words_stand_once;
use text_words::{TextError, TextFault, Word, Words, absolute_name, fault_at, put_spelled};

/// How many levels of files are included in one another at most.
pub const MOST_LEVELS: u8 = 10;

/// What gives the files that a zone file includes.
///
/// A contract sees it by which bytes a name has, and which reason a name is refused for.
pub trait FileOpener {
    ghost use Rattle.std.specs.Prelude.{◌≢◌, ℕ, List, IfOk, IfErr};
    ghost use Rattle.zone_text.specs.declared.error.FileRefusal.{FileRefusal};
    ghost use Rattle.zone_text.specs.declared.error.FileRefusal.TheVariants.{Memory as NoMemory};

    ghost opens: { Self → List ℕ → List ℕ → Type 0 };

    ghost refuses: { Self → List ℕ → FileRefusal → Type 0 };

    /// The bytes of the file of this name, which is the one that `$INCLUDE` has, its escapes read.
    fn open(&self, alloc: Global, file: &[u8]) -> Result<Vec<u8>, FileRefusal>
        ensures opened { IfOk result (λ content. opens self.now file.now content.items) }
        ensures refused { IfErr result (λ why. why ≢ NoMemory → refuses self.now file.now why) };
}

/// A directive that includes a file.
#[derive(Drop)]
struct Inclusion {
    /// The name of the file.
    file: Vec<u8>,
    /// The origin of what stands in it.
    origin: Name,
    /// How many bytes of the including file stand before the field with its name.
    at: usize,
    /// Where the directive ends.
    end: usize,
}

/// The bytes that a field spells.
fn spelled(alloc: Global, word: &Word<'_>) -> Result<Vec<u8>, EntryError>
    ensures spelled { IfOk result (λ bytes. Spells any_byte word.now.bytes.now bytes.items) }
    ensures refused { IfErr result (λ e. e ≢ Memory → SpellsNoBytes word.now) }
{
    let mut bytes = Vec::new(alloc);
    put_spelled(word, &mut bytes)?;
    Ok(bytes)
}

/// The name of a file, the origin of what stands in it, and the place of the name, of the fields behind `$INCLUDE`.
/// `end` is the place behind them.
fn named_file(
    alloc: Global,
    behind: &[Word<'_>],
    end: usize,
    before: &Before,
) -> Result<(Vec<u8>, Name, usize), EntryError>
    ensures named { IfOk result (λ found. IsNamedFile before.now behind.now found.0.items found.1) }
    ensures refused { IfErr result (λ e. e ≢ Memory → (file : List ℕ) →
        HasNone (IsNamedFile before.now behind.now file)) }
{
    match behind {
        [] => Err(EntryError::from(fault_at(end, TextFault::MissingField))),
        [word] => Ok((spelled(alloc, word)?, before.origin.clone()?, word.start)),
        [word, name] => {
            let file = spelled(alloc, word)?;
            let origin = absolute_name(alloc, name, Some(&before.origin))?;
            Ok((file, origin, word.start))
        }
        [_, _, more, ..] => Err(EntryError::from(more.fault(TextFault::TooMuchText))),
    }
}

/// Whether a field is `$INCLUDE`, letter case aside.
fn is_include(word: &Word<'_>) -> bool
    ensures { IsTrue result ↔ IsKeyword (codes "$INCLUDE") word.now }
{
    if word.quoted {
        return false;
    }
    word.bytes.eq_ignore_ascii_case(b"$INCLUDE")
}

/// What fields include, where they are a directive that includes a file: what [`named_file`] tells.
fn include_of(
    alloc: Global,
    words: &[Word<'_>],
    end: usize,
    before: &Before,
) -> Result<Option<(Vec<u8>, Name, usize)>, EntryError>
    ensures included { IfOk result
        (λ found. IfSome found (λ found. IsInclude before.now words.now found.0.items found.1)) }
    ensures other { IfOk result (λ found.
        IfNone found ((file : List ℕ) → HasNone (IsInclude before.now words.now file))) }
    ensures refused { IfErr result (λ e. e ≢ Memory → (file : List ℕ) → HasNone (IsInclude before.now words.now file)) }
{
    let Some((directive, behind)) = words.split_first() else {
        return Ok(None);
    };
    if !is_include(directive) {
        return Ok(None);
    }
    let found = named_file(alloc, behind, end, before)?;
    Ok(Some(found))
}

/// The directive that includes a file, from a place on where no entry stands, for this reason, which is no want of
/// memory.
fn include_there(
    alloc: Global,
    text: &[u8],
    place: usize,
    before: &Before,
    refused: EntryError,
) -> Result<Inclusion, EntryError>
    requires within { place < length text.now }
    requires wrong { refused ≢ Memory }
    requires refused { IsEntryFault text.now place before.now refused }
    ensures on { IfOk result (λ found. place ≤ found.at) }
    ensures in_entry { IfOk result (λ found. found.at ≤ found.end) }
    ensures within { IfOk result (λ found. found.end ≤ length text.now) }
    ensures included { IfOk result
        (λ found. IsIncludeFrom text.now place before.now found.file.items found.origin found.end) }
    ensures fault { IfErr result (IsEntryFault text.now place before.now) }
    ensures none { IfErr result (λ e. e ≢ Memory → IncludesNone text.now place before.now) }
{
    // Words stand in a text in one way.
    words_stand_once();
    let mut words = Words::entry(text, place);
    let begins_blank = words.begins_blank();
    let fields = match words.rest(alloc) {
        Ok(fields) => fields,
        Err(TextError::Memory) => return Err(EntryError::Memory),
        Err(TextError::At { .. }) => return Err(refused),
    };
    if begins_blank {
        return Err(refused);
    }
    let end = words.place();
    match include_of(alloc, fields.as_slice(), end, before) {
        Ok(Some((file, origin, at))) => Ok(Inclusion {
            file,
            origin,
            at: at.max(place).min(end),
            end,
        }),
        Ok(None) => Err(refused),
        Err(e) => Err(e.within(place, end)),
    }
}

/// The directive that includes a file, from a place on where no entry stands, for this reason.
fn include_at(
    alloc: Global,
    text: &[u8],
    place: usize,
    before: &Before,
    refused: EntryError,
) -> Result<Inclusion, EntryError>
    requires within { place < length text.now }
    requires refused { IsEntryFault text.now place before.now refused }
    ensures on { IfOk result (λ found. place ≤ found.at) }
    ensures in_entry { IfOk result (λ found. found.at ≤ found.end) }
    ensures within { IfOk result (λ found. found.end ≤ length text.now) }
    ensures included { IfOk result
        (λ found. IsIncludeFrom text.now place before.now found.file.items found.origin found.end) }
    ensures fault { IfErr result (IsEntryFault text.now place before.now) }
    ensures none { IfErr result (λ e. e ≢ Memory → IncludesNone text.now place before.now) }
{
    match refused {
        EntryError::Memory => Err(EntryError::Memory),
        EntryError::At { .. } => include_there(alloc, text, place, before, refused),
    }
}

/// Want of memory.
fn no_memory(alloc: Global) -> IncludedError
    ensures { result.error ≡ told.Memory }
{
    IncludedError {
        file: Octets::from_vec(Vec::new(alloc)),
        error: ZoneFileError::Memory,
    }
}

/// A fault of the file of this name that has this text.
fn told_in(alloc: Global, name: &[u8], text: &[u8], e: EntryError) -> IncludedError
    requires { IsWithin 0 (length text.now) e }
    ensures { (result.error ≡ told.Memory) ⊎ ((result.file ≡ name.now) × IsToldOf text.now e result.error) }
{
    match Octets::from_slice(alloc, name) {
        Ok(file) => IncludedError {
            file,
            error: e.in_file(text),
        },
        Err(_) => no_memory(alloc),
    }
}

/// A fault at a place of the file of this name that has this text.
fn told_at(
    alloc: Global,
    name: &[u8],
    text: &[u8],
    place: usize,
    fault: ZoneFileFault,
) -> IncludedError
    requires { place ≤ length text.now }
    ensures { (result.error ≡ told.Memory) ⊎
        ((result.file ≡ name.now) × IsToldOf text.now (At place fault) result.error) }
{
    told_in(alloc, name, text, EntryError::At { place, fault })
}

/// That a file is refused which is included at a place of the file of this name that has this text, or want of memory.
fn refused_at(
    alloc: Global,
    name: &[u8],
    text: &[u8],
    place: usize,
    why: FileRefusal,
) -> IncludedError
    requires { place ≤ length text.now }
    ensures { (result.error ≡ told.Memory) ⊎
        ((why ≢ NoMemory) × (result.file ≡ name.now) × IsToldOf text.now (At place (FileRefused why)) result.error) }
{
    match why {
        FileRefusal::Memory => no_memory(alloc),
        _ => told_at(alloc, name, text, place, ZoneFileFault::FileRefused(why)),
    }
}

/// Takes a file that is included, and tells where the directive ends.
#[cycle(included)]
fn take_file<O: FileOpener>(
    alloc: Global,
    files: &O,
    levels: u8,
    name: &[u8],
    text: &[u8],
    place: usize,
    found: Inclusion,
    before: &mut Before,
) -> Result<usize, IncludedError>
    requires within { place < length text.now }
    requires on { place ≤ found.at }
    requires in_entry { found.at ≤ found.end }
    requires ends { found.end ≤ length text.now }
    requires included { IsIncludeFrom text.now place before.old found.file.items found.origin found.end }
    requires records { All IsZoneRecord before.old.records }
    ensures on { IfOk result (λ next. place < next) }
    ensures records { OnOk result (All IsZoneRecord before.new.records) }
    ensures taken { IfOk result (λ next. (first : ℕ) (start : BeforeOf) →
        AreIncluded (O.opens files.now) levels text.now first start place before.old →
        AreIncluded (O.opens files.now) levels text.now first start next before.new) }
    ensures fault { IfErr result (λ e. (start : BeforeOf) →
        IsFrontWithFiles (O.opens files.now) levels text.now start place before.old →
        IsFaultWithFiles (O.opens files.now) (O.refuses files.now) levels name.now text.now start e.file e.error) }
{
    let Inclusion {
        file,
        origin,
        at,
        end,
    } = found;
    let Some(left) = levels.checked_sub(1) else {
        return Err(told_at(alloc, name, text, at, ZoneFileFault::TooManyFiles));
    };
    let content = match files.open(alloc, file.as_slice()) {
        Ok(content) => content,
        Err(why) => return Err(refused_at(alloc, name, text, at, why)),
    };
    let owned = before.owned;
    let outer = mem::replace(&mut before.origin, origin);
    read_text(
        alloc,
        files,
        left,
        file.as_slice(),
        content.as_slice(),
        before,
    )?;
    before.origin = outer;
    before.owned = owned;
    Ok(end + 1)
}

/// Takes the entry or the included file at a place of a text, and tells where the next one begins.
#[cycle(included)]
fn take_next<O: FileOpener>(
    alloc: Global,
    files: &O,
    levels: u8,
    name: &[u8],
    text: &[u8],
    place: usize,
    before: &mut Before,
) -> Result<usize, IncludedError>
    requires within { place < length text.now }
    requires records { All IsZoneRecord before.old.records }
    ensures on { IfOk result (λ next. place < next) }
    ensures records { OnOk result (All IsZoneRecord before.new.records) }
    ensures taken { IfOk result (λ next. (first : ℕ) (start : BeforeOf) →
        AreIncluded (O.opens files.now) levels text.now first start place before.old →
        AreIncluded (O.opens files.now) levels text.now first start next before.new) }
    ensures fault { IfErr result (λ e. (start : BeforeOf) →
        IsFrontWithFiles (O.opens files.now) levels text.now start place before.old →
        IsFaultWithFiles (O.opens files.now) (O.refuses files.now) levels name.now text.now start e.file e.error) }
{
    let refused = match entry_at(alloc, text, place, before) {
        Ok((entry, end)) => {
            return match before.take(alloc, entry) {
                Ok(()) => Ok(end + 1),
                Err(_) => Err(no_memory(alloc)),
            };
        }
        Err(refused) => refused,
    };
    match include_at(alloc, text, place, before, refused) {
        Ok(found) => take_file(alloc, files, levels, name, text, place, found, before),
        Err(e) => Err(told_in(alloc, name, text, e)),
    }
}

/// Takes all entries of a text and of the files that it includes, to so many levels. Where one is refused, nothing is
/// said of what is left.
#[cycle(included)]
fn read_text<O: FileOpener>(
    alloc: Global,
    files: &O,
    levels: u8,
    name: &[u8],
    text: &[u8],
    before: &mut Before,
) -> Result<(), IncludedError>
    requires { All IsZoneRecord before.old.records }
    ensures records { OnOk result (All IsZoneRecord before.new.records) }
    ensures taken { OnOk result ((end : ℕ) ×
        IsFrontWithFiles (O.opens files.now) levels text.now before.old end before.new × (length text.now ≤ end)) }
    ensures fault { IfErr result (λ e. IsFaultWithFiles (O.opens files.now) (O.refuses files.now) levels name.now
        text.now before.old e.file e.error) }
{
    let mut place = first_entry(text);
    'entries: while place < text.len() {
        place = take_next(alloc, files, levels, name, text, place, before)?;
    }
    Ok(())
}

/// Reads a zone file, as [`read_zone_bytes`](crate::read_zone_bytes) does, with the files that it includes (RFC 1035
/// section 5.1).
///
/// `$INCLUDE` has the name of a file behind it, in quotes or not, and may have the origin of what stands in the file,
/// which is the one in force where it has none. The file is read as if it stood there, but that the origin and the
/// owner name in force are those of before again behind it; its records, and the TTL of its last `$TTL`, stay. Files
/// are included in one another to ten levels, so one that includes itself is a fault.
///
/// The first fault ends it, with the name of the file that it stands in, line, column and field; the reason why a file
/// is not given is one, at the directive that includes it.
pub fn read_zone_with_files<O: FileOpener>(
    alloc: Global,
    text: &[u8],
    origin: &Name,
    files: &O,
) -> Result<Items<Record>, IncludedError>
    ensures file { IfOk result (IsZoneWithFiles (O.opens files.now) origin.now text.now) }
    ensures records { IfOk result (λ records. All IsZoneRecord records) }
    ensures fault { IfErr result (λ e. IsFaultWithFiles (O.opens files.now) (O.refuses files.now) 10 [] text.now
        (start_of origin.now) e.file e.error) }
{
    let Ok(origin) = origin.clone() else {
        return Err(no_memory(alloc));
    };
    let mut before = Before {
        origin,
        default_ttl: None,
        owned: 0,
        records: Items::new(alloc),
    };
    read_text(alloc, files, MOST_LEVELS, &[], text, &mut before)?;
    Ok(before.records)
}
