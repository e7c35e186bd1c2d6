//! Zone files (RFC 1035 section 5.1).

mod entry;
mod expand;
mod fault;
pub(crate) mod fault_word;
pub(crate) mod faults;
mod generate;
pub(crate) mod include;
mod number_form;
mod number_range;

ghost use Rattle.std.specs.Prelude.{◌≡◌, ◌≤◌, ◌<◌, length, All, IfErr, IfOk};
ghost use Rattle.zone_text.specs.ZoneFaults.{IsEntryFault, IsFileFault, IsFirstFault};
ghost use Rattle.zone_text.specs.ZoneFiles.{IsEntryFrom, IsZoneFile, IsZoneRecord, first_entry};

use crate::error::ZoneFileError;
use crate::zone_file::entry::{Before, Entry, read_entry};
use crate::zone_file::fault::EntryError;
use hickory_wire::{Items, Name, Record};
use std::alloc::Global;
use text_words::Words;

/// Where the first entry begins: behind a byte order mark, if there is one (RFC 3629 section 6).
pub(crate) fn first_entry(text: &[u8]) -> usize
    ensures within { result ≤ length text.now }
    ensures mark { result ≡ first_entry text.now }
{
    match text {
        [0xEF, 0xBB, 0xBF, ..] => 3,
        _ => 0,
    }
}

/// The entry that begins at a place, and where it ends.
pub(crate) fn entry_at(
    alloc: Global,
    text: &[u8],
    place: usize,
    before: &Before,
) -> Result<(Entry, usize), EntryError>
    requires within { place < length text.now }
    requires records { All IsZoneRecord before.now.records }
    ensures on { IfOk result (λ read. place ≤ read.1) }
    ensures within { IfOk result (λ read. read.1 ≤ length text.now) }
    ensures entry { IfOk result (λ read. IsEntryFrom text.now place before.now read.0 read.1) }
    ensures fault { IfErr result (IsEntryFault text.now place before.now) }
{
    let mut words = Words::entry(text, place);
    let begins_blank = words.begins_blank();
    let fields = match words.rest(alloc) {
        Ok(fields) => fields,
        Err(e) => return Err(EntryError::from(e).within(place, text.len())),
    };
    let end = words.place();
    match read_entry(alloc, begins_blank, fields.as_slice(), end, before) {
        Ok(entry) => Ok((entry, end)),
        Err(e) => Err(e.within(place, end)),
    }
}

/// Reads the entries one after the other.
fn read_entries(alloc: Global, text: &[u8], origin: &Name) -> Result<Items<Record>, EntryError>
    ensures file { IfOk result (IsZoneFile origin.now text.now) }
    ensures records { IfOk result (λ records. All IsZoneRecord records) }
    ensures fault { IfErr result (IsFileFault origin.now text.now) }
{
    let mut before = Before {
        origin: origin.clone()?,
        default_ttl: None,
        owned: 0,
        records: Items::new(alloc),
    };
    let mut place = first_entry(text);
    'entries: while place < text.len() {
        let (entry, end) = entry_at(alloc, text, place, &before)?;
        before.take(alloc, entry)?;
        place = end + 1;
    }
    Ok(before.records)
}

/// Reads a zone file (RFC 1035 section 5.1): its records in their order. It is bytes in any encoding, of which those of
/// ASCII have a meaning.
///
/// An entry is a line; parentheses join lines, a comment goes from `;` to the end of its line, and quotes may hold any
/// of these. It is blank, or `$ORIGIN` and a name, or `$TTL` and a TTL (RFC 2308 section 4), or `$GENERATE` with a
/// range of at most 65,536 numbers and what stands for the record of each (BIND 9 Administrator Reference Manual), or a
/// record: owner name, TTL, class, type and data. A line that begins with a blank has the owner name of the record
/// before, those of `$GENERATE` aside. TTL and class stand in either order, and either may be left out; the class is
/// IN. A record without a TTL has that of the last `$TTL`, else that of the record before; an SOA record that has
/// neither has its own minimum. A TTL is a number of seconds, or numbers with a unit behind each, one of `s`, `m`, `h`,
/// `d` and `w` in either letter case. Names, in the data too, that have no dot at their end are relative to the origin,
/// at first the one that is given, which is taken as fully qualified; `@` is the origin itself. What data are made of
/// is told at [`read_data`](crate::read_data).
///
/// # Errors
///
/// The first fault ends it, with its line and column, which are those of a place of the first entry that is refused,
/// and the field; `$INCLUDE` is one. Nothing is asked of the records together: that they make one zone, at the origin
/// or below it, is for those who use them.
pub fn read_zone_bytes(
    alloc: Global,
    text: &[u8],
    origin: &Name,
) -> Result<Items<Record>, ZoneFileError>
    ensures file { IfOk result (IsZoneFile origin.now text.now) }
    ensures records { IfOk result (λ records. All IsZoneRecord records) }
    ensures fault { IfErr result (IsFirstFault origin.now text.now) }
{
    match read_entries(alloc, text, origin) {
        Ok(records) => Ok(records),
        Err(e) => Err(e.in_file(text)),
    }
}

/// Reads a zone file that is text in UTF-8, as [`read_zone_bytes`] does, with the same errors.
pub fn read_zone_file(
    alloc: Global,
    text: &str,
    origin: &Name,
) -> Result<Items<Record>, ZoneFileError>
    ensures file { IfOk result (IsZoneFile origin.now text.now) }
    ensures records { IfOk result (λ records. All IsZoneRecord records) }
    ensures fault { IfErr result (IsFirstFault origin.now text.now) }
{
    read_zone_bytes(alloc, text.as_bytes(), origin)
}
