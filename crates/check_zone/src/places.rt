//! Where the records of a zone file stand, and those of the files that it includes.
//!
//! A file that was read is walked through once more, entry by entry: that each has so many records as are counted here
//! is known since it was read.
//!
//! No clauses: places are only printed.

ghost use Rattle.std.specs.Prelude.{◌≤◌, ◌<◌, IfOk, IfSome, length};

use std::alloc::{AllocError, Global};
use std::str;
use text_words::{TextError, Word, Words, number_of_digits, put_spelled};
use zone_text::{FileOpener, FileRefusal, MOST_LEVELS};

/// Where a record stands.
#[derive(Clone, Copy, Debug, PartialEq, Eq)]
pub struct Place {
    /// In which file: 0 is the first, and those that are included follow as they are read.
    pub file: usize,
    /// On which line its entry begins; the first is 1.
    pub line: usize,
    /// With which byte of the line its entry begins; the first is 1.
    pub column: usize,
}

/// Where records stand.
#[derive(Drop)]
pub struct Places {
    /// The names of the files that are included, as the directives have them.
    pub names: Vec<Vec<u8>>,
    /// The places of the records, in their order.
    pub records: Vec<Place>,
}

/// What an entry has.
#[derive(Clone, Copy)]
enum Has<'a> {
    /// So many records.
    Records(usize),
    /// The records of the file of this name.
    File(Word<'a>),
}

/// An entry.
#[derive(Clone, Copy)]
struct Entry<'a> {
    has: Has<'a>,
    // How many bytes of the text stand before its first field, and before its end.
    start: usize,
    end: usize,
}

/// How many numbers a range has, which is a first and a last one, and a step if there is one.
fn count_of(range: &str) -> Option<usize> {
    let (first, behind) = range.split_once('-')?;
    let (last, step) = match behind.split_once('/') {
        Some((last, step)) => (last, number_of_digits(step.as_bytes())?),
        None => (behind, 1),
    };
    let reach = number_of_digits(last.as_bytes())?.checked_sub(number_of_digits(
        first.as_bytes(),
    )?)?;
    Some((reach.checked_div(step)? as usize).saturating_add(1))
}

/// What an entry of these fields has.
fn met<'a>(fields: &[Word<'a>]) -> Has<'a> {
    let Some((first, behind)) = fields.split_first() else {
        return Has::Records(0);
    };
    if first.quoted || !first.bytes.starts_with(b"$") {
        return Has::Records(1);
    }
    let Some(word) = behind.first() else {
        return Has::Records(0);
    };
    if first.bytes.eq_ignore_ascii_case(b"$INCLUDE") {
        return Has::File(*word);
    }
    if first.bytes.eq_ignore_ascii_case(b"$GENERATE")
        && let Ok(range) = str::from_utf8(word.bytes)
        && let Some(count) = count_of(range)
    {
        return Has::Records(count);
    }
    Has::Records(0)
}

/// The entry at a place of a text, if one stands there.
fn entry_at<'a>(
    alloc: Global,
    text: &'a [u8],
    place: usize,
) -> Result<Option<Entry<'a>>, AllocError>
    requires { place < length text.now }
    ensures on { IfOk result (λ found. IfSome found (λ entry. place ≤ entry.end)) }
    ensures begins { IfOk result (λ found. IfSome found (λ entry. (place ≤ entry.start) × (entry.start ≤ entry.end))) }
    ensures within { IfOk result (λ found. IfSome found (λ entry. entry.end ≤ length text.now)) }
{
    let mut words = Words::entry(text, place);
    let fields = match words.rest(alloc) {
        Ok(fields) => fields,
        Err(TextError::Memory) => return Err(AllocError),
        Err(TextError::At { .. }) => return Ok(None),
    };
    let start = match fields.first() {
        Some(first) => first.start,
        None => place,
    };
    let end = words.place();
    Ok(Some(Entry {
        has: met(fields.as_slice()),
        start: start.max(place).min(end),
        end,
    }))
}

/// How many lines end in these bytes.
fn lines_in(bytes: &[u8]) -> usize {
    bytes.iter().filter(|byte| **byte == b'\n').count()
}

/// How many bytes stand behind the last line feed, or all.
fn behind_last_line(bytes: &[u8]) -> usize {
    match bytes.iter().rposition(|byte| *byte == b'\n') {
        Some(place) => bytes.len().saturating_sub(place.saturating_add(1)),
        None => bytes.len(),
    }
}

/// Puts the same place so many times behind others.
fn put(records: &mut Vec<Place>, place: Place, count: usize) -> Result<(), AllocError> {
    for _ in 0..count {
        records.push(place)?;
    }
    Ok(())
}

/// Walks through a file that is included, if it is given.
#[cycle(walking)]
fn walk_file<O: FileOpener>(
    alloc: Global,
    files: &O,
    levels: u8,
    name: &Word<'_>,
    places: &mut Places,
) -> Result<(), AllocError> {
    let Some(left) = levels.checked_sub(1) else {
        return Ok(());
    };
    let mut file = Vec::new(alloc);
    match put_spelled(name, &mut file) {
        Ok(()) => {}
        Err(TextError::Memory) => return Err(AllocError),
        Err(TextError::At { .. }) => return Ok(()),
    }
    let content = match files.open(alloc, file.as_slice()) {
        Ok(content) => content,
        Err(FileRefusal::Memory) => return Err(AllocError),
        Err(_) => return Ok(()),
    };
    places.names.push(file)?;
    let number = places.names.len();
    walk_text(alloc, files, left, number, content.as_slice(), places)
}

/// Walks through the text of a file, to so many levels of files that are included.
#[cycle(walking)]
fn walk_text<O: FileOpener>(
    alloc: Global,
    files: &O,
    levels: u8,
    file: usize,
    text: &[u8],
    places: &mut Places,
) -> Result<(), AllocError> {
    let mut place = if text.starts_with(b"\xEF\xBB\xBF") {
        3
    } else {
        0
    };
    let mut line = 1usize;
    'entries: while place < text.len() {
        let Some(entry) = entry_at(alloc, text, place)? else {
            return Ok(());
        };
        let front = &text[place..entry.start];
        let stands = Place {
            file,
            line: line.saturating_add(lines_in(front)),
            column: behind_last_line(front).saturating_add(1),
        };
        match entry.has {
            Has::Records(count) => put(&mut places.records, stands, count)?,
            Has::File(name) => walk_file(alloc, files, levels, &name, places)?,
        }
        line = line
            .saturating_add(lines_in(&text[place..entry.end]))
            .saturating_add(1);
        place = entry.end + 1;
    }
    Ok(())
}

/// Where the records of a zone file stand, and those of the files that it includes.
pub fn places_of<O: FileOpener>(
    alloc: Global,
    files: &O,
    text: &[u8],
) -> Result<Places, AllocError> {
    let mut places = Places {
        names: Vec::new(alloc),
        records: Vec::new(alloc),
    };
    walk_text(alloc, files, MOST_LEVELS, 0, text, &mut places)?;
    Ok(places)
}
