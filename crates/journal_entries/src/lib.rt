//! What the entries of a journal of updates are, by where they stand, and which of them may not stand in the journal of
//! a zone.
#![tactic(auto)]

use durable_updates::{RedoError, read_entry, read_record};
use hickory_base::server::Request;
use hickory_base::update_request::UpdateRequest;
use hickory_wire::{LowerName, OpCode, Record};
use std::alloc::{AllocError, Global};
use std::fmt;

/// What an entry is.
#[derive(Drop)]
pub enum Entry {
    /// The generation of the file.
    Generation(u64),
    /// A record of the snapshot.
    Said(Record),
    /// The end of the snapshot.
    SnapshotEnd,
    /// A request for an update (RFC 2136).
    Update(Request),
    /// Neither of these.
    Other,
}

/// Whether a request asks for an update of one zone.
fn is_update(request: &Request) -> bool {
    request.metadata().op_code == OpCode::UPDATE && request.message().zone().is_ok()
}

/// What an entry is that is none of a snapshot.
fn request_of(alloc: Global, bytes: &[u8]) -> Result<Entry, AllocError> {
    match read_entry(alloc, bytes) {
        Ok(request) if is_update(&request) => Ok(Entry::Update(request)),
        Ok(_) => Ok(Entry::Other),
        Err(RedoError::Damaged) => Ok(Entry::Other),
        Err(RedoError::Memory) => Err(AllocError),
    }
}

/// What an entry of a snapshot is.
fn said_by(alloc: Global, bytes: &[u8]) -> Result<Entry, AllocError> {
    if bytes.is_empty() {
        return Ok(Entry::SnapshotEnd);
    }
    match read_record(alloc, bytes) {
        Ok(r) => Ok(Entry::Said(r)),
        Err(RedoError::Damaged) => Ok(Entry::Other),
        Err(RedoError::Memory) => Err(AllocError),
    }
}

/// Where in a file an entry stands.
#[derive(Clone, Copy, Debug, PartialEq, Eq)]
pub enum Part {
    /// It is the first one, which may be the generation of the file.
    First,
    /// It is one of the snapshot, which is behind the generation.
    Snapshot,
    /// It is one behind that.
    Requests,
}

impl Part {
    /// Where the next entry stands, behind this one.
    pub fn behind(self, entry: &Entry) -> Part {
        match (self, entry) {
            (Part::First, Entry::Generation(_)) => Part::Snapshot,
            (Part::Snapshot, Entry::SnapshotEnd) => Part::Requests,
            (Part::Snapshot, _) => Part::Snapshot,
            _ => Part::Requests,
        }
    }
}

/// What an entry is, by where it stands.
pub fn entry_of(
    alloc: Global,
    bytes: &[u8],
    part: Part,
    generation: u64,
) -> Result<Entry, AllocError> {
    match part {
        Part::First if bytes.len() == 8 => Ok(Entry::Generation(generation)),
        Part::Snapshot => said_by(alloc, bytes),
        _ => request_of(alloc, bytes),
    }
}

/// The zone that an entry is of, if it is an update.
pub fn zone_of(entry: &Entry) -> Option<&LowerName> {
    let Entry::Update(request) = entry else {
        return None;
    };
    match request.message().zone() {
        Ok(question) => Some(question.name()),
        Err(_) => None,
    }
}

/// Where the next entry stands, behind one of so many bytes.
pub fn behind(place: usize, len: usize) -> usize {
    place.saturating_add(len).saturating_add(5)
}

/// Whether an entry may stand in the journal of a zone: an update is one of this zone.
pub fn may_stand(entry: &Entry, zone: Option<&LowerName>) -> bool {
    match entry {
        Entry::Generation(_) | Entry::Said(_) | Entry::SnapshotEnd => true,
        Entry::Update(_) => match (zone_of(entry), zone) {
            (Some(name), Some(zone)) => *name == *zone,
            _ => false,
        },
        Entry::Other => false,
    }
}

/// Which entry of a journal one is.
#[derive(Clone, Copy, Debug, PartialEq, Eq)]
pub struct EntryPlace {
    /// Its number; the first is 1.
    pub number: usize,
    /// The place of its gate in the file, in bytes.
    pub at: usize,
}

impl fmt::Display for EntryPlace {
    fn fmt<W: fmt::Write>(&self, f: &mut fmt::Formatter<W>) -> fmt::Result {
        write!(f, "entry {} at {}", self.number, self.at)
    }
}

/// Where the first entry stands that may not stand in the journal of this zone, if one does.
pub fn first_wrong(
    alloc: Global,
    entries: &[Vec<u8>],
    zone: &LowerName,
) -> Result<Option<EntryPlace>, AllocError> {
    let mut part = Part::First;
    let mut number = 1usize;
    let mut at = 0usize;
    for bytes in entries {
        let entry = entry_of(alloc, bytes, part, 0)?;
        if !may_stand(&entry, Some(zone)) {
            return Ok(Some(EntryPlace { number, at }));
        }
        at = behind(at, bytes.len());
        number = number.saturating_add(1);
        part = part.behind(&entry);
    }
    Ok(None)
}
