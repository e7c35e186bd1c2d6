//! What the entries of a journal are, as objects of JSON (RFC 8259), one in a line.
//!
//! No clauses: the text is only printed.

use crate::fault::Fault;
use crate::serials::Serials;
use hickory_base::server::Request;
use hickory_base::update_request::UpdateRequest;
use hickory_wire::{LowerName, Record, TSIG};
use journal_entries::{Entry, zone_of};
use std::alloc::{AllocError, Global};

/// Text as a string of JSON. Names and data are printed in ASCII without control characters, so that quotes and
/// backslashes alone stand behind a backslash.
fn quoted(alloc: Global, text: &str) -> Result<String, AllocError> {
    let mut string = String::new(alloc);
    string.push('"')?;
    for c in text.chars() {
        if c == '"' || c == '\\' {
            string.push('\\')?;
        }
        string.push(c)?;
    }
    string.push('"')?;
    Ok(string)
}

/// A record as a string of JSON.
fn quoted_record(alloc: Global, record: &Record) -> Result<String, AllocError> {
    let text = format!(in alloc; "{record}")?;
    quoted(alloc, &text)
}

/// Records as an array of JSON.
fn array(alloc: Global, records: &[Record]) -> Result<String, AllocError> {
    let mut string = String::new(alloc);
    string.push('[')?;
    for record in records {
        if string.len() > 1 {
            string.push_str(", ")?;
        }
        string.push_str(&quoted_record(alloc, record)?)?;
    }
    string.push(']')?;
    Ok(string)
}

/// The members of an object that say by which key a request was signed and when, in seconds since 1970, each behind a
/// comma; none where it was not.
fn signature_members(
    alloc: Global,
    signature: Option<&Record<TSIG>>,
) -> Result<String, AllocError> {
    let Some(signature) = signature else {
        return Ok(String::new(alloc));
    };
    let name = format!(in alloc; "{}", signature.name)?;
    let name = quoted(alloc, &name)?;
    format!(in alloc; ", \"key\": {name}, \"signed\": {}", signature.rdata.time)
}

/// The members of an object that say which serials there are before an update and behind it, each behind a comma; none
/// where they are not known.
fn serial_members(alloc: Global, serials: Option<Serials>) -> Result<String, AllocError> {
    let Some(Serials { before, behind }) = serials else {
        return Ok(String::new(alloc));
    };
    format!(in alloc; ", \"serial_before\": {before}, \"serial\": {behind}")
}

/// The members of an object that say what a request asks for.
fn update_members(
    alloc: Global,
    request: &Request,
    zone: &LowerName,
    serials: Option<Serials>,
) -> Result<String, AllocError> {
    let zone = format!(in alloc; "{zone}")?;
    let zone = quoted(alloc, &zone)?;
    let signature = signature_members(alloc, request.message().signature())?;
    let serials = serial_members(alloc, serials)?;
    let records = array(alloc, request.message().updates())?;
    format!(in alloc;
        "\"kind\": \"update\", \"zone\": {zone}{signature}{serials}, \"records\": {records}"
    )
}

/// The members of an object that say what an entry is.
fn members(alloc: Global, entry: &Entry, serials: Option<Serials>) -> Result<String, AllocError> {
    match (entry, zone_of(entry)) {
        (Entry::Update(request), Some(zone)) => update_members(alloc, request, zone, serials),
        (Entry::Generation(generation), _) => {
            format!(in alloc; "\"kind\": \"generation\", \"generation\": {generation}")
        }
        (Entry::Said(record), _) => {
            let record = quoted_record(alloc, record)?;
            format!(in alloc; "\"kind\": \"snapshot\", \"record\": {record}")
        }
        (Entry::SnapshotEnd, _) => format!(in alloc; "\"kind\": \"end of the snapshot\""),
        _ => format!(in alloc; "\"kind\": \"no update\""),
    }
}

/// Prints an entry by its number, from 1 on, its place and its length, an update with the serials if they are known, as
/// an object.
pub fn print_object<R: Print + Alloc<A = Global>>(
    rt: &R,
    number: usize,
    place: usize,
    len: usize,
    entry: &Entry,
    serials: Option<Serials>,
) -> Result<(), Fault> {
    let members = members(rt.alloc(), entry, serials)?;
    let told = println!(rt;
        "{{\"entry\": {number}, \"place\": {place}, \"bytes\": {len}, {members}}}"
    );
    told.map_err(|_| Fault::Write)
}
