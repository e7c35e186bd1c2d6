//! What is found, and the records of a zone, as lines.

ghost use Rattle.std.specs.Prelude.{◌≡◌, ◌↔◌, ◌⊎◌, []};

use crate::fault::Fault;
use crate::places::{Place, Places};
use std::alloc::{AllocError, Global};
use std::str;
use text_print::put_record;
use wire_messages::rr::record::Record;
use wire_names::rr::domain::name::Name;
use zone_check::{Finding, Severity};

/// The word of how grave a finding is.
// No clause: the line is only printed.
fn word_of(severity: Severity) -> &'static str {
    match severity {
        Severity::Warning => "warning",
        Severity::Fault => "fault",
    }
}

/// What lines are told of: a zone file, the name of its zone, its records, and where these stand.
#[derive(Clone, Copy)]
pub struct Told<'a> {
    /// The name of the file.
    pub file: &'a str,
    /// The name of the apex.
    pub origin: &'a Name,
    /// The records.
    pub records: &'a [Record],
    /// Where they stand.
    pub places: &'a Places,
}

impl Told<'_> {
    /// The name of the file that a place is in. One that is no text is told by that of the first.
    // No clause: the line is only printed.
    fn name_at(&self, place: &Place) -> &str {
        let Some(number) = place.file.checked_sub(1) else {
            return self.file;
        };
        match self.places.names.get(number) {
            Some(name) => str::from_utf8(name.as_slice()).unwrap_or(self.file),
            None => self.file,
        }
    }

    /// Where a record stands, if that is known of all.
    // No clause: the line is only printed.
    fn place_of(&self, number: usize) -> Option<&Place> {
        if self.places.records.len() != self.records.len() {
            return None;
        }
        self.places.records.get(number)
    }
}

/// The line of a finding of a record, the one of this number, from 0 on, which is told by its place, its name and its
/// type.
// No clause: the line is only printed.
fn line_of_record(
    alloc: Global,
    told: &Told<'_>,
    number: usize,
    record: &Record,
    finding: Finding,
) -> Result<String, AllocError> {
    let word = word_of(finding.kind.severity());
    let name = &record.name;
    let record_type = record.rdata.record_type();
    let kind = finding.kind;
    match told.place_of(number) {
        Some(place) => format!(in alloc;
            "{}:{}:{}: {name} {record_type}: {word}: {kind}",
            told.name_at(place),
            place.line,
            place.column
        ),
        None => format!(in alloc;
            "{}: record {}: {name} {record_type}: {word}: {kind}",
            told.file,
            number.saturating_add(1)
        ),
    }
}

/// The line of a finding.
// No clause: the line is only printed.
fn line_of(alloc: Global, told: &Told<'_>, finding: Finding) -> Result<String, AllocError> {
    if let Some(number) = finding.place
        && let Some(record) = told.records.get(number)
    {
        return line_of_record(alloc, told, number, record, finding);
    }
    let word = word_of(finding.kind.severity());
    format!(in alloc; "{}: {}: {word}: {}", told.file, told.origin, finding.kind)
}

/// Prints a line for each finding, in their order: on the standard error where the records stand on the standard
/// output.
pub fn tell_findings<R: Print + Eprint + Alloc<A = Global>>(
    rt: &R,
    told: &Told<'_>,
    findings: &[Finding],
    with_records: bool,
) -> Result<(), Fault> {
    for finding in findings {
        let line = line_of(rt.alloc(), told, *finding)?;
        let printed = if with_records {
            eprintln!(rt; "{line}")
        } else {
            println!(rt; "{line}")
        };
        if printed.is_err() {
            return Err(Fault::Write);
        }
    }
    Ok(())
}

/// How many bytes of lines are gathered before they are printed.
const BLOCK_LEN: usize = 65_536;

/// Prints each record as a line of a zone file, in their order.
pub fn print_records<R: Print + Alloc<A = Global>>(
    rt: &R,
    records: &[Record],
) -> Result<(), Fault> {
    let mut lines = String::new(rt.alloc());
    for record in records {
        put_record(rt.alloc(), record, &mut lines)?;
        lines.push('\n')?;
        if lines.len() >= BLOCK_LEN {
            print_lines(rt, &lines)?;
            lines.clear();
        }
    }
    print_lines(rt, &lines)
}

/// Prints lines.
fn print_lines<R: Print>(rt: &R, lines: &String) -> Result<(), Fault> {
    match print!(rt; "{lines}") {
        Ok(()) => Ok(()),
        Err(_) => Err(Fault::Write),
    }
}

/// The status of what is found: 0 where that is nothing, 1 where all are warnings, 5 where one is a fault.
pub fn status_of(findings: &[Finding]) -> u8
    ensures none { (result ≡ 0) ↔ (findings.now ≡ []) }
    ensures some { (result ≡ 0) ⊎ ((result ≡ 1) ⊎ (result ≡ 5)) }
{
    let is_fault = |finding: &Finding| finding.kind.severity() == Severity::Fault;
    if findings.is_empty() {
        0
    } else if findings.iter().any(is_fault) {
        5
    } else {
        1
    }
}
