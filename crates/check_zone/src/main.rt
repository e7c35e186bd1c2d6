//! What is found of a zone file before it is served: `check_zone ORIGIN FILE [--previous FILE] [--at SECONDS] [--print]`
//! prints a line for each finding on the standard output; under `--print` there the records, each as a line, and the
//! findings on the standard error. `check_zone --version` prints its name and version, and `check_zone --help` how it is
//! started.
//!
//! The status is 0 where nothing is found, 1 where all that is found are warnings, 2 for wrong arguments, 3 without
//! memory, 4 where the output fails, and 5 where a fault is found or a file is not taken, which is told on the standard
//! error.
#![tactic(auto)]

ghost use Rattle.std.specs.Prelude.{◌≡◌, ◌%◌, ◌^◌, Err, IfOk};
ghost use Rattle.wire_names.specs.rr.domain.DomainName.{DomainName};
ghost use Rattle.check_zone.specs.Checking.{IsApexText};
ghost use Rattle.check_zone.specs.declared.fault.Fault.TheVariants as fault;

mod fault;
mod files;
mod lines;
mod places;

use crate::fault::Fault;
use crate::files::{FileFault, places_in, read_bytes, records_of};
use crate::lines::{Told, print_records, status_of, tell_findings};
use clap::error::ErrorKind;
use clap::{Arg, ArgAction, ArgMatches, Command, Error};
use std::alloc::{AllocError, Global};
use std::process::ExitCode;
use std::rt::{Clock, Env, Files};
use std::time::{SystemTime, UNIX_EPOCH};
use std::{env, io, str};
use wire_names::error::NameError;
use wire_names::rr::domain::name::Name;
use zone_check::{Finding, apex_serial, check};
use zone_text::{IncludedError, ZoneFileError, ZoneFileFault, zone_file_faults};

/// The version of this program.
const VERSION: &str = "0.1.0";

/// The arguments that the program takes.
// No clause: which words the program takes is `clap`'s to read.
fn command<'a>(alloc: Global) -> Result<Command<'a>, AllocError> {
    let origin = Arg::new(alloc, "ORIGIN").required(true).help(
        "the name of the zone's apex, with or without a dot at its end",
    );
    let file = Arg::new(alloc, "FILE").required(true).help("the zone file");
    let previous = Arg::new(alloc, "previous")
        .long("previous")
        .value_name("FILE")
        .help("the zone file that is served today, whose serial must be below");
    let at = Arg::new(alloc, "at").long("at").value_name("SECONDS").help(
        "the time at which signatures are to be valid, in seconds since 1970; else it is now",
    );
    let print = Arg::new(alloc, "print")
        .long("print")
        .action(ArgAction::SetTrue)
        .help("print each record as a line, and what is found on the standard error");
    Command::new(alloc, "check_zone")
        .version(VERSION)
        .about("Tells what is wrong with a zone before it is served")
        .arg(origin)?
        .arg(file)?
        .arg(previous)?
        .arg(at)?
        .arg(print)
}

/// The name of the apex, with or without a dot at its end; the root is a dot alone.
fn apex_of(alloc: Global, text: &str) -> Result<Name, Fault>
    ensures spelled { IfOk result (IsApexText text.now) }
    ensures refused { result ≡ Err fault.Origin → (apex : DomainName) → ¬ (IsApexText text.now apex) }
{
    if text == "." {
        return Ok(Name::root());
    }
    match Name::from_ascii(alloc, text) {
        Ok(mut name) => {
            name.set_fqdn(true);
            Ok(name)
        }
        Err(NameError::Text) => Err(Fault::Origin),
        Err(_) => Err(Fault::Memory),
    }
}

/// Tells why a file is not taken on the standard error, and gives the status.
fn tell_of_file<R: Eprint>(rt: &R, file: &str, fault: FileFault) -> u8 {
    let _ = eprintln!(rt; "check_zone: {file}: {fault}");
    fault.status()
}

/// Tells what is wrong in a file on the standard error, and gives the status.
fn tell_of_entry<R: Eprint>(rt: &R, file: &str, error: ZoneFileError) -> u8 {
    if error == ZoneFileError::Memory {
        return tell_of_file(rt, file, FileFault::Memory);
    }
    let _ = eprintln!(rt; "check_zone: {file}:{error}");
    5
}

/// Tells what is wrong in a file, or in one that it includes, on the standard error, and gives the status.
fn tell_of_included<R: Eprint>(rt: &R, file: &str, fault: &IncludedError) -> u8 {
    match str::from_utf8(fault.file.as_slice()) {
        Ok(name) if !name.is_empty() => tell_of_entry(rt, name, fault.error),
        _ => tell_of_entry(rt, file, fault.error),
    }
}

/// The serial of a zone file, or the status behind what is told of it on the standard error.
// No clause: no contract says which bytes a file has.
fn serial_of<R: Files + Eprint + Alloc<A = Global>>(
    rt: &R,
    origin: &Name,
    file: &str,
) -> Result<u32, u8> {
    let bytes = match read_bytes(rt, file) {
        Ok(bytes) => bytes,
        Err(fault) => return Err(tell_of_file(rt, file, fault)),
    };
    let records = match records_of(rt, origin, bytes.as_slice()) {
        Ok(records) => records,
        Err(fault) => return Err(tell_of_included(rt, file, &fault)),
    };
    match apex_serial(origin, records.as_slice()) {
        Some(serial) => Ok(serial),
        None => Err(tell_of_file(rt, file, FileFault::NoSerial)),
    }
}

/// Reports why the program ends on the standard error, and gives the status. A failure to report it changes nothing.
fn tell<R: Eprint>(rt: &R, fault: Fault) -> u8 {
    let _ = eprintln!(rt; "check_zone: {fault}");
    fault.status()
}

/// Reports the fault of the argument that has this text, and gives the status.
fn tell_of_argument<R: Eprint>(rt: &R, text: &str, fault: Fault) -> u8 {
    if fault.status() != 2 {
        return tell(rt, fault);
    }
    let _ = eprintln!(rt; "check_zone: {text:?} is {fault}");
    2
}

/// Whether a fault is that a file is included.
// No clause: it decides only which faults are reported.
fn is_inclusion(error: &ZoneFileError) -> bool {
    matches!(
        error,
        ZoneFileError::At {
            fault: ZoneFileFault::IncludeNotTaken,
            ..
        }
    )
}

/// Tells the faults of a zone file on the standard error, up to ten, or of one that includes others the first one, and
/// gives the status.
fn tell_of_entries<R: Eprint + Alloc<A = Global>>(
    rt: &R,
    origin: &Name,
    file: &str,
    bytes: &[u8],
    first: &IncludedError,
) -> u8 {
    let Ok(faults) = zone_file_faults(rt.alloc(), bytes, origin) else {
        return tell_of_file(rt, file, FileFault::Memory);
    };
    if faults.is_empty() || faults.iter().any(is_inclusion) {
        return tell_of_included(rt, file, first);
    }
    for fault in faults.as_slice() {
        let _ = tell_of_entry(rt, file, *fault);
    }
    5
}

/// Prints what is found, behind the records where these are wanted.
fn print_lines<R: Print + Eprint + Alloc<A = Global>>(
    rt: &R,
    told: &Told<'_>,
    findings: &[Finding],
    with_records: bool,
) -> Result<(), Fault> {
    if with_records {
        print_records(rt, told.records)?;
    }
    tell_findings(rt, told, findings, with_records)
}

/// Prints what is found of a zone file, behind its records where these are wanted, and gives the status.
fn print_findings<R: Files + Print + Eprint + Alloc<A = Global>>(
    rt: &R,
    origin: &Name,
    file: &str,
    previous: Option<u32>,
    time: Option<u32>,
    with_records: bool,
) -> u8 {
    let bytes = match read_bytes(rt, file) {
        Ok(bytes) => bytes,
        Err(fault) => return tell_of_file(rt, file, fault),
    };
    let records = match records_of(rt, origin, bytes.as_slice()) {
        Ok(records) => records,
        Err(fault) => return tell_of_entries(rt, origin, file, bytes.as_slice(), &fault),
    };
    let Ok(findings) = check(rt.alloc(), origin, records.as_slice(), previous, time) else {
        return tell(rt, Fault::Memory);
    };
    let Ok(places) = places_in(rt, bytes.as_slice()) else {
        return tell(rt, Fault::Memory);
    };
    let told = Told {
        file,
        origin,
        records: records.as_slice(),
        places: &places,
    };
    match print_lines(rt, &told, findings.as_slice(), with_records) {
        Ok(()) => status_of(findings.as_slice()),
        Err(fault) => tell(rt, fault),
    }
}

/// A time in seconds since 1970 as signatures have it, modulo 2^32.
fn time_of(seconds: u64) -> u32
    ensures { result ≡ seconds % 2 ^ 32 }
{
    (seconds % 0x1_0000_0000) as u32
}

/// The time of the clock, if it can be read.
// No clause: no contract says what a clock reads.
fn now<R: Clock>(rt: &R) -> Option<u32> {
    let Ok(time) = SystemTime::now(rt) else {
        return None;
    };
    match time.duration_since(UNIX_EPOCH) {
        Ok(passed) => Some(time_of(passed.as_secs())),
        Err(_) => None,
    }
}

/// The time at which signatures are to be valid, or the status after the fault of its argument is reported.
// No clause: no contract says which words are given.
fn given_time<R: Clock + Eprint>(rt: &R, matches: &ArgMatches<'_>) -> Result<Option<u32>, u8> {
    let Some(text) = matches.get_str("at") else {
        return Ok(now(rt));
    };
    match text.parse::<u64>() {
        Ok(seconds) => Ok(Some(time_of(seconds))),
        Err(_) => Err(tell_of_argument(rt, text, Fault::Time)),
    }
}

/// Runs the program with these words, and gives its status.
fn run_matches<R: Clock + Files + Print + Eprint + Alloc<A = Global>>(
    rt: &R,
    matches: &ArgMatches<'_>,
) -> u8 {
    let (Some(text), Some(file)) = (matches.get_str("ORIGIN"), matches.get_str("FILE")) else {
        return tell(rt, Fault::Arguments);
    };
    let origin = match apex_of(rt.alloc(), text) {
        Ok(origin) => origin,
        Err(fault) => return tell_of_argument(rt, text, fault),
    };
    let time = match given_time(rt, matches) {
        Ok(time) => time,
        Err(status) => return status,
    };
    let with_records = matches.get_flag("print");
    let Some(previous) = matches.get_str("previous") else {
        return print_findings(rt, &origin, file, None, time, with_records);
    };
    match serial_of(rt, &origin, previous) {
        Ok(serial) => print_findings(rt, &origin, file, Some(serial), time, with_records),
        Err(status) => status,
    }
}

/// Reports what is wrong with the arguments, as one line: the lines of this text before its first empty line.
fn tell_of_arguments<R: Eprint>(rt: &R, text: &str) -> u8 {
    let _ = eprint!(rt; "check_zone:");
    for line in text.strip_prefix("error: ").unwrap_or(text).lines() {
        if line.is_empty() {
            break;
        }
        let _ = eprint!(rt; " {}", line.trim());
    }
    let _ = eprintln!(rt; "");
    2
}

/// Prints the help or the version that the arguments ask for, or what is wrong with them, and gives the status.
fn print_of_arguments<R: Print + Eprint + Alloc<A = Global>>(rt: &R, error: &Error) -> u8 {
    if matches!(error.kind(), ErrorKind::OutOfMemory) {
        return tell(rt, Fault::Memory);
    }
    if error.exit_code() != 0 {
        return match format!(in rt.alloc(); "{error}") {
            Ok(text) => tell_of_arguments(rt, &text),
            Err(_) => tell(rt, Fault::Memory),
        };
    }
    match error.print(rt) {
        Ok(()) => 0,
        Err(_) => tell(rt, Fault::Write),
    }
}

/// The words behind which the program stands, its own name first.
// No clause: no contract says which arguments the system gives.
fn given_words<R: Env + Alloc<A = Global>>(rt: &R) -> Result<Vec<String>, Fault> {
    match env::args(rt) {
        Ok(words) => Ok(words.collect(rt.alloc())?),
        Err(e) => match e.kind() {
            io::ErrorKind::OutOfMemory => Err(Fault::Memory),
            _ => Err(Fault::Arguments),
        },
    }
}

/// Runs the program, and gives its status.
fn run<R: Clock + Files + Env + Print + Eprint + Alloc<A = Global>>(rt: &R) -> u8 {
    let words = match given_words(rt) {
        Ok(words) => words,
        Err(fault) => return tell(rt, fault),
    };
    let Ok(command) = command(rt.alloc()) else {
        return tell(rt, Fault::Memory);
    };
    match command.try_get_matches_from(words.as_slice()) {
        Ok(matches) => run_matches(rt, &matches),
        Err(error) => print_of_arguments(rt, &error),
    }
}

fn main(rt: HostRuntime) -> ExitCode {
    ExitCode::from(run(&rt))
}
