//! What stands in a journal of updates.
//!
//! `zone_journal list FILE` prints its entries with the records of their updates and the serials that these lead to,
//! with `--json` an object of JSON for each, `zone_journal check FILE` whether it is whole, and `zone_journal zone
//! ORIGIN FILE --zone-file ZONE` the records of the zone at its end, or at a serial behind `--serial`. These write no
//! file, and lock none. `zone_journal compact ORIGIN FILE --zone-file ZONE` locks FILE and FILE-wal, the two files of a
//! journal, and compacts it, and `zone_journal import ORIGIN FILE --zone-file ZONE` turns its zone into the one of
//! ZONE, as one update. `zone_journal --version` prints its name and version, and `zone_journal --help` how it is
//! started.
//!
//! The status is 0, 1 where bytes behind the entries count for nothing, 2 for wrong arguments, 3 without memory, 4
//! where the output fails, and 5 where the journal has a fault or a file is not taken, which is told on the standard
//! error.
#![tactic(auto)]

ghost use Rattle.std.specs.Prelude.{◌≡◌, Err, IfOk};
ghost use Rattle.journal.specs.JournalFile.{IsJournal};
ghost use Rattle.wire_names.specs.rr.domain.DomainName.{DomainName};
ghost use Rattle.zone_journal.specs.Zones.{IsApexText};
ghost use Rattle.zone_journal.specs.declared.fault.Fault.TheVariants as fault;

mod checks;
mod compaction;
mod entries;
mod fault;
mod importing;
mod json;
mod serials;
mod zone;
mod zone_file;

use crate::checks::{check_entries, print_ending, status_of};
use crate::compaction::compact;
use crate::entries::print_entry;
use crate::fault::{Fault, fault_of_file};
use crate::importing::{import_zone, print_imported};
use crate::json::print_object;
use crate::serials::{Followed, Serials};
use crate::zone::{empty_zone, print_zone, with_entries, zone_of_file};
use crate::zone_file::read_zone_of;
use clap::error::ErrorKind;
use clap::{Arg, ArgAction, ArgMatches, Command, Error};
use hickory_server::store::file::ZoneError;
use hickory_wire::{Name, NameError};
use journal::{ending_at, generation, is_journal, read_entries};
use journal_entries::{Entry, Part, behind, entry_of};
use std::alloc::{AllocError, Global};
use std::process::ExitCode;
use std::rt::{Env, Files};
use std::{env, fs, io};

/// The version of this program.
const VERSION: &str = "0.1.0";

/// The argument that names the journal.
// No clause: which words the program takes is `clap`'s to read.
fn journal_argument<'a>(alloc: Global) -> Arg<'a> {
    Arg::new(alloc, "FILE").required(true).help("the journal")
}

/// The argument that names the apex.
// No clause: which words the program takes is `clap`'s to read.
fn origin_argument<'a>(alloc: Global) -> Arg<'a> {
    Arg::new(alloc, "ORIGIN").required(true).help(
        "the name of the zone's apex, with or without a dot at its end",
    )
}

/// The argument that names the zone file.
// No clause: which words the program takes is `clap`'s to read.
fn zone_file_argument<'a>(alloc: Global) -> Arg<'a> {
    Arg::new(alloc, "zone-file")
        .long("zone-file")
        .value_name("ZONE")
        .required(true)
        .help("the zone file of before the first entry")
}

/// The command that prints the entries.
// No clause: which words the program takes is `clap`'s to read.
fn list_command<'a>(alloc: Global) -> Result<Command<'a>, AllocError> {
    let json = Arg::new(alloc, "json")
        .long("json")
        .action(ArgAction::SetTrue)
        .help("an object of JSON for each entry");
    Command::new(alloc, "list")
        .about("Prints its entries")
        .arg(journal_argument(alloc))?
        .arg(json)
}

/// The command that prints the zone.
// No clause: which words the program takes is `clap`'s to read.
fn zone_command<'a>(alloc: Global) -> Result<Command<'a>, AllocError> {
    let serial = Arg::new(alloc, "serial")
        .long("serial")
        .value_name("N")
        .help("where it first has this serial, in the place of its end");
    Command::new(alloc, "zone")
        .about("Prints the records of the zone at its end")
        .arg(origin_argument(alloc))?
        .arg(journal_argument(alloc))?
        .arg(zone_file_argument(alloc))?
        .arg(serial)
}

/// The command that compacts.
// No clause: which words the program takes is `clap`'s to read.
fn compact_command<'a>(alloc: Global) -> Result<Command<'a>, AllocError> {
    Command::new(alloc, "compact")
        .about("Compacts it, in FILE and FILE-wal by turns")
        .arg(origin_argument(alloc))?
        .arg(journal_argument(alloc))?
        .arg(zone_file_argument(alloc))
}

/// The command that imports a zone file.
// No clause: which words the program takes is `clap`'s to read.
fn import_command<'a>(alloc: Global) -> Result<Command<'a>, AllocError> {
    let zone_file = Arg::new(alloc, "zone-file")
        .long("zone-file")
        .value_name("ZONE")
        .required(true)
        .help("the zone file that the zone is to be as");
    let next_serial = Arg::new(alloc, "next-serial")
        .long("next-serial")
        .action(ArgAction::SetTrue)
        .help("the next serial of the zone, in the place of the file's");
    Command::new(alloc, "import")
        .about("Turns its zone into the one of a zone file, as one update")
        .arg(origin_argument(alloc))?
        .arg(journal_argument(alloc))?
        .arg(zone_file)?
        .arg(next_serial)
}

/// The arguments that the program takes.
// No clause: which words the program takes is `clap`'s to read.
fn command<'a>(alloc: Global) -> Result<Command<'a>, AllocError> {
    let check = Command::new(alloc, "check")
        .about("Tells whether it is whole")
        .arg(journal_argument(alloc))?;
    Command::new(alloc, "zone_journal")
        .version(VERSION)
        .about("Tells what stands in a journal of updates")
        .subcommand_required(true)
        .subcommand(list_command(alloc)?)?
        .subcommand(check)?
        .subcommand(zone_command(alloc)?)?
        .subcommand(compact_command(alloc)?)?
        .subcommand(import_command(alloc)?)
}

/// The name of the apex, with or without a dot at its end; the root is a dot alone.
fn apex_of(alloc: Global, text: &str) -> Result<Name, Fault>
    ensures spelled { IfOk result (IsApexText text.now) }
    ensures refused { result ≡ Err fault.Origin → (apex : DomainName) → ¬ (IsApexText text.now apex) }
{
    if text == "." {
        return Ok(Name::root());
    }
    match Name::from_ascii(alloc, text) {
        Ok(mut name) => {
            name.set_fqdn(true);
            Ok(name)
        }
        Err(NameError::Text) => Err(Fault::Origin),
        Err(_) => Err(Fault::Memory),
    }
}

/// Reports why the program ends on the standard error, and gives the status. A failure to report it changes nothing.
fn tell<R: Eprint>(rt: &R, fault: Fault) -> u8 {
    let _ = eprintln!(rt; "zone_journal: {fault}");
    fault.status()
}

/// Reports the fault of the name of an apex, which has this text, and gives the status.
fn tell_of_origin<R: Eprint>(rt: &R, text: &str, fault: Fault) -> u8 {
    if fault != Fault::Origin {
        return tell(rt, fault);
    }
    let _ = eprintln!(rt; "zone_journal: {text:?} is {fault}");
    fault.status()
}

/// Whether the message of a fault of a file begins with its line.
// No clause: it decides only how a fault is reported.
fn has_line(fault: Fault) -> bool {
    match fault {
        Fault::Zone(error) => matches!(error, ZoneError::Text(_)),
        _ => false,
    }
}

/// Reports the fault of a file on the standard error, and gives the status. A fault that is not of the file is reported
/// without its name.
fn tell_of_file<R: Eprint>(rt: &R, file: &str, fault: Fault) -> u8 {
    if fault.status() != 5 {
        return tell(rt, fault);
    }
    let _ = if has_line(fault) {
        eprintln!(rt; "zone_journal: {file}:{fault}")
    } else {
        eprintln!(rt; "zone_journal: {file}: {fault}")
    };
    fault.status()
}

/// The bytes of a file.
// No clause: no contract says which bytes a file has.
fn bytes_of<R: Files + Alloc<A = Global>>(rt: &R, file: &str) -> Result<Vec<u8>, Fault> {
    match fs::read(rt, file) {
        Ok(bytes) => Ok(bytes),
        Err(e) => Err(fault_of_file(&e)),
    }
}

/// The bytes of a file of a journal.
fn journal_of<R: Files + Alloc<A = Global>>(rt: &R, file: &str) -> Result<Vec<u8>, Fault>
    ensures { IfOk result (λ bytes. IsJournal bytes.items) }
{
    let bytes = bytes_of(rt, file)?;
    if is_journal(bytes.as_slice()) {
        Ok(bytes)
    } else {
        Err(Fault::NotAJournal)
    }
}

/// Prints an entry, in words or as JSON.
fn print_one<R: Print + Alloc<A = Global>>(
    rt: &R,
    is_json: bool,
    number: usize,
    place: usize,
    len: usize,
    entry: &Entry,
    serials: Option<Serials>,
) -> Result<(), Fault> {
    if is_json {
        return print_object(rt, number, place, len, entry, serials);
    }
    match print_entry(rt, number, place, len, entry, serials) {
        Ok(()) => Ok(()),
        Err(_) => Err(Fault::Write),
    }
}

/// Prints the entries, updates with the serials where the journal tells of these.
fn print_entries<R: Print + Alloc<A = Global>>(
    rt: &R,
    entries: &[Vec<u8>],
    is_json: bool,
) -> Result<(), Fault> {
    let generation = generation(entries);
    let mut followed = Followed::new();
    let mut number: usize = 1;
    let mut place: usize = 0;
    let mut part = Part::First;
    for bytes in entries {
        let entry = entry_of(rt.alloc(), bytes, part, generation)?;
        let front = entries.get(..number).unwrap_or(entries);
        let serials = followed.step(rt.alloc(), &entry, front)?;
        print_one(rt, is_json, number, place, bytes.len(), &entry, serials)?;
        number = number.saturating_add(1);
        place = behind(place, bytes.len());
        part = part.behind(&entry);
    }
    Ok(())
}

/// Lists a journal.
// No clause: it prints.
fn list<R: Files + Print + Alloc<A = Global>>(
    rt: &R,
    file: &str,
    is_json: bool,
) -> Result<u8, Fault> {
    let bytes = journal_of(rt, file)?;
    let found = read_entries(rt.alloc(), bytes.as_slice())?;
    print_entries(rt, found.entries.as_slice(), is_json)?;
    Ok(0)
}

/// Checks a journal.
// No clause: it prints.
fn check<R: Files + Print + Alloc<A = Global>>(rt: &R, file: &str) -> Result<u8, Fault> {
    let bytes = journal_of(rt, file)?;
    let found = read_entries(rt.alloc(), bytes.as_slice())?;
    let wrong = check_entries(rt, file, found.entries.as_slice())?;
    let ending = ending_at(bytes.as_slice(), found.end);
    match print_ending(rt, file, found.entries.len(), found.end, ending) {
        Ok(()) => Ok(status_of(wrong, ending)),
        Err(_) => Err(Fault::Write),
    }
}

/// Prints the zone at the end of a journal, or where it has a serial.
fn print_end<R: Files + Print + Eprint + Alloc<A = Global>>(
    rt: &R,
    origin: &Name,
    file: &str,
    zone_file: &str,
    serial: Option<u32>,
) -> u8 {
    let zone = match zone_of_file(rt, origin, zone_file) {
        Ok(zone) => zone,
        Err(fault) => return tell_of_file(rt, zone_file, fault),
    };
    let bytes = match journal_of(rt, file) {
        Ok(bytes) => bytes,
        Err(fault) => return tell_of_file(rt, file, fault),
    };
    let Ok(found) = read_entries(rt.alloc(), bytes.as_slice()) else {
        return tell(rt, Fault::Memory);
    };
    match with_entries(rt.alloc(), zone, found.entries.as_slice(), serial) {
        Ok(zone) => match print_zone(rt, &zone) {
            Ok(()) => 0,
            Err(_) => tell(rt, Fault::Write),
        },
        Err(fault) => tell_of_file(rt, file, fault),
    }
}

/// The serial of `--serial`, if that is given, or the status after a report on the standard error.
// No clause: no contract says which words are given.
fn serial_of<R: Eprint>(rt: &R, matches: &ArgMatches<'_>) -> Result<Option<u32>, u8> {
    let Some(text) = matches.get_str("serial") else {
        return Ok(None);
    };
    match text.parse::<u32>() {
        Ok(serial) => Ok(Some(serial)),
        Err(_) => {
            let _ = eprintln!(rt;
                "zone_journal: --serial: {text:?} is not a number from 0 to {}",
                u32::MAX
            );
            Err(2)
        }
    }
}

/// Prints the zone that the words of its command ask for, and gives the status.
fn run_zone<R: Files + Print + Eprint + Alloc<A = Global>>(
    rt: &R,
    file: &str,
    matches: &ArgMatches<'_>,
) -> u8 {
    let (Some(text), Some(zone_file)) = (matches.get_str("ORIGIN"), matches.get_str("zone-file"))
    else {
        return tell(rt, Fault::Arguments);
    };
    let serial = match serial_of(rt, matches) {
        Ok(serial) => serial,
        Err(status) => return status,
    };
    match apex_of(rt.alloc(), text) {
        Ok(origin) => print_end(rt, &origin, file, zone_file, serial),
        Err(fault) => tell_of_origin(rt, text, fault),
    }
}

/// Compacts the journal that the words of its command name, and gives the status.
fn run_compact(rt: &HostRuntime, file: &str, matches: &ArgMatches<'_>) -> u8 {
    let (Some(text), Some(zone_file)) = (matches.get_str("ORIGIN"), matches.get_str("zone-file"))
    else {
        return tell(rt, Fault::Arguments);
    };
    let origin = match apex_of(rt.alloc(), text) {
        Ok(origin) => origin,
        Err(fault) => return tell_of_origin(rt, text, fault),
    };
    let zone = match zone_of_file(rt, &origin, zone_file) {
        Ok(zone) => zone,
        Err(fault) => return tell_of_file(rt, zone_file, fault),
    };
    match compact(rt, file, zone) {
        Ok(()) => 0,
        Err(fault) => tell_of_file(rt, file, fault),
    }
}

/// Turns the zone of a journal into the one of a zone file, and gives the status.
fn import_file(
    rt: &HostRuntime,
    origin: &Name,
    file: &str,
    zone_file: &str,
    takes_next: bool,
) -> u8 {
    let other = match read_zone_of(rt, origin, zone_file) {
        Ok(other) => other,
        Err(fault) => return tell_of_file(rt, zone_file, fault),
    };
    // A journal that is not there is not made.
    if let Err(fault) = bytes_of(rt, file) {
        return tell_of_file(rt, file, fault);
    }
    let Ok(empty) = empty_zone(rt.alloc(), origin) else {
        return tell(rt, Fault::Memory);
    };
    match import_zone(rt, file, empty, &other, takes_next) {
        Ok((serial, done)) => match print_imported(rt, file, serial, done) {
            Ok(()) => 0,
            Err(_) => tell(rt, Fault::Write),
        },
        Err(fault) => tell_of_file(rt, file, fault),
    }
}

/// Imports the zone file that the words of its command name, and gives the status.
fn run_import(rt: &HostRuntime, file: &str, matches: &ArgMatches<'_>) -> u8 {
    let (Some(text), Some(zone_file)) = (matches.get_str("ORIGIN"), matches.get_str("zone-file"))
    else {
        return tell(rt, Fault::Arguments);
    };
    let takes_next = matches.get_flag("next-serial");
    match apex_of(rt.alloc(), text) {
        Ok(origin) => import_file(rt, &origin, file, zone_file, takes_next),
        Err(fault) => tell_of_origin(rt, text, fault),
    }
}

/// Runs the program with these words, and gives its status.
fn run_matches(rt: &HostRuntime, matches: &ArgMatches<'_>) -> u8 {
    let Some((name, matches)) = matches.subcommand() else {
        return tell(rt, Fault::Arguments);
    };
    let Some(file) = matches.get_str("FILE") else {
        return tell(rt, Fault::Arguments);
    };
    if name == "zone" {
        return run_zone(rt, file, matches);
    }
    if name == "compact" {
        return run_compact(rt, file, matches);
    }
    if name == "import" {
        return run_import(rt, file, matches);
    }
    let told = if name == "list" {
        list(rt, file, matches.get_flag("json"))
    } else {
        check(rt, file)
    };
    match told {
        Ok(status) => status,
        Err(fault) => tell_of_file(rt, file, fault),
    }
}

/// Reports what is wrong with the arguments, as one line: the lines of this text before its first empty line.
fn tell_of_arguments<R: Eprint>(rt: &R, text: &str) -> u8 {
    let _ = eprint!(rt; "zone_journal:");
    for line in text.strip_prefix("error: ").unwrap_or(text).lines() {
        if line.is_empty() {
            break;
        }
        let _ = eprint!(rt; " {}", line.trim());
    }
    let _ = eprintln!(rt; "");
    2
}

/// Prints the help or the version that the arguments ask for, or what is wrong with them, and gives the status.
fn print_of_arguments<R: Print + Eprint + Alloc<A = Global>>(rt: &R, error: &Error) -> u8 {
    if matches!(error.kind(), ErrorKind::OutOfMemory) {
        return tell(rt, Fault::Memory);
    }
    if error.exit_code() != 0 {
        return match format!(in rt.alloc(); "{error}") {
            Ok(text) => tell_of_arguments(rt, &text),
            Err(_) => tell(rt, Fault::Memory),
        };
    }
    match error.print(rt) {
        Ok(()) => 0,
        Err(_) => tell(rt, Fault::Write),
    }
}

/// The words behind which the program stands, its own name first.
// No clause: no contract says which arguments the system gives.
fn given_words<R: Env + Alloc<A = Global>>(rt: &R) -> Result<Vec<String>, Fault> {
    match env::args(rt) {
        Ok(words) => Ok(words.collect(rt.alloc())?),
        Err(e) => match e.kind() {
            io::ErrorKind::OutOfMemory => Err(Fault::Memory),
            _ => Err(Fault::Arguments),
        },
    }
}

/// Runs the program, and gives its status.
fn run(rt: &HostRuntime) -> u8 {
    let words = match given_words(rt) {
        Ok(words) => words,
        Err(fault) => return tell(rt, fault),
    };
    let Ok(command) = command(rt.alloc()) else {
        return tell(rt, Fault::Memory);
    };
    match command.try_get_matches_from(words.as_slice()) {
        Ok(matches) => run_matches(rt, &matches),
        Err(error) => print_of_arguments(rt, &error),
    }
}

fn main(rt: HostRuntime) -> ExitCode {
    ExitCode::from(run(&rt))
}
