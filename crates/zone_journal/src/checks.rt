//! Whether a journal is whole.

ghost use Rattle.std.specs.Prelude.{◌≡◌, ◌↔◌, ◌⊎◌};
ghost use Rattle.journal.specs.declared.endings.Ending.TheVariants.{Whole};

use crate::fault::Fault;
use hickory_wire::LowerName;
use journal::{Ending, generation};
use journal_entries::{Part, behind, entry_of, may_stand, zone_of};
use std::alloc::Global;
use std::io;

/// The zone of the first entry that is an update.
// No clause: what an entry says `journal_entries` reads, for a report.
fn first_zone(alloc: Global, entries: &[Vec<u8>]) -> Result<Option<LowerName>, Fault> {
    let mut part = Part::First;
    for bytes in entries {
        let entry = entry_of(alloc, bytes, part, 0)?;
        if let Some(name) = zone_of(&entry) {
            return Ok(Some(name.clone()?));
        }
        part = part.behind(&entry);
    }
    Ok(None)
}

/// Prints that an entry may not stand there.
fn print_wrong<R: Print>(rt: &R, file: &str, number: usize, place: usize) -> Result<(), Fault> {
    let told = println!(rt; "{file}: entry {number} at {place}: fault: no update of the zone");
    told.map_err(|_| Fault::Write)
}

/// Prints that a snapshot has no end.
fn print_cut<R: Print>(rt: &R, file: &str) -> Result<(), Fault> {
    let told = println!(rt; "{file}: fault: the snapshot has no end");
    told.map_err(|_| Fault::Write)
}

/// Prints a line for each entry that may not stand there, and gives their number.
// No clause: it prints what is wrong.
pub fn check_entries<R: Print + Alloc<A = Global>>(
    rt: &R,
    file: &str,
    entries: &[Vec<u8>],
) -> Result<usize, Fault> {
    let zone = first_zone(rt.alloc(), entries)?;
    let generation = generation(entries);
    let mut wrong: usize = 0;
    let mut number: usize = 1;
    let mut place: usize = 0;
    let mut part = Part::First;
    for bytes in entries {
        let entry = entry_of(rt.alloc(), bytes, part, generation)?;
        if !may_stand(&entry, zone.as_ref()) {
            wrong = wrong.saturating_add(1);
            print_wrong(rt, file, number, place)?;
        }
        place = behind(place, bytes.len());
        number = number.saturating_add(1);
        part = part.behind(&entry);
    }
    if part == Part::Snapshot {
        wrong = wrong.saturating_add(1);
        print_cut(rt, file)?;
    }
    Ok(wrong)
}

/// Prints how many entries a file has, and how it ends behind them.
pub fn print_ending<R: Print>(
    rt: &R,
    file: &str,
    entries: usize,
    end: usize,
    ending: Ending,
) -> io::Result<()> {
    print!(rt; "{file}: entries: {entries}, in {end} bytes")?;
    match ending {
        Ending::Whole => println!(rt; ""),
        Ending::Behind(n) => println!(rt;
            "; warning: {n} bytes behind the gate, which count for nothing"
        ),
        Ending::Open(n) => println!(rt;
            "; fault: the gate is open before {n} bytes that are no entry"
        ),
        Ending::Missing => println!(rt; "; fault: no gate behind them"),
    }
}

/// The status of what was found: 0 where that is nothing, 1 where it is a warning, 5 where it is a fault.
pub fn status_of(wrong: usize, ending: Ending) -> u8
    ensures found { (result ≡ 0) ↔ ((wrong ≡ 0) × (ending ≡ Whole)) }
    ensures warned { result ≡ 1 → wrong ≡ 0 }
    ensures status { (result ≡ 0) ⊎ ((result ≡ 1) ⊎ (result ≡ 5)) }
{
    match ending {
        Ending::Open(_) | Ending::Missing => 5,
        _ if wrong > 0 => 5,
        Ending::Behind(_) => 1,
        Ending::Whole => 0,
    }
}
