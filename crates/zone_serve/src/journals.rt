//! The journals of zones that take updates, from the arguments.

ghost use Rattle.std.specs.Prelude.{◌≡◌, ◌↔◌, IfOk, IsTrue, OnOk};
ghost use Rattle.sqlite_disk.specs.Disk.{Only};
ghost use Rattle.served_zones.specs.ServedZones.{IsApexText};
ghost use Rattle.zone_serve.specs.Journals.{AreJournalled, HasOpened, IsJournalledBy, apexes_of};
ghost use Rattle.zone_serve.specs.Telling.{IsDue};
ghost use Rattle.wire_names.specs.rr.domain.DomainName.{DomainName};
ghost use Rattle.wire_names.specs.rr.domain.NameOrder.{lower_name};

use crate::damage::{Damage, find_damage, is_none_at};
use crate::fault::Fault;
use crate::files::fault_of;
use crate::groups::Watch;
use crate::rules::apex_of;
use crate::serving::now;
use hickory_server::proto::LowerName;
use hickory_server::zone_text::FileRefusal;
use serve_options::arguments::ZoneArgument;
use served_zones::handler::{Handler, Zones};
use served_zones::journals::{
    JournalFault, JournalState, Opened, compact_due, has_updates, open_journal,
};
use server::settings::SettingFault;
use signed_server::LeftToServer;
use sqlite_disk::{Disk, Files as TwoFiles};
use sqlite_std_file::{File, OpenError, Unknown, open};
use std::alloc::Global;
use std::rt::{Clock, Files};
use thiserror::Error;

/// Why the journal in a file is not opened.
#[derive(Clone, Copy, Debug, PartialEq, Eq, Error)]
pub enum JournalFileFault {
    /// One of its two files cannot be opened.
    #[error("{0}")]
    File(FileRefusal),
    /// Another process has them open, or another zone.
    #[error("the journal is in use")]
    InUse,
    /// A journal of SQLite's has the name of one beside it.
    #[error("there is a rollback journal of SQLite beside it")]
    Rollback,
    /// The file at this path is no journal's, and is left as it is.
    #[error("not a journal")]
    NotAJournal,
    /// So is the file beside it.
    #[error("its '-wal' file is not a journal")]
    NotAJournalBeside,
    /// An entry is no update of the zone.
    #[error("{0} is no update of this zone")]
    Entry(Damage),
    /// It is not taken for another reason.
    #[error("{0}")]
    Journal(JournalFault),
    /// Memory was refused.
    #[error("no memory")]
    Memory,
}

/// Where the files of journals are opened.
pub trait JournalFiles<D: Disk> {
    /// The two files of the journal at a path, only for this process: what is read of them is what is on the disk.
    fn open_two(&self, path: &str) -> Result<TwoFiles<D>, JournalFileFault>
        ensures usable { IfOk result (λ files. IsTrue (D.is_usable files.db) × IsTrue (D.is_usable files.log)) }
        ensures restarted { IfOk result (λ files. Only (D.seen files.db) (D.may_leave files.db) ×
            Only (D.seen files.log) (D.may_leave files.log)) };
}

/// The files of the system.
#[derive(Drop)]
pub struct SystemFiles<'a> {
    /// The runtime.
    pub rt: &'a HostRuntime,
}

/// The fault of files that are not opened.
// No clause: why the system opens no file is only reported.
fn fault_of_opening(error: &OpenError) -> JournalFileFault {
    match error {
        OpenError::OutOfMemory => JournalFileFault::Memory,
        OpenError::Busy => JournalFileFault::InUse,
        OpenError::HotJournal => JournalFileFault::Rollback,
        OpenError::Io(e) => match fault_of(e) {
            FileRefusal::Memory => JournalFileFault::Memory,
            fault => JournalFileFault::File(fault),
        },
    }
}

impl<'a> JournalFiles<File> for SystemFiles<'a> {
    fn open_two(&self, path: &str) -> Result<TwoFiles<File>, JournalFileFault> {
        match open(self.rt, path, Unknown) {
            Ok(files) => Ok(files),
            Err(error) => Err(fault_of_opening(&error)),
        }
    }
}

/// A zone with a journal.
#[derive(Drop)]
pub struct Journalled<'a> {
    /// The name of its apex.
    apex: LowerName,
    /// The file of the journal.
    file: &'a str,
    /// When it was last reported that the journal takes no updates any more, in seconds since 1970, if it was.
    told: Option<u64>,
}

impl<'a> Journalled<'a> {
    /// The name of its apex.
    pub fn apex(&self) -> &LowerName
        ensures { result.now ≡ self.now.apex }
    {
        &self.apex
    }
}

/// Opens the journal at a path for the zone of this apex.
fn open_at<D: Disk + Drop, F: JournalFiles<D>>(
    alloc: Global,
    files: &F,
    path: &str,
    zones: &mut Zones<D>,
    apex: &LowerName,
) -> Result<Opened, JournalFileFault>
    ensures opened { OnOk result (HasOpened D.Disk apex.now zones.old.zones zones.new.zones) }
    ensures others { zones.new ≡ record zones.old { zones = zones.new.zones } }
{
    let TwoFiles { db, log } = files.open_two(path)?;
    match open_journal(alloc, zones, apex, db, log) {
        Ok(opened) => Ok(opened),
        Err(JournalFault::Memory) => Err(JournalFileFault::Memory),
        Err(fault) => Err(JournalFileFault::Journal(fault)),
    }
}

/// Reports that a journal takes no updates any more. A failure to report it changes nothing.
fn tell_shut<R: Eprint>(rt: &R, file: &str) {
    let _ = eprintln!(rt;
        "zone_serve: {file}: the journal is not written: each update is SERVFAIL until the next start"
    );
}

/// Reports that a journal could not be compacted. A failure to report it changes nothing.
fn tell_long<R: Eprint>(rt: &R, file: &str, fault: JournalFault) {
    let _ = eprintln!(rt; "zone_serve: {file}: the journal is long, and is not compacted: {fault}");
}

/// Reports what an operator must know of a journal that was opened. A failure to report it changes nothing.
fn tell_opened<R: Eprint>(rt: &R, file: &str, opened: Opened) {
    if opened.journal != opened.file {
        let _ = eprintln!(rt;
            "zone_serve: {file}: the journal counts, with serial {}, and not the zone file, with serial {}",
            opened.journal, opened.file
        );
    }
    if !opened.takes_updates {
        tell_shut(rt, file);
    }
}

/// The name of the zone of a journal, which is to take updates, and to have no journal yet.
fn apex_for<D: Disk + Drop>(
    alloc: Global,
    zones: &Zones<D>,
    argument: ZoneArgument<'_>,
    earlier: &[Journalled<'_>],
) -> Result<LowerName, Fault>
    ensures { IfOk result (λ lower. (apex : DomainName) × IsApexText argument.entry.name.now apex ×
        (lower ≡ lower_name apex)) }
{
    let place = argument.place;
    let apex = LowerName::new(alloc, &apex_of(alloc, argument.name, place)?)?;
    if earlier.iter().any(|it| it.apex == apex) {
        return Err(Fault::of_argument(place, SettingFault::JournalTwice));
    }
    if !has_updates(zones, &apex)? {
        return Err(Fault::JournalZone { place });
    }
    Ok(apex)
}

/// The fault of the journal at a path, with the entry at which it is damaged, if it is, or the file that is none.
// No clause: why a journal is refused is only reported.
fn with_place<R: Files + Alloc<A = Global>>(
    rt: &R,
    path: &str,
    apex: &LowerName,
    fault: JournalFileFault,
) -> JournalFileFault {
    match fault {
        JournalFileFault::Journal(JournalFault::Damaged) => match find_damage(rt, path, apex) {
            Some(damage) => JournalFileFault::Entry(damage),
            None => fault,
        },
        JournalFileFault::Journal(JournalFault::NotAJournal) if is_none_at(rt, path) => {
            JournalFileFault::NotAJournal
        }
        JournalFileFault::Journal(JournalFault::NotAJournal) => JournalFileFault::NotAJournalBeside,
        _ => fault,
    }
}

/// Opens the journal of an argument, the one at this place among them.
fn open_one<'a, R: Clock + Files + Eprint + Alloc<A = Global>, D: Disk + Drop, F: JournalFiles<D>>(
    rt: &R,
    files: &F,
    argument: ZoneArgument<'a>,
    place: usize,
    zones: &mut Zones<D>,
    earlier: &[Journalled<'_>],
) -> Result<Journalled<'a>, Fault>
    ensures opened { IfOk result (λ journal.
        IsJournalledBy D.Disk argument.entry journal.apex zones.old.zones zones.new.zones) }
    ensures others { zones.new ≡ record zones.old { zones = zones.new.zones } }
{
    let alloc = rt.alloc();
    let file = argument.file;
    let apex = apex_for(alloc, zones, argument, earlier)?;
    match open_at(alloc, files, file, zones, &apex) {
        Ok(opened) => {
            tell_opened(rt, file, opened);
            let told = if opened.takes_updates {
                None
            } else {
                Some(moment(rt))
            };
            Ok(Journalled { apex, file, told })
        }
        Err(JournalFileFault::Memory) => Err(Fault::Memory),
        Err(fault) => Err(Fault::Journal {
            place,
            fault: with_place(rt, file, &apex, fault),
        }),
    }
}

/// Opens the journals of the arguments, in their order, each for its zone, and reports each journal that has another
/// zone than the file.
pub fn open_journals<
    'a,
    R: Clock + Files + Eprint + Alloc<A = Global>,
    D: Disk + Drop,
    F: JournalFiles<D>,
>(
    rt: &R,
    files: &F,
    arguments: &[ZoneArgument<'a>],
    zones: &mut Zones<D>,
) -> Result<Vec<Journalled<'a>>, Fault>
    ensures opened { IfOk result (λ journals.
        AreJournalled D.Disk arguments.now (apexes_of journals.items) zones.old.zones zones.new.zones) }
    ensures others { zones.new ≡ record zones.old { zones = zones.new.zones } }
{
    let mut opened = Vec::new(rt.alloc());
    for place in 0..arguments.len() {
        let one = open_one(rt, files, arguments[place], place, zones, &opened)?;
        opened.push(one)?;
    }
    Ok(opened)
}

/// Compacts journals that have become long, and reports those that take no updates any more, each at most once a
/// minute.
#[derive(Drop)]
pub struct JournalWatch<'r, 'a, R> {
    /// The runtime.
    pub rt: &'r R,
    /// The zones that have journals.
    pub journals: Vec<Journalled<'a>>,
}

/// Whether what was last reported at a moment, if it was, must be reported again: a minute later, or if the clock was
/// set back.
fn is_due(told: Option<u64>, now: u64) -> bool
    ensures { IsTrue result ↔ IsDue told now }
{
    match told {
        None => true,
        Some(last) => now < last || now - last >= 60,
    }
}

/// The time, in seconds since 1970; 0 if the system gives none.
// No clause: no contract says what a clock reads.
fn moment<R: Clock>(rt: &R) -> u64 {
    now(rt).unwrap_or(0)
}

/// Tells that a journal takes no updates any more, if that is due.
fn tell_again<R: Clock + Eprint>(rt: &R, journal: &mut Journalled<'_>) {
    let now = moment(rt);
    if is_due(journal.told, now) {
        tell_shut(rt, journal.file);
        journal.told = Some(now);
    }
}

/// Compacts one journal, if it must be compacted, and reports how it is.
fn look_after<R: Clock + Eprint + Alloc<A = Global>, D: Disk + Drop>(
    rt: &R,
    zones: &mut Zones<D>,
    journal: &mut Journalled<'_>,
)
    ensures { zones.new ≡ zones.old }
{
    match compact_due(rt.alloc(), zones, &journal.apex) {
        JournalState::Open => {}
        JournalState::Shut => tell_again(rt, journal),
        JournalState::Long(fault) => tell_long(rt, journal.file, fault),
    }
}

impl<R: Clock + Eprint + Alloc<A = Global>, D: Disk + Drop> Watch<LeftToServer, Handler<D>>
    for JournalWatch<'_, '_, R> {
    fn after_lines(&mut self, catalog: &mut Zones<D>) {
        for place in 0..self.journals.len() {
            if let Some(journal) = self.journals.get_mut(place) {
                look_after(self.rt, catalog, journal);
            }
        }
    }
}
