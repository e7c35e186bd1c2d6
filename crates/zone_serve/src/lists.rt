//! The list of blocked names, from its files.

ghost use Rattle.std.specs.Prelude.{◌≡◌, ◌<◌, IfOk, OnOk, map, option_map};
ghost use Rattle.name_lists.specs.Adding.{AddsList};
ghost use Rattle.zone_serve.specs.Catalogs.{AddsFile, AddsFiles, IsListOf};

use crate::fault::{Fault, FileFault};
use hickory_server::store::blocklist::BlocklistZoneHandler;
use hickory_server::zone_text::FileOpener;
use name_lists::ListReport;
use served_zones::lists;
use server::settings::SettingFault;
use std::alloc::Global;
use std::rc::Rc;

/// Adds the names that the lines of a text give to those that are blocked, if one gives a name, and says what
/// became of the lines.
fn add_text(
    alloc: Global,
    list: &mut BlocklistZoneHandler,
    bytes: &[u8],
) -> Result<ListReport, FileFault>
    ensures ok { IfOk result (λ report. AddsList bytes.now list.old.entries list.new.entries report) }
    ensures some { IfOk result (λ report. 0 < report.taken) }
    ensures others { list.new ≡ record list.old { entries = list.new.entries } }
{
    let report = lists::add_names(alloc, list, bytes)?;
    if report.taken() > 0 {
        Ok(report)
    } else {
        Err(FileFault::Setting(SettingFault::NoNames))
    }
}

/// Adds the names of the file of this name to those that are blocked.
fn add_list<O: FileOpener>(
    alloc: Global,
    opener: &O,
    list: &mut BlocklistZoneHandler,
    file: &str,
) -> Result<ListReport, FileFault>
    ensures { OnOk result (AddsFile (O.opens opener.now) file.now list.old list.new) }
{
    let bytes = opener.open(alloc, file.as_bytes())?;
    add_text(alloc, list, bytes.as_slice())
}

/// Tells on the standard error how many lines of a list were skipped, if any were, and the numbers of the first three.
fn tell_of_skipped<R: Eprint>(rt: &R, file: &str, report: &ListReport) {
    let skipped = report.skipped();
    match report.first_skipped() {
        [] => {}
        [a] => {
            let _ = eprintln!(rt; "zone_serve: {file}: 1 line skipped, which gives no name: {a}");
        }
        [a, b] => {
            let _ = eprintln!(rt;
                "zone_serve: {file}: 2 lines skipped, which give no name: {a}, {b}"
            );
        }
        [a, b, c, ..] => {
            let _ = eprintln!(rt;
                "zone_serve: {file}: {skipped} lines skipped, which give no name, the first: {a}, {b}, {c}"
            );
        }
    }
}

/// Adds the names of each of these files to those that are blocked, in their order. What of them is skipped is reported
/// on the standard error.
fn add_lists<R: Eprint + Alloc<A = Global>, O: FileOpener>(
    rt: &R,
    opener: &O,
    list: &mut BlocklistZoneHandler,
    files: &[&str],
) -> Result<(), Fault>
    ensures { OnOk result (AddsFiles (O.opens opener.now) (map (λ file. file.now) files.now) list.old list.new) }
{
    for place in 0..files.len() {
        match add_list(rt.alloc(), opener, list, files[place]) {
            Ok(report) => tell_of_skipped(rt, files[place], &report),
            Err(FileFault::Memory) => return Err(Fault::Memory),
            Err(fault) => return Err(Fault::List { place, fault }),
        }
    }
    Ok(())
}

/// The list with the names of these files, if there are files. What of them is skipped is reported on the standard
/// error.
pub fn blocklist<R: Eprint + Alloc<A = Global>, O: FileOpener>(
    rt: &R,
    opener: &O,
    files: &[&str],
) -> Result<Option<Rc<BlocklistZoneHandler>>, Fault>
    ensures { IfOk result (λ list.
        IsListOf (O.opens opener.now) (map (λ file. file.now) files.now) (option_map (λ it. it.value) list)) }
{
    if files.is_empty() {
        return Ok(None);
    }
    let mut list = lists::blocklist(rt.alloc())?;
    add_lists(rt, opener, &mut list, files)?;
    Ok(Some(Rc::new(rt.alloc(), list)?))
}
