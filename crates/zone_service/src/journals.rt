//! What C calls for zones with journals, whose files it has. `host/zone_service.h` says of each call what it is given and
//! what it answers.

ghost use Rattle.std.specs.Prelude.{◌≡◌, ◌≤◌, None, Some, length, true};
ghost use Rattle.std.specs.List.{slice_get};
ghost use Rattle.journal.specs.host_file.Calls.{HostCall, call_of};
ghost use Rattle.served_zones.specs.Holding.{AllBegin, AllSettle};
ghost use Rattle.server.specs.Journals.{IsOpened, IsOwedTo, IsTold, StopsAny};
ghost use Rattle.server.specs.Settings.{with_zones, zones_of};

use crate::exports::{put_text, tell_fault, told};
use journal::host_file::Operation;
use served_zones::journals::JournalState;
use server::handle::Handle;
use server::journals::{FileOperation, bytes_of};
use server::told::{DONE, MEMORY};
use std::alloc::Global;

/// There are not so many operations.
const NO_OPERATION: u32 = 9;

/// Opens the journal of the zone of this name in two files that hold these bytes, which are on the disk. Puts the serial
/// of the zone file and that of the journal, and whether the zone takes updates. Operations may be owed to the files
/// then.
#[unsafe(no_mangle)]
pub extern "C" fn zone_service_open_journal(
    alloc: Global,
    service: &mut Handle,
    zone: &[u8],
    first: &[u8],
    second: &[u8],
    serials: &mut [u32; 2],
    takes_updates: &mut bool,
    fault: &mut [u8],
    count: &mut usize,
) -> u32
    ensures opened { result ≡ 0 → IsOpened zone.now first.now second.now
        (zones_of service.old.service) (zones_of service.new.service)
        service.old.service.journals.items service.new.service.journals.items }
    ensures others { service.new.service ≡ with_zones (record service.old.service
        { journals = service.new.service.journals }) (zones_of service.new.service) }
    ensures count { count.new ≤ length fault.new }
{
    *count = 0;
    let service = service.service();
    match service.open_journal(alloc, zone, first, second) {
        Ok(opened) => {
            *serials = [opened.file, opened.journal];
            *takes_updates = opened.takes_updates;
            DONE
        }
        Err(e) => told(alloc, Err(e), fault, count),
    }
}

/// Lets the zones with journals hold updates from now on, until `zone_service_end_batch`.
#[unsafe(no_mangle)]
pub extern "C" fn zone_service_begin_batch(alloc: Global, service: &mut Handle)
    ensures begin { AllBegin service.old.service.journals.items
        (zones_of service.old.service) (zones_of service.new.service) }
    ensures others { service.new.service ≡ with_zones service.old.service (zones_of service.new.service) }
{
    service.service().begin_batch(alloc);
}

/// Notes the updates that zones hold for their files, with two syncs for each zone that holds any. If an allocation
/// fails, no answer of the batch may leave, and the process must end.
#[unsafe(no_mangle)]
pub extern "C" fn zone_service_end_batch(alloc: Global, service: &mut Handle) -> u32
    ensures settle { result ≡ 0 → AllSettle service.old.service.journals.items
        (zones_of service.old.service) (zones_of service.new.service) }
    ensures others { service.new.service ≡ with_zones service.old.service (zones_of service.new.service) }
{
    if service.service().end_batch(alloc) {
        DONE
    } else {
        MEMORY
    }
}

/// Puts an operation, and those of its bytes from `from` on for which there is room. Returns how many bytes these are.
fn tell_operation(
    told: &Operation,
    operation: &mut FileOperation,
    from: usize,
    out: &mut [u8],
) -> usize
    ensures told { IsTold (call_of told.now) from operation.new result out.new }
    ensures within { result ≤ length out.new }
{
    *operation = FileOperation::of(told);
    let bytes = bytes_of(told);
    put_text(out, &bytes[from.min(bytes.len())..])
}

/// Puts the operation of this number, from 0, that is owed to file 0 or 1 of a journal, and those of its bytes from
/// `from` on for which there is room. 9 if there are not so many operations.
#[unsafe(no_mangle)]
pub extern "C" fn zone_service_operation(
    service: &mut Handle,
    journal: usize,
    file: u32,
    number: usize,
    operation: &mut FileOperation,
    from: usize,
    out: &mut [u8],
    written: &mut usize,
) -> u32
    ensures told { result ≡ 0 → (call : HostCall) ×
        IsOwedTo (zones_of service.old.service)
        (slice_get service.old.service.journals.items journal) file number (Some call) ×
        IsTold call from operation.new written.new out.new }
    ensures none { result ≡ 9 → IsOwedTo (zones_of service.old.service)
        (slice_get service.old.service.journals.items journal) file number None }
    ensures kept { service.new.service ≡ service.old.service }
    ensures within { written.new ≤ length out.new }
{
    *written = 0;
    match service.service().operation(journal, file, number) {
        Ok(Some(owed)) => {
            *written = tell_operation(owed, operation, from, out);
            DONE
        }
        Ok(None) => NO_OPERATION,
        Err(_) => MEMORY,
    }
}

/// All operations of all files are done: none is owed. No zone changes.
#[unsafe(no_mangle)]
pub extern "C" fn zone_service_operations_done(service: &mut Handle)
    ensures { service.new.service ≡ service.old.service }
{
    service.service().operations_done();
}

/// Lets the zone of a journal take no updates any more, since an operation of one of its files has failed.
#[unsafe(no_mangle)]
pub extern "C" fn zone_service_stop_updates(alloc: Global, service: &mut Handle, journal: usize)
    ensures stops { StopsAny (slice_get service.old.service.journals.items journal)
        (zones_of service.old.service) (zones_of service.new.service) }
    ensures others { service.new.service ≡ with_zones service.old.service (zones_of service.new.service) }
{
    service.service().stop_updates(alloc, journal);
}

/// Compacts a journal if it is to be compacted and nothing is owed to its files. Operations may be owed to them then.
/// The text in `fault` says why the journal is not compacted.
#[unsafe(no_mangle)]
pub extern "C" fn zone_service_compact(
    alloc: Global,
    service: &mut Handle,
    journal: usize,
    fault: &mut [u8],
    count: &mut usize,
) -> u32
    ensures kept { service.new.service ≡ service.old.service }
    ensures idle { result ≡ 0 →
        IsOwedTo (zones_of service.old.service) (slice_get service.old.service.journals.items journal) 0 0 None ×
        IsOwedTo (zones_of service.old.service) (slice_get service.old.service.journals.items journal) 1 0 None }
    ensures count { count.new ≤ length fault.new }
{
    *count = 0;
    match service.service().compact(alloc, journal) {
        Ok(None) => tell_fault("operations are owed to its files", fault, count),
        Ok(Some(JournalState::Open)) => DONE,
        Ok(Some(JournalState::Shut)) => tell_fault("the journal takes no updates", fault, count),
        Ok(Some(JournalState::Long(why))) => {
            match format!(in alloc; "not compacted: {why}") {
                Ok(text) => tell_fault(text.as_str(), fault, count),
                Err(_) => MEMORY,
            }
        }
        Err(_) => MEMORY,
    }
}
