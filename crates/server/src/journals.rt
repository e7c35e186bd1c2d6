//! Journals of zones, in files of the caller's: it hands over what they hold once, and does to them what is noted.

ghost use Rattle.std.specs.Prelude.{◌≡◌, ℕ, IfOk, IsSome, OnErr, OnOk, option_copied, option_map, true};
ghost use Rattle.std.specs.List.{slice_get};
ghost use Rattle.journal.specs.host_file.Calls.{HostCall, call_of, calls_of};
ghost use Rattle.server.specs.Journals.{IsOpened, IsOwedTo, StaysUnopened, StopsAny, bytes_of, operation_of, owed_to, owed_to_second};
ghost use Rattle.served_zones.specs.Holding.{AllBegin, AllSettle};

use crate::service::Service;
use crate::settings::{SettingFault, zone_name};
use hickory_server::proto::LowerName;
use journal::host_file::{HostFile, Operation, OwnedDisk};
use served_zones::holding::{hold_all, settle_all};
use served_zones::journals::{JournalState, Opened, compact_due, open_journal};
use served_zones::operations::{all_done, files_of, stop_updates};
use std::alloc::{AllocError, Global};

/// What is to be done to a file of a journal, as C sees it.
#[repr(C)]
#[derive(Clone, Copy)]
pub struct FileOperation {
    /// 0: the bytes are written at the place. 1: the file gets the length that is the place. 2: what was done before is
    /// brought to the disk.
    pub kind: u32,
    /// The place, or the length.
    pub at: u64,
    /// How many bytes are written.
    pub count: usize,
}

impl FileOperation {
    /// An operation as C sees it, without its bytes.
    pub fn of(operation: &Operation) -> FileOperation
        ensures { result ≡ operation_of (call_of operation.now) }
    {
        let (kind, at) = match operation {
            Operation::Write { at, bytes: _ } => (0, *at),
            Operation::SetLen(len) => (1, *len),
            Operation::Sync => (2, 0),
        };
        FileOperation {
            kind,
            at: at as u64,
            count: bytes_of(operation).len(),
        }
    }
}

/// The bytes that an operation writes.
pub fn bytes_of(operation: &Operation) -> &[u8]
    ensures { result.now ≡ bytes_of (call_of operation.now) }
{
    match operation {
        Operation::Write { at: _, bytes } => bytes,
        Operation::SetLen(_) | Operation::Sync => &[],
    }
}

/// What is owed to a second file of a journal, if there is one, and it has this number.
fn owed_to_second(file: Option<&HostFile>, number: u64) -> &[Operation]
    ensures { calls_of result.now ≡ owed_to_second (option_copied file.entry) number }
{
    match file {
        Some(file) if file.name() == number => file.operations(),
        _ => &[],
    }
}

/// What is owed to the file of this number, of the two files of a journal, if there is one.
fn owed_to<'z>(files: Option<(&'z HostFile, Option<&'z HostFile>)>, number: u64) -> &'z [Operation]
    ensures { calls_of result.now ≡ owed_to
        (option_map (λ files. (files.0.now, option_copied files.1)) files.entry) number }
{
    match files {
        Some((file, _)) if file.name() == number => file.operations(),
        Some((_, second)) => owed_to_second(second, number),
        None => &[],
    }
}

impl Service {
    ghost use Rattle.server.specs.Settings.{with_zones, zones_of};

    /// Opens the journal of the zone of this name in two files that hold these bytes, which are on the disk. The zone
    /// must have rules, and no journal yet. From then on each of its updates is noted for the files, file 0 and file 1
    /// of this journal, before it is answered. The journal is compacted if it is to be.
    ///
    /// After an error the zone and the journals are as they were. If the journal is open, but was to be compacted and
    /// could not be, the zone is as its journal says, and takes no updates.
    pub fn open_journal(
        &mut self,
        alloc: Global,
        name: &[u8],
        first: &[u8],
        second: &[u8],
    ) -> Result<Opened, SettingFault>
        ensures ok { OnOk result (IsOpened name.now first.now second.now
            (zones_of self.old) (zones_of self.new) self.old.journals.items self.new.journals.items) }
        ensures err { OnErr result (StaysUnopened name.now first.now second.now (zones_of self.old)
            (zones_of self.new) × (self.new.journals.items ≡ self.old.journals.items)) }
        ensures others { self.new ≡ with_zones (record self.old { journals = self.new.journals }) (zones_of self.new) }
    {
        let spelled = zone_name(alloc, name)?;
        let apex = LowerName::new(alloc, &spelled)?;
        if self.journals.contains(&apex) {
            return Err(SettingFault::JournalTwice);
        }
        let first = HostFile::new(alloc, 0, Vec::from_slice(alloc, first)?);
        let second = HostFile::new(alloc, 1, Vec::from_slice(alloc, second)?);
        // So that the journal, once it is open, gets its number.
        self.journals.reserve(1)?;
        let zones = &mut self.answering.server.server.catalog;
        let opened = open_journal(alloc, zones, &apex, first, second)?;
        self.journals.push(apex)?;
        Ok(opened)
    }

    /// Lets the zones with journals hold updates from now on, until [`Service::end_batch`]. It takes no memory.
    pub fn begin_batch(&mut self, alloc: Global)
        ensures begin { AllBegin self.old.journals.items (zones_of self.old) (zones_of self.new) }
        ensures others { self.new ≡ with_zones self.old (zones_of self.new) }
    {
        let zones = &mut self.answering.server.server.catalog;
        hold_all(alloc, zones, &self.journals);
    }

    /// Notes the updates that zones hold for their files, with two syncs for each zone that holds any. Returns whether
    /// that is done. If not, no answer of the batch may leave, and the server must be made again from the files.
    pub fn end_batch(&mut self, alloc: Global) -> bool
        ensures settle { result ≡ true → AllSettle self.old.journals.items (zones_of self.old) (zones_of self.new) }
        ensures others { self.new ≡ with_zones self.old (zones_of self.new) }
    {
        let zones = &mut self.answering.server.server.catalog;
        settle_all(alloc, zones, &self.journals).is_none()
    }

    /// The operation of this number, from 0, that is owed to file 0 or 1 of a journal; `None` if there are not so many.
    /// Journals are numbered from 0 in the order in which they were opened.
    pub fn operation(
        &self,
        journal: usize,
        file: u32,
        number: usize,
    ) -> Result<Option<&Operation>, AllocError>
        ensures { IfOk result (λ found. IsOwedTo (zones_of self.now) (slice_get self.now.journals.items journal) file
            number (option_map call_of (option_copied found))) }
    {
        let Some(apex) = self.journals.get(journal) else {
            return Ok(None);
        };
        let files = files_of(&self.answering.server.server.catalog, apex)?;
        Ok(owed_to(files, u64::from(file)).get(number))
    }

    /// All operations of all files are done: none is owed. No zone changes.
    pub fn operations_done(&mut self)
        ensures { self.new ≡ self.old }
    {
        let zones = &mut self.answering.server.server.catalog;
        all_done(zones, &self.journals);
    }

    /// Lets the zone of a journal take no updates any more, since an operation of one of its files has failed. Queries
    /// go on.
    pub fn stop_updates(&mut self, alloc: Global, journal: usize)
        ensures stops { StopsAny (slice_get self.old.journals.items journal) (zones_of self.old) (zones_of self.new) }
        ensures others { self.new ≡ with_zones self.old (zones_of self.new) }
    {
        if let Some(apex) = self.journals.get(journal) {
            let zones = &mut self.answering.server.server.catalog;
            stop_updates(alloc, zones, apex);
        }
    }

    /// Compacts a journal if it is to be compacted, and returns how it is then. `None` while operations are owed to its
    /// files: then nothing is done. No zone changes.
    pub fn compact(
        &mut self,
        alloc: Global,
        journal: usize,
    ) -> Result<Option<JournalState>, AllocError>
        ensures kept { self.new ≡ self.old }
        ensures owed { result ≡ Ok None → (file : ℕ) × (call : HostCall) ×
            IsOwedTo (zones_of self.old) (slice_get self.old.journals.items journal) file 0 (Some call) }
        ensures idle { IfOk result (λ state. IsSome state →
            IsOwedTo (zones_of self.old) (slice_get self.old.journals.items journal) 0 0 None ×
            IsOwedTo (zones_of self.old) (slice_get self.old.journals.items journal) 1 0 None) }
    {
        if self.operation(journal, 0, 0)?.is_some() {
            return Ok(None);
        }
        if self.operation(journal, 1, 0)?.is_some() {
            return Ok(None);
        }
        let Some(apex) = self.journals.get(journal) else {
            return Ok(Some(JournalState::Open));
        };
        let zones = &mut self.answering.server.server.catalog;
        Ok(Some(compact_due(alloc, zones, apex)))
    }
}
