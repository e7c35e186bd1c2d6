//! A file of whoever owns it, as a disk.

ghost use Rattle.std.specs.Prelude.{◌≡◌, ◌⊎◌, ◌+◌, ◌≤◌, ◌<◌, ℕ, List, length, take, drop, true, false, refl, is_ok, [], IsTrue, Ok, OnOk, OnErr};
ghost use Rattle.std.proofs.Common.{inl};
ghost use Rattle.sqlite_disk.specs.Disk.{Holds, Torn, Cut, Follows, Only, CountsFault, CountsFaultIf};
ghost use Rattle.sqlite_disk.specs.Digest.{digest, Collide};
ghost use Rattle.sqlite_disk.specs.Tally.{CountsCatch, CountsRefusal};
ghost use Rattle.sqlite_disk.specs.Refusal.{finds_no_room};
ghost use Rattle.journal.specs.host_file.Calls.{calls_of};
ghost use Rattle.journal.specs.host_file.FileState.{IsSound, may_leave, of_bytes, written, resized, synced, refused, sync_refused, test_failed, all_made, owed, ends_synced};
ghost use Rattle.journal.specs.host_file.Answers.{Answers, Tested};
ghost use Rattle.journal.specs.host_file.Reads.{IsRead};

use crate::host_file::noting::{count, note, overwrite, read, resize};
use crate::host_file::operation::Operation;
use crate::host_file::owned::OwnedDisk;
use sqlite_disk::{Disk, Tally, digest_of};
use std::alloc::{AllocError, Global};
use std::io;
use std::marker::Model;

/// A file whose contents stand in memory, and what its owner is to do to it.
///
/// Its owner has synced the file and read it whole, hands over the bytes, and after each call does the operations, in
/// order, before anything that the call answered leaves the process; then it says so (`operations_done`). Where one of
/// them fails, nothing leaves, and the process ends.
#[derive(Drop)]
pub struct HostFile {
    /// By which its owner knows it.
    name: u64,
    /// What the file holds once the operations are done.
    bytes: Vec<u8>,
    /// What was noted: up to the last sync it is forgotten once it is done.
    operations: Vec<Operation>,
    /// How many operations are done.
    made: usize,
    /// The bounds of the lengths that a crash may leave.
    kept: usize,
    most: usize,
    usable: bool,
    faults: u64,
    caught: u64,
}

impl Model for HostFile {
    ghost use Rattle.std.specs.Prelude.{◌≤◌, length};
    ghost use Rattle.journal.specs.host_file.FileState.{FileState};
    ghost use Rattle.journal.specs.host_file.Calls.{calls_of};

    ghost Value = { FileState };

    ghost view = { λ f. record {
      name = f.name;
      seen = f.bytes.items;
      noted = calls_of f.operations.items;
      made =
          f.made;
      kept = f.kept;
      most = f.most;
      usable = f.usable;
      faults = f.faults;
      caught = f.caught;
    } };

    ghost invariant = { λ f. (f.kept ≤ length f.bytes.items) × (length f.bytes.items ≤ f.most) ×
        (f.made ≤ length f.operations.items) };
}

impl HostFile {
    /// A file that holds these bytes, and has them on the disk. Its owner knows it by the name.
    pub fn new(alloc: Global, name: u64, bytes: Vec<u8>) -> HostFile
        ensures made { result ≡ of_bytes name bytes.items }
        ensures restarted { Only bytes.items (may_leave result) }
    {
        HostFile::of(alloc, name, bytes)
    }

    /// The file of this name with these bytes, of which nothing is owed yet.
    fn of(alloc: Global, name: u64, bytes: Vec<u8>) -> HostFile
        ensures { result ≡ of_bytes name bytes.items }
    {
        let len = bytes.len();
        HostFile {
            name,
            bytes,
            operations: Vec::new(alloc),
            made: 0,
            kept: len,
            most: len,
            usable: true,
            faults: 0,
            caught: 0,
        }
    }

    /// What the file holds once the operations are done.
    pub fn bytes(&self) -> &[u8]
        ensures { result.now ≡ self.now.seen }
    {
        &self.bytes
    }

    /// Forgets what is done, where a sync comes last.
    fn forget(&mut self)
        ensures made { self.new ≡ all_made self.old }
        ensures sound { IsSound self.new }
    {
        if ends_synced(&self.operations) {
            self.operations.clear();
        }
        self.made = self.operations.len();
    }

    /// Writes bytes, at least one.
    fn write(&mut self, at: usize, bytes: &[u8]) -> Result<(), AllocError>
        requires { 0 < length bytes.now }
        ensures ok { OnOk result (self.new ≡ written at bytes.now self.old) }
        ensures err { OnErr result (self.new ≡ self.old) }
        ensures sound { IsSound self.old }
    {
        let copy = Vec::from_slice(*self.bytes.allocator(), bytes)?;
        self.operations.reserve(1)?;
        overwrite(&mut self.bytes, at, bytes)?;
        note(&mut self.operations, Operation::Write { at, bytes: copy });
        self.most = self.most.max(at + bytes.len());
        Ok(())
    }

    fn resize(&mut self, len: usize) -> Result<(), AllocError>
        ensures ok { OnOk result (self.new ≡ resized len self.old) }
        ensures err { OnErr result (self.new ≡ self.old) }
        ensures sound { IsSound self.old }
    {
        self.operations.reserve(1)?;
        resize(&mut self.bytes, len)?;
        note(&mut self.operations, Operation::SetLen(len));
        self.kept = self.kept.min(len);
        self.most = self.most.max(len);
        Ok(())
    }

    /// Notes a sync. Where memory is refused, the file takes no more.
    fn note_sync(&mut self) -> Result<(), AllocError>
        ensures ok { OnOk result (self.new ≡ synced self.old) }
        ensures err { OnErr result (self.new ≡ record self.old { usable = false }) }
        ensures sound { IsSound self.old }
    {
        if self.operations.push(Operation::Sync).is_err() {
            self.usable = false;
            return Err(AllocError);
        }
        self.kept = self.bytes.len();
        self.most = self.bytes.len();
        Ok(())
    }

    /// Counts a call for which memory was refused.
    fn answer(&mut self, outcome: Result<(), AllocError>) -> io::Result<()>
        ensures variant { is_ok result ≡ is_ok outcome }
        ensures kind { finds_no_room result ≡ false }
        ensures ok { OnOk result (self.new ≡ self.old) }
        ensures err { OnErr result (self.new ≡ refused self.old) }
        ensures faults { CountsFault result self.old.faults self.new.faults }
    {
        count(outcome, &mut self.faults)
    }

    /// Counts bytes that failed a test.
    fn count_caught(&mut self)
        ensures { self.new ≡ test_failed self.old }
    {
        self.faults = self.faults.saturating_add(1);
        self.caught = self.caught.saturating_add(1);
    }
}

/// Whether there are no operations, or a sync comes last.
fn ends_synced(operations: &[Operation]) -> bool
    ensures { result ≡ ends_synced (calls_of operations.now) }
{
    match operations {
        [] => true,
        [.., last] => match last {
            Operation::Sync => true,
            Operation::Write { at: _, bytes: _ } | Operation::SetLen(_) => false,
        },
    }
}

/// Each method changes the contents and notes the operation by which the file becomes them, or changes nothing where
/// memory is refused.
impl Disk for HostFile {
    ghost seen = { λ f. f.seen };

    ghost may_leave = { may_leave };

    ghost is_usable = { λ f. f.usable };

    ghost faults = { λ f. f.faults };

    ghost is_clean = { λ _. true };

    ghost tally_of = { λ f. record { caught = f.caught; refused = 0 } };

    ghost key_of = { λ _. 0 };

    ghost is_fair = { λ _ _. true };

    ghost fair_if_clean = { λ _ _ _. refl };

    ghost seen_may_stay = { λ f. inl refl };

    fn mixes(&self) -> bool {
        false
    }

    /// Memory tells no lie, so it needs no secret.
    fn key(&self) -> u64 {
        0
    }

    fn tally(&self) -> Tally {
        Tally {
            caught: self.caught,
            refused: 0,
        }
    }

    fn may_be_used(&self) -> bool {
        self.usable
    }

    fn len(&mut self) -> io::Result<usize>
        requires { IsTrue self.old.usable }
        ensures len { result ≡ Ok (length self.old.seen) }
        ensures same { self.new ≡ self.old }
    {
        Ok(self.bytes.len())
    }

    fn read_at(&mut self, at: usize, buf: &mut [u8]) -> io::Result<()>
        requires { IsTrue self.old.usable }
        ensures exact { IsRead self.old.seen at buf.old result buf.new }
        ensures same { self.new ≡ self.old }
        ensures read { OnOk result (IsTrue true → 0 < length buf.old → Holds self.old.seen at buf.new) }
        ensures faults { CountsFaultIf (IsTrue true → at + length buf.old ≤ length self.old.seen) result self.old.faults
            self.new.faults }
    {
        read(&self.bytes, at, buf)
    }

    fn read_checked(&mut self, key: u64, want: u64, at: usize, buf: &mut [u8]) -> io::Result<()>
        requires usable { IsTrue self.old.usable }
        requires some { 0 < length buf.old }
        requires want { IsTrue true → want ≡ digest key (take (length buf.old) (drop at self.old.seen)) }
        ensures same { Tested self.old result self.new }
        ensures read { OnOk result (IsTrue true → Holds self.old.seen at buf.new) }
        ensures tested { OnOk result (digest key buf.new ≡ want) }
        ensures detects { IsTrue true → at + length buf.old ≤ length self.old.seen
            → IsTrue true ⊎ Collide key buf.new (take (length buf.old) (drop at self.old.seen)) }
        ensures faults { CountsFaultIf (IsTrue true × (at + length buf.old ≤ length self.old.seen)) result
            self.old.faults self.new.faults }
        ensures tally { CountsCatch result (record { caught = self.old.caught; refused = 0 })
            (record { caught = self.new.caught; refused = 0 }) }
    {
        read(&self.bytes, at, buf)?;
        if digest_of(key, buf) != want {
            self.count_caught();
            return Err(io::ErrorKind::InvalidData.into());
        }
        Ok(())
    }

    fn write_at(&mut self, at: usize, bytes: &[u8]) -> io::Result<()>
        requires { IsTrue self.old.usable }
        ensures noted { Answers (written at bytes.now) refused self.old result self.new }
        ensures written { OnOk result (0 < length bytes.now → Holds self.new.seen at bytes.now) }
        ensures faults { CountsFault result self.old.faults self.new.faults }
        ensures others { Torn at (length bytes.now) self.old.seen self.new.seen }
        ensures tally { CountsRefusal result (record { caught = self.old.caught; refused = 0 })
            (record { caught = self.new.caught; refused = 0 }) }
        ensures usable { IsTrue self.new.usable }
        ensures crash { Follows (Torn at (length bytes.now)) (may_leave self.old) (may_leave self.new) }
    {
        if bytes.is_empty() {
            return Ok(());
        }
        let noted = self.write(at, bytes);
        self.answer(noted)
    }

    fn set_len(&mut self, len: usize) -> io::Result<()>
        requires { IsTrue self.old.usable }
        ensures noted { Answers (resized len) refused self.old result self.new }
        ensures len { OnOk result (length self.new.seen ≡ len) }
        ensures faults { CountsFault result self.old.faults self.new.faults }
        ensures others { Cut len self.old.seen self.new.seen }
        ensures tally { CountsRefusal result (record { caught = self.old.caught; refused = 0 })
            (record { caught = self.new.caught; refused = 0 }) }
        ensures usable { IsTrue self.new.usable }
        ensures crash { Follows (Cut len) (may_leave self.old) (may_leave self.new) }
    {
        let noted = self.resize(len);
        self.answer(noted)
    }

    fn sync(&mut self) -> io::Result<()>
        requires { IsTrue self.old.usable }
        ensures noted { Answers synced sync_refused self.old result self.new }
        ensures durable { OnOk result (Only self.old.seen (may_leave self.new)) }
        ensures faults { CountsFault result self.old.faults self.new.faults }
        ensures seen { self.new.seen ≡ self.old.seen }
        ensures tally { CountsRefusal result (record { caught = self.old.caught; refused = 0 })
            (record { caught = self.new.caught; refused = 0 }) }
        ensures usable { self.new.usable ≡ is_ok result }
        ensures crash { (c : List ℕ) → may_leave self.new c → may_leave self.old c }
    {
        let noted = self.note_sync();
        self.answer(noted)
    }
}

impl OwnedDisk for HostFile {
    ghost owed = { owed };

    ghost name_of = { λ f. f.name };

    fn name(&self) -> u64 {
        self.name
    }

    fn operations(&self) -> &[Operation] {
        &self.operations[self.made..]
    }

    fn operations_done(&mut self)
        ensures made { self.new ≡ all_made self.old }
        ensures owed { owed self.new ≡ [] }
        ensures name { self.new.name ≡ self.old.name }
        ensures seen { self.new.seen ≡ self.old.seen }
        ensures leaves { (c : List ℕ) → may_leave self.old c → may_leave self.new c }
        ensures crash { (c : List ℕ) → may_leave self.new c → may_leave self.old c }
        ensures sound { IsSound self.new }
    {
        self.forget();
    }
}
