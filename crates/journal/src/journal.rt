//! Adding entries to a journal.

ghost use Rattle.std.specs.Prelude.{◌≡◌, ◌⊎◌, ◌^◌, ◌<◌, ◌≤◌, ◌++◌, ◌∷◌, [], ℕ, List, length, Err, IfErr, OnErr, OnOk, IsTrue, IsFalse, true, false};
ghost use Rattle.journal.specs.Frames.{AreTooLong, IsBeforeOrAfter, StandsFor};
ghost use Rattle.journal.specs.Generations.{IsBeingReplaced, header};
ghost use Rattle.journal.specs.JournalFile.{IsJournal, Mixes};
ghost use Rattle.journal.specs.Read.{contents};
ghost use Rattle.sqlite_disk.specs.Disk.{MoreFaults};
ghost use Rattle.journal.specs.Errors.{is_of_disk};
ghost use Rattle.journal.specs.declared.error.JournalError.TheVariants as journal_error;

use crate::error::JournalError;
use crate::host_file::OwnedDisk;
use crate::writing::{are_small, behind_gate, close_first, write};
use sqlite_disk::Disk;
use std::alloc::Global;
use std::marker::Model;

/// No entry is added beyond this place.
const MAX_END: usize = 1 << 60;

/// A journal in a file. It takes entries until a write fails.
#[derive(Drop)]
pub struct Journal<D: Disk> {
    disk: D,
    /// Where the closed gate stands.
    end: usize,
    /// Whether it takes entries: not once a write has failed, since then its gate may be open.
    is_open: bool,
}

impl<D: Disk> Model for Journal<D> {
    ghost use Rattle.journal.specs.JournalState.{JournalState};

    ghost Value = { JournalState D };

    ghost view = { λ journal. record { disk = journal.disk; end = journal.end; is_open = journal.is_open } };
}

impl<D: Disk> Journal<D> {
    ghost use Rattle.journal.specs.JournalState.{IsShut};
    ghost use Rattle.journal.specs.Settled.{IsSettled};

    /// A journal in a file whose closed gate stands at `end`, as `recover` finds it.
    pub fn new(disk: D, end: usize) -> Journal<D>
        ensures { result ≡ record { disk = disk; end = end; is_open = true } }
    {
        Journal {
            disk,
            end,
            is_open: true,
        }
    }

    /// Whether it takes entries. Once it does not, it has to be recovered from its file.
    pub fn is_open(&self) -> bool
        ensures { result ≡ self.now.is_open }
    {
        self.is_open
    }

    /// Its file.
    pub fn disk(&self) -> &D
        ensures { result.now ≡ self.now.disk }
    {
        &self.disk
    }

    /// Where its closed gate stands, in bytes from the start of the file.
    pub fn end(&self) -> usize
        ensures { result ≡ self.now.end }
    {
        self.end
    }

    /// Takes no entry any more.
    pub fn shut(&mut self)
        ensures { self.new ≡ record self.old { is_open = false } }
    {
        self.is_open = false;
    }

    /// Adds an entry. At `Ok` it is acknowledged: from then on each crash leaves a file that has it. Two syncs.
    ///
    /// After `Disk` the file stands for the entries from before, with this one or without, and the journal takes no
    /// entry any more; it has to be recovered from its file. After every other error nothing was written.
    pub fn append(&mut self, alloc: Global, entry: &[u8]) -> Result<(), JournalError>
        ensures acknowledged { OnOk result ((entries : List (List ℕ)) → IsSettled D.seen D.may_leave self.old entries →
            IsSettled D.seen D.may_leave self.new (entries ++ entry.now ∷ [])) }
        ensures opened { OnOk result ((self.old.is_open ≡ true) × (self.new.is_open ≡ true)) }
        ensures unwritten { IfErr result (λ e. IsFalse (is_of_disk e) → self.new ≡ self.old) }
        ensures failed { IfErr result (λ e. IsTrue (is_of_disk e) → (self.old.is_open ≡ true) ×
            (self.new.is_open ≡ false) × MoreFaults (D.faults self.old.disk) (D.faults self.new.disk)) }
        ensures shut { result ≡ Err journal_error.Shut → IsShut D.is_usable self.old }
        ensures too_long { result ≡ Err journal_error.TooLong → 2 ^ 32 ≤ length entry.now }
        ensures clean { D.is_clean self.new.disk ≡ D.is_clean self.old.disk }
        // Whatever the answer, a crash leaves the entries from before, with the new one or without.
        ensures crash { (entries : List (List ℕ)) → IsSettled D.seen D.may_leave self.old entries → (c : List ℕ) →
            D.may_leave self.new.disk c → IsBeforeOrAfter entries (entry.now ∷ []) c }
        ensures journal { Mixes D.is_mixing → (entries : List (List ℕ)) →
            IsSettled D.seen D.may_leave self.old entries → (c : List ℕ) → D.may_leave self.new.disk c → IsJournal c }
    {
        self.add(alloc, entry, &[])
    }

    /// Adds entries, all or none: one opening of a gate shows them all. At `Ok` they are acknowledged. Two syncs for
    /// all; none where there are no entries.
    ///
    /// After `Disk` the file stands for the entries from before, with all of these or with none, and the journal takes
    /// no entry any more; it has to be recovered from its file. After every other error nothing was written.
    pub fn append_all(&mut self, alloc: Global, entries: &[Vec<u8>]) -> Result<(), JournalError>
        ensures acknowledged { OnOk result ((before : List (List ℕ)) → IsSettled D.seen D.may_leave self.old before →
            IsSettled D.seen D.may_leave self.new (before ++ contents entries.now)) }
        ensures opened { OnOk result ((self.old.is_open ≡ true) × (self.new.is_open ≡ true)) }
        ensures unwritten { IfErr result (λ e. IsFalse (is_of_disk e) → self.new ≡ self.old) }
        ensures failed { IfErr result (λ e. IsTrue (is_of_disk e) → (self.old.is_open ≡ true) ×
            (self.new.is_open ≡ false) × MoreFaults (D.faults self.old.disk) (D.faults self.new.disk)) }
        ensures shut { result ≡ Err journal_error.Shut → IsShut D.is_usable self.old }
        ensures too_long { result ≡ Err journal_error.TooLong → AreTooLong (contents entries.now) }
        ensures clean { D.is_clean self.new.disk ≡ D.is_clean self.old.disk }
        // Whatever the answer, a crash leaves the entries from before, with all of the new ones or with none.
        ensures crash { (before : List (List ℕ)) → IsSettled D.seen D.may_leave self.old before → (c : List ℕ) →
            D.may_leave self.new.disk c → IsBeforeOrAfter before (contents entries.now) c }
        ensures journal { Mixes D.is_mixing → (before : List (List ℕ)) → IsSettled D.seen D.may_leave self.old before →
            (c : List ℕ) → D.may_leave self.new.disk c → IsJournal c }
    {
        if !self.is_open {
            return Err(JournalError::Shut);
        }
        let [first, others @ ..] = entries else {
            return Ok(());
        };
        self.add(alloc, first, others)
    }

    /// Takes all entries out. One sync; none where there are no entries.
    ///
    /// After `Disk` the file stands for the entries from before or for none, and the journal takes no entry any more;
    /// it has to be recovered from its file. After every other error nothing was written.
    pub fn clear(&mut self) -> Result<(), JournalError>
        ensures cleared { OnOk result ((entries : List (List ℕ)) → IsSettled D.seen D.may_leave self.old entries →
            IsSettled D.seen D.may_leave self.new []) }
        ensures opened { OnOk result ((self.old.is_open ≡ true) × (self.new.is_open ≡ true)) }
        ensures unwritten { IfErr result (λ e. IsFalse (is_of_disk e) → self.new ≡ self.old) }
        ensures failed { IfErr result (λ e. IsTrue (is_of_disk e) → (self.old.is_open ≡ true) ×
            (self.new.is_open ≡ false) × MoreFaults (D.faults self.old.disk) (D.faults self.new.disk)) }
        ensures shut { result ≡ Err journal_error.Shut → IsShut D.is_usable self.old }
        ensures clean { D.is_clean self.new.disk ≡ D.is_clean self.old.disk }
        // Whatever the answer, a crash leaves the entries from before, or none.
        ensures crash { (entries : List (List ℕ)) → IsSettled D.seen D.may_leave self.old entries → (c : List ℕ) →
            D.may_leave self.new.disk c → StandsFor c entries ⊎ StandsFor c [] }
        ensures journal { Mixes D.is_mixing → (entries : List (List ℕ)) →
            IsSettled D.seen D.may_leave self.old entries → (c : List ℕ) → D.may_leave self.new.disk c → IsJournal c }
    {
        if !self.is_ready() {
            return Err(JournalError::Shut);
        }
        if self.end == 0 {
            return Ok(());
        }
        match close_first(&mut self.disk) {
            Ok(()) => {
                self.end = 0;
                Ok(())
            }
            Err(e) => {
                self.shut();
                Err(JournalError::Disk(e))
            }
        }
    }

    /// Puts a generation and entries in the place of all that the journal has: its first entry is then the number
    /// `generation` in eight bytes, the highest first. Three syncs, two where it had no entries. With two files in
    /// turns this is how a journal is compacted: the other file stays as it is until this one has all.
    ///
    /// After `Disk` the file stands for the entries from before, for none, or for all of the new ones, and the journal
    /// takes no entry any more; it has to be recovered from its file. After another error it has those from before, or
    /// none.
    pub fn replace(
        &mut self,
        alloc: Global,
        generation: u64,
        entries: &[Vec<u8>],
    ) -> Result<(), JournalError>
        ensures replaced { OnOk result ((before : List (List ℕ)) → IsSettled D.seen D.may_leave self.old before →
            IsSettled D.seen D.may_leave self.new (header generation ∷ contents entries.now)) }
        ensures opened { OnOk result ((self.old.is_open ≡ true) × (self.new.is_open ≡ true)) }
        ensures kept { OnErr result ((self.new.is_open ≡ false) ⊎
            ((before : List (List ℕ)) → IsSettled D.seen D.may_leave self.old before →
            IsSettled D.seen D.may_leave self.new before ⊎ IsSettled D.seen D.may_leave self.new [])) }
        ensures clean { D.is_clean self.new.disk ≡ D.is_clean self.old.disk }
        // Whatever the answer, a crash leaves the entries from before, or none, or all of the new ones.
        ensures crash { (before : List (List ℕ)) → IsSettled D.seen D.may_leave self.old before → (c : List ℕ) →
            D.may_leave self.new.disk c → IsBeingReplaced before (header generation ∷ contents entries.now) c }
        ensures journal { Mixes D.is_mixing → (before : List (List ℕ)) → IsSettled D.seen D.may_leave self.old before →
            (c : List ℕ) → D.may_leave self.new.disk c → IsJournal c }
    {
        self.clear()?;
        self.add(alloc, &generation.to_be_bytes(), entries)?;
        Ok(())
    }

    /// Whether an entry could be written now.
    fn is_ready(&self) -> bool
        ensures ready { IsTrue result → (self.now.is_open ≡ true) × (self.now.end < 2 ^ 60) ×
            IsTrue (D.is_usable self.now.disk) }
        ensures shut { IsFalse result → IsShut D.is_usable self.now }
    {
        self.is_open && self.end < MAX_END && self.disk.may_be_used()
    }

    /// Adds these entries, all or none.
    fn add(&mut self, alloc: Global, first: &[u8], others: &[Vec<u8>]) -> Result<(), JournalError>
        ensures acknowledged { OnOk result ((entries : List (List ℕ)) → IsSettled D.seen D.may_leave self.old entries →
            IsSettled D.seen D.may_leave self.new (entries ++ first.now ∷ contents others.now)) }
        ensures opened { OnOk result ((self.old.is_open ≡ true) × (self.new.is_open ≡ true)) }
        ensures unwritten { IfErr result (λ e. IsFalse (is_of_disk e) → self.new ≡ self.old) }
        ensures failed { IfErr result (λ e. IsTrue (is_of_disk e) → (self.old.is_open ≡ true) ×
            (self.new.is_open ≡ false) × MoreFaults (D.faults self.old.disk) (D.faults self.new.disk)) }
        ensures shut { result ≡ Err journal_error.Shut → IsShut D.is_usable self.old }
        ensures too_long { result ≡ Err journal_error.TooLong → AreTooLong (first.now ∷ contents others.now) }
        ensures clean { D.is_clean self.new.disk ≡ D.is_clean self.old.disk }
        ensures crash { (entries : List (List ℕ)) → IsSettled D.seen D.may_leave self.old entries → (c : List ℕ) →
            D.may_leave self.new.disk c → IsBeforeOrAfter entries (first.now ∷ contents others.now) c }
        ensures journal { Mixes D.is_mixing → (entries : List (List ℕ)) →
            IsSettled D.seen D.may_leave self.old entries → (c : List ℕ) → D.may_leave self.new.disk c → IsJournal c }
    {
        if !self.is_ready() {
            return Err(JournalError::Shut);
        }
        if first.len() >= 1 << 32 {
            return Err(JournalError::TooLong);
        }
        if !are_small(others) {
            return Err(JournalError::TooLong);
        }
        let Ok(bytes) = behind_gate(alloc, first, others) else {
            return Err(JournalError::Memory);
        };
        if bytes.len() >= MAX_END {
            return Err(JournalError::TooLong);
        }
        match write(&mut self.disk, self.end, &bytes) {
            Ok(()) => {
                self.end += bytes.len();
                Ok(())
            }
            Err(e) => {
                self.shut();
                Err(JournalError::Disk(e))
            }
        }
    }
}

impl<D: OwnedDisk> Journal<D> {
    /// All operations of its file are done: none is owed. Nothing else of the journal changes, and neither does what a
    /// read of the file returns, nor what a crash leaves of it.
    pub fn operations_done(&mut self)
        ensures others { self.new ≡ record self.old { disk = self.new.disk } }
        ensures owed { D.OwnedDisk.owed self.new.disk ≡ [] }
        ensures name { D.OwnedDisk.name_of self.new.disk ≡ D.OwnedDisk.name_of self.old.disk }
        ensures seen { D.Disk.seen self.new.disk ≡ D.Disk.seen self.old.disk }
        ensures leaves { (c : List ℕ) → D.Disk.may_leave self.old.disk c → D.Disk.may_leave self.new.disk c }
        ensures crash { (c : List ℕ) → D.Disk.may_leave self.new.disk c → D.Disk.may_leave self.old.disk c }
        ensures usable { D.Disk.is_usable self.new.disk ≡ D.Disk.is_usable self.old.disk }
        ensures clean { D.Disk.is_clean self.new.disk ≡ D.Disk.is_clean self.old.disk }
        ensures faults { D.Disk.faults self.new.disk ≡ D.Disk.faults self.old.disk }
    {
        self.disk.operations_done();
    }
}
