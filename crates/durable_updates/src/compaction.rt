//! A journal that is compacted into a second file.

ghost use Rattle.std.specs.Prelude.{◌≡◌, ◌⊎◌, IfSome, OnOk, false, true};
ghost use Rattle.durable_updates.specs.Compactions.{Compacts};
ghost use Rattle.journal.specs.JournalState.{JournalState};
ghost use Rattle.durable_updates.specs.Recorded.{IsDurable, IsNext};

use crate::snapshots::{SnapshotError, snapshot};
use hickory_store::updates::{UpdatableZoneHandler, Verifier};
use journal::host_file::OwnedDisk;
use journal::{Journal, JournalError};
use sqlite_disk::Disk;
use std::alloc::Global;
use std::mem;
use thiserror::Error;

/// Why a journal was not compacted.
#[derive(Debug, Drop, Error)]
pub enum CompactError {
    /// It was opened in one file, and has no second one.
    #[error("the journal has one file")]
    OneFile,
    /// Updates are held that are not written yet. Nothing was written.
    #[error("updates are held")]
    Held,
    /// The zone has no snapshot. Nothing was written.
    #[error("{0}")]
    Zone(SnapshotError),
    /// The snapshot was not written. After `Disk` the journal takes no entry any more, until it is recovered from its
    /// files.
    #[error("{0}")]
    Journal(JournalError),
}

/// The second file of a journal, and the generation that it has once the journal is compacted into it.
#[derive(Drop)]
pub(crate) struct Spare<D: Disk + Drop> {
    pub(crate) journal: Journal<D>,
    pub(crate) generation: u64,
}

/// Shuts a journal where the spare file takes no entry.
fn shut_with<D: Disk>(journal: &mut Journal<D>, spare: &Journal<D>)
    ensures { ((spare.now.is_open ≡ true) × (journal.new ≡ journal.old)) ⊎
        ((spare.now.is_open ≡ false) × (journal.new ≡ record journal.old { is_open = false })) }
{
    if spare.is_open() {
        return;
    }
    journal.shut();
}

/// Replaces the spare file by a snapshot of the zone. Where that is done, it is the journal's file from now on, and
/// what was the journal's is the spare one. A journal that takes no entry is left alone, and so is one of the last
/// generation.
pub(crate) fn compact<V: Verifier, D: Disk>(
    zone: &UpdatableZoneHandler<V>,
    journal: &mut Journal<D>,
    spare: &mut Journal<D>,
    alloc: Global,
    generation: u64,
) -> Result<(), CompactError>
    ensures { Compacts D.Disk zone.now.zone generation (record { journal = journal.old; spare = spare.old }) result
        (record { journal = journal.new; spare = spare.new }) }
{
    if !journal.is_open() {
        return Err(CompactError::Journal(JournalError::Shut));
    }
    if !spare.is_open() {
        return Err(CompactError::Journal(JournalError::Shut));
    }
    if generation == u64::MAX {
        return Err(CompactError::Journal(JournalError::Shut));
    }
    let entries = match snapshot(zone, alloc) {
        Ok(entries) => entries,
        Err(e) => return Err(CompactError::Zone(e)),
    };
    match spare.replace(alloc, generation, &entries) {
        Ok(()) => {
            mem::swap(journal, spare);
            Ok(())
        }
        Err(e) => {
            shut_with(journal, spare);
            Err(CompactError::Journal(e))
        }
    }
}

/// Compacts a journal as `compact` does where there is a spare file, which then has the next generation to give.
pub(crate) fn compact_into<V: Verifier, D: Disk + Drop>(
    zone: &UpdatableZoneHandler<V>,
    journal: &mut Journal<D>,
    spare: &mut Option<Spare<D>>,
    alloc: Global,
) -> Result<(), CompactError>
    ensures kept { IsDurable D.Disk zone.now.zone journal.old →
        IfSome spare.old (λ s. IsNext D.Disk journal.old s.journal s.generation) →
        IsDurable D.Disk zone.now.zone journal.new ×
        IfSome spare.new (λ s. IsNext D.Disk journal.new s.journal s.generation) }
    ensures ok { OnOk result ((journal.old.is_open ≡ true) × (journal.new.is_open ≡ true)) }
    ensures shut { journal.old.is_open ≡ false → journal.new.is_open ≡ false }
{
    let Some(spare) = spare else {
        return Err(CompactError::OneFile);
    };
    compact(zone, journal, &mut spare.journal, alloc, spare.generation)?;
    spare.generation = spare.generation.saturating_add(1);
    Ok(())
}

/// All operations of the spare file, if there is one, are done.
pub(crate) fn spare_done<D: OwnedDisk + Drop>(spare: &mut Option<Spare<D>>)
    ensures { (journal : JournalState D) → IfSome spare.old (λ s. IsNext D.Disk journal s.journal s.generation) →
        IfSome spare.new (λ s. IsNext D.Disk journal s.journal s.generation) }
{
    if let Some(spare) = spare {
        spare.journal.operations_done();
    }
}
