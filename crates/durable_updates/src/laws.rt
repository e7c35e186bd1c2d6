//! Laws of the definitions, each the contract of a function with nothing to do.

ghost use Rattle.std.specs.Prelude.{◌≡◌, ◌++◌, ◌∷◌, [], List, ℕ};
ghost use Rattle.hickory_base.specs.zone_store.ZoneAnswers.{MemoryZone};
ghost use Rattle.hickory_base.specs.zone_store.ZoneSets.{zone_records};
ghost use Rattle.hickory_store.specs.updates.Identity.{SameZone};
ghost use Rattle.hickory_store.specs.updates.UpdateLaws.{HasOneSoa, HoldsIn};
ghost use Rattle.durable_updates.specs.CompactedRuns.{CompactedRunsAreKept};
ghost use Rattle.durable_updates.specs.Compactions.{CompactionIsKept, fresh};
ghost use Rattle.durable_updates.specs.Held.{HeldAreABatch, UnwrittenAreABatch};
ghost use Rattle.durable_updates.specs.Redone.{Redone, RedoesOne};
ghost use Rattle.durable_updates.specs.Runs.{RunsAreKept};
ghost use Rattle.durable_updates.specs.Snapshots.{IsSnapshot, Recalls};

use hickory_store::updates::Verifier;
use hickory_store::updates::laws::identities;
use hickory_wire::record_comparisons;
use sqlite_disk::Disk;

/// Entries and one more that is done after them are done as one list.
pub fn one_more()
    ensures { (entries : List (List ℕ)) (entry : List ℕ) (old between new : MemoryZone) → Redone entries old between →
        RedoesOne entry between new → Redone (entries ++ entry ∷ []) old new }
{}

/// Entries make one zone of a zone that has one SOA at its apex: whoever does them again gets the same records, with
/// the same serial, and one SOA.
pub fn redone_once()
    ensures records { (entries : List (List ℕ)) (base new other : MemoryZone) → HoldsIn HasOneSoa base →
        Redone entries base new → Redone entries base other →
        SameZone (zone_records new.sets) (zone_records other.sets) }
    ensures soa { (entries : List (List ℕ)) (base new : MemoryZone) → HoldsIn HasOneSoa base → Redone entries base new →
        HoldsIn HasOneSoa new }
{
    identities();
    record_comparisons();
}

/// The entries of a file, be it compacted or not, make one zone of a zone that has one SOA at its apex; and those of a
/// file that was just compacted make the zone that it was compacted from.
pub fn recalled_once()
    ensures records { (entries : List (List ℕ)) (base new other : MemoryZone) → HoldsIn HasOneSoa base →
        Recalls entries base new → Recalls entries base other →
        SameZone (zone_records new.sets) (zone_records other.sets) }
    ensures compacted { (generation : ℕ) (written : List (List ℕ)) (base zone new : MemoryZone) →
        IsSnapshot written zone → Recalls (fresh generation written) base new →
        SameZone (zone_records new.sets) (zone_records zone.sets) }
    ensures soa { (entries : List (List ℕ)) (base new : MemoryZone) → HoldsIn HasOneSoa base →
        Recalls entries base new → HoldsIn HasOneSoa new }
{
    identities();
    record_comparisons();
}

/// While a journal is compacted, a crash at any moment leaves the old file or the new one to count, and either makes
/// the zone that was compacted.
pub fn compaction_is_kept<D: Disk>()
    ensures { CompactionIsKept D.Disk }
{
    identities();
    record_comparisons();
}

/// A process serves a zone with its journal, ends at any moment, and is started again, as often as you like: on the
/// requests that it answers, those that it refuses and those in which a crash comes, with a disk that fails or does
/// not. At each start it recovers, of each life before, all updates that were acknowledged, in their order, and behind
/// them at most the one that was in doubt, whole or not at all; the zone is the one that these make of the first zone.
pub fn runs_are_kept<V: Verifier, D: Disk>()
    ensures { RunsAreKept V.Verifier D.Disk }
{}

/// A process serves a zone with a journal in two files by turns, which is compacted now and then; it ends at any
/// moment, within a compaction too, and is started again, as often as you like. At each start the server has the zone
/// that the acknowledged updates of all lives make of the first zone, in their order, and behind those of each life at
/// most what was in doubt, whole or not at all, up to the order of its records.
pub fn compacted_runs_are_kept<V: Verifier, D: Disk>()
    ensures { CompactedRunsAreKept V.Verifier D.Disk }
{
    identities();
    record_comparisons();
}

/// Updates that are held and then written together are one batch of a run: so `runs_are_kept` and
/// `compacted_runs_are_kept` speak of them too. Where they are not written, and nobody is answered, that is a batch
/// which is not written.
pub fn held_are_a_batch<V: Verifier, D: Disk>()
    ensures written { HeldAreABatch V.Verifier D.Disk }
    ensures unwritten { UnwrittenAreABatch V.Verifier D.Disk }
{}
