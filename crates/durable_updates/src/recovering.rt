//! Two files that a journal is in by turns.

ghost use Rattle.std.specs.Prelude.{◌≡◌, ◌⊎◌, ◌+◌, ◌^◌, IfErr, IfOk, IsTrue};
ghost use Rattle.sqlite_disk.specs.Disk.{Only};
ghost use Rattle.durable_updates.specs.Recorded.{IsHandedBack, IsRefused};
ghost use Rattle.durable_updates.specs.Recovering.{AreFound, counting};
ghost use Rattle.journal.specs.Errors.{is_refusal};
ghost use Rattle.journal.specs.Generations.{generation_of};
ghost use Rattle.journal.specs.Read.{contents};

use journal::{RecoverError, Recovered, generation, is_newer, recover};
use sqlite_disk::Disk;
use std::alloc::Global;

/// What was found in two files, and which of them counts.
#[derive(Drop)]
pub(crate) struct TwoRecovered {
    pub(crate) first: Recovered,
    pub(crate) second: Recovered,
    /// Whether the second one counts: its generation is higher.
    pub(crate) is_second: bool,
}

impl TwoRecovered {
    /// The entries that count.
    pub(crate) fn entries(&self) -> &[Vec<u8>]
        ensures { result.now ≡ (counting self.now).items }
    {
        if self.is_second {
            &self.second.entries
        } else {
            &self.first.entries
        }
    }

    /// The generation that a compacted file has next: one more than that of the entries that count, or the last one.
    pub(crate) fn next_generation(&self) -> u64
        ensures { (result ≡ generation_of (contents (counting self.now).items) + 1) ⊎ (result + 1 ≡ 2 ^ 64) }
    {
        generation(self.entries()).saturating_add(1)
    }
}

/// Recovers two files.
pub(crate) fn recover_two<D: Disk>(
    alloc: Global,
    first: &mut D,
    second: &mut D,
) -> Result<TwoRecovered, RecoverError>
    requires usable { IsTrue (D.is_usable first.old) × IsTrue (D.is_usable second.old) }
    requires restarted { Only (D.seen first.old) (D.may_leave first.old) ×
        Only (D.seen second.old) (D.may_leave second.old) }
    ensures found { IfOk result (λ found. AreFound D.Disk first.old second.old found first.new second.new) }
    ensures handed_back { IsHandedBack D.Disk first.old first.new × IsHandedBack D.Disk second.old second.new }
    ensures refused { IfErr result (λ e. IsTrue (is_refusal e) → IsRefused D.Disk first.old first.new ⊎
        IsRefused D.Disk second.old second.new) }
{
    let found = recover(alloc, first)?;
    let other = recover(alloc, second)?;
    let is_second = is_newer(&other.entries, &found.entries);
    Ok(TwoRecovered {
        first: found,
        second: other,
        is_second,
    })
}
