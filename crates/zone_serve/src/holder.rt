//! Zones with journals, which hold the updates of lines that are at hand together.

ghost use Rattle.std.specs.Prelude.{◌≡◌, IfOk, IsTrue};
ghost use Rattle.zone_serve.specs.Journals.{apexes_of};

use crate::fault::Fault;
use crate::groups::Holder;
use crate::journals::Journalled;
use hickory_server::proto::LowerName;
use served_zones::handler::{Handler, Zones};
use served_zones::holding::{hold_all, settle_all};
use signed_server::LeftToServer;
use sqlite_disk::Disk;
use std::alloc::{AllocError, Global};

/// How many updates at hand are worth holding.
const FEWEST_UPDATES: usize = 2;

/// The zones that have journals.
#[derive(Drop)]
pub struct JournalHolder {
    /// The names of their apexes, in the order of the journals.
    apexes: Vec<LowerName>,
    /// Whether updates of lines that are at hand together are held.
    in_groups: bool,
}

impl JournalHolder {
    /// The zones of these journals, which hold no updates unless `in_groups`.
    pub fn of(
        alloc: Global,
        journals: &[Journalled<'_>],
        in_groups: bool,
    ) -> Result<JournalHolder, AllocError>
        ensures apexes { IfOk result (λ holder. holder.apexes.items ≡ apexes_of journals.now) }
        ensures groups { IfOk result (λ holder. holder.in_groups ≡ in_groups) }
    {
        let mut apexes = Vec::new(alloc);
        for journal in journals {
            apexes.push(journal.apex().clone()?)?;
        }
        Ok(JournalHolder { apexes, in_groups })
    }
}

/// Whether the message of a line is an update, by the opcode in its third byte (RFC 1035 section 4.1.1, RFC 2136
/// section 1.3). What it says of a line that is no message does not matter.
// No clause: it decides only when updates are written, and a group may be served either way.
fn is_update(line: &[u8]) -> bool {
    let mut words = line
        .split(|b| b.is_ascii_whitespace())
        .filter(|word| !word.is_empty());
    match words.nth(2) {
        Some([_, _, _, _, b'2', low, ..]) => matches!(low, b'8' | b'9' | b'a'..=b'f' | b'A'..=b'F'),
        _ => false,
    }
}

/// Whether so many lines are updates that they are worth holding.
// No clause: as for `is_update`.
fn are_worth(lines: &[Vec<u8>]) -> bool {
    lines
        .iter()
        .filter(|line| is_update(line))
        .nth(FEWEST_UPDATES - 1)
        .is_some()
}

impl<D: Disk + Drop> Holder<LeftToServer, Handler<D>> for JournalHolder {
    ghost use Rattle.served_zones.specs.Holding.{AllBegin, AllSettle};

    ghost begins = { λ holder old new. IsTrue holder.in_groups × AllBegin holder.apexes.items old new };

    ghost settles = { λ holder. AllSettle holder.apexes.items };

    fn begin(
        &self,
        alloc: Global,
        catalog: &mut Zones<D>,
        lines: &[Vec<u8>],
    ) -> Result<bool, Fault> {
        if !self.in_groups || self.apexes.is_empty() || !are_worth(lines) {
            return Ok(false);
        }
        hold_all(alloc, catalog, &self.apexes);
        Ok(true)
    }

    fn settle(&self, alloc: Global, catalog: &mut Zones<D>) -> Result<(), Fault> {
        match settle_all(alloc, catalog, &self.apexes) {
            None => Ok(()),
            Some(place) => Err(Fault::Unwritten { place }),
        }
    }
}
