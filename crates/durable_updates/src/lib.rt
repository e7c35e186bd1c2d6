//! Dynamic updates (RFC 2136) that are on the disk before they are answered.
#![tactic(auto)]

mod batches;
mod compaction;
mod following;
mod handler;
mod holding;
pub mod laws;
mod recovering;
mod redoing;
mod snapshots;
mod updating;

pub use batches::{UpdateAnswer, update_all_durably, write_held};
pub use compaction::CompactError;
pub use handler::{JournalledZone, OpenError};
pub use holding::{HoldingZone, longest_journal, update_held};
pub use redoing::{RedoError, read_entry, redo};
pub use snapshots::{SnapshotError, read_record, recall, recall_to, snapshot};
pub use updating::update_durably;
