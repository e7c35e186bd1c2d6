//! A journal of entries in one file: each is on the disk before it is acknowledged, whole or not at all. `host_file` has
//! a file for a library that opens none.
#![tactic(auto)]

mod endings;
mod error;
mod generations;
pub mod host_file;
mod journal;
pub mod laws;
mod reading;
mod recovering;
mod writing;

pub use endings::{Ending, ending_at};
pub use error::{JournalError, RecoverError};
pub use generations::{generation, is_newer};
pub use journal::Journal;
pub use reading::{Recovered, is_journal, read_entries};
pub use recovering::recover;
