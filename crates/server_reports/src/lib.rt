//! What a server reports to its operator: counts of what it has done, in the text in which monitoring reads them, and
//! lines of a log with queries and what was sent in reply. No byte of a message is in such a line except letters,
//! digits, `-`, `_` and `*`: all other bytes of a name are written by their digits, so that no message makes a line of
//! its own.
#![tactic(auto)]

mod counters;
pub mod laws;
mod lines;
mod log;
mod names;
mod telling;
mod words;

pub use counters::{Counters, Unanswered};
pub use lines::put_query_line;
pub use log::QueryLog;
pub use telling::exposition;
