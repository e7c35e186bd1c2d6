//! A zone handler that keeps names from being resolved: names on its lists are answered with a sinkhole address.

mod answers;
mod config;
mod config_sameness;
mod entries;
mod handler;
mod lines;
mod reader;
mod report;

pub use config::{BlocklistConfig, BlocklistConsultAction};
pub use config_sameness::{action_comparisons, config_comparisons};
pub use handler::{AddError, BlocklistZoneHandler};
pub use lines::ListLine;
pub use reader::{CountedReader, ListReader};
pub use report::ListReport;
