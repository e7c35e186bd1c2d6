//! Names that are blocked.

pub use hickory_store::blocklist::{
    AddError, BlocklistConfig, BlocklistConsultAction, BlocklistZoneHandler, CountedReader,
    ListLine, ListReader, ListReport,
};
