//! Zone files (RFC 1035 section 5.1), read, beside records and messages as text.
#![tactic(auto)]

mod error;
mod zone_file;

pub use error::{FileRefusal, IncludedError, ZoneFileError, ZoneFileFault};
pub use record_text::{TextError, TextFault, read_data, read_name, read_record};
pub use text_print::{FlagsText, MessageText};
pub use zone_file::fault_word::FaultWord;
pub use zone_file::faults::{MOST_FAULTS, zone_file_faults};
pub use zone_file::include::{FileOpener, MOST_LEVELS, read_zone_with_files};
pub use zone_file::{read_zone_bytes, read_zone_file};
