//! A file of the operating system for a library that opens none: its contents stand in memory, and whoever owns the
//! file does to it what is noted here, in order.

mod file;
pub mod laws;
mod noting;
mod operation;
mod owned;

pub use file::HostFile;
pub use operation::Operation;
pub use owned::OwnedDisk;
