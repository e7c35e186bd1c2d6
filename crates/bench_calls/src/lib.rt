//! The calls that the benchmarks measure, as C functions over the public calls of the crates below.
//!
//! Each function makes what it needs from bytes, then makes one call a number of times, and answers a number that says
//! what the calls came to; `WRONG` if the bytes are no input for it or memory was refused. Only the calls are in
//! a function whose name begins with `measured`, so that a tool that counts by functions sees them apart.
#![tactic(auto)]

mod access;
mod answers;
mod blocklist;
mod messages;
mod reply_sizes;
mod served;
mod updates;
mod zone;
mod zone_names;

/// The answer if a function's input is wrong, or memory was refused.
const WRONG: u64 = u64::MAX;
