//! A server of zones that is kept across calls, whoever owns the sockets: the library in C and `zoned` are made of it.
//!
//! A [`service::Service`] has zones, keys, rules and limits, and is set by calls. [`told`] has what becomes of a message
//! or of a stream, in numbers; [`counting`] and [`limiting`] what is counted of it, and which replies are sent.
#![tactic(auto)]

pub mod answering;
pub mod counting;
pub mod frames;
pub mod handle;
pub mod journals;
pub mod laws;
pub mod limiting;
pub mod logging;
pub mod notifying;
pub mod service;
pub mod settings;
pub mod told;
pub mod transfers;
pub mod updates;
pub mod worked;
