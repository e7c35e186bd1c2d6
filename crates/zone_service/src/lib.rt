//! A server of zones as a C library without a socket: whoever owns the sockets hands it each message with the address
//! that it came from, and sends what it writes. `host/zone_service.h` is its interface.
//!
//! C holds a server as its address. Each call has it for itself until it returns; servers share nothing, so that each
//! thread or process may have one of its own.
#![tactic(auto)]

mod exports;
mod journals;
mod notifying;
mod transfers;
