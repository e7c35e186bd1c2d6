//! What a signed zone shows beside its answers (RFC 4035 section 3.1): the NSEC RRsets by which a resolver checks what
//! an answer denies, and the signatures of RRsets. All is lent from the zone.
#![tactic(auto)]

pub mod denials;
mod enclosers;
pub mod laws;
pub mod nsec_sets;
pub mod signatures;
mod wildcards;
pub mod worked;
