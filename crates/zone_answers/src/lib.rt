//! What a zone has for a name and a type (RFC 1034 section 4.3.2, RFC 4592, RFC 6672).
#![tactic(auto)]

pub mod additionals;
pub mod chains;
pub mod cuts;
pub mod features;
pub mod find;
pub mod index;
pub mod owners;
pub mod redirections;
pub mod view;
mod wildcards;

pub use features::{Features, Lengths, features_of, with_records};
pub use owners::are_owners;
pub use view::ZoneView;
