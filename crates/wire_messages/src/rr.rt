//! What resource records are made of beside names: types, classes, data, signatures, and the records themselves.

pub mod dns_class;
pub mod key_sameness;
pub mod rdata;
pub mod record;
pub mod record_sameness;
pub mod record_type;
pub mod rr_key;
pub mod tsig;
