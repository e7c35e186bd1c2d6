//! Resource records: names, types, classes, data.

pub mod rdata;

pub use hickory_wire::{
    DNSClass, LowerName, Name, RData, Record, RecordType, RrKey, TSigResponseContext,
    TSigResponseKind, key_comparisons,
};
