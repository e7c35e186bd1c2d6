//! Small types that keep memory: octets, few or many, lists, a value on the heap, and what they show of themselves;
//! bytes read as numbers.

pub mod boxed;
pub mod debug;
pub mod items;
pub mod octets;
pub mod same_bytes;
pub mod short_octets;
pub mod wire;
pub mod words;
