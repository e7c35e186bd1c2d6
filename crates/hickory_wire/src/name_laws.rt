//! Laws of names: how they stand in bytes, and how they are compared.

pub use wire_names::rr::domain::name_sameness::name_comparisons;
pub use wire_reading::serialize::reading::name_laws::name_readings;
