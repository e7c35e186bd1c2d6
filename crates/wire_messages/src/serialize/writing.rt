//! Names and numbers in full, and the room that records take.

pub mod full_form;
pub mod record_room;
