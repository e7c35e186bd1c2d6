//! Domain names: their labels, how they are kept, compared, hashed and spelled.

pub mod compare;
pub mod labels;
pub mod lower_name;
pub mod name;
pub mod name_display;
pub mod name_sameness;
pub mod name_text;
pub mod order_key;
