//! Whole messages, and questions with their names in lower case.

pub mod lower_query;
pub mod message;
