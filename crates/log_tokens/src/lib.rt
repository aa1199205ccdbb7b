//! The words of a log's lines, and the numbers, spans, points and satellites that they spell, each
//! in its one spelling.
#![tactic(auto)]

mod fields;
mod leading;
mod words;

pub use fields::{amount, count, place, satellite, skip, span, time};
pub use leading::{leading_amount, leading_count, leading_digit};
pub use words::{Rest, is_ended, number, word};
