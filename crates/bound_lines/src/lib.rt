//! The two kinds of line that state a certified bound: its half-space, and each of the sums of rows
//! that show it.
//!
//! A line is read as a value exactly where it is the value's one spelling. All numbers are within 64
//! bits.
#![tactic(auto)]

mod bound_head;
mod fields;
mod lines;
mod write;

pub use bound_head::BoundHead;
pub use fields::{bound_fields, sum_fields};
pub use lines::{bound_at, sum_at};
pub use write::{bound_line, sum_line};
