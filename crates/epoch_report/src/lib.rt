//! The lines of a report: the epochs of a paving, the boxes and slabs of each, and a total. They
//! take no memory.
#![tactic(auto)]

mod counts;
mod lengths;
mod lines;

pub use counts::Counts4;
pub use lengths::metres;
pub use lines::{epoch_text, step_text, total_text};
pub use log_lines::Line;
