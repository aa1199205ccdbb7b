//! Laws of what a paving leaves undone: a box of which the true ranges make clear that nothing in
//! it fits, or that all of it does, is neither split nor left at the edge.
#![tactic(auto)]

mod laws;

pub use laws::{clear_boxes_are_shown, logs_leave_nothing_clear, runs_leave_nothing_clear};
