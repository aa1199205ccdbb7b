//! The steps of an epoch as a log has them: the lines of a text, from which each step is read when
//! it is asked for.
#![tactic(auto)]

mod ahead;
mod fields;
mod first_line;
mod kinds;
mod leading_steps;
mod lines;
mod listed;
mod names;
mod steps;
mod write;

pub use ahead::StepsAhead;
pub use fields::step_fields;
pub use kinds::is_kept;
pub use leading_steps::leading_step;
pub use names::StepName;
pub use steps::LoggedSteps;
pub use write::{Line, push_number, push_numbers, push_three, step_line};
