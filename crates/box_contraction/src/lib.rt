//! The steps of one box of a paving: slabs at its faces in which no point fits are cut off, and
//! what is left is split or closed. The slabs are what a tree of contractors proposes, and then
//! eighths. Where pairs of rows are asked, they are what the deepest conflicts of pairs propose, some
//! times over.
#![tactic(auto)]

mod box_step;
mod closing;
mod faces;
mod laws;
mod may_cut;
mod proposal;
mod rounds;
mod target;
mod work;

pub use box_step::{BoxStep, BoxSteps};
pub use laws::{box_steps_exist, cuts_leave_no_eighth};
pub use work::work_on;
