//! Which satellites of an epoch are usable, what such a satellite is known by, and by which record
//! of the navigation file: seven tests in their order, and the choice from the whole list of
//! records.
#![tactic(auto)]

mod choice;
mod codes;
mod fresh;
mod judging;

pub use codes::{Measured, codes_in_range};
pub use judging::{Judgement, judge_satellite, use_of};
