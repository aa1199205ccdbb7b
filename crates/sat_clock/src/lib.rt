//! The mean motion of a satellite, and its clock: how far it is off and when a signal was sent, as
//! intervals that hold every value of the equations of IS-GPS-200 for every value of a record's
//! fields.
#![tactic(auto)]

mod clock;
mod drift;
mod existence;
mod motion;
mod relativity;
mod times;

pub use clock::{Clock, correction, correction_of};
pub use existence::{clock_exists, system_clock_exists};
pub use motion::{mean_motion, motion_of};
