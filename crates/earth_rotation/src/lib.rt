//! The turn of the earth while a signal is under way (IS-GPS-200, 20.3.3.4.3.3.2 and 20.3.3.4.3.4):
//! a satellite's place when it sent, in the earth-fixed frame of the time of reception.
#![tactic(auto)]

mod angles;
mod existence;
mod ranges;
mod seen;
mod turns;

pub use existence::turn_exists;
pub use ranges::range;
pub use seen::seen_range;
pub use turns::turned;
