//! Navigation files of RINEX 3: the broadcast ephemerides of GPS satellites, or of those and of
//! Galileo satellites, with their numbers as exact decimals.
#![tactic(auto)]

mod elements;
mod field;
mod line;
mod nav;
mod places;
mod read;
mod record;
mod source;
mod take;
mod week;

pub use nav::Nav;
pub use read::{read_nav, read_nav_both, read_nav_of};
pub use record::NavRecord;
