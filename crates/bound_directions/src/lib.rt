//! The directions along which certified bounds are sought: vectors that are given, or so many azimuths at
//! the middle of a search box, and up and down.
#![tactic(auto)]

mod direction;
mod directions;
mod horizon;
mod parts;

pub use direction::Direction;
pub use directions::{Azimuths, Directions};
