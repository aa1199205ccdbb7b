//! A station, which is a second receiver at a known place, and which of its epochs goes with one
//! of the receiver.
#![tactic(auto)]

mod nearest;
mod station;

pub use station::KnownStation;
