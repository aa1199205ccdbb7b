//! What a receiver and a station observed of one satellite.

use gnss_model::{Sat, System};
use grid_model::Pos;
use usable_sats::Measured;

/// When a satellite's signal came, by the receiver's clock in ps since 1980-01-06 00:00:00 GPS
/// time, and the codes that were measured.
#[derive(Clone, Copy, Debug, PartialEq, Eq)]
pub struct Observation {
    pub tag: i128,
    pub codes: Measured,
}

/// A satellite that a receiver and a station observed, and where the station stands, in um.
#[derive(Clone, Copy, Debug, PartialEq, Eq)]
pub struct CommonSat {
    pub system: System,
    pub sat: Sat,
    pub receiver: Observation,
    pub station: Observation,
    pub place: Pos,
}
