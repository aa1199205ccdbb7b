//! Satellites and their broadcast ephemerides, and, in `specs/`, the equations of IS-GPS-200 from a
//! measured code to a satellite's place, range and corrected pseudorange, for GPS and Galileo.
//!
//! Lengths are whole numbers of micrometres (um), times are picoseconds (ps).
#![tactic(auto)]

mod delays;
mod earth_model;
mod elements;
mod record_bounds;
mod satellites;
mod spares;
mod systems;

pub use delays::{Delays, Layer};
pub use earth_model::EARTH_RATE;
pub use elements::Elements;
pub use record_bounds::{
    AGEING_BOUND, ANGLE_BOUND, ANGLE_SWING_BOUND, DELAY_BOUND, DRIFT_BOUND, ECCENTRICITY_BOUND,
    GREATEST_ROOT_A, LEAST_ROOT_A, OFFSET_BOUND, RADIUS_SWING_BOUND, RATE_BOUND, WEEK,
};
pub use satellites::{GalileoUse, Sat, Signal, Skip};
pub use spares::{err_spare, spare};
pub use systems::{Message, System};
