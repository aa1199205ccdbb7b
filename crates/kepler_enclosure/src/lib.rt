//! Kepler's equation (IS-GPS-200, table 20-IV) over intervals: every eccentric anomaly of every mean
//! anomaly and eccentricity is held.
#![tactic(auto)]

mod anomalies;

pub use anomalies::{GREATEST_ECCENTRICITY, eccentric};
