//! The satellite's place by its broadcast ephemeris (IS-GPS-200, table 20-IV): every place that the
//! table's equations allow, each within one unit of its printed value, is held.
#![tactic(auto)]

mod directions;
mod ellipse;
mod existence;
mod latitude;
mod places;
mod plane;
mod space;

pub use existence::orbit_exists;
pub use places::place;
