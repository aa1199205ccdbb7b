//! The rows of an epoch's satellites: spans that hold whatever the equations of IS-GPS-200 allow of
//! a satellite at every grid point of the search box, or why the satellite isn't used.
#![tactic(auto)]

mod bases;
mod bounds;
mod epochs;
mod gps;
mod growth;
mod lines;
mod places;
mod receivers;
mod sat_bases;
mod signals;
mod source;
mod spans;

pub use bases::{Base, base_of};
pub use elevation_mapping::mapped;
pub use epochs::{rows, rows_by, rows_of};
pub use gps::GpsRows;
pub use growth::grown;
pub use lines::{EpochRows, SatLine};
pub use sat_bases::SatBases;
pub use source::RowSource;
pub use spans::{renewed, span_of};
