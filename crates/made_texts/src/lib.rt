//! Texts of navigation files, observation files and settings, which their readers accept: the files
//! of a receiver that is made up.
#![tactic(auto)]

mod ephemeris;
mod field_number;
mod fields;
mod nav;
mod obs;
mod sat_codes;
mod settings;

pub use ephemeris::Ephemeris;
pub use field_number::{FieldNumber, ZERO};
pub use nav::{nav_is_accepted, nav_text};
pub use obs::{obs_is_accepted, obs_text};
pub use sat_codes::{EpochCodes, SatCode};
pub use settings::{settings_are_accepted, settings_text};
