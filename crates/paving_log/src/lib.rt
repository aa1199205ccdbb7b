//! The log of a paving, and its rows alone: the value that a text is read as, and the one text of a
//! value.
#![tactic(auto)]

mod bounds;
mod closing_lines;
mod cover;
mod entries;
mod events;
mod lines;
mod log;
mod own_tests;
mod read;
mod renewal;
mod take;
mod texts;

pub use cover::{cover_boxes, kept_hull};
pub use entries::rows_among;
pub use log::{Body, Bound, Log, LogEpoch, LogError};
pub use own_tests::{
    EPOCH_DIFFERS, LineFault, SATELLITE_DIFFERS, first_repeat, is_later, own_fault, rows_in, suits,
};
pub use renewal::Renewal;
pub use sat_model::SatEntry;
pub use texts::{read_log, read_rows};
