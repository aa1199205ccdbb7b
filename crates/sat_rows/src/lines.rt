//! What becomes of the satellites of an epoch.

use crate::bases::Base;
use gnss_model::{Sat, Skip};
use sat_model::Row;

/// A satellite's row, or why it isn't used.
#[derive(Clone, Copy, Debug, PartialEq, Eq)]
pub enum SatLine {
    Usable(Row),
    Skipped { sat: Sat, skip: Skip },
}

/// One line for each satellite of an epoch, in its order, how many are usable, and the base of each
/// of these.
#[derive(Debug, Drop)]
pub struct EpochRows {
    pub lines: Vec<SatLine>,
    pub usable: u32,
    pub bases: Vec<Base>,
}
