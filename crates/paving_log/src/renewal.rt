//! Rows that are renewed among the steps of an epoch.

use grid_model::Box3;
use sat_model::Row;

/// Rows over a part of the search box, by which boxes are tested from there on.
#[derive(Debug, Drop)]
pub struct Renewal {
    /// The number of steps before it.
    pub at: u32,
    pub part: Box3,
    pub rows: Vec<Row>,
}
