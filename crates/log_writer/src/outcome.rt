//! What came of the steps of a paving.

use crate::in_use::NewRows;
use epoch_report::Counts4;
use grid_model::Box3;

/// The counts of the steps, the hull of the boxes that they kept, and the rows that were renewed last
/// among them.
#[derive(Drop)]
pub(crate) struct Outcome {
    pub counts: Counts4,
    pub kept: Option<Box3>,
    pub renewed: Option<NewRows>,
}
