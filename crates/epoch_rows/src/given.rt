//! The block that was given last.

use grid_model::Box3;
use rinex_obs::ObsEpoch;

/// The block that was given last: its epoch, its root, and whether it has few satellites.
#[derive(Clone, Copy)]
pub struct Given<'a> {
    pub epoch: &'a ObsEpoch,
    pub root: Box3,
    pub few: bool,
}
