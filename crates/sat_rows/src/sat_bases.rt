//! What the rows of an epoch are formed from.

ghost use Rattle.std.specs.Prelude.{◌≡◌, Some, IfOk, IfErr};
ghost use Rattle.grid_model.specs.Boxes.{grid_box};
ghost use Rattle.grid_model.specs.SearchBoxes.{IsSearchBox};
ghost use Rattle.gnss_model.specs.Delays.{AreDelays};
ghost use Rattle.sat_rows.specs.Bases.{IsBaseOf};
ghost use Rattle.sat_rows.specs.Meanings.{Meaning};

use crate::bases::Base;
use gnss_model::{Delays, Skip};
use grid_model::Box3;
use rinex_obs::{ObsEpoch, SatObs};

/// Says of the satellites of an epoch which are usable and what is allowed of them, and gives the
/// bases that their rows are formed from.
pub trait SatBases {
    /// What it says of them.
    ghost meaning: { Self → Meaning };

    /// The base of a satellite that is usable in the search box, or why it isn't.
    fn base_in(&self, seen: &SatObs, epoch: &ObsEpoch, root: &Box3) -> Result<Base, Skip>
        requires root { IsSearchBox (grid_box root.now) }
        ensures base { IfOk result (λ base. IsBaseOf (meaning self.now) (grid_box root.now)
            epoch.now.tag seen.now base) }
        ensures skip { IfErr result (λ skip. (meaning self.now).judged (grid_box root.now)
            epoch.now.tag seen.now (Some skip)) };

    /// The spans of the delays straight up, in um, which are mapped and added to the bounds of the
    /// error.
    fn delays(&self) -> Delays
        ensures value { result ≡ (meaning self.now).delays }
        ensures within { AreDelays result };
}
