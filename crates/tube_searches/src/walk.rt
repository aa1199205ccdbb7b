//! The walk of a moving receiver.

ghost use Rattle.std.specs.Prelude.{◌≡◌};
ghost use Rattle.epoch_selection.specs.Searches.{epochs_left};
ghost use Rattle.grid_model.specs.Boxes.{grid_box};
ghost use Rattle.moving_tube.specs.Endings.{before_value};
ghost use Rattle.moving_tube.specs.Hulls.{HullLies};
ghost use Rattle.moving_tube.specs.Roots.{handed_on, kept_of};
ghost use Rattle.sat_model.specs.Contractors.{LiesIn};
ghost use Rattle.subpaving.specs.LiveValues.{box_option};
ghost use Rattle.tube_searches.specs.Tubes.{tube_value, with_kept, tube_searches, IsInside};

use crate::tube::Tube;
use epoch_selection::Walk;
use grid_model::{Box3, NoMemory};
use moving_tube::{Kept, cover_hull};
use paving_log::LogEpoch;
use paving_log_check::LogWalk;
use rinex_obs::ObsEpoch;
use std::alloc::Global;

impl<'a> Tube<'a> {
    /// What an epoch that kept this hands on to the next: nothing, where it kept no box and the
    /// track begins anew behind it.
    fn handed_on(&self, epoch: &ObsEpoch, kept: Option<Box3>) -> Option<Kept>
        ensures { before_value result
            ≡ handed_on self.now.restart epoch.now.tag (box_option kept) }
    {
        match kept {
            None if self.restart => None,
            _ => Some(Kept {
                tag: epoch.tag,
                part: kept,
            }),
        }
    }
}

impl<'a> Walk<'a> for Tube<'a> {
    ghost epochs = { λ walk. epochs_left walk.searches };

    ghost searches = { λ walk blocks. tube_searches (tube_value walk) blocks };

    ghost behind = { λ walk tag kept blocks.
        tube_searches (with_kept (tube_value walk) tag kept) blocks };

    ghost keeps = { λ root block. kept_of root block };

    ghost may_search = { λ walk root. LiesIn root (grid_box walk.searches.root) };

    ghost may_keep = { λ walk kept. HullLies kept (grid_box walk.searches.root) };

    ghost ready = { λ walk. IsInside (tube_value walk) };

    fn next(&mut self) -> Option<(&'a ObsEpoch, Box3)> {
        Tube::next(self)
    }

    fn go_on(&mut self, epoch: &ObsEpoch, kept: Option<Box3>) {
        self.before = self.handed_on(epoch, kept);
    }
}

/// It goes on from the hull of the boxes that an epoch kept, or from its root, where it has few
/// satellites.
impl<'a> LogWalk<'a> for Tube<'a> {
    fn kept_in(
        &self,
        alloc: Global,
        root: &Box3,
        epoch: &LogEpoch,
    ) -> Result<Option<Box3>, NoMemory> {
        match epoch.body {
            None => Ok(Some(*root)),
            Some(_) => cover_hull(alloc, epoch),
        }
    }
}
