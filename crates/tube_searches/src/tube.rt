//! Epochs with the boxes in which a moving receiver is searched.

ghost use Rattle.std.specs.Prelude.{◌≤◌};
ghost use Rattle.moving_tube.specs.Reach.{fastest};

use epoch_selection::Searches;
use grid_model::Box3;
use moving_tube::{Kept, root_behind};
use rinex_obs::ObsEpoch;

/// The selected ones among the epochs that are left of a file, and the search box of all of them. A
/// receiver that makes at most so many mm in a second is searched where it may have come from what
/// the epoch before kept.
#[derive(Clone, Copy)]
pub struct Tube<'a> {
    pub searches: Searches<'a>,
    pub speed: u32,
    /// Whether it begins anew in the search box behind an epoch that kept no box.
    pub restart: bool,
    pub before: Option<Kept>,
    pub ghost fast: { speed ≤ fastest },
}

impl<'a> Tube<'a> {
    ghost use Rattle.std.specs.Prelude.{◌≡◌, MatchOption};
    ghost use Rattle.log_tokens.specs.Fields.{IsTime};
    ghost use Rattle.subpaving.specs.LiveValues.{box_option};
    ghost use Rattle.moving_tube.specs.Hulls.{HullLies};
    ghost use Rattle.moving_tube.specs.Roots.{root_for};
    ghost use Rattle.grid_model.specs.Boxes.{grid_box};
    ghost use Rattle.tube_searches.specs.Tubes.{tube_value, IsInside, IsOver, IsTaken};

    /// The root of the next epoch, at this time; none where the receiver is lost.
    fn root_for(&self, tag: i128) -> Option<Box3>
        requires { IsTime tag }
        ensures root { IsInside (tube_value self.now) → box_option result
            ≡ root_for self.now.speed (grid_box self.now.searches.root)
            (tube_value self.now).before tag }
        ensures lies { HullLies (box_option result) (grid_box self.now.searches.root) }
    {
        match self.before {
            None => Some(self.searches.root),
            Some(before) => {
                let part = before.part?;
                let search = &self.searches.root;
                root_behind(&part, self.speed, before.tag, tag, search)
            }
        }
    }

    /// Takes the next epoch and its root. Where it answers none, none is left, or the receiver is
    /// lost; this and the root are as said where what the epoch before kept lies in the search box.
    pub fn next(&mut self) -> Option<(&'a ObsEpoch, Box3)>
        ensures { MatchOption result (IsInside (tube_value self.old) → IsOver (tube_value self.old))
            (λ found. IsTaken (tube_value self.old) found.0.now (grid_box found.1)
            (tube_value self.new)) }
    {
        let mut searches = self.searches;
        let epoch = searches.next()?;
        let root = self.root_for(epoch.tag)?;
        self.searches = searches;
        Some((epoch, root))
    }
}
