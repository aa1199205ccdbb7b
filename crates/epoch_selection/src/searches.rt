//! Epochs with the box in which each is searched.

ghost use Rattle.grid_model.specs.Boxes.{grid_box};
ghost use Rattle.grid_model.specs.SearchBoxes.{IsSearchBox};

use crate::selection::Selection;
use crate::walk::Walk;
use grid_model::Box3;
use rinex_obs::ObsEpoch;

/// The selected ones among the epochs that are left of a file, each to be searched in the same box,
/// which lies within 8,600 km on each axis and has no side of more than 200 km.
#[derive(Clone, Copy)]
pub struct Searches<'a> {
    pub left: &'a [ObsEpoch],
    pub selection: Selection,
    pub root: Box3,
    pub ghost search_box: { IsSearchBox (grid_box root) },
}

impl<'a> Searches<'a> {
    ghost use Rattle.std.specs.Prelude.{◌≡◌, [], MatchOption};
    ghost use Rattle.epoch_selection.specs.Searches.{epochs_left, IsTaken};

    /// Takes the next epoch; none is left where it answers none.
    pub fn next(&mut self) -> Option<&'a ObsEpoch>
        ensures { MatchOption result (epochs_left self.old ≡ [])
            (λ epoch. IsTaken self.old epoch.now self.new) }
    {
        match self.selection.first_of(self.left) {
            Some(i) => {
                let epoch = &self.left[i];
                self.left = &self.left[i + 1..];
                Some(epoch)
            }
            None => None,
        }
    }
}

/// A receiver that stands still: the walk isn't told anything.
impl<'a> Walk<'a> for Searches<'a> {
    ghost use Rattle.std.specs.Prelude.{None};
    ghost use Rattle.epoch_selection.specs.Searches.{epochs_left, searches_left};

    ghost epochs = { λ walk. epochs_left walk };

    ghost searches = { λ walk blocks. searches_left walk };

    ghost behind = { λ walk tag kept blocks. searches_left walk };

    ghost keeps = { λ root block. None };

    ghost may_search = { λ walk root. Unit {0} };

    ghost may_keep = { λ walk kept. Unit {0} };

    ghost ready = { λ walk. Unit {0} };

    fn next(&mut self) -> Option<(&'a ObsEpoch, Box3)> {
        let epoch = Searches::next(self)?;
        Some((epoch, self.root))
    }

    fn go_on(&mut self, _epoch: &ObsEpoch, _kept: Option<Box3>) {}
}
