//! Walks that read in a log what an epoch kept.

ghost use Rattle.std.specs.Prelude.{◌≡◌, Some, IfOk, option_map};
ghost use Rattle.grid_model.specs.Boxes.{grid_box};
ghost use Rattle.paving_log.specs.CoverBoxes.{BodyFolds};
ghost use Rattle.paving_log.specs.Values.{block_of};
ghost use Rattle.sat_model.specs.Logs.{Body};

use epoch_selection::{Searches, Walk};
use grid_model::{Box3, NoMemory};
use paving_log::LogEpoch;
use std::alloc::Global;

/// A walk that can go on from a block of a log.
pub trait LogWalk<'a>: Walk<'a> {
    /// What an epoch that was searched in this root kept by its block, as far as the walk asks. A
    /// block that is paved has to have this root, and steps that fold.
    fn kept_in(
        &self,
        alloc: Global,
        root: &Box3,
        epoch: &LogEpoch,
    ) -> Result<Option<Box3>, NoMemory>
        requires root { Self.may_search self.now (grid_box root.now) }
        requires over { (body : Body) → (block_of epoch.now).body ≡ Some body
            → body.root ≡ grid_box root.now }
        requires folds { BodyFolds (block_of epoch.now).body }
        ensures kept { IfOk result (λ kept. option_map grid_box kept
            ≡ Self.keeps (grid_box root.now) (block_of epoch.now)) }
        ensures suits { IfOk result (λ kept. Self.may_keep self.now (option_map grid_box kept)) };
}

/// A receiver that stands still: no hull is formed.
impl<'a> LogWalk<'a> for Searches<'a> {
    fn kept_in(
        &self,
        _alloc: Global,
        _root: &Box3,
        _epoch: &LogEpoch,
    ) -> Result<Option<Box3>, NoMemory> {
        Ok(None)
    }
}
