//! The hull of the boxes that an epoch keeps.

ghost use Rattle.std.specs.Prelude.{◌≡◌, map, IfOk};
ghost use Rattle.subpaving.specs.LiveValues.{box_option};
ghost use Rattle.paving_log.specs.CoverBoxes.{BodyFolds, cover_of};
ghost use Rattle.paving_log.specs.Values.{block_of};
ghost use Rattle.grid_model.specs.Boxes.{grid_box};
ghost use Rattle.moving_tube.specs.Hulls.{hull_with, hull_of};

use grid_model::{Box3, NoMemory};
use paving_log::{LogEpoch, cover_boxes};
use std::alloc::Global;

/// The hull with one box more.
fn with_box(hull: Option<Box3>, part: &Box3) -> Option<Box3>
    ensures { box_option result ≡ hull_with (box_option hull) (grid_box part.now) }
{
    match hull {
        None => Some(*part),
        Some(so_far) => Some(so_far.hull(part)),
    }
}

/// The hull of these boxes, none where there are none.
fn hull_of(boxes: &[Box3]) -> Option<Box3>
    ensures { box_option result ≡ hull_of (map grid_box boxes.now) }
{
    let mut hull = None;
    for part in boxes {
        hull = with_box(hull, part);
    }
    hull
}

/// The hull of the boxes that the steps of an epoch close inside or at the edge, and none where
/// there are none. Its steps are to fold, as `cover_boxes` has it.
pub fn cover_hull(alloc: Global, epoch: &LogEpoch) -> Result<Option<Box3>, NoMemory>
    requires { BodyFolds (block_of epoch.now).body }
    ensures { IfOk result (λ hull. box_option hull
        ≡ hull_of (cover_of (block_of epoch.now).body)) }
{
    let boxes = cover_boxes(alloc, epoch)?;
    Ok(hull_of(&boxes))
}
