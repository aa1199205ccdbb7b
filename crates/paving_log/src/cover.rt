//! The boxes that are left of a search box.

ghost use Rattle.std.specs.Prelude.{◌≡◌, map, option_to_list, IfOk};
ghost use Rattle.grid_model.specs.Boxes.{grid_box};
ghost use Rattle.sat_model.specs.Fold.{first_boxes, taken_by, pieces};
ghost use Rattle.sat_model.specs.KeptHulls.{hull_with, kept_hull};
ghost use Rattle.subpaving.specs.Folding.{StepsFold};
ghost use Rattle.subpaving.specs.LiveValues.{box_option, live_value};
ghost use Rattle.step_lines.specs.Steps.{steps_of};
ghost use Rattle.paving_log.specs.CoverBoxes.{BodyFolds, kept_parts, cover_of};
ghost use Rattle.paving_log.specs.Values.{block_of};

use crate::log::LogEpoch;
use grid_model::{Box3, NoMemory};
use sat_model::Step;
use std::alloc::{AllocError, Global};
use step_lines::LoggedSteps;
use subpaving::Live;

/// The box that the step closes inside or at the edge.
fn kept_by(live: &Live, step: &Step) -> Option<Box3>
    ensures { option_to_list (box_option result)
        ≡ kept_parts (taken_by (live_value live.now) step.now) }
{
    match step {
        Step::Inside { id, .. } | Step::Edge { id, .. } => live.box_of(*id),
        Step::Cut { .. } | Step::Split { .. } | Step::Outside { .. } => None,
    }
}

/// The boxes that the steps close inside or at the edge, in order of closing.
fn boxes_kept(alloc: Global, root: &Box3, steps: &LoggedSteps) -> Result<Vec<Box3>, AllocError>
    requires { StepsFold (first_boxes (grid_box root.now)) (steps_of steps.now) }
    ensures { IfOk result (λ boxes. map grid_box boxes.items
        ≡ kept_parts (pieces (grid_box root.now) (steps_of steps.now))) }
{
    let mut live = Live::of_root(alloc, root)?;
    let mut boxes = Vec::new(alloc);
    for step in steps.ahead() {
        if let Some(part) = kept_by(&live, &step) {
            boxes.push(part)?;
        }
        live.take(&step)?;
    }
    Ok(boxes)
}

/// The hull with one box more.
fn hull_with(hull: Option<Box3>, part: &Box3) -> Option<Box3>
    ensures { box_option result ≡ hull_with (box_option hull) (grid_box part.now) }
{
    match hull {
        None => Some(*part),
        Some(so_far) => Some(so_far.hull(part)),
    }
}

/// The hull of the boxes that the steps close inside or at the edge, and none where there are none.
/// Want of memory is the only error.
pub fn kept_hull(
    alloc: Global,
    root: &Box3,
    steps: &LoggedSteps,
) -> Result<Option<Box3>, AllocError>
    requires { StepsFold (first_boxes (grid_box root.now)) (steps_of steps.now) }
    ensures { IfOk result (λ hull. box_option hull
        ≡ kept_hull (pieces (grid_box root.now) (steps_of steps.now))) }
{
    let mut live = Live::of_root(alloc, root)?;
    let mut hull = None;
    for step in steps.ahead() {
        if let Some(part) = kept_by(&live, &step) {
            hull = hull_with(hull, &part);
        }
        live.take(&step)?;
    }
    Ok(hull)
}

/// The boxes that the steps of an epoch close inside or at the edge, in order of closing, and none
/// where the epoch has no search box. Each step is to speak of a box that is live when it comes,
/// each cut is to take something off its box and to leave something, and each split is to divide
/// two grid points or more: all this is so in a log that is judged to be right. Want of memory is
/// the only error.
pub fn cover_boxes(alloc: Global, epoch: &LogEpoch) -> Result<Vec<Box3>, NoMemory>
    requires { BodyFolds (block_of epoch.now).body }
    ensures { IfOk result (λ boxes. map grid_box boxes.items
        ≡ cover_of (block_of epoch.now).body) }
{
    match &epoch.body {
        Some(body) => Ok(boxes_kept(alloc, &body.root, &body.steps)?),
        None => Ok(Vec::new(alloc)),
    }
}
