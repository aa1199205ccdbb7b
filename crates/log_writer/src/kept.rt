//! The hull of the boxes that an epoch keeps.

ghost use Rattle.std.specs.Prelude.{◌≡◌};
ghost use Rattle.subpaving.specs.LiveValues.{box_option};
ghost use Rattle.sat_model.specs.KeptHulls.{hull_after};
ghost use Rattle.grid_model.specs.Boxes.{grid_box};

use grid_model::Box3;
use sat_model::Step;

/// The hull with the box of one step more.
pub fn hull_with_step(hull: Option<Box3>, step: &Step, part: &Box3) -> Option<Box3>
    ensures { box_option result
        ≡ hull_after (box_option hull) (record { step = step.now; part = grid_box part.now }) }
{
    match step {
        Step::Inside { .. } | Step::Edge { .. } => match hull {
            None => Some(*part),
            Some(so_far) => Some(so_far.hull(part)),
        },
        Step::Cut { .. } | Step::Split { .. } | Step::Outside { .. } => hull,
    }
}
