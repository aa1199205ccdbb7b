//! Rounds of cuts over the faces of a box.

ghost use Rattle.std.specs.Prelude.{◌≡◌, ◌+◌, ◌≤◌, length, map};
ghost use Rattle.grid_model.specs.Boxes.{grid_box};
ghost use Rattle.relaxed_meet.specs.TestValues.{test_value};
ghost use Rattle.box_contraction.specs.Adding.{AddsCuts, step_value};
ghost use Rattle.box_contraction.specs.Cuts.{AreEighthCuts};

use crate::box_step::BoxSteps;
use crate::faces::cut_faces;
use crate::target::Target;
use grid_model::Box3;
use relaxed_meet::BoxTest;

/// Cuts eighths off the box, round by round over its faces, until a round makes no cut. At most
/// 1,008 cuts are made.
pub fn cut_rounds(test: &mut BoxTest, id: u32, part: &mut Box3, steps: &mut BoxSteps)
    requires room { length steps.old.items + 1014 ≤ 1024 }
    ensures cut { AddsCuts (AreEighthCuts (test_value test.old) id (grid_box part.old))
        (map step_value steps.old.items) (grid_box part.new) (map step_value steps.new.items) }
    ensures few { length steps.new.items ≤ length steps.old.items + 1008 }
    ensures same { test_value test.new ≡ test_value test.old }
{
    'rounds: loop {
        let before = steps.len();
        cut_faces(test, &Target::Eighths, id, part, steps);
        if steps.len() == before {
            return;
        }
    }
}
