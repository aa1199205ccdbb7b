//! Cutting a box at its faces.

ghost use Rattle.std.specs.Prelude.{◌≡◌, ◌+◌, ◌<◌, ◌≤◌, length, map};
ghost use Rattle.grid_model.specs.Boxes.{grid_box};
ghost use Rattle.relaxed_meet.specs.TestValues.{test_value};
ghost use Rattle.box_contraction.specs.Adding.{AddsCuts, step_value};
ghost use Rattle.box_contraction.specs.Cuts.{AreFacesCut, IsCutTo, all_faces};
ghost use Rattle.box_contraction.specs.Targets.{bounds_of};

use crate::box_step::{BoxStep, BoxSteps};
use crate::may_cut::may_cut;
use crate::target::Target;
use grid_model::Box3;
use relaxed_meet::BoxTest;
use sat_model::Step;
use subpaving::{left_by, slab_of};

/// Cuts the box at a face to this target, or leaves it where it may not be cut.
fn cut_face(
    test: &mut BoxTest,
    target: &Target,
    id: u32,
    face: u8,
    part: &mut Box3,
    steps: &mut BoxSteps,
)
    requires room { length steps.old.items < 1024 }
    ensures cut { AddsCuts (IsCutTo (test_value test.old) id (bounds_of target.now) face
        (grid_box part.old))
        (map step_value steps.old.items) (grid_box part.new) (map step_value steps.new.items) }
    ensures few { length steps.new.items ≤ length steps.old.items + 1 }
    ensures same { test_value test.new ≡ test_value test.old }
{
    let bound = target.bound(face, part);
    if !may_cut(test, face, bound, part) {
        return;
    }
    let slab = slab_of(part, face, bound);
    steps.push(BoxStep {
        step: Step::Cut { id, face, bound },
        part: slab,
    });
    *part = left_by(part, face, bound);
}

/// Cuts the box at each face in turn to this target.
pub fn cut_faces(
    test: &mut BoxTest,
    target: &Target,
    id: u32,
    part: &mut Box3,
    steps: &mut BoxSteps,
)
    requires room { length steps.old.items + 6 ≤ 1024 }
    ensures cut { AddsCuts (AreFacesCut (test_value test.old) id (bounds_of target.now) all_faces
        (grid_box part.old))
        (map step_value steps.old.items) (grid_box part.new) (map step_value steps.new.items) }
    ensures few { length steps.new.items ≤ length steps.old.items + 6 }
    ensures same { test_value test.new ≡ test_value test.old }
{
    for face in 0..6_u8 {
        cut_face(test, target, id, face, part, steps);
    }
}
