//! What the boxes that an epoch keeps, and its bounds, say of a zone or a direction.

ghost use Rattle.std.specs.Prelude.{map};
ghost use Rattle.grid_model.specs.Boxes.{grid_box};
ghost use Rattle.zone_guard.specs.Findings.{IsFinding};
ghost use Rattle.zone_guard.specs.Planes.{plane_values};
ghost use Rattle.zone_guard.specs.WatchValues.{form_value};

use crate::answers::answer_of;
use crate::found::Finding;
use crate::groups::group_answer;
use crate::planes::HalfSpace;
use crate::prisms::prism_answer;
use crate::reaches::reach_along;
use crate::watch::{Form, Watch};
use grid_model::Box3;

/// What these boxes say, as far as they lie within these bounds: of a zone whether each of them lies
/// in it, or in one of its pieces, or none meets it; and of a direction the least and the greatest
/// product of it and a point of the boxes, in um times its length.
pub fn found_in(watch: &Watch, bounds: &[HalfSpace], boxes: &[Box3]) -> Finding
    ensures { IsFinding (plane_values bounds.now) (form_value watch.now.form)
        (map grid_box boxes.now) result }
{
    match &watch.form {
        Form::Box(part) => Finding::Zone(answer_of(bounds, part, boxes)),
        Form::Prism(sides) => Finding::Zone(prism_answer(bounds, sides, boxes)),
        Form::Group(group) => Finding::Zone(group_answer(bounds, group, boxes)),
        Form::Reach(along) => Finding::Reach(reach_along(along, boxes)),
    }
}
