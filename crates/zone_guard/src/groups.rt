//! Whether the boxes that an epoch keeps lie in pieces or outside all of them, box by box, as far as
//! they lie within its bounds.

ghost use Rattle.std.specs.Prelude.{◌≡◌, ◌↔◌, ◌<◌, ◌*◌, IsTrue, map, take, drop};
ghost use Rattle.grid_model.specs.Boxes.{grid_box};
ghost use Rattle.zone_guard.specs.GroupAnswers.{AreOutOfAll, LieInOne, LiesInOne, IsGroupAnswer};
ghost use Rattle.zone_guard.specs.Planes.{plane_values};
ghost use Rattle.zone_guard.specs.WatchValues.{group_pieces};

use crate::pieces::Group;
use crate::planes::HalfSpace;
use crate::prisms::{are_shut_out, is_enclosed};
use crate::zone::ZoneAnswer;
use grid_model::Box3;

/// The sides of the piece at a place.
fn piece(group: &Group, place: u32) -> &[HalfSpace]
    requires { place < group.now.sizes.pieces }
    ensures { result.now ≡ take group.now.sizes.each (drop (place * group.now.sizes.each)
        group.now.sides.items) }
{
    let each = group.sizes.each as usize;
    let (_, from) = group.sides.split_at(place as usize * each);
    let (here, _) = from.split_at(each);
    here
}

/// Whether what the bounds leave of the boxes lies beyond each piece.
fn are_out_of_all(bounds: &[HalfSpace], group: &Group, boxes: &[Box3]) -> bool
    ensures { IsTrue result ↔ AreOutOfAll (plane_values bounds.now) (group_pieces group.now)
        (map grid_box boxes.now) }
{
    for place in 0..group.sizes.pieces {
        if !are_shut_out(bounds, piece(group, place), boxes) {
            return false;
        }
    }
    true
}

/// Whether what the bounds leave of the box lies in one of the pieces.
fn lies_in_one(bounds: &[HalfSpace], group: &Group, part: &Box3) -> bool
    ensures { IsTrue result ↔ LiesInOne (plane_values bounds.now) (group_pieces group.now)
        (grid_box part.now) }
{
    for place in 0..group.sizes.pieces {
        if is_enclosed(bounds, piece(group, place), part) {
            return true;
        }
    }
    false
}

/// Whether what the bounds leave of each box lies in one of the pieces.
fn lie_in_one(bounds: &[HalfSpace], group: &Group, boxes: &[Box3]) -> bool
    ensures { IsTrue result ↔ LieInOne (plane_values bounds.now) (group_pieces group.now)
        (map grid_box boxes.now) }
{
    for part in boxes {
        if !lies_in_one(bounds, group, part) {
            return false;
        }
    }
    true
}

/// What these boxes within these bounds say of the group.
pub fn group_answer(bounds: &[HalfSpace], group: &Group, boxes: &[Box3]) -> ZoneAnswer
    ensures { IsGroupAnswer (plane_values bounds.now) (group_pieces group.now)
        (map grid_box boxes.now) result }
{
    if are_out_of_all(bounds, group, boxes) {
        ZoneAnswer::Outside
    } else if lie_in_one(bounds, group, boxes) {
        ZoneAnswer::Inside
    } else {
        ZoneAnswer::Open
    }
}
