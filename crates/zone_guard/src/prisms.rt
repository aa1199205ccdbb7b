//! Whether the boxes that an epoch keeps lie in a prism or outside it, as far as they lie within its
//! bounds.

ghost use Rattle.std.specs.Prelude.{◌↔◌, IsTrue, map};
ghost use Rattle.grid_model.specs.Boxes.{grid_box};
ghost use Rattle.zone_guard.specs.Planes.{plane_values};
ghost use Rattle.zone_guard.specs.PrismAnswers.{IsShutOut, IsEnclosed, AreShutOut, AreEnclosed};
ghost use Rattle.zone_guard.specs.PrismAnswers.{IsPrismAnswer};

use crate::beyond::{is_beyond, opposite};
use crate::planes::HalfSpace;
use crate::zone::ZoneAnswer;
use grid_model::Box3;

/// Whether what the bounds leave of the box lies beyond one of the planes.
fn is_shut_out(bounds: &[HalfSpace], sides: &[HalfSpace], part: &Box3) -> bool
    ensures { IsTrue result
        ↔ IsShutOut (plane_values bounds.now) (plane_values sides.now) (grid_box part.now) }
{
    for side in sides {
        if is_beyond(bounds, part, side) {
            return true;
        }
    }
    false
}

/// Whether it lies behind each of the planes.
pub fn is_enclosed(bounds: &[HalfSpace], sides: &[HalfSpace], part: &Box3) -> bool
    ensures { IsTrue result
        ↔ IsEnclosed (plane_values bounds.now) (plane_values sides.now) (grid_box part.now) }
{
    for side in sides {
        if !is_beyond(bounds, part, &opposite(side)) {
            return false;
        }
    }
    true
}

/// Whether what the bounds leave of each box lies beyond one of the planes.
pub fn are_shut_out(bounds: &[HalfSpace], sides: &[HalfSpace], boxes: &[Box3]) -> bool
    ensures { IsTrue result
        ↔ AreShutOut (plane_values bounds.now) (plane_values sides.now) (map grid_box boxes.now) }
{
    for part in boxes {
        if !is_shut_out(bounds, sides, part) {
            return false;
        }
    }
    true
}

/// Whether what the bounds leave of each box lies behind all planes.
pub fn are_enclosed(bounds: &[HalfSpace], sides: &[HalfSpace], boxes: &[Box3]) -> bool
    ensures { IsTrue result
        ↔ AreEnclosed (plane_values bounds.now) (plane_values sides.now) (map grid_box boxes.now) }
{
    for part in boxes {
        if !is_enclosed(bounds, sides, part) {
            return false;
        }
    }
    true
}

/// What these boxes within these bounds say of the prism with these sides.
pub fn prism_answer(bounds: &[HalfSpace], sides: &[HalfSpace], boxes: &[Box3]) -> ZoneAnswer
    ensures { IsPrismAnswer (plane_values bounds.now) (plane_values sides.now)
        (map grid_box boxes.now) result }
{
    if are_shut_out(bounds, sides, boxes) {
        ZoneAnswer::Outside
    } else if are_enclosed(bounds, sides, boxes) {
        ZoneAnswer::Inside
    } else {
        ZoneAnswer::Open
    }
}
