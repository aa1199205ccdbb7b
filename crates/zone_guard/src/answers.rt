//! Whether the boxes that an epoch keeps lie in a zone that is a box, as far as they lie within its
//! bounds.

ghost use Rattle.std.specs.Prelude.{◌≡◌, ◌↔◌, IsTrue, IfOk, map};
ghost use Rattle.grid_model.specs.Boxes.{grid_box, side_at};
ghost use Rattle.paving_log.specs.CoverBoxes.{BodyFolds, cover_of};
ghost use Rattle.paving_log.specs.Values.{block_of};
ghost use Rattle.zone_guard.specs.Answers.{AreApart, IsAnswer, IsOutOf};
ghost use Rattle.zone_guard.specs.Beyond.{IsSoOfOne};
ghost use Rattle.zone_guard.specs.Bounds.{bounds_of};
ghost use Rattle.zone_guard.specs.Ends.{SidesMeet, AreMet, shared_box};
ghost use Rattle.zone_guard.specs.Planes.{LiesBeyond, plane_values};

use crate::bounds::bounds_in;
use crate::corners::lies_beyond;
use crate::faces::faces;
use crate::planes::HalfSpace;
use crate::prisms::are_enclosed;
use crate::zone::{Zone, ZoneAnswer};
use grid_model::{Box3, NoMemory, Pos};
use paving_log::{LogEpoch, cover_boxes};
use std::alloc::Global;

/// Whether the sides of two boxes on an axis share a number.
fn meets_on(part: &Box3, zone: &Box3, axis: u8) -> bool
    ensures { IsTrue result
        ↔ SidesMeet (side_at axis (grid_box part.now)) (side_at axis (grid_box zone.now)) }
{
    let (low, high) = part.side(axis);
    let (zone_low, zone_high) = zone.side(axis);
    if low > zone_high {
        return false;
    }
    if zone_low > high {
        return false;
    }
    true
}

/// Whether two boxes share a grid point.
fn meets(part: &Box3, zone: &Box3) -> bool
    ensures { IsTrue result ↔ AreMet (grid_box part.now) (grid_box zone.now) }
{
    meets_on(part, zone, 0) && meets_on(part, zone, 1) && meets_on(part, zone, 2)
}

/// The box of the grid points that two boxes share.
fn shared(part: &Box3, zone: &Box3) -> Box3
    requires { AreMet (grid_box part.now) (grid_box zone.now) }
    ensures { grid_box result ≡ shared_box (grid_box part.now) (grid_box zone.now) }
{
    let lo = Pos {
        x: part.lo.x.max(zone.lo.x),
        y: part.lo.y.max(zone.lo.y),
        z: part.lo.z.max(zone.lo.z),
    };
    let hi = Pos {
        x: part.hi.x.min(zone.hi.x),
        y: part.hi.y.min(zone.hi.y),
        z: part.hi.z.min(zone.hi.z),
    };
    Box3 { lo, hi }
}

/// Whether the box lies beyond one of the bounds.
fn is_past_some(bounds: &[HalfSpace], part: &Box3) -> bool
    ensures { IsTrue result
        ↔ IsSoOfOne (LiesBeyond (grid_box part.now)) (plane_values bounds.now) }
{
    for bound in bounds {
        if lies_beyond(bound, part) {
            return true;
        }
    }
    false
}

/// Whether the bounds leave no grid point that the box shares with the zone.
fn is_out_of(bounds: &[HalfSpace], zone: &Box3, part: &Box3) -> bool
    ensures { IsTrue result
        ↔ IsOutOf (plane_values bounds.now) (grid_box zone.now) (grid_box part.now) }
{
    if !meets(part, zone) {
        return true;
    }
    is_past_some(bounds, &shared(part, zone))
}

/// Whether the bounds leave no grid point that one of the boxes shares with the zone.
fn are_apart(bounds: &[HalfSpace], zone: &Box3, boxes: &[Box3]) -> bool
    ensures { IsTrue result
        ↔ AreApart (plane_values bounds.now) (grid_box zone.now) (map grid_box boxes.now) }
{
    for part in boxes {
        if !is_out_of(bounds, zone, part) {
            return false;
        }
    }
    true
}

/// What these boxes within these bounds say of the zone.
pub fn answer_of(bounds: &[HalfSpace], zone: &Box3, boxes: &[Box3]) -> ZoneAnswer
    ensures { IsAnswer (plane_values bounds.now) (grid_box zone.now) (map grid_box boxes.now)
        result }
{
    if are_apart(bounds, zone, boxes) {
        ZoneAnswer::Outside
    } else if are_enclosed(bounds, &faces(zone), boxes) {
        ZoneAnswer::Inside
    } else {
        ZoneAnswer::Open
    }
}

/// What the boxes that the steps of an epoch close inside or at the edge, and its bounds, say of the
/// zone. The steps are to fold, as `cover_boxes` has it.
pub fn answer(alloc: Global, zone: &Zone, epoch: &LogEpoch) -> Result<ZoneAnswer, NoMemory>
    requires { BodyFolds (block_of epoch.now).body }
    ensures { IfOk result (IsAnswer (bounds_of (block_of epoch.now).body)
        (grid_box zone.now.part) (cover_of (block_of epoch.now).body)) }
{
    let bounds = bounds_in(alloc, epoch)?;
    let boxes = cover_boxes(alloc, epoch)?;
    Ok(answer_of(&bounds, &zone.part, &boxes))
}
