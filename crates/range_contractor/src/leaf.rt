//! What one satellite leaves of a box.

ghost use Rattle.std.specs.Prelude.{IsTrue, option_map, pos, ◌≤ℤ◌};
ghost use Rattle.grid_model.specs.Boxes.{grid_box, span_side};
ghost use Rattle.sat_model.specs.Trees.{Sat, IsLeafSized};
ghost use Rattle.sat_model.specs.Proposals.{IsTied};
ghost use Rattle.sat_model.specs.TightFaces.{near_leaf, far_leaf};
ghost use Rattle.range_contractor.specs.Ranges.{greatest_possible};
ghost use Rattle.range_contractor.specs.Views.{leaf_value};

use crate::boxes::{box_of, side_of};
use crate::ranges::wanted;
use crate::sides::side_kept;
use crate::squares::{difference_squares, ends_of, range_squares};
use crate::tree::Leaf;
use fix_interval::Interval;
use grid_model::{Box3, Span};
use relaxed_meet::{far_square_of, near_square_of};

/// The least box that holds each point of the box that the satellite allows with some offset of the
/// clock span, but for the slack at the faces. Each axis is contracted by the given sides of the
/// two others, so that each face is tight across the given box. Where all ranges to the box are
/// wanted it is left as it is.
pub(crate) fn leaf_part<I: Interval>(leaf: &Leaf<I>, part: &Box3, clock: &Span) -> Option<Box3>
    requires { IsLeafSized (leaf_value I.low I.high leaf.now) }
    ensures { IsTied (Sat (leaf_value I.low I.high leaf.now)) I.GRAIN I.SLACK
        (span_side clock.now) (grid_box part.now) (option_map grid_box result) }
{
    let Some(ranges) = wanted(&leaf.range, &leaf.err, clock) else {
        return None;
    };
    if are_all_wanted(leaf, part, &ranges) {
        return Some(*part);
    }
    let squares = range_squares::<I>(&ranges);
    let x = side_of(part, 0);
    let y = side_of(part, 1);
    let z = side_of(part, 2);
    let x_squares = difference_squares(leaf.x, &x);
    let y_squares = difference_squares(leaf.y, &y);
    let z_squares = difference_squares(leaf.z, &z);
    let Some(x_kept) = side_kept(leaf.x, &x, squares, y_squares, z_squares) else {
        return None;
    };
    let Some(y_kept) = side_kept(leaf.y, &y, squares, x_squares, z_squares) else {
        return None;
    };
    let Some(z_kept) = side_kept(leaf.z, &z, squares, x_squares, y_squares) else {
        return None;
    };
    Some(box_of(&x_kept, &y_kept, &z_kept))
}

/// Whether all ranges from a place of the leaf to a point of the box are wanted, told without a
/// root.
fn are_all_wanted<I: Interval>(leaf: &Leaf<I>, part: &Box3, ranges: &Span) -> bool
    requires leaf { IsLeafSized (leaf_value I.low I.high leaf.now) }
    requires natural { pos 0 ≤ℤ ranges.now.lo }
    requires possible { ranges.now.hi ≤ℤ pos greatest_possible }
    ensures low { IsTrue result
        → ranges.now.lo ≤ℤ pos (near_leaf (leaf_value I.low I.high leaf.now) (grid_box part.now)) }
    ensures high { IsTrue result
        → pos (far_leaf (leaf_value I.low I.high leaf.now) (grid_box part.now)) ≤ℤ ranges.now.hi }
{
    let x = ends_of(leaf.x);
    let y = ends_of(leaf.y);
    let z = ends_of(leaf.z);
    let most = u128::from(ranges.hi as u64);
    if far_square_of(&x, &y, &z, part) > most * most {
        return false;
    }
    let least = u128::from(ranges.lo as u64);
    least * least <= near_square_of(&x, &y, &z, part)
}
