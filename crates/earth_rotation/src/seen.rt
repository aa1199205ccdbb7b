//! The range over which a signal comes from a satellite's place when it sent.

ghost use Rattle.std.specs.Prelude.{ℕ, ◌≡◌, ℤ, pos, true};
ghost use Rattle.grid_model.specs.Boxes.{grid_box, box_holds};
ghost use Rattle.gnss_model.specs.Turn.{Turn};
ghost use Rattle.grid_model.specs.declared.boxes.Pos.{Pos};
ghost use Rattle.fix_interval.specs.Factors.{Holds, HasEnds, HasAmount};
ghost use Rattle.fix_interval.specs.Places.{HoldsPlace, PlaceEnds, PlaceAmount};
ghost use Rattle.earth_rotation.specs.TurnSizes.{turn_reach, near_reach, narrow_width};
ghost use Rattle.earth_rotation.specs.RoundSizes.{range_amount, seen_width};

use crate::ranges::range;
use crate::turns::turned_over;
use fix_interval::{Exact, Place};
use grid_model::Box3;

/// Every range in um over which a signal comes from a member of `unturned`, the place when it was
/// sent, to a grid point of the box. The coordinates of `unturned` are within 6 * 10^13 um. For
/// coordinates at most 1,000 um wide and within 52,300 km the range to a single point is at most
/// 1,779 um wide.
pub fn seen_range(unturned: Place, part: &Box3) -> Exact
    requires { PlaceAmount turn_reach unturned }
    ensures holds { (p : Pos) (x y z tx ty : ℤ) (r : ℕ) → box_holds (grid_box part.now) p ≡ true →
        HoldsPlace unturned x y z → Turn p x y z tx ty r → Holds result (pos r) }
    ensures amount { HasAmount range_amount result }
    ensures narrow { PlaceEnds near_reach narrow_width unturned →
        HasEnds range_amount (seen_width (grid_box part.now)) result }
{
    let first = turned_over(unturned, range(unturned, part));
    let second = turned_over(unturned, range(first, part));
    range(second, part)
}
