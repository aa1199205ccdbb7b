//! The ranges between a place and the points of a box.

ghost use Rattle.std.specs.Prelude.{ℕ, ◌≡◌, ℤ, pos, ◌-ℤ◌, ◌≤ℤ◌, true};
ghost use Rattle.grid_model.specs.Boxes.{grid_box, box_holds};
ghost use Rattle.grid_model.specs.Ranges.{range_to};
ghost use Rattle.grid_model.specs.Sizes.{IsBoxSize};
ghost use Rattle.grid_model.specs.declared.boxes.Pos.{Pos};
ghost use Rattle.fix_interval.specs.Factors.{Holds, HasEnds, HasAmount};
ghost use Rattle.fix_interval.specs.Places.{HoldsPlace, PlaceEnds, PlaceAmount};
ghost use Rattle.earth_rotation.specs.RoundSizes.{turned_reach, range_amount, range_width};

use fix_interval::{Exact, ExactArea, Interval, Place, squared_distance};
use grid_model::Box3;

/// The numbers of a side, as an interval.
fn side(lo: i64, hi: i64) -> Exact
    requires { lo ≤ℤ hi }
    ensures low { result.lo ≡ lo }
    ensures high { result.hi ≡ hi }
{
    Exact {
        lo: i128::from(lo),
        hi: i128::from(hi),
    }
}

/// The points of the box, as a place.
fn place_of(part: &Box3) -> Place
    ensures x_low { result.x.lo ≡ part.now.lo.x }
    ensures x_high { result.x.hi ≡ part.now.hi.x }
    ensures y_low { result.y.lo ≡ part.now.lo.y }
    ensures y_high { result.y.hi ≡ part.now.hi.y }
    ensures z_low { result.z.lo ≡ part.now.lo.z }
    ensures z_high { result.z.hi ≡ part.now.hi.z }
{
    Place {
        x: side(part.lo.x, part.hi.x),
        y: side(part.lo.y, part.hi.y),
        z: side(part.lo.z, part.hi.z),
    }
}

/// From the least to the greatest difference of a member of `x` and a number of a box's side.
fn offsets(x: Exact, side: Exact) -> Exact
    requires x_size { HasAmount turned_reach x }
    requires lo_size { IsBoxSize side.lo }
    requires hi_size { IsBoxSize side.hi }
    ensures low { result.lo ≡ x.lo -ℤ side.hi }
    ensures high { result.hi ≡ x.hi -ℤ side.lo }
{
    x.minus(side)
}

/// From the least to the greatest range, in um, from a point of the box to a point of the place,
/// each axis taken for itself. The coordinates of the place are within 6.1 * 10^13 um.
pub fn range(place: Place, part: &Box3) -> Exact
    requires { PlaceAmount turned_reach place }
    ensures holds { (p : Pos) (x y z : ℤ) → box_holds (grid_box part.now) p ≡ true →
        HoldsPlace place x y z → Holds result (pos (range_to x y z p)) }
    ensures amount { HasAmount range_amount result }
    ensures narrow { (w : ℕ) → PlaceEnds turned_reach w place →
        HasEnds range_amount (range_width (grid_box part.now) w) result }
{
    let points = place_of(part);
    let x = offsets(place.x, points.x);
    let y = offsets(place.y, points.y);
    let z = offsets(place.z, points.z);
    let squares: ExactArea = squared_distance(x, y, z);
    <Exact as Interval>::root(squares)
}
