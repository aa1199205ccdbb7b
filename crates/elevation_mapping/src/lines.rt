//! The up direction of the points of a box and the lines from them to a place.

ghost use Rattle.std.specs.Prelude.{ℕ, ◌≡◌, ◌+◌, ◌/◌, ◌^◌, ◌≤◌, ℤ, pos, ◌-ℤ◌, ◌≤ℤ◌};
ghost use Rattle.grid_model.specs.Roots.{root};
ghost use Rattle.grid_model.specs.Squares.{sum_of_squares, least_end};
ghost use Rattle.fix_interval.specs.Factors.{Holds, HasEnds, HasAmount};
ghost use Rattle.fix_interval.specs.Places.{HoldsPlace, PlaceAmount};
ghost use Rattle.elevation_mapping.specs.Places.{least_sum, greatest_sum};
ghost use Rattle.gnss_model.specs.Mapping.{IsRaised};
ghost use Rattle.elevation_mapping.specs.MappingSizes.{turned_reach};
ghost use Rattle.elevation_mapping.specs.SineSizes.{up_amount, offset_amount};

use fix_interval::{Exact, ExactArea, Interval, Place, squared_distance};
use grid_model::Box3;

/// 1 / (1 - f)^2 for the flattening f of WGS 84, times 10^14.
const UP_SCALE: i128 = 100_673_949_674_228;

const UP_DENOMINATOR: i128 = 100_000_000_000_000;

/// The numbers of a side, as an interval.
fn side(lo: i64, hi: i64) -> Exact
    requires { lo ≤ℤ hi }
    ensures low { result.lo ≡ lo }
    ensures high { result.hi ≡ hi }
{
    Exact {
        lo: i128::from(lo),
        hi: i128::from(hi),
    }
}

/// The points of the box, as a place.
pub(crate) fn place_of(part: &Box3) -> Place
    ensures x_low { result.x.lo ≡ part.now.lo.x }
    ensures x_high { result.x.hi ≡ part.now.hi.x }
    ensures y_low { result.y.lo ≡ part.now.lo.y }
    ensures y_high { result.y.hi ≡ part.now.hi.y }
    ensures z_low { result.z.lo ≡ part.now.lo.z }
    ensures z_high { result.z.hi ≡ part.now.hi.z }
{
    Place {
        x: side(part.lo.x, part.hi.x),
        y: side(part.lo.y, part.hi.y),
        z: side(part.lo.z, part.hi.z),
    }
}

/// Every coordinate z, in um, as it counts in the up direction: over (1 - f)^2. It comes no nearer
/// to 0, but for 3 um.
pub(crate) fn raised(z: Exact) -> Exact
    requires { HasAmount (10 ^ 13) z }
    ensures holds { (a raised : ℤ) → Holds z a → IsRaised a raised → Holds result raised }
    ensures near { least_end z.lo z.hi ≤ least_end result.lo result.hi + 3 }
    ensures amount { HasAmount up_amount result }
    ensures narrow { (w : ℕ) → HasEnds (10 ^ 13) w z → HasEnds up_amount (w + w / 148 + 5) result }
{
    let scale = Exact {
        lo: UP_SCALE,
        hi: UP_SCALE,
    };
    z.times_over(scale, UP_DENOMINATOR)
}

/// From the least to the greatest difference of members, on each axis.
pub(crate) fn offsets(a: Place, b: Place) -> Place
    requires a_size { PlaceAmount turned_reach a }
    requires b_size { PlaceAmount (10 ^ 13) b }
    ensures x_low { result.x.lo ≡ a.x.lo -ℤ b.x.hi }
    ensures x_high { result.x.hi ≡ a.x.hi -ℤ b.x.lo }
    ensures y_low { result.y.lo ≡ a.y.lo -ℤ b.y.hi }
    ensures y_high { result.y.hi ≡ a.y.hi -ℤ b.y.lo }
    ensures z_low { result.z.lo ≡ a.z.lo -ℤ b.z.hi }
    ensures z_high { result.z.hi ≡ a.z.hi -ℤ b.z.lo }
    ensures amount { PlaceAmount offset_amount result }
{
    Place {
        x: a.x.minus(b.x),
        y: a.y.minus(b.y),
        z: a.z.minus(b.z),
    }
}

/// From the least to the greatest squared length of a vector that the place holds.
pub(crate) fn squares_of(a: Place) -> ExactArea
    requires { PlaceAmount offset_amount a }
    ensures low { result.lo ≡ least_sum a }
    ensures high { result.hi ≡ greatest_sum a }
    ensures from { (x y z : ℤ) → HoldsPlace a x y z → result.lo ≤ sum_of_squares x y z }
    ensures to { (x y z : ℤ) → HoldsPlace a x y z → sum_of_squares x y z ≤ result.hi }
{
    squared_distance(a.x, a.y, a.z)
}

/// From the least to the greatest length of a vector that the place holds, each axis taken for
/// itself.
pub(crate) fn length_of(a: Place) -> Exact
    requires { PlaceAmount offset_amount a }
    ensures holds { (x y z : ℤ) → HoldsPlace a x y z →
        Holds result (pos (root (sum_of_squares x y z))) }
    ensures low { result.lo ≡ pos (root (least_sum a)) }
    ensures high { result.hi ≡ pos (root (greatest_sum a)) }
{
    <Exact as Interval>::root(squares_of(a))
}
