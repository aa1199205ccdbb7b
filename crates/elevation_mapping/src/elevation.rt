//! The sine of the elevation: the inner product of two directions.

ghost use Rattle.std.specs.Prelude.{ℕ, ◌+◌, ◌*◌, ◌/◌, ◌^◌, ◌≤◌, ℤ, pos, ◌+ℤ◌, ◌*ℤ◌};
ghost use Rattle.grid_model.specs.Amounts.{square};
ghost use Rattle.grid_model.specs.Angles.{unit};
ghost use Rattle.grid_model.specs.Roots.{root};
ghost use Rattle.grid_model.specs.Rounding.{Near};
ghost use Rattle.grid_model.specs.Squares.{sum_of_squares, least_end, greatest_end};
ghost use Rattle.fix_interval.specs.Factors.{Holds, HasEnds, HasAmount, factor_bound};
ghost use Rattle.fix_interval.specs.Places.{HoldsPlace, PlaceEnds, PlaceAmount};
ghost use Rattle.elevation_mapping.specs.Places.{least_sum};
ghost use Rattle.gnss_model.specs.Mapping.{IsRatio};
ghost use Rattle.elevation_mapping.specs.SineSizes.{up_amount, offset_amount, inner_amount};
ghost use Rattle.elevation_mapping.specs.SineSizes.{sine_amount, least_up, least_range};
ghost use Rattle.elevation_mapping.specs.SineSizes.{sine_spread};

use crate::lines::length_of;
use fix_interval::{Exact, Place, UNIT};

/// The products of members.
fn product(a: Exact, b: Exact) -> Exact
    requires a_size { HasAmount factor_bound a }
    requires b_size { HasAmount factor_bound b }
    ensures holds { (x y : ℤ) → Holds a x → Holds b y → Holds result (x *ℤ y) }
    ensures ends { (m v n w : ℕ) → HasEnds m v a → HasEnds n w b →
        HasEnds (m * n + 2) (m * w + n * v + 4) result }
{
    a.times_over(b, 1)
}

/// The inner products of vectors that the places hold.
fn inner_product(a: Place, b: Place) -> Exact
    requires a_size { PlaceAmount up_amount a }
    requires b_size { PlaceAmount offset_amount b }
    ensures holds { (x y z p q r : ℤ) → HoldsPlace a x y z → HoldsPlace b p q r →
        Holds result ((x *ℤ p) +ℤ (y *ℤ q) +ℤ (z *ℤ r)) }
    ensures amount { HasAmount inner_amount result }

    // For the greatest amounts on each axis, and the widths of both.
    ensures narrow { (k l m i j n v w : ℕ) → HasEnds k v a.x → HasEnds l v a.y → HasEnds m v a.z →
        HasEnds i w b.x → HasEnds j w b.y → HasEnds n w b.z →
        HasEnds (k * i + l * j + m * n + 6) ((k + l + m) * w + (i + j + n) * v + 12) result }
{
    product(a.x, b.x)
        .plus(product(a.y, b.y))
        .plus(product(a.z, b.z))
}

/// Every sine, in 10^-16, of the elevation of a line of sight, where the up direction and the line
/// are given as vectors in um. Both lengths are divided out last, once for all axes: a quotient
/// spreads by its divisor the more, the greater it is itself, and where the mapping is steepest
/// this one is near 0. The equations round the ratios of each axis, which makes a difference of at
/// most 8 units.
pub(crate) fn elevation_sine(up: Place, line: Place) -> Exact
    requires up_size { PlaceAmount up_amount up }
    requires line_size { PlaceAmount offset_amount line }
    requires up_far { square least_up ≤ least_sum up }
    requires line_far { square least_range ≤ least_sum line }
    ensures holds { (x y z a b c up_x up_y up_z line_x line_y line_z sine : ℤ) →
        HoldsPlace up x y z → HoldsPlace line a b c → IsRatio x (root (sum_of_squares x y z)) up_x →
        IsRatio y (root (sum_of_squares x y z)) up_y →
        IsRatio z (root (sum_of_squares x y z)) up_z →
        IsRatio a (root (sum_of_squares a b c)) line_x →
        IsRatio b (root (sum_of_squares a b c)) line_y →
        IsRatio c (root (sum_of_squares a b c)) line_z →
        Near (((up_x *ℤ line_x) +ℤ (up_y *ℤ line_y)) +ℤ (up_z *ℤ line_z)) (pos unit) sine →
        Holds result sine }
    ensures amount { HasAmount sine_amount result }

    // For a box whose longest side is d.
    ensures narrow { (d : ℕ) → d ≤ 2 * 10 ^ 11 → PlaceEnds up_amount (d + d / 148 + 5) up →
        PlaceEnds offset_amount (d + (2000 + d / 40000)) line →
        greatest_end result.lo result.hi * unit ≤ least_end result.lo result.hi * unit
        + sine_spread d (greatest_end result.lo result.hi) }
{
    let height = inner_product(up, line).over(length_of(up), 1);
    let rounding = Exact { lo: -8, hi: 8 };
    height.over(length_of(line), UNIT).plus(rounding)
}
