//! Whether what bounds leave of a box lies beyond a plane.

ghost use Rattle.std.specs.Prelude.{◌≡◌, ◌↔◌, pos, neg_ℤ, nat_abs, ◌+ℤ◌, ◌*ℤ◌, IsTrue};
ghost use Rattle.grid_model.specs.Boxes.{grid_box};
ghost use Rattle.grid_model.specs.Sizes.{IsWithin};
ghost use Rattle.zone_guard.specs.Beyond.{IsBeyond, IsBeyondSum, IsBeyondWith, IsSoOfOne};
ghost use Rattle.zone_guard.specs.Beyond.{opposite, sum_of};
ghost use Rattle.zone_guard.specs.Limits.{IsLimit};
ghost use Rattle.zone_guard.specs.Planes.{any_plane, plane_value, plane_values};

use crate::corners::{lies_beyond, lies_past};
use crate::planes::{Direction, HalfSpace, Plane};
use grid_model::{Box3, Pos};

// ---- planes

/// A number turned.
fn negative(n: i64) -> i64
    requires { IsWithin 1048576 n }
    ensures value { result ≡ neg_ℤ n }
    ensures bound { IsWithin 1048576 result }
{
    -n
}

/// What lies beyond a half-space.
pub fn opposite(side: &HalfSpace) -> HalfSpace
    ensures { plane_value result ≡ opposite (plane_value side.now) }
{
    let vector = Pos {
        x: negative(side.along.vector.x),
        y: negative(side.along.vector.y),
        z: negative(side.along.vector.z),
    };
    HalfSpace {
        along: Direction { vector },
        most: -(side.most + 1),
    }
}

/// A number's amount.
fn amount(n: i64) -> i64
    requires { IsWithin 1048576 n }
    ensures value { result ≡ pos (nat_abs n) }
    ensures bound { IsWithin 1048576 result }
{
    if n < 0 {
        return -n;
    }
    n
}

/// A number, so many times.
fn times(n: i64, a: i64) -> i64
    requires n { IsWithin 1048576 n }
    requires a { IsWithin 1048576 a }
    ensures value { result ≡ n *ℤ a }
    ensures bound { IsWithin 1099511627776 result }
{
    n * a
}

/// One number `n` times, and another `k` times.
fn both_times(n: i64, a: i64, k: i64, b: i64) -> i64
    requires n { IsWithin 1048576 n }
    requires a { IsWithin 1048576 a }
    requires k { IsWithin 1048576 k }
    requires b { IsWithin 1048576 b }
    ensures value { result ≡ (n *ℤ a) +ℤ (k *ℤ b) }
    ensures bound { IsWithin 2199023255552 result }
{
    times(n, a) + times(k, b)
}

/// A limit, so many times.
fn limit_times(n: i64, a: i128) -> i128
    requires n { IsWithin 1048576 n }
    requires a { IsLimit a }
    ensures value { result ≡ n *ℤ a }
    ensures bound { IsWithin 104857600000000000001048576 result }
{
    i128::from(n) * a
}

/// One limit `n` times, and another `k` times.
fn both_limits(n: i64, a: i128, k: i64, b: i128) -> i128
    requires n { IsWithin 1048576 n }
    requires a { IsLimit a }
    requires k { IsWithin 1048576 k }
    requires b { IsLimit b }
    ensures { result ≡ (n *ℤ a) +ℤ (k *ℤ b) }
{
    limit_times(n, a) + limit_times(k, b)
}

/// The sum of a plane and a bound, each times the amount of what the other has on an axis.
fn sum_by(side: &HalfSpace, bound: &HalfSpace, a: i64, b: i64) -> Plane
    requires a { IsWithin 1048576 a }
    requires b { IsWithin 1048576 b }
    ensures { any_plane result
        ≡ sum_of (nat_abs b) (plane_value side.now) (nat_abs a) (plane_value bound.now) }
{
    let n = amount(b);
    let k = amount(a);
    let along = Pos {
        x: both_times(n, side.along.vector.x, k, bound.along.vector.x),
        y: both_times(n, side.along.vector.y, k, bound.along.vector.y),
        z: both_times(n, side.along.vector.z, k, bound.along.vector.z),
    };
    Plane {
        along,
        most: both_limits(n, side.most, k, bound.most),
    }
}

// ---- a box

/// Whether the box lies beyond the sum of plane and bound by what they have on an axis.
fn is_beyond_sum(part: &Box3, side: &HalfSpace, bound: &HalfSpace, a: i64, b: i64) -> bool
    requires a { IsWithin 1048576 a }
    requires b { IsWithin 1048576 b }
    ensures { IsTrue result
        ↔ IsBeyondSum (grid_box part.now) (plane_value side.now) (plane_value bound.now) a b }
{
    lies_past(&sum_by(side, bound, a, b), part)
}

/// Whether no point of the box within the bound lies behind the plane, by one of the sums.
fn is_beyond_with(part: &Box3, side: &HalfSpace, bound: &HalfSpace) -> bool
    ensures { IsTrue result
        ↔ IsBeyondWith (grid_box part.now) (plane_value side.now) (plane_value bound.now) }
{
    let one = &side.along.vector;
    let other = &bound.along.vector;
    if lies_beyond(bound, part) {
        return true;
    }
    if is_beyond_sum(part, side, bound, one.x, other.x) {
        return true;
    }
    if is_beyond_sum(part, side, bound, one.y, other.y) {
        return true;
    }
    is_beyond_sum(part, side, bound, one.z, other.z)
}

/// Whether one of the bounds leaves no point of the box behind the plane.
fn is_beyond_some(bounds: &[HalfSpace], part: &Box3, side: &HalfSpace) -> bool
    ensures { IsTrue result ↔ IsSoOfOne (IsBeyondWith (grid_box part.now) (plane_value side.now))
        (plane_values bounds.now) }
{
    for bound in bounds {
        if is_beyond_with(part, side, bound) {
            return true;
        }
    }
    false
}

/// Whether the box lies beyond the plane, as far as it lies within one of the bounds.
pub fn is_beyond(bounds: &[HalfSpace], part: &Box3, side: &HalfSpace) -> bool
    ensures { IsTrue result ↔ IsBeyond (plane_values bounds.now) (grid_box part.now)
        (plane_value side.now) }
{
    if lies_beyond(side, part) {
        return true;
    }
    is_beyond_some(bounds, part, side)
}
