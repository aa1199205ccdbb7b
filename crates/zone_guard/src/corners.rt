//! The least and the greatest product of a direction and a point of a box, and whether the box lies
//! beyond a plane.

ghost use Rattle.std.specs.Prelude.{◌≡◌, ◌↔◌, ◌*ℤ◌, IsTrue};
ghost use Rattle.grid_model.specs.Boxes.{grid_box};
ghost use Rattle.grid_model.specs.Sizes.{IsBoxSize, IsWithin};
ghost use Rattle.log_tokens.specs.Fields.{IsPosWithin};
ghost use Rattle.zone_guard.specs.Corners.{least_on, greatest_on, least_over, greatest_over};
ghost use Rattle.zone_guard.specs.Planes.{LiesBeyond, any_plane, plane_value};

use crate::planes::{HalfSpace, Plane};
use grid_model::{Box3, Pos};

/// A product that fits.
fn product(factor: i64, end: i64) -> i128
    requires factor { IsWithin 2199023255552 factor }
    requires end { IsBoxSize end }
    ensures value { result ≡ factor *ℤ end }
    ensures bound { IsWithin 21990232555520000000000000 result }
{
    i128::from(factor) * i128::from(end)
}

/// The least product of a factor and a number from `lo` to `hi`.
fn least_product(factor: i64, lo: i64, hi: i64) -> i128
    requires factor { IsWithin 2199023255552 factor }
    requires lo { IsBoxSize lo }
    requires hi { IsBoxSize hi }
    ensures value { result ≡ least_on factor (record { lo = lo; hi = hi }) }
    ensures bound { IsWithin 21990232555520000000000000 result }
{
    product(factor, lo).min(product(factor, hi))
}

/// The greatest product of a factor and a number from `lo` to `hi`.
fn greatest_product(factor: i64, lo: i64, hi: i64) -> i128
    requires factor { IsWithin 2199023255552 factor }
    requires lo { IsBoxSize lo }
    requires hi { IsBoxSize hi }
    ensures value { result ≡ greatest_on factor (record { lo = lo; hi = hi }) }
    ensures bound { IsWithin 21990232555520000000000000 result }
{
    product(factor, lo).max(product(factor, hi))
}

/// The least product of a vector and a point of the box.
pub fn least(along: &Pos, part: &Box3) -> i128
    requires { IsPosWithin 2199023255552 along.now }
    ensures { result ≡ least_over along.now (grid_box part.now) }
{
    let x = least_product(along.x, part.lo.x, part.hi.x);
    let y = least_product(along.y, part.lo.y, part.hi.y);
    let z = least_product(along.z, part.lo.z, part.hi.z);
    x + (y + z)
}

/// The greatest product of a vector and a point of the box.
pub fn greatest(along: &Pos, part: &Box3) -> i128
    requires { IsPosWithin 2199023255552 along.now }
    ensures { result ≡ greatest_over along.now (grid_box part.now) }
{
    let x = greatest_product(along.x, part.lo.x, part.hi.x);
    let y = greatest_product(along.y, part.lo.y, part.hi.y);
    let z = greatest_product(along.z, part.lo.z, part.hi.z);
    x + (y + z)
}

/// Whether no grid point of the box lies behind the plane.
pub fn lies_past(plane: &Plane, part: &Box3) -> bool
    ensures { IsTrue result ↔ LiesBeyond (grid_box part.now) (any_plane plane.now) }
{
    if least(&plane.along, part) <= plane.most {
        return false;
    }
    true
}

/// The same of the plane of a half-space.
pub fn lies_beyond(side: &HalfSpace, part: &Box3) -> bool
    ensures { IsTrue result ↔ LiesBeyond (grid_box part.now) (plane_value side.now) }
{
    if least(&side.along.vector, part) <= side.most {
        return false;
    }
    true
}
