//! A sum's slopes and the direction, axis by axis.

ghost use Rattle.std.specs.Prelude.{◌≡◌, ◌≤◌, ℤ, pos, ◌+ℤ◌, ◌-ℤ◌, ◌*ℤ◌, ◌≤ℤ◌};
ghost use Rattle.grid_model.specs.Boxes.{grid_box, middle};
ghost use Rattle.grid_model.specs.Sizes.{IsWithin, IsBoxSize};
ghost use Rattle.row_pairs.specs.Leasts.{IsLeastTerm};

use grid_model::Box3;
use row_pairs::middle_of;
use sat_model::HalfSpace;

/// A slope less `aim` times the direction's component on its axis.
pub(crate) fn aimed_slope(slope: i64, aim: u64, component: i64) -> i128
    requires slope { IsWithin 21990232555520 slope }
    requires aim { aim ≤ 17592186044416 }
    requires component { IsWithin 1000000 component }
    ensures value { result ≡ slope -ℤ (pos aim *ℤ component) }
    ensures bound { IsWithin 20000000000000000000 result }
{
    i128::from(slope) - i128::from(aim) * i128::from(component)
}

/// A slope times a way in um.
fn times(slope: i128, way: i64) -> i128
    requires slope { IsWithin 20000000000000000000 slope }
    requires way { IsWithin 20000000000000 way }
    ensures value { result ≡ slope *ℤ way }
    ensures bound { IsWithin 400000000000000000000000000000000 result }
{
    slope * i128::from(way)
}

/// The least product of the slope and a way from the middle of a side to one of its points.
pub(crate) fn least_term(slope: i128, lo: i64, hi: i64) -> i128
    requires slope { IsWithin 20000000000000000000 slope }
    requires ordered { lo ≤ℤ hi }
    requires lo { IsBoxSize lo }
    requires hi { IsBoxSize hi }
    ensures least { IsLeastTerm slope lo hi result }
    ensures bound { IsWithin 400000000000000000000000000000000 result }
{
    let middle = middle_of(lo, hi);
    if slope >= 0 {
        times(slope, lo - middle)
    } else {
        times(slope, hi - middle)
    }
}

/// A component of the direction times that coordinate of the middle of the box.
fn middle_term(component: i64, lo: i64, hi: i64) -> i128
    requires component { IsWithin 1000000 component }
    requires ordered { lo ≤ℤ hi }
    requires lo { IsBoxSize lo }
    requires hi { IsBoxSize hi }
    ensures value { result ≡ component *ℤ middle (record { lo = lo; hi = hi }) }
    ensures bound { IsWithin 10000000000000000000 result }
{
    i128::from(component) * i128::from(middle_of(lo, hi))
}

/// How far along the direction the middle of the box is.
pub(crate) fn middle_along(half: &HalfSpace, part: &Box3) -> i128
    ensures value { result ≡ (half.now.x *ℤ middle (grid_box part.now).x)
        +ℤ (half.now.y *ℤ middle (grid_box part.now).y)
        +ℤ (half.now.z *ℤ middle (grid_box part.now).z) }
    ensures bound { IsWithin 30000000000000000000 result }
{
    middle_term(half.x, part.lo.x, part.hi.x)
        + middle_term(half.y, part.lo.y, part.hi.y)
        + middle_term(half.z, part.lo.z, part.hi.z)
}
