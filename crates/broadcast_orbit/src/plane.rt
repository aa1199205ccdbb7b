//! The place in the plane of the orbit (IS-GPS-200, table 20-IV).

ghost use Rattle.std.specs.Prelude.{ℤ, pos, ◌*ℤ◌, ◌^◌};
ghost use Rattle.grid_model.specs.Angles.{unit};
ghost use Rattle.gnss_model.specs.OrbitChain.{OrbitFields, AreOrbitFields, IsSumOf, InPlane};
ghost use Rattle.gnss_model.specs.RecordBounds.{IsValue};
ghost use Rattle.grid_model.specs.Rounding.{Near};
ghost use Rattle.fix_interval.specs.Factors.{Holds, HasEnds, HasAmount};
ghost use Rattle.broadcast_orbit.specs.Directions.{HoldsDirection, DirectionEnds, DirectionAmount};
ghost use Rattle.broadcast_orbit.specs.OrbitSizes.{ratio_amount, ratio_width, radius_swing_amount};
ghost use Rattle.broadcast_orbit.specs.OrbitSizes.{radius_swing_width, latitude_amount};
ghost use Rattle.broadcast_orbit.specs.OrbitSizes.{latitude_width, axis_amount, axis_width};
ghost use Rattle.broadcast_orbit.specs.OrbitSizes.{radius_amount, radius_width, plane_amount};
ghost use Rattle.broadcast_orbit.specs.OrbitSizes.{plane_width};

use crate::directions::Direction;
use fix_interval::{Exact, product};
use gnss_model::Elements;

/// A square of a root of a length is in 10^-24 m; there are so many in one um.
const AXIS_SCALE: i128 = 1_000_000_000_000_000_000;

/// A place in the plane of the orbit, in um.
#[derive(Clone, Copy, Debug, PartialEq, Eq)]
pub(crate) struct PlanePoint {
    pub(crate) x: Exact,
    pub(crate) y: Exact,
}

/// A = sqrt(A)^2
fn axis(el: &Elements) -> Exact
    ensures holds { (s a : ℤ) → IsValue el.now.root_a s → Near (s *ℤ s) (pos (10 ^ 18)) a →
        Holds result a }
    ensures ends { HasEnds axis_amount axis_width result }
{
    let root_a = Exact::of_wide(el.root_a);
    root_a.times_over(root_a, AXIS_SCALE)
}

/// r_k = A (1 - e cos E_k) + dr_k
fn radius(axis: Exact, ratio: Exact, correction: Exact) -> Exact
    requires axis_ends { HasEnds axis_amount axis_width axis }
    requires ratio_size { HasAmount ratio_amount ratio }
    requires correction_size { HasAmount radius_swing_amount correction }
    ensures holds { (a g dr r : ℤ) → Holds axis a → Holds ratio g → Holds correction dr →
        IsSumOf a g dr (pos unit) r → Holds result r }
    ensures amount { HasAmount radius_amount result }
    ensures narrow { HasEnds ratio_amount ratio_width ratio →
        HasEnds radius_swing_amount radius_swing_width correction →
        HasEnds radius_amount radius_width result }
{
    product(axis, ratio).plus(correction)
}

/// x_k' = r_k cos u_k, y_k' = r_k sin u_k
pub(crate) fn in_plane(el: &Elements, ratio: Exact, correction: Exact, at: Direction) -> PlanePoint
    requires ratio_size { HasAmount ratio_amount ratio }
    requires correction_size { HasAmount radius_swing_amount correction }
    requires at_size { DirectionAmount latitude_amount at }
    ensures holds { (f : OrbitFields) (g dr c s r x y : ℤ) → AreOrbitFields el.now f →
        Holds ratio g → Holds correction dr → HoldsDirection at c s → InPlane f g dr c s r x y →
        Holds result.x x × Holds result.y y }
    ensures x_amount { HasAmount plane_amount result.x }
    ensures y_amount { HasAmount plane_amount result.y }
    ensures narrow { HasEnds ratio_amount ratio_width ratio →
        HasEnds radius_swing_amount radius_swing_width correction →
        DirectionEnds latitude_amount latitude_width at → HasEnds plane_amount plane_width result.x
        × HasEnds plane_amount plane_width result.y }
{
    let radius = radius(axis(el), ratio, correction);
    PlanePoint {
        x: product(radius, at.cosine),
        y: product(radius, at.sine),
    }
}
