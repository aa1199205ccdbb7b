//! The satellite's place at a time (IS-GPS-200, table 20-IV).

ghost use Rattle.std.specs.Prelude.{ℤ, pos, neg_ℤ, ◌+ℤ◌, ◌-ℤ◌, ◌≤ℤ◌};
ghost use Rattle.gnss_model.specs.OrbitChain.{OrbitChain};
ghost use Rattle.gnss_model.specs.RecordBounds.{IsValue};
ghost use Rattle.fix_interval.specs.Factors.{Holds, HasEnds, HasAmount};
ghost use Rattle.broadcast_orbit.specs.OrbitSizes.{orbit_reach, motion_amount, motion_width};
ghost use Rattle.broadcast_orbit.specs.OrbitSizes.{time_width, after_width, coordinate_amount};
ghost use Rattle.broadcast_orbit.specs.OrbitSizes.{place_amount, IsOrbitDistance};

use crate::ellipse::on_ellipse;
use crate::latitude::corrected;
use crate::plane::in_plane;
use crate::space::earth_fixed;
use fix_interval::{Exact, Place};
use gnss_model::Elements;

/// t_k = t - t_oe
fn after(el: &Elements, t: Exact) -> Exact
    requires from { neg_ℤ (pos orbit_reach) ≤ℤ (t.lo -ℤ (el.now.week_start +ℤ el.now.toe_week.hi)) }
    requires to { (t.hi -ℤ (el.now.week_start +ℤ el.now.toe_week.lo)) ≤ℤ pos orbit_reach }
    ensures holds { (time toe : ℤ) → Holds t time → IsValue el.now.toe_week toe →
        Holds result (time -ℤ (el.now.week_start +ℤ toe)) }
    ensures amount { HasAmount orbit_reach result }
    ensures narrow { (t.hi -ℤ t.lo) ≤ℤ pos time_width → HasEnds orbit_reach after_width result }
{
    t.minus(Exact::of_wide(el.ephemeris_time()))
}

/// Every place of the satellite at a member of `t`, in um in the earth-fixed frame, with a member
/// of `motion` as its mean motion. Times are ps since 1980-01-06 00:00:00 GPS time, and `t` is
/// within 14,501 s of the ephemeris time; `motion` is in 10^-22 rad/s, from 0 to 2 * 10^18 and at
/// most 4,096 units wide. For a `t` at most 64 ps wide no coordinate is more than 500 um wide, and
/// every point is from 19,900 to 52,300 km from the origin.
pub fn place(el: &Elements, motion: Exact, t: Exact) -> Place
    requires from { neg_ℤ (pos orbit_reach) ≤ℤ (t.lo -ℤ (el.now.week_start +ℤ el.now.toe_week.hi)) }
    requires to { (t.hi -ℤ (el.now.week_start +ℤ el.now.toe_week.lo)) ≤ℤ pos orbit_reach }
    requires motion_low { pos 0 ≤ℤ motion.lo }
    requires motion_high { motion.hi ≤ℤ pos motion_amount }
    requires motion_width { (motion.hi -ℤ motion.lo) ≤ℤ pos motion_width }
    ensures holds { (n time x y z : ℤ) → Holds motion n → Holds t time →
        OrbitChain el.now n time x y z → Holds result.x x × Holds result.y y × Holds result.z z }
    ensures x_width { (t.hi -ℤ t.lo) ≤ℤ pos time_width → (result.x.hi -ℤ result.x.lo) ≤ℤ pos 500 }
    ensures y_width { (t.hi -ℤ t.lo) ≤ℤ pos time_width → (result.y.hi -ℤ result.y.lo) ≤ℤ pos 500 }
    ensures z_width { (t.hi -ℤ t.lo) ≤ℤ pos time_width → (result.z.hi -ℤ result.z.lo) ≤ℤ pos 500 }
    ensures distance { (t.hi -ℤ t.lo) ≤ℤ pos time_width → (x y z : ℤ) → Holds result.x x →
        Holds result.y y → Holds result.z z → IsOrbitDistance x y z }
    ensures sizes { (t.hi -ℤ t.lo) ≤ℤ pos time_width → HasAmount coordinate_amount result.x
        × HasAmount coordinate_amount result.y × HasAmount coordinate_amount result.z }

    // No coordinate passes these amounts, however wide t is.
    ensures x_size { HasAmount place_amount result.x }
    ensures y_size { HasAmount place_amount result.y }
    ensures z_size { HasAmount place_amount result.z }
{
    let after = after(el, t);
    let ellipse = on_ellipse(el, motion, after);
    let latitude = corrected(el, ellipse.direction);
    let point = in_plane(el, ellipse.ratio, latitude.radius, latitude.direction);
    earth_fixed(el, after, latitude.inclination, point)
}
