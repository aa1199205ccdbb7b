//! From the plane of the orbit to the earth-fixed frame (IS-GPS-200, table 20-IV).

ghost use Rattle.std.specs.Prelude.{◌*◌, ℤ, pos, ◌+ℤ◌, ◌-ℤ◌, ◌*ℤ◌};
ghost use Rattle.grid_model.specs.Angles.{unit};
ghost use Rattle.gnss_model.specs.ClockChain.{IsAdvanced};
ghost use Rattle.gnss_model.specs.EarthModel.{earth_rate, rate_scale};
ghost use Rattle.gnss_model.specs.OrbitChain.{OrbitFields, AreOrbitFields, EarthFixed};
ghost use Rattle.gnss_model.specs.RecordBounds.{IsValue};
ghost use Rattle.grid_model.specs.Rounding.{Near};
ghost use Rattle.fix_interval.specs.Factors.{Holds, HasEnds, HasAmount};
ghost use Rattle.broadcast_orbit.specs.Directions.{HoldsDirection, DirectionEnds, DirectionAmount};
ghost use Rattle.broadcast_orbit.specs.OrbitSizes.{orbit_reach, after_width, value_amount};
ghost use Rattle.broadcast_orbit.specs.OrbitSizes.{angle_swing_amount, angle_swing_width};
ghost use Rattle.broadcast_orbit.specs.OrbitSizes.{plane_amount, plane_width, inclination_amount};
ghost use Rattle.broadcast_orbit.specs.OrbitSizes.{inclination_width, inclination_value_width};
ghost use Rattle.broadcast_orbit.specs.OrbitSizes.{node_amount, node_width, node_value_width};
ghost use Rattle.broadcast_orbit.specs.OrbitSizes.{place_amount, place_width};

use crate::directions::{Direction, direction_of};
use crate::plane::PlanePoint;
use fix_interval::{
    Exact, Place, RATE_SCALE, advanced, difference_of_products, product, sum_of_products,
};
use gnss_model::{EARTH_RATE, Elements};

/// i_k = i_0 + di_k + IDOT t_k
fn inclination(el: &Elements, correction: Exact, after: Exact) -> Exact
    requires correction_size { HasAmount angle_swing_amount correction }
    requires after_size { HasAmount orbit_reach after }
    ensures holds { (i0 di idot t i : ℤ) → IsValue el.now.i0 i0 → Holds correction di →
        IsValue el.now.idot idot → Holds after t → IsAdvanced (i0 +ℤ di) idot t i → Holds result i }
    ensures amount { HasAmount inclination_amount result }
    ensures narrow { HasEnds angle_swing_amount angle_swing_width correction →
        HasEnds orbit_reach after_width after →
        HasEnds inclination_amount inclination_width result }
{
    let start = Exact::of_wide(el.i0).plus(correction);
    advanced(start, Exact::of_wide(el.idot), after)
}

/// Om_k = Om_0 + (OmDot - Om_e) t_k - Om_e t_oe
fn node(el: &Elements, after: Exact) -> Exact
    requires { HasAmount orbit_reach after }
    ensures holds { (om0 om_dot toe t o : ℤ) → IsValue el.now.om0 om0 →
        IsValue el.now.om_dot om_dot → IsValue el.now.toe_week toe → Holds after t →
        Near (((om0 *ℤ pos rate_scale) +ℤ ((om_dot -ℤ pos earth_rate) *ℤ t))
        -ℤ (pos earth_rate *ℤ toe)) (pos rate_scale) o → Holds result o }
    ensures amount { HasAmount node_amount result }
    ensures narrow { HasEnds orbit_reach after_width after → HasEnds node_amount node_width result }
{
    let earth = Exact {
        lo: EARTH_RATE,
        hi: EARTH_RATE,
    };
    let rate = Exact::of_wide(el.om_dot).minus(earth);
    let start = earth.times_over(Exact::of_wide(el.toe_week), RATE_SCALE);
    advanced(Exact::of_wide(el.om0), rate, after).minus(start)
}

/// x_k = x_k' cos Om_k - y_k' cos i_k sin Om_k, and so on, from the cosines and sines of i_k and
/// Om_k
fn turned_out(point: PlanePoint, tilt: Direction, node: Direction) -> Place
    requires x_size { HasAmount plane_amount point.x }
    requires y_size { HasAmount plane_amount point.y }
    requires tilt_size { DirectionAmount value_amount tilt }
    requires node_size { DirectionAmount value_amount node }
    ensures x_holds { (x y ci si co so v : ℤ) → Holds point.x x → Holds point.y y →
        HoldsDirection tilt ci si → HoldsDirection node co so →
        Near (((x *ℤ co) *ℤ pos unit) -ℤ ((y *ℤ ci) *ℤ so)) (pos (unit * unit)) v →
        Holds result.x v }
    ensures y_holds { (x y ci si co so v : ℤ) → Holds point.x x → Holds point.y y →
        HoldsDirection tilt ci si → HoldsDirection node co so →
        Near (((x *ℤ so) *ℤ pos unit) +ℤ ((y *ℤ ci) *ℤ co)) (pos (unit * unit)) v →
        Holds result.y v }
    ensures z_holds { (y ci si v : ℤ) → Holds point.y y → HoldsDirection tilt ci si →
        Near (y *ℤ si) (pos unit) v → Holds result.z v }
    ensures x_amount { HasAmount place_amount result.x }
    ensures y_amount { HasAmount place_amount result.y }
    ensures z_amount { HasAmount place_amount result.z }
    ensures narrow { HasEnds plane_amount plane_width point.x →
        HasEnds plane_amount plane_width point.y →
        DirectionEnds value_amount inclination_value_width tilt →
        DirectionEnds value_amount node_value_width node → HasEnds place_amount place_width result.x
        × HasEnds place_amount place_width result.y × HasEnds place_amount place_width result.z }
{
    let level = product(point.y, tilt.cosine);
    Place {
        x: difference_of_products(point.x, node.cosine, level, node.sine),
        y: sum_of_products(point.x, node.sine, level, node.cosine),
        z: product(point.y, tilt.sine),
    }
}

/// The place in the earth-fixed frame, `after` ps behind the ephemeris time, of a point of the
/// plane of the orbit.
pub(crate) fn earth_fixed(
    el: &Elements,
    after: Exact,
    correction: Exact,
    point: PlanePoint,
) -> Place
    requires after_size { HasAmount orbit_reach after }
    requires correction_size { HasAmount angle_swing_amount correction }
    requires x_size { HasAmount plane_amount point.x }
    requires y_size { HasAmount plane_amount point.y }
    ensures holds { (f : OrbitFields) (t di p q x y z : ℤ) → AreOrbitFields el.now f →
        Holds after t → Holds correction di → Holds point.x p → Holds point.y q →
        EarthFixed f t di p q x y z → Holds result.x x × Holds result.y y × Holds result.z z }
    ensures x_amount { HasAmount place_amount result.x }
    ensures y_amount { HasAmount place_amount result.y }
    ensures z_amount { HasAmount place_amount result.z }
    ensures narrow { HasEnds orbit_reach after_width after →
        HasEnds angle_swing_amount angle_swing_width correction →
        HasEnds plane_amount plane_width point.x → HasEnds plane_amount plane_width point.y →
        HasEnds place_amount place_width result.x × HasEnds place_amount place_width result.y
        × HasEnds place_amount place_width result.z }
{
    let tilt = direction_of(inclination(el, correction, after));
    turned_out(point, tilt, direction_of(node(el, after)))
}
