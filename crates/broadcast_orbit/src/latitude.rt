//! The argument of latitude, and the corrections of it, of the radius and of the inclination by
//! second harmonics (IS-GPS-200, table 20-IV).

ghost use Rattle.std.specs.Prelude.{ℤ};
ghost use Rattle.gnss_model.specs.OrbitChain.{OrbitFields, AreOrbitFields, IsSumOf, IsDifferenceOf};
ghost use Rattle.gnss_model.specs.OrbitChain.{Swings, Latitude};
ghost use Rattle.gnss_model.specs.RecordBounds.{IsValue};
ghost use Rattle.grid_model.specs.Sines.{Sine, Cosine};
ghost use Rattle.fix_interval.specs.Factors.{Holds, HasEnds, HasAmount};
ghost use Rattle.broadcast_orbit.specs.Directions.{HoldsDirection, DirectionEnds, DirectionAmount};
ghost use Rattle.broadcast_orbit.specs.OrbitSizes.{true_amount, true_width, phi_amount, phi_width};
ghost use Rattle.broadcast_orbit.specs.OrbitSizes.{twice_amount, twice_width, angle_swing_amount};
ghost use Rattle.broadcast_orbit.specs.OrbitSizes.{angle_swing_width, radius_swing_amount};
ghost use Rattle.broadcast_orbit.specs.OrbitSizes.{radius_swing_width, latitude_amount};
ghost use Rattle.broadcast_orbit.specs.OrbitSizes.{latitude_width};

use crate::directions::{Direction, direction_of, doubled, joined};
use fix_interval::{Exact, sum_of_products};
use gnss_model::Elements;

/// The corrections by twice the argument of latitude.
#[derive(Clone, Copy, Debug, PartialEq, Eq)]
pub(crate) struct Corrections {
    /// Of the argument of latitude, in 10^-16 rad.
    pub(crate) latitude: Exact,
    /// Of the radius, in um.
    pub(crate) radius: Exact,
    /// Of the inclination, in 10^-16 rad.
    pub(crate) inclination: Exact,
}

/// The corrected argument of latitude, and the two other corrections.
#[derive(Clone, Copy, Debug, PartialEq, Eq)]
pub(crate) struct CorrectedLatitude {
    pub(crate) direction: Direction,
    /// Of the radius, in um.
    pub(crate) radius: Exact,
    /// Of the inclination, in 10^-16 rad.
    pub(crate) inclination: Exact,
}

/// phi_k = v_k + omega
fn latitude_before(el: &Elements, v: Direction) -> Direction
    requires { DirectionAmount true_amount v }
    ensures holds { (perigee c s cw sw p q : ℤ) → IsValue el.now.omega perigee →
        HoldsDirection v c s → Cosine perigee cw → Sine perigee sw → IsDifferenceOf c cw s sw p →
        IsSumOf s cw c sw q → HoldsDirection result p q }
    ensures amount { DirectionAmount phi_amount result }
    ensures narrow { DirectionEnds true_amount true_width v →
        DirectionEnds phi_amount phi_width result }
{
    joined(v, direction_of(Exact::of_wide(el.omega)))
}

/// du_k, dr_k and di_k, each C_s sin 2 phi_k + C_c cos 2 phi_k
fn swings(el: &Elements, twice: Direction) -> Corrections
    requires { DirectionAmount twice_amount twice }
    ensures holds { (f : OrbitFields) (c s du dr di : ℤ) → AreOrbitFields el.now f →
        HoldsDirection twice c s → Swings f c s du dr di → Holds result.latitude du
        × Holds result.radius dr × Holds result.inclination di }
    ensures latitude_amount { HasAmount angle_swing_amount result.latitude }
    ensures radius_amount { HasAmount radius_swing_amount result.radius }
    ensures inclination_amount { HasAmount angle_swing_amount result.inclination }
    ensures narrow { DirectionEnds twice_amount twice_width twice →
        HasEnds angle_swing_amount angle_swing_width result.latitude
        × HasEnds radius_swing_amount radius_swing_width result.radius
        × HasEnds angle_swing_amount angle_swing_width result.inclination }
{
    Corrections {
        latitude: sum_of_products(
            Exact::of_wide(el.cus),
            twice.sine,
            Exact::of_wide(el.cuc),
            twice.cosine,
        ),
        radius: sum_of_products(
            Exact::of_wide(el.crs),
            twice.sine,
            Exact::of_wide(el.crc),
            twice.cosine,
        ),
        inclination: sum_of_products(
            Exact::of_wide(el.cis),
            twice.sine,
            Exact::of_wide(el.cic),
            twice.cosine,
        ),
    }
}

/// u_k = phi_k + du_k
fn latitude_after(phi: Direction, correction: Exact) -> Direction
    requires phi_size { DirectionAmount phi_amount phi }
    requires correction_size { HasAmount angle_swing_amount correction }
    ensures holds { (c s du cd sd p q : ℤ) → HoldsDirection phi c s → Holds correction du →
        Cosine du cd → Sine du sd → IsDifferenceOf c cd s sd p → IsSumOf s cd c sd q →
        HoldsDirection result p q }
    ensures amount { DirectionAmount latitude_amount result }
    ensures narrow { DirectionEnds phi_amount phi_width phi →
        HasEnds angle_swing_amount angle_swing_width correction →
        DirectionEnds latitude_amount latitude_width result }
{
    joined(phi, direction_of(correction))
}

/// The corrected argument of latitude of the true anomaly v.
pub(crate) fn corrected(el: &Elements, v: Direction) -> CorrectedLatitude
    requires { DirectionAmount true_amount v }
    ensures holds { (f : OrbitFields) (cos_v sin_v c s dr di : ℤ) → AreOrbitFields el.now f →
        HoldsDirection v cos_v sin_v → Latitude f cos_v sin_v c s dr di →
        HoldsDirection result.direction c s × Holds result.radius dr × Holds result.inclination di }
    ensures direction_amount { DirectionAmount latitude_amount result.direction }
    ensures radius_amount { HasAmount radius_swing_amount result.radius }
    ensures inclination_amount { HasAmount angle_swing_amount result.inclination }
    ensures narrow { DirectionEnds true_amount true_width v →
        DirectionEnds latitude_amount latitude_width result.direction
        × HasEnds radius_swing_amount radius_swing_width result.radius
        × HasEnds angle_swing_amount angle_swing_width result.inclination }
{
    let phi = latitude_before(el, v);
    let swings = swings(el, doubled(phi));
    CorrectedLatitude {
        direction: latitude_after(phi, swings.latitude),
        radius: swings.radius,
        inclination: swings.inclination,
    }
}
