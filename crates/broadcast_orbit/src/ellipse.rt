//! Where the satellite is on the ellipse of its orbit: mean, eccentric and true anomaly (IS-GPS-200,
//! table 20-IV).

ghost use Rattle.std.specs.Prelude.{ℕ, ◌≡◌, ◌+◌, ◌-◌, ◌*◌, ◌≤◌, ℤ, pos, ◌+ℤ◌, ◌-ℤ◌, ◌*ℤ◌, ◌≤ℤ◌};
ghost use Rattle.std.specs.Prelude.{◌<ℤ◌};
ghost use Rattle.grid_model.specs.Angles.{unit};
ghost use Rattle.gnss_model.specs.ClockChain.{IsAdvanced};
ghost use Rattle.gnss_model.specs.Kepler.{Kepler};
ghost use Rattle.gnss_model.specs.OrbitChain.{OrbitFields, AreOrbitFields, Anomaly};
ghost use Rattle.gnss_model.specs.RecordBounds.{IsValue};
ghost use Rattle.grid_model.specs.Roots.{IsRoot};
ghost use Rattle.grid_model.specs.Rounding.{Near};
ghost use Rattle.grid_model.specs.Sines.{Sine, Cosine};
ghost use Rattle.fix_interval.specs.Factors.{Holds, HasEnds, HasAmount};
ghost use Rattle.broadcast_orbit.specs.Directions.{HoldsDirection, DirectionEnds, DirectionAmount};
ghost use Rattle.broadcast_orbit.specs.OrbitSizes.{orbit_reach, motion_amount, motion_width};
ghost use Rattle.broadcast_orbit.specs.OrbitSizes.{after_width, eccentricity_amount, mean_amount};
ghost use Rattle.broadcast_orbit.specs.OrbitSizes.{mean_width, value_amount, eccentric_value_width};
ghost use Rattle.broadcast_orbit.specs.OrbitSizes.{ratio_amount, ratio_width, least_ratio};
ghost use Rattle.broadcast_orbit.specs.OrbitSizes.{true_amount, true_width};

use crate::directions::{Direction, direction_of};
use fix_interval::{Exact, UNIT, advanced, product};
use gnss_model::Elements;
use grid_model::root_u128;
use kepler_enclosure::eccentric;

/// The square of one, in 10^-32.
const SQUARE_OF_ONE: u128 = 100_000_000_000_000_000_000_000_000_000_000;

/// The satellite on the ellipse.
#[derive(Clone, Copy, Debug, PartialEq, Eq)]
pub(crate) struct Ellipse {
    /// Its distance, as a ratio of the semi-major axis, in 10^-16.
    pub(crate) ratio: Exact,
    /// The true anomaly.
    pub(crate) direction: Direction,
}

/// M_k = M_0 + n t_k
fn mean_anomaly(el: &Elements, motion: Exact, after: Exact) -> Exact
    requires motion_ends { HasEnds motion_amount motion_width motion }
    requires after_size { HasAmount orbit_reach after }
    ensures holds { (m0 n t m : ℤ) → IsValue el.now.m0 m0 → Holds motion n → Holds after t →
        IsAdvanced m0 n t m → Holds result m }
    ensures amount { HasAmount mean_amount result }
    ensures narrow { HasEnds orbit_reach after_width after → HasEnds mean_amount mean_width result }
{
    advanced(Exact::of_wide(el.m0), motion, after)
}

/// M_k = E_k - e sin E_k, and the cosine and the sine of E_k
fn eccentric_direction(mean: Exact, e: Exact) -> Direction
    requires mean_size { HasAmount mean_amount mean }
    requires e_low { pos 0 ≤ℤ e.lo }
    requires e_ends { HasEnds eccentricity_amount 1 e }
    ensures holds { (m x a c s : ℤ) → Holds mean m → Holds e x → Kepler m x a → Cosine a c →
        Sine a s → HoldsDirection result c s }
    ensures amount { DirectionAmount value_amount result }
    ensures narrow { HasEnds mean_amount mean_width mean →
        DirectionEnds value_amount eccentric_value_width result }
{
    direction_of(eccentric(mean, e))
}

/// 1 - e cos E_k
fn ratio(e: Exact, cos_e: Exact) -> Exact
    requires e_ends { HasEnds eccentricity_amount 1 e }
    requires cos_size { HasAmount value_amount cos_e }
    ensures holds { (x c r : ℤ) → Holds e x → Holds cos_e c →
        Near (pos (unit * unit) -ℤ (x *ℤ c)) (pos unit) r → Holds result r }
    ensures least { pos least_ratio ≤ℤ result.lo }
    ensures amount { HasAmount ratio_amount result }
    ensures narrow { HasEnds value_amount eccentric_value_width cos_e →
        HasEnds ratio_amount ratio_width result }
{
    let one = Exact { lo: UNIT, hi: UNIT };
    one.minus(product(e, cos_e))
}

/// A number that isn't negative.
fn amount(e: i128) -> u128
    requires { pos 0 ≤ℤ e }
    ensures { pos result ≡ e }
{
    e as u128
}

/// sqrt(1 - e^2), cut off, for one eccentricity.
fn flatness_of(e: u128) -> u64
    requires { e ≤ eccentricity_amount }
    ensures { IsRoot (unit * unit - e * e) result }
{
    root_u128(SQUARE_OF_ONE - e * e)
}

/// sqrt(1 - e^2), cut off
fn flatness(e: Exact) -> Exact
    requires e_low { pos 0 ≤ℤ e.lo }
    requires e_ends { HasEnds eccentricity_amount 1 e }
    ensures holds { (x : ℤ) (w : ℕ) → Holds e x → (pos (w * w) +ℤ (x *ℤ x)) ≤ℤ pos (unit * unit) →
        pos (unit * unit) <ℤ (pos ((w + 1) * (w + 1)) +ℤ (x *ℤ x)) → Holds result (pos w) }
    ensures ends { HasEnds unit 1 result }
{
    Exact {
        lo: i128::from(flatness_of(amount(e.hi))),
        hi: i128::from(flatness_of(amount(e.lo))),
    }
}

/// cos v_k = (cos E_k - e) / (1 - e cos E_k)
fn true_cosine(cos_e: Exact, e: Exact, ratio: Exact) -> Exact
    requires cos_size { HasAmount value_amount cos_e }
    requires e_ends { HasEnds eccentricity_amount 1 e }
    requires least { pos least_ratio ≤ℤ ratio.lo }
    requires ratio_size { HasAmount ratio_amount ratio }
    ensures holds { (c x r v : ℤ) → Holds cos_e c → Holds e x → Holds ratio r →
        Near ((c -ℤ x) *ℤ pos unit) r v → Holds result v }
    ensures amount { HasAmount true_amount result }
    ensures narrow { HasEnds value_amount eccentric_value_width cos_e →
        HasEnds ratio_amount ratio_width ratio → HasEnds true_amount true_width result }
{
    cos_e.minus(e).over(ratio, UNIT)
}

/// sin v_k = sqrt(1 - e^2) sin E_k / (1 - e cos E_k)
fn true_sine(flatness: Exact, sin_e: Exact, ratio: Exact) -> Exact
    requires flatness_ends { HasEnds unit 1 flatness }
    requires sin_size { HasAmount value_amount sin_e }
    requires least { pos least_ratio ≤ℤ ratio.lo }
    requires ratio_size { HasAmount ratio_amount ratio }
    ensures holds { (w s r v : ℤ) → Holds flatness w → Holds sin_e s → Holds ratio r →
        Near (w *ℤ s) r v → Holds result v }
    ensures amount { HasAmount true_amount result }
    ensures narrow { HasEnds value_amount eccentric_value_width sin_e →
        HasEnds ratio_amount ratio_width ratio → HasEnds true_amount true_width result }
{
    flatness.times_over(sin_e, 1).over(ratio, 1)
}

/// The distance and the true anomaly, `after` ps behind the ephemeris time.
pub(crate) fn on_ellipse(el: &Elements, motion: Exact, after: Exact) -> Ellipse
    requires motion_ends { HasEnds motion_amount motion_width motion }
    requires after_size { HasAmount orbit_reach after }
    ensures holds { (f : OrbitFields) (n t r c s : ℤ) → AreOrbitFields el.now f → Holds motion n →
        Holds after t → Anomaly f n t r c s → Holds result.ratio r
        × HoldsDirection result.direction c s }
    ensures ratio_amount { HasAmount ratio_amount result.ratio }
    ensures direction_amount { DirectionAmount true_amount result.direction }
    ensures narrow { HasEnds orbit_reach after_width after →
        HasEnds ratio_amount ratio_width result.ratio
        × DirectionEnds true_amount true_width result.direction }
{
    let e = Exact::of_wide(el.e);
    let at = eccentric_direction(mean_anomaly(el, motion, after), e);
    let ratio = ratio(e, at.cosine);
    let direction = Direction {
        cosine: true_cosine(at.cosine, e, ratio),
        sine: true_sine(flatness(e), at.sine, ratio),
    };
    Ellipse { ratio, direction }
}
