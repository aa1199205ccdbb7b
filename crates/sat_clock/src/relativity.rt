//! The relativistic correction of the clock, which goes by the sine of the eccentric anomaly
//! (IS-GPS-200, 20.3.3.3.3.1).

ghost use Rattle.std.specs.Prelude.{◌≡◌, ◌+◌, ◌*◌, ◌/◌, ◌^◌, ℤ, pos, neg_ℤ, ◌+ℤ◌, ◌-ℤ◌, ◌*ℤ◌};
ghost use Rattle.grid_model.specs.Angles.{unit};
ghost use Rattle.gnss_model.specs.ClockChain.{ClockFields, AreClockFields, IsAdvanced, IsEarlier};
ghost use Rattle.grid_model.specs.Intervals.{Between, Ends};
ghost use Rattle.gnss_model.specs.Kepler.{Kepler};
ghost use Rattle.gnss_model.specs.MeanMotion.{MeanMotionOf};
ghost use Rattle.gnss_model.specs.RecordBounds.{IsValue};
ghost use Rattle.grid_model.specs.Rounding.{Near};
ghost use Rattle.grid_model.specs.Sines.{Sine};
ghost use Rattle.grid_model.specs.Sizes.{IsWithin};
ghost use Rattle.gnss_model.specs.Systems.{relativity_of};
ghost use Rattle.sat_clock.specs.ClockSizes.{IsNearEphemeris, base_size, after_size, mean_size};
ghost use Rattle.sat_clock.specs.ClockSizes.{relative_size, width};

use crate::motion::motion_of;
use crate::times::after;
use fix_interval::{Exact, UNIT, advanced};
use gnss_model::{Elements, System};
use interval_trig::sine;
use kepler_enclosure::eccentric;

/// F of GPS, in 10^-19 s/m^(1/2).
const RELATIVITY: i128 = -4_442_807_633;

/// That of Galileo.
const GALILEO_RELATIVITY: i128 = -4_442_807_309;

/// A product of an eccentricity and a root in 10^-28 is divided by it to be one in 10^-16.
const ROOT_UNIT: i128 = 1_000_000_000_000;

/// A product of F and a length's root in 10^-35 is divided by it to be one in 10^-16.
const RELATIVITY_UNIT: i128 = 10_000_000_000_000_000_000;

/// M_k = M_0 + n t_k.
fn mean_anomaly(el: &Elements, after: Exact, system: System) -> Exact
    requires low_size { IsWithin after_size after.lo }
    requires high_size { IsWithin after_size after.hi }
    ensures holds { (n m0 x v : ℤ) → MeanMotionOf system el.now n → IsValue el.now.m0 m0 →
        Between after.lo after.hi x → IsAdvanced m0 n x v → Between result.lo result.hi v }
    ensures ends { Ends mean_size (2 * width after.lo after.hi + 66) result.lo result.hi }
{
    advanced(Exact::of_wide(el.m0), motion_of(el, system), after)
}

/// sin E_k.
fn sine_of_eccentric(el: &Elements, mean: Exact) -> Exact
    requires low_size { IsWithin mean_size mean.lo }
    requires high_size { IsWithin mean_size mean.hi }
    ensures holds { (e m x s : ℤ) → IsValue el.now.e e → Between mean.lo mean.hi m → Kepler m e x →
        Sine x s → Between result.lo result.hi s }
    ensures ends { Ends (unit + 8) (2 * width mean.lo mean.hi + 82) result.lo result.hi }
{
    sine(eccentric(mean, Exact::of_wide(el.e)))
}

/// F of a system.
fn factor(system: System) -> Exact
    ensures low { result.lo ≡ neg_ℤ (pos (relativity_of system)) }
    ensures high { result.hi ≡ neg_ℤ (pos (relativity_of system)) }
{
    match system {
        System::Gps => Exact {
            lo: RELATIVITY,
            hi: RELATIVITY,
        },
        System::Galileo(_) => Exact {
            lo: GALILEO_RELATIVITY,
            hi: GALILEO_RELATIVITY,
        },
    }
}

/// dt_r = F e sqrt(A) sin E_k. The products are taken in steps, the sum of whose powers of ten is
/// 47.
fn relative(el: &Elements, sine: Exact, system: System) -> Exact
    requires low_size { IsWithin (unit + 8) sine.lo }
    requires high_size { IsWithin (unit + 8) sine.hi }
    ensures holds { (e s x v : ℤ) → IsValue el.now.e e → IsValue el.now.root_a s →
        Between sine.lo sine.hi x →
        Near (neg_ℤ (((pos (relativity_of system) *ℤ e) *ℤ s) *ℤ x)) (pos (10 ^ 47)) v →
        Between result.lo result.hi v }
    ensures ends { Ends relative_size (width sine.lo sine.hi / 1000 + 5) result.lo result.hi }
{
    let focus = Exact::of_wide(el.e).times_over(Exact::of_wide(el.root_a), ROOT_UNIT);
    focus
        .times_over(sine, UNIT)
        .times_over(factor(system), RELATIVITY_UNIT)
}

/// The relativistic correction of a signal sent at tsv, for the offset without it.
pub(crate) fn relativistic(el: &Elements, tsv: Exact, base: Exact, system: System) -> Exact
    requires near { IsNearEphemeris el.now tsv.lo tsv.hi }
    requires low_size { IsWithin base_size base.lo }
    requires high_size { IsWithin base_size base.hi }
    ensures holds { (f : ClockFields) → (n x b about mean anomaly s v : ℤ) →
        AreClockFields el.now f → MeanMotionOf system el.now n → Between tsv.lo tsv.hi x →
        Between base.lo base.hi b → IsEarlier x b about →
        IsAdvanced f.m0 n (about -ℤ (el.now.week_start +ℤ f.toe_week)) mean →
        Kepler mean f.e anomaly → Sine anomaly s →
        Near (neg_ℤ (((pos (relativity_of system) *ℤ f.e) *ℤ f.root_a) *ℤ s)) (pos (10 ^ 47)) v →
        Between result.lo result.hi v }
    ensures ends { Ends relative_size ((width tsv.lo tsv.hi + width base.lo base.hi) / 100
        + 6) result.lo result.hi }
{
    let mean = mean_anomaly(el, after(el, tsv, base), system);
    relative(el, sine_of_eccentric(el, mean), system)
}
