//! The angle by which the earth turns while light goes a range, and its sine and cosine.

ghost use Rattle.std.specs.Prelude.{ℕ, ◌+◌, ◌≤◌, ℤ, pos, ◌≤ℤ◌};
ghost use Rattle.grid_model.specs.Sines.{Sine, NearCircle};
ghost use Rattle.gnss_model.specs.Turn.{IsEarthAngle};
ghost use Rattle.fix_interval.specs.Factors.{Holds, HasEnds, HasAmount};
ghost use Rattle.earth_rotation.specs.RoundSizes.{range_amount, angle_amount, sine_amount};
ghost use Rattle.earth_rotation.specs.RoundSizes.{cosine_amount, angle_width, cosine_width};

use fix_interval::{Exact, ExactArea, Interval};
use gnss_model::EARTH_RATE;
use interval_trig::sine;

/// The speed of light, in m/s, times 10^12: a rate in 10^-22 rad/s times a range in um over it is
/// an angle in 10^-16 rad.
const LIGHT_SCALE: i128 = 299_792_458_000_000_000_000;

/// The square of one, 16 units of 10^-16 less and more, in 10^-32.
const LEAST_CIRCLE: u128 = 99_999_999_999_999_840_000_000_000_000_000;

const GREATEST_CIRCLE: u128 = 100_000_000_000_000_160_000_000_000_000_000;

/// The angle by which the earth turns while light goes a range, in 10^-16 rad.
pub(crate) fn earth_angle(range: Exact) -> Exact
    requires { HasAmount range_amount range }
    ensures holds { (r : ℕ) (a : ℤ) → Holds range (pos r) → IsEarthAngle r a → Holds result a }
    ensures amount { HasAmount angle_amount result }
    ensures narrow { (v : ℕ) → HasEnds range_amount v range →
        HasEnds angle_amount (angle_width v) result }
{
    let rate = Exact {
        lo: EARTH_RATE,
        hi: EARTH_RATE,
    };
    rate.times_over(range, LIGHT_SCALE)
}

/// The sine of an angle by which the earth turns, which is as small as the angle.
pub(crate) fn small_sine(angle: Exact) -> Exact
    requires { HasAmount angle_amount angle }
    ensures holds { (a s : ℤ) → Holds angle a → Sine a s → Holds result s }
    ensures amount { HasAmount sine_amount result }
    ensures narrow { (w : ℕ) → HasEnds angle_amount w angle → HasEnds sine_amount (w + 16) result }
{
    sine(angle)
}

/// The cosine of an angle whose sine is small, by the law on their squares: it hardly moves with
/// the angle, while `cosine` widens as the angle does.
pub(crate) fn cosine_beside(sine: Exact) -> Exact
    requires { HasAmount sine_amount sine }
    ensures holds { (s c : ℤ) → Holds sine s → pos 0 ≤ℤ c → NearCircle s c → Holds result c }
    ensures amount { HasAmount cosine_amount result }
    ensures narrow { (w : ℕ) → HasEnds sine_amount w sine →
        HasEnds cosine_amount (cosine_width w) result }
{
    let squares = sine.square();
    <Exact as Interval>::root(ExactArea {
        lo: LEAST_CIRCLE - squares.hi,
        hi: GREATEST_CIRCLE - squares.lo,
    })
}
