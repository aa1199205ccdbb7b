//! A value moved on by its rate over a time, as the printed equations of clock and orbit do it.

ghost use Rattle.std.specs.Prelude.{ℕ, ◌+◌, ◌*◌, ◌^◌, ◌≤◌, ℤ};
ghost use Rattle.grid_model.specs.Sizes.{IsWithin};
ghost use Rattle.gnss_model.specs.ClockChain.{IsAdvanced};
ghost use Rattle.gnss_model.specs.EarthModel.{rate_scale};
ghost use Rattle.grid_model.specs.Intervals.{Between, Ends};
ghost use Rattle.grid_model.specs.Products.{ProductsWithin};

use crate::exact::Exact;

/// A rate in 10^-22 per s over a time in ps is a number in 10^-34: so many are one in 10^-16.
pub const RATE_SCALE: i128 = 1_000_000_000_000_000_000;

/// Every whole number within one unit of `value + rate * time / 10^18`, for members of the three.
pub fn advanced(value: Exact, rate: Exact, time: Exact) -> Exact
    requires low_size { IsWithin (10 ^ 37) value.lo }
    requires high_size { IsWithin (10 ^ 37) value.hi }
    requires sizes { ProductsWithin (10 ^ 38) rate.lo rate.hi time.lo time.hi }
    ensures holds { (a b t v : ℤ) → Between value.lo value.hi a → Between rate.lo rate.hi b →
        Between time.lo time.hi t → IsAdvanced a b t v → Between result.lo result.hi v }

    // For amounts l, m, n and widths u, v, w of the three: the products are at most j scales and
    // spread over at most k.
    ensures ends { (l u m v n w j k : ℕ) → Ends l u value.lo value.hi → Ends m v rate.lo rate.hi →
        Ends n w time.lo time.hi → m * n ≤ j * rate_scale → m * w + n * v ≤ k * rate_scale →
        Ends (l + (j + 2)) (u + (k + 4)) result.lo result.hi }
{
    value.plus(rate.times_over(time, RATE_SCALE))
}
