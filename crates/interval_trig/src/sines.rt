//! Sine and cosine of intervals of angles: the value at the middle, and as far round it as the
//! half width, since neither function moves faster than its angle.

ghost use Rattle.std.specs.Prelude.{◌+◌, ◌*◌, ℤ, pos, ◌≤ℤ◌, ◌+ℤ◌, ◌-ℤ◌};
ghost use Rattle.grid_model.specs.Sizes.{IsWithin};
ghost use Rattle.grid_model.specs.Intervals.{Between};
ghost use Rattle.grid_model.specs.Angles.{unit};
ghost use Rattle.grid_model.specs.Sines.{Sine, Cosine};

use crate::points::{cosine_point, sine_point};
use fix_interval::{Exact, UNIT};

/// No value is more in amount.
const GREATEST_VALUE: i128 = UNIT + 8;

/// The middle of an interval, rounded down.
fn middle(x: Exact) -> i128
    requires low_size { IsWithin (64 * unit) x.lo }
    requires high_size { IsWithin (64 * unit) x.hi }
    ensures from { x.lo ≤ℤ result }
    ensures to { result ≤ℤ x.hi }
    ensures lower_half { (result -ℤ x.lo) ≤ℤ (x.hi -ℤ result) }
    ensures upper_half { (x.hi -ℤ result) ≤ℤ ((result -ℤ x.lo) +ℤ pos 1) }
{
    (x.lo + x.hi).div_euclid(2)
}

/// The numbers that are at most a half width and seven units away from a value, and no more than a
/// value can be. Where the half width is more than a radian, all that a value can be.
fn around(value: i128, half: i128) -> Exact
    requires value_size { IsWithin unit value }
    requires half_low { pos 0 ≤ℤ half }
    requires half_high { half ≤ℤ pos (128 * unit) }
    ensures holds { (s : ℤ) → IsWithin (unit + 8) s →
        (half ≤ℤ pos unit → Between (value -ℤ (half +ℤ pos 7)) (value +ℤ (half +ℤ pos 7)) s) →
        Between result.lo result.hi s }
    ensures width { (result.hi -ℤ result.lo) ≤ℤ ((half +ℤ half) +ℤ pos 14) }
    ensures low_size { IsWithin (unit + 8) result.lo }
    ensures high_size { IsWithin (unit + 8) result.hi }
{
    if UNIT < half {
        return Exact {
            lo: -GREATEST_VALUE,
            hi: GREATEST_VALUE,
        };
    }
    let reach = half + 7;
    Exact {
        lo: (value - reach).max(-GREATEST_VALUE),
        hi: (value + reach).min(GREATEST_VALUE),
    }
}

/// Every value of the sine at a member of `x`, in units of 10^-16. The ends of `x` are within 64
/// rad, in the same unit. At most 16 units wider than `x`.
pub fn sine(x: Exact) -> Exact
    requires low_size { IsWithin (64 * unit) x.lo }
    requires high_size { IsWithin (64 * unit) x.hi }
    ensures holds { (v s : ℤ) → Between x.lo x.hi v → Sine v s → Between result.lo result.hi s }
    ensures width { (result.hi -ℤ result.lo) ≤ℤ ((x.hi -ℤ x.lo) +ℤ pos 16) }

    // No value passes one by more than 8 units.
    ensures low_size { IsWithin (unit + 8) result.lo }
    ensures high_size { IsWithin (unit + 8) result.hi }
{
    let m = middle(x);
    around(sine_point(m), x.hi - m)
}

/// Every value of the cosine at a member of `x`, in units of 10^-16. The ends of `x` are within 64
/// rad, in the same unit. At most 16 units wider than `x`.
pub fn cosine(x: Exact) -> Exact
    requires low_size { IsWithin (64 * unit) x.lo }
    requires high_size { IsWithin (64 * unit) x.hi }
    ensures holds { (v s : ℤ) → Between x.lo x.hi v → Cosine v s → Between result.lo result.hi s }
    ensures width { (result.hi -ℤ result.lo) ≤ℤ ((x.hi -ℤ x.lo) +ℤ pos 16) }

    // No value passes one by more than 8 units.
    ensures low_size { IsWithin (unit + 8) result.lo }
    ensures high_size { IsWithin (unit + 8) result.hi }
{
    let m = middle(x);
    around(cosine_point(m), x.hi - m)
}
