//! The quarter of a turn that is nearest to an angle, and what is left.

ghost use Rattle.std.specs.Prelude.{◌≡◌, ◌*◌, ◌<◌, ℤ, pos, ◌-ℤ◌, ◌*ℤ◌};
ghost use Rattle.grid_model.specs.Sizes.{IsWithin};
ghost use Rattle.grid_model.specs.Angles.{unit, quarter, quarter_turn};
ghost use Rattle.grid_model.specs.Rounding.{IsFloor};
ghost use Rattle.grid_model.specs.Sines.{modulo_4};
ghost use Rattle.interval_trig.specs.NestedSums.{greatest_rest};

use crate::quotients::{over_half_turn, over_ten_thousand};

/// In units of 10^-20 rad.
const QUARTER_TURN: i128 = 157_079_632_679_489_661_923;

/// 42 half turns and a quarter, so that no angle is negative.
const UP: i128 = 13_351_768_777_756_621_263_455;

/// So many ten thousands more no rest is negative.
const REST_UP: i128 = 7_853_981_633_974_484;

/// The number of the quarter round x.
#[inline]
pub(crate) fn quarter_of(x: i128) -> i128
    requires { IsWithin (64 * unit) x }
    ensures value { result ≡ quarter x }
    ensures size { IsWithin 41 result }
{
    i128::from(over_half_turn((20000 * x + UP) as u128)) - 42
}

/// What is left of x without its quarters, in units of 10^-20.
#[inline]
pub(crate) fn left_of(x: i128, k: i128) -> i128
    requires x_size { IsWithin (64 * unit) x }
    requires k_size { IsWithin 41 k }
    requires quarter { k ≡ quarter x }
    ensures value { result ≡ (pos 10000 *ℤ x) -ℤ (k *ℤ pos quarter_turn) }
    ensures size { IsWithin 78539816339744830962 result }
{
    10000 * x - k * QUARTER_TURN
}

/// What is left in whole units, rounded down.
#[inline]
pub(crate) fn whole_of(left: i128) -> i128
    requires { IsWithin 78539816339744830962 left }
    ensures floor { IsFloor left (pos 10000) result }
    ensures size { IsWithin greatest_rest result }
{
    i128::from(over_ten_thousand((left + 10000 * REST_UP) as u128)) - REST_UP
}

/// A quarter's number modulo 4.
#[inline]
pub(crate) fn turn_of(k: i128) -> u8
    requires { IsWithin 42 k }
    ensures value { result ≡ modulo_4 k }
    ensures size { result < 4 }
{
    k.rem_euclid(4) as u8
}
