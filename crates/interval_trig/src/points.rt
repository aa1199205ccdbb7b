//! A value of the sine and of the cosine at one angle.

ghost use Rattle.std.specs.Prelude.{◌*◌, ◌<◌, ◌≤◌, pos};
ghost use Rattle.grid_model.specs.Sizes.{IsWithin};
ghost use Rattle.grid_model.specs.Angles.{unit};
ghost use Rattle.grid_model.specs.Taylor.{SineAt, CosineAt};
ghost use Rattle.grid_model.specs.Sines.{by_quarter, Sine, Cosine};
ghost use Rattle.interval_trig.specs.NestedSums.{greatest_rest};

use crate::parts::{cosine_part, sine_part, square_of};
use crate::quarters::{left_of, quarter_of, turn_of, whole_of};
use crate::quotients::fine_product;

/// A value of the sine at a rest that is not negative.
fn sine_of_amount(a: u128) -> u128
    requires size { a ≤ greatest_rest }
    ensures value { SineAt (pos a) (pos result) }
    ensures size { result ≤ unit }
{
    let part = sine_part(square_of(a));
    u128::from(fine_product(a as u64, part.hi))
}

/// A value of the cosine at a rest that is not negative.
fn cosine_of_amount(a: u128) -> u128
    requires size { a ≤ greatest_rest }
    ensures value { CosineAt (pos a) (pos result) }
    ensures size { result ≤ unit }
{
    let part = cosine_part(square_of(a));
    // A fine unit is a hundredth.
    u128::from(part.hi / 100)
}

/// A value of the sine at a rest.
fn sine_at(r: i128) -> i128
    requires size { IsWithin greatest_rest r }
    ensures value { SineAt r result }
    ensures size { IsWithin unit result }
{
    if 0 <= r {
        sine_of_amount(r as u128) as i128
    } else {
        -(sine_of_amount((-r) as u128) as i128)
    }
}

/// A value of the cosine at a rest.
fn cosine_at(r: i128) -> i128
    requires size { IsWithin greatest_rest r }
    ensures value { CosineAt r result }
    ensures size { IsWithin unit result }
{
    cosine_of_amount(r.unsigned_abs()) as i128
}

/// A value of the function that a quarter names, at a rest.
fn turned(turn: u8, r: i128) -> i128
    requires turn_size { turn < 4 }
    requires r_size { IsWithin greatest_rest r }
    ensures value { by_quarter turn r result }
    ensures size { IsWithin unit result }
{
    match turn {
        0 => sine_at(r),
        1 => cosine_at(r),
        2 => -sine_at(r),
        _ => -cosine_at(r),
    }
}

/// A value of the sine.
pub(crate) fn sine_point(x: i128) -> i128
    requires { IsWithin (64 * unit) x }
    ensures value { Sine x result }
    ensures size { IsWithin unit result }
{
    let k = quarter_of(x);
    turned(turn_of(k), whole_of(left_of(x, k)))
}

/// A value of the cosine.
pub(crate) fn cosine_point(x: i128) -> i128
    requires { IsWithin (64 * unit) x }
    ensures value { Cosine x result }
    ensures size { IsWithin unit result }
{
    let k = quarter_of(x);
    turned(turn_of(k + 1), whole_of(left_of(x, k)))
}
