//! The numbers of a row's form, each with its size: v is the way from the middle of the satellite's
//! place to that of the box, in um, and A more than its length.

ghost use Rattle.std.specs.Prelude.{◌≡◌, ◌≤◌, ◌<◌, ◌*◌, ◌+◌, pos, unsigned_abs};
ghost use Rattle.std.specs.Prelude.{◌↔◌, ◌+ℤ◌, ◌-ℤ◌, ◌*ℤ◌, IsTrue};
ghost use Rattle.std.specs.Int.{int_div_euclid};
ghost use Rattle.grid_model.specs.Amounts.{square};
ghost use Rattle.grid_model.specs.Roots.{root};
ghost use Rattle.grid_model.specs.Rounding.{IsFloor};
ghost use Rattle.grid_model.specs.Sizes.{IsWithin};
ghost use Rattle.sat_model.specs.Pairs.{scale};

use crate::axes::Axis;
use grid_model::root_u128;

/// S: slopes are whole numbers of this part of one, and bounds in um of this part.
const SCALE: i128 = 4_194_304;

/// 2^107, of which an inverse is a part.
const WHOLE: u128 = 162_259_276_829_213_363_391_578_010_288_128;

/// 2^79: numbers of this amount or more are too large for a guess.
const GUESS_LIMIT: u128 = 604_462_909_807_314_587_353_088;

/// 2^16, by which an amount is cut before its product with an inverse, so that this fits.
const GUESS_CUT: u128 = 65_536;

/// 2^69, by which that product is cut: S, `GUESS_CUT` and this make `WHOLE`.
const GUESS_SHIFT: u128 = 590_295_810_358_705_651_712;

/// The square of an amount, in um^2.
fn square_of(a: u64) -> u128
    requires { a ≤ 70000000000000 }
    ensures value { result ≡ square a }
    ensures bound { result ≤ 4900000000000000000000000000 }
{
    u128::from(a) * u128::from(a)
}

/// v.v, in um^2.
pub(crate) fn away_square(x: &Axis, y: &Axis, z: &Axis) -> u128
    ensures value { result ≡ square (unsigned_abs x.now.away) + square (unsigned_abs y.now.away)
        + square (unsigned_abs z.now.away) }
    ensures bound { result ≤ 14700000000000000000000000000 }
{
    square_of(x.away.unsigned_abs())
        + square_of(y.away.unsigned_abs())
        + square_of(z.away.unsigned_abs())
}

/// A, in um: the whole-number root of v.v and one.
pub(crate) fn arm_of(square: u128) -> u64
    requires { square ≤ 14700000000000000000000000000 }
    ensures value { result ≡ root square + 1 }
    ensures bound { result ≤ 130000000000000 }
    ensures some { 0 < result }
{
    root_u128(square) + 1
}

/// How much v times the place's way from its middle may be on one axis, in um^2.
fn play_on(axis: &Axis) -> u128
    ensures value { result ≡ unsigned_abs axis.now.away * axis.now.place }
    ensures bound { result ≤ 4200000000000000000000000000 }
{
    u128::from(axis.away.unsigned_abs()) * u128::from(axis.place)
}

/// How much it may be on all three.
pub(crate) fn play_of(x: &Axis, y: &Axis, z: &Axis) -> u128
    ensures value { result ≡ unsigned_abs x.now.away * x.now.place
        + unsigned_abs y.now.away * y.now.place + unsigned_abs z.now.away * z.now.place }
    ensures bound { result ≤ 12600000000000000000000000000 }
{
    play_on(x) + play_on(y) + play_on(z)
}

/// How much the square of the point's and the place's ways from their middles may be, in um^2.
pub(crate) fn spread_of(x: &Axis, y: &Axis, z: &Axis) -> u128
    ensures value { result ≡ square (x.now.side + x.now.place)
        + square (y.now.side + y.now.place) + square (z.now.side + z.now.place) }
    ensures bound { result ≤ 14700000000000000000000000000 }
{
    square_of(x.side + x.place) + square_of(y.side + y.place) + square_of(z.side + z.place)
}

/// The inverse of A: 2^107 / A, rounded down, or the greatest number where that is more.
///
/// Quotients by A are guessed by it and then tested, since a division of 128 bits takes far longer.
/// Any number gives the same quotients, so nothing has to be known of it.
pub(crate) fn inverse_of(arm: u64) -> u64
    requires { 0 < arm }
{
    u64::try_from(WHOLE / u128::from(arm)).unwrap_or(u64::MAX)
}

/// A guess of S num / den by the inverse of den, seldom wrong and then mostly by one; 0 where the
/// number is too large.
fn guessed(num: i128, inverse: u64) -> i128
    ensures { IsWithin 288230376151711744 result }
{
    let amount = num.unsigned_abs();
    if amount >= GUESS_LIMIT {
        return 0;
    }
    let guess = (amount / GUESS_CUT * u128::from(inverse) / GUESS_SHIFT) as i128;
    if num < 0 { -guess - 1 } else { guess }
}

/// Whether `v` is num / den, rounded down.
fn is_quotient(num: i128, den: u64, v: i128) -> bool
    requires num { IsWithin 419430400000000000000000000000000000 num }
    requires v { IsWithin 300000000000000000 v }
    ensures { IsTrue result ↔ IsFloor num (pos den) v }
{
    let rest = num - v * i128::from(den);
    if rest < 0 {
        return false;
    }
    rest < i128::from(den)
}

/// num / den, rounded down: the guess or one more, or else divided.
fn settled(num: i128, den: u64, guess: i128) -> i128
    requires num { IsWithin 419430400000000000000000000000000000 num }
    requires den { 0 < den }
    requires guess { IsWithin 288230376151711744 guess }
    ensures { result ≡ int_div_euclid num (pos den) }
{
    if is_quotient(num, den, guess) {
        return guess;
    }
    if is_quotient(num, den, guess + 1) {
        return guess + 1;
    }
    num.div_euclid(i128::from(den))
}

/// S num / den, rounded down.
fn scaled(num: i128, den: u64, inverse: u64) -> i128
    requires num { IsWithin 100000000000000000000000000000 num }
    requires den { 0 < den }
    ensures value { result ≡ int_div_euclid (pos scale *ℤ num) (pos den) }
    ensures bound { IsWithin 419430400000000000000000000000000000 result }
{
    settled(SCALE * num, den, guessed(num, inverse))
}

/// A times a way in um, in um^2.
fn arm_times(arm: u64, end: i64) -> i128
    requires arm { arm ≤ 260000000000000 }
    requires end { IsWithin 61000000000001 end }
    ensures value { result ≡ pos arm *ℤ end }
    ensures bound { IsWithin 16000000000000000000000000000 result }
{
    i128::from(arm) * i128::from(end)
}

/// The slope on an axis, S v / A rounded down.
pub(crate) fn slope_of(arm: u64, inverse: u64, away: i64) -> i64
    requires arm { unsigned_abs away < arm }
    requires bound { arm ≤ 130000000000000 }
    requires away { IsWithin 70000000000000 away }
    ensures value { result ≡ int_div_euclid (pos scale *ℤ away) (pos arm) }
    ensures bound { IsWithin 4194304 result }
{
    scaled(i128::from(away), arm, inverse) as i64
}

/// A b + v.u is at most this, where a range and its error leave at most `end`, in um^2.
fn most_of(arm: u64, end: i64, square: u128, play: u128) -> i128
    requires arm { arm ≤ 130000000000000 }
    requires end { IsWithin 61000000000000 end }
    requires square { square ≤ 14700000000000000000000000000 }
    requires play { play ≤ 12600000000000000000000000000 }
    ensures value { result ≡ ((pos arm *ℤ (end +ℤ pos 1)) -ℤ pos square) +ℤ pos play }
    ensures bound { IsWithin 100000000000000000000000000000 result }
{
    arm_times(arm, end + 1) - square as i128 + play as i128
}

/// The bound from above, where a range and its error leave at most `end`, in um of 1 / S.
pub(crate) fn upper_of(
    arm: u64,
    inverse: u64,
    end: i64,
    square: u128,
    play: u128,
    rounding: u64,
) -> i128
    requires some { 0 < arm }
    requires arm { arm ≤ 130000000000000 }
    requires end { IsWithin 61000000000000 end }
    requires square { square ≤ 14700000000000000000000000000 }
    requires play { play ≤ 12600000000000000000000000000 }
    requires rounding { rounding ≤ 30000000000000 }
    ensures value { result ≡ int_div_euclid
        (pos scale *ℤ (((pos arm *ℤ (end +ℤ pos 1)) -ℤ pos square) +ℤ pos play))
        (pos arm) +ℤ pos rounding }
    ensures bound { IsWithin 500000000000000000000000000000000000 result }
{
    scaled(most_of(arm, end, square, play), arm, inverse) + i128::from(rounding)
}

/// A A, v.v and what the ways from the middles add, together, in um^2.
fn taken_of(arm: u64, square: u128, play: u128, spread: u128) -> u128
    requires arm { arm ≤ 130000000000000 }
    requires square { square ≤ 14700000000000000000000000000 }
    requires play { play ≤ 12600000000000000000000000000 }
    requires spread { spread ≤ 14700000000000000000000000000 }
    ensures value { result ≡ arm * arm + square + 2 * play + spread }
    ensures bound { result ≤ 72000000000000000000000000000 }
{
    u128::from(arm) * u128::from(arm) + square + 2 * play + spread
}

/// 2 (A b + v.u) is at least this, where a range and its error leave at least `end`, in um^2.
fn least_of(arm: u64, end: i64, taken: u128) -> i128
    requires arm { arm ≤ 130000000000000 }
    requires end { IsWithin 61000000000000 end }
    requires taken { taken ≤ 72000000000000000000000000000 }
    ensures value { result ≡ (pos (2 * arm) *ℤ end) -ℤ pos taken }
    ensures bound { IsWithin 100000000000000000000000000000 result }
{
    arm_times(2 * arm, end) - taken as i128
}

/// The bound from below, where a range and its error leave at least `end`, in um of 1 / S.
pub(crate) fn lower_of(
    arm: u64,
    inverse: u64,
    end: i64,
    square: u128,
    play: u128,
    spread: u128,
    rounding: u64,
) -> i128
    requires some { 0 < arm }
    requires arm { arm ≤ 130000000000000 }
    requires end { IsWithin 61000000000000 end }
    requires square { square ≤ 14700000000000000000000000000 }
    requires play { play ≤ 12600000000000000000000000000 }
    requires spread { spread ≤ 14700000000000000000000000000 }
    requires rounding { rounding ≤ 30000000000000 }
    ensures value { result ≡ int_div_euclid
        (pos scale *ℤ ((pos (2 * arm) *ℤ end) -ℤ pos (arm * arm + square + 2 * play + spread)))
        (pos (2 * arm)) -ℤ pos rounding }
    ensures bound { IsWithin 500000000000000000000000000000000000 result }
{
    let taken = taken_of(arm, square, play, spread);
    scaled(least_of(arm, end, taken), 2 * arm, inverse / 2) - i128::from(rounding)
}
