//! Decimals in whole units.

ghost use Rattle.std.specs.Prelude.{◌≡◌, ◌≤◌, ◌<◌, ◌*◌, ◌^◌, pos, IfOk, IsErr, unsigned_abs, ◌↔◌};
ghost use borrow.Author.Differences.{up, down};
ghost use Rattle.grid_model.specs.Rounding.{IsFloor, IsCeiling};
ghost use Rattle.exact_decimal.specs.Signing.{low_of, high_of};
ghost use Rattle.exact_decimal.specs.Units.{bound_of, shift_of, numerator, denominator};
ghost use Rattle.exact_decimal.specs.Units.{PassesBound, IsRounded, RoundsWithin};

use crate::decimal::Decimal;
use crate::unit::{Range, Unit};
use grid_model::Wide;

/// The floor and the ceiling of the decimal in the unit. `Range` comes exactly where its amount
/// passes the unit's bound.
pub fn to_unit(decimal: Decimal, unit: Unit) -> Result<Wide, Range>
    ensures floor { IfOk result
        (λ held. IsFloor (numerator decimal.digits decimal.ten unit)
        (pos (denominator decimal.ten unit)) held.lo) }
    ensures ceiling { IfOk result
        (λ held. IsCeiling (numerator decimal.digits decimal.ten unit)
        (pos (denominator decimal.ten unit)) held.hi) }
    ensures range { IsErr result ↔ PassesBound decimal.digits decimal.ten unit }
{
    match ends_of(&decimal, unit) {
        Some((floor, ceiling)) => Ok(signed(decimal.is_negative(), floor, ceiling)),
        None => Err(Range),
    }
}

/// Floor and ceiling of the decimal's amount in the unit; none where it passes the unit's bound.
fn ends_of(decimal: &Decimal, unit: Unit) -> Option<(u64, u64)>
    ensures { RoundsWithin (unsigned_abs decimal.now.digits
        * 10 ^ up (shift_of decimal.now.ten unit)) (denominator decimal.now.ten unit)
        (bound_of unit) result }
{
    shifted(decimal.amount(), decimal.shift_in(unit), unit.bound())
}

/// The amount times ten to the power of `shift`, as floor and ceiling; none where it passes the
/// bound.
fn shifted(amount: u64, shift: i16, bound: u64) -> Option<(u64, u64)>
    requires amount { amount ≤ 2 ^ 63 }
    requires least { 10 ^ 15 ≤ bound }
    requires greatest { bound ≤ 10 ^ 19 }
    ensures { RoundsWithin (amount * 10 ^ up shift) (10 ^ down shift) bound result }
{
    let power = u32::from(shift.unsigned_abs());
    if shift >= 0 {
        multiplied(amount, power, bound)
    } else {
        divided(amount, power, bound)
    }
}

/// The amount times a power of ten, as floor and ceiling; none where it passes the bound.
fn multiplied(amount: u64, power: u32, bound: u64) -> Option<(u64, u64)>
    requires amount { amount ≤ 2 ^ 63 }
    requires bound { bound ≤ 10 ^ 19 }
    ensures { RoundsWithin (amount * 10 ^ power) 1 bound result }
{
    if amount == 0 {
        return Some((0, 0));
    }
    if power > 19 {
        return None;
    }
    let value = u128::from(amount) * ten_to(power);
    if value > u128::from(bound) {
        return None;
    }
    Some((value as u64, value as u64))
}

/// The amount divided by a power of ten, as floor and ceiling; none where it passes the bound.
fn divided(amount: u64, power: u32, bound: u64) -> Option<(u64, u64)>
    requires amount { amount ≤ 2 ^ 63 }
    requires bound { 10 ^ 15 ≤ bound }
    ensures { RoundsWithin amount (10 ^ power) bound result }
{
    if power >= 19 {
        return Some((0, if amount > 0 { 1 } else { 0 }));
    }
    let divisor = ten_to(power);
    if u128::from(bound) * divisor < u128::from(amount) {
        return None;
    }
    Some(quotient(amount, divisor as u64))
}

/// The floor and the ceiling of a quotient.
fn quotient(amount: u64, divisor: u64) -> (u64, u64)
    requires positive { 0 < divisor }
    requires amount { amount ≤ 2 ^ 63 }
    ensures { IsRounded amount divisor result.0 result.1 }
{
    let floor = amount / divisor;
    if amount % divisor == 0 {
        (floor, floor)
    } else {
        (floor, floor + 1)
    }
}

/// A power of ten.
fn ten_to(power: u32) -> u128
    requires { power ≤ 19 }
    ensures { result ≡ 10 ^ power }
{
    10_u128.pow(power)
}

/// The floor and the ceiling of the number with a sign, from those of its amount.
fn signed(negative: bool, floor: u64, ceiling: u64) -> Wide
    requires { floor ≤ ceiling }
    ensures low { result.lo ≡ low_of negative floor ceiling }
    ensures high { result.hi ≡ high_of negative floor ceiling }
{
    if negative {
        Wide {
            lo: -i128::from(ceiling),
            hi: -i128::from(floor),
        }
    } else {
        Wide {
            lo: i128::from(floor),
            hi: i128::from(ceiling),
        }
    }
}
