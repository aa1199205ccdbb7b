//! Decimals that lie between two whole numbers of units.

ghost use Rattle.std.specs.Prelude.{◌↔◌, ◌≤ℤ◌, pos, IsSome, IfSome};
ghost use Rattle.grid_model.specs.Rounding.{IsFloor, IsCeiling};
ghost use Rattle.grid_model.specs.Sizes.{IsWithin};
ghost use Rattle.exact_decimal.specs.Units.{bound_of, numerator, denominator, LiesBetween};

use crate::convert::to_unit;
use crate::decimal::Decimal;
use crate::unit::Unit;
use grid_model::Wide;

/// The floor and the ceiling of the decimal in the unit, where it lies from `low` to `high` units.
pub fn to_unit_between(decimal: Decimal, unit: Unit, low: i128, high: i128) -> Option<Wide>
    requires low_within { IsWithin (bound_of unit) low }
    requires high_within { IsWithin (bound_of unit) high }
    ensures lies { IsSome result ↔ LiesBetween decimal.digits decimal.ten unit low high }
    ensures floor { IfSome result
        (λ held. IsFloor (numerator decimal.digits decimal.ten unit)
        (pos (denominator decimal.ten unit)) held.lo) }
    ensures ceiling { IfSome result
        (λ held. IsCeiling (numerator decimal.digits decimal.ten unit)
        (pos (denominator decimal.ten unit)) held.hi) }
    ensures from { IfSome result (λ held. low ≤ℤ held.lo) }
    ensures to { IfSome result (λ held. held.hi ≤ℤ high) }
{
    let Ok(held) = to_unit(decimal, unit) else {
        return None;
    };
    if held.lo < low {
        return None;
    }
    if held.hi > high {
        return None;
    }
    Some(held)
}
