//! A number as it is written.

use crate::unit::Unit;

/// The number `digits * 10^ten`: the digits as written, without the point, and the written exponent
/// less the number of decimals.
#[derive(Clone, Copy, Debug, PartialEq, Eq)]
pub struct Decimal {
    pub digits: i64,
    pub ten: i8,
}

impl Decimal {
    ghost use Rattle.std.specs.Prelude.{◌≡◌, ◌≤◌, ◌^◌, pos, unsigned_abs};
    ghost use lib.Signed.{lt_z};
    ghost use Rattle.exact_decimal.specs.Units.{shift_of};

    /// Whether it is below 0.
    pub fn is_negative(&self) -> bool
        ensures { result ≡ lt_z self.now.digits (pos 0) }
    {
        self.digits < 0
    }

    /// The amount of the digits.
    pub fn amount(&self) -> u64
        ensures value { result ≡ unsigned_abs self.now.digits }
        ensures bound { result ≤ 2 ^ 63 }
    {
        self.digits.unsigned_abs()
    }

    /// The power of ten in the unit.
    pub fn shift_in(&self, unit: Unit) -> i16
        ensures { result ≡ shift_of self.now.ten unit }
    {
        i16::from(self.ten) + i16::from(unit.decimals())
    }
}

/// The field isn't a number.
#[derive(Clone, Copy, Debug, PartialEq, Eq)]
pub struct BadNumber;
