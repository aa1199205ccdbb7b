//! Intervals with whole-number ends, and the products and quotients of printed equations.

ghost use Rattle.std.specs.Prelude.{◌≡◌, ◌^◌, ℤ, pos, ◌+ℤ◌, ◌-ℤ◌, ◌*ℤ◌, ◌≤ℤ◌, ◌<ℤ◌};
ghost use Rattle.grid_model.specs.Sizes.{IsWithin};
ghost use Rattle.grid_model.specs.Intervals.{Between};
ghost use Rattle.grid_model.specs.Rounding.{Near, IsTightRound, IsTightQuotient};
ghost use Rattle.grid_model.specs.Products.{ProductsWithin, least_product, greatest_product};

use crate::ends::{
    greatest_of_products, high_end, high_end_over, least_of_products, low_end, low_end_over,
};
use grid_model::Wide;

/// The whole numbers from `lo` to `hi`, in whatever unit.
#[derive(Clone, Copy, Debug, PartialEq, Eq)]
pub struct Exact {
    pub lo: i128,
    pub hi: i128,
    pub ghost ordered: { lo ≤ℤ hi },
}

impl Exact {
    /// The same numbers.
    pub fn of_wide(w: Wide) -> Exact
        ensures low { result.lo ≡ w.lo }
        ensures high { result.hi ≡ w.hi }
    {
        Exact { lo: w.lo, hi: w.hi }
    }

    /// The same numbers.
    pub fn wide(self) -> Wide
        ensures low { result.lo ≡ self.lo }
        ensures high { result.hi ≡ self.hi }
    {
        Wide {
            lo: self.lo,
            hi: self.hi,
        }
    }

    /// From the least to the greatest sum of members.
    pub fn plus(self, other: Exact) -> Exact
        requires low_size { IsWithin (10 ^ 38) (self.lo +ℤ other.lo) }
        requires high_size { IsWithin (10 ^ 38) (self.hi +ℤ other.hi) }
        ensures low { result.lo ≡ self.lo +ℤ other.lo }
        ensures high { result.hi ≡ self.hi +ℤ other.hi }
    {
        Exact {
            lo: self.lo + other.lo,
            hi: self.hi + other.hi,
        }
    }

    /// From the least to the greatest difference of members.
    pub fn minus(self, other: Exact) -> Exact
        requires low_size { IsWithin (10 ^ 38) (self.lo -ℤ other.hi) }
        requires high_size { IsWithin (10 ^ 38) (self.hi -ℤ other.lo) }
        ensures low { result.lo ≡ self.lo -ℤ other.hi }
        ensures high { result.hi ≡ self.hi -ℤ other.lo }
    {
        Exact {
            lo: self.lo - other.hi,
            hi: self.hi - other.lo,
        }
    }

    /// Every whole number within one unit of `a * b / den`, for members a and b. At most four
    /// units wider than the exact results are spread.
    pub fn times_over(self, other: Exact, den: i128) -> Exact
        requires positive { pos 0 <ℤ den }
        requires sizes { ProductsWithin (10 ^ 38) self.lo self.hi other.lo other.hi }
        ensures holds { (a b v : ℤ) → Between self.lo self.hi a → Between other.lo other.hi b →
            Near (a *ℤ b) den v → Between result.lo result.hi v }
        ensures tight { IsTightRound (least_product self.lo self.hi other.lo other.hi) den
            (greatest_product self.lo self.hi other.lo other.hi) den result.lo result.hi }
        ensures width { ((result.hi -ℤ result.lo) *ℤ den)
            ≤ℤ ((greatest_product self.lo self.hi other.lo other.hi
            -ℤ least_product self.lo self.hi other.lo other.hi) +ℤ (pos 4 *ℤ den)) }
    {
        let least = least_of_products(self.lo, self.hi, other.lo, other.hi);
        let greatest = greatest_of_products(self.lo, self.hi, other.lo, other.hi);
        let lo = low_end(least, den);
        let hi = high_end(greatest, den);
        Exact { lo, hi }
    }

    /// Every whole number within one unit of `a * num / b`, for members a and b. At most four
    /// units wider than the exact results are spread.
    pub fn over(self, other: Exact, num: i128) -> Exact
        requires positive { pos 0 <ℤ other.lo }
        requires low_size { IsWithin (10 ^ 38) (self.lo *ℤ num) }
        requires high_size { IsWithin (10 ^ 38) (self.hi *ℤ num) }
        ensures holds { (a b v : ℤ) → Between self.lo self.hi a → Between other.lo other.hi b →
            Near (a *ℤ num) b v → Between result.lo result.hi v }
        ensures tight { IsTightQuotient self.lo self.hi other.lo other.hi num result.lo result.hi }
    {
        let least = least_of_products(self.lo, self.hi, num, num);
        let greatest = greatest_of_products(self.lo, self.hi, num, num);
        let lo = low_end_over(least, other);
        let hi = high_end_over(greatest, other);
        Exact { lo, hi }
    }
}
