//! The Taylor sums in nested form (Horner's scheme), in whole numbers of 10^-18.

ghost use Rattle.std.specs.Prelude.{◌≡◌, ℕ, ◌+◌, ◌-◌, ◌*◌, ◌/◌, ◌^◌, ◌≤◌};
ghost use Rattle.grid_model.specs.Angles.{unit};
ghost use Rattle.interval_trig.specs.NestedSums.{greatest_rest, Holds, HoldsSquare, plain_num};
ghost use Rattle.interval_trig.specs.NestedSums.{nested_den, sine_15, cosine_16};

use crate::quotients::{fine_product, over_square};

/// One, in units of 10^-18.
const FINE: u64 = 1_000_000_000_000_000_000;

/// A fraction between two ends, in units of 10^-18.
#[derive(Clone, Copy, Debug, Drop)]
pub(crate) struct Part {
    pub(crate) lo: u64,
    pub(crate) hi: u64,
    ghost ordered: { lo ≤ hi },
}

/// y/d * part, rounded down.
#[inline(always)]
fn over_of(part: u64, y: u64, d: u64) -> u64
    requires part_size { part ≤ 10 ^ 18 }
    requires y_size { y ≤ 10 ^ 18 }
    requires d_low { 2 ≤ d }
    ensures value { result ≡ y * part / (d * 10 ^ 18) }
    ensures size { result ≤ 10 ^ 18 }
{
    fine_product(y, part) / d
}

/// 1 - y/d * part.
// Of both ends a sum needs one: where a step stands in its caller, the other isn't computed.
#[inline(always)]
fn step(part: Part, y: Part, d: u64) -> Part
    requires part_size { part.hi ≤ 10 ^ 18 }
    requires y_size { y.hi ≤ 10 ^ 18 }
    requires d_low { 2 ≤ d }
    requires d_high { d ≤ 306 }
    ensures holds { (square num den : ℕ) → HoldsSquare y.lo y.hi square →
        Holds part.lo part.hi num den →
        Holds result.lo result.hi (d * (unit * unit) * den - square * num) (d * (unit * unit)
        * den) }
    ensures size { result.hi ≤ 10 ^ 18 }
    ensures width { y.hi ≤ 62 * 10 ^ 16 → y.hi ≤ y.lo + 5 →
        100 * d * (result.hi - result.lo) ≤ 62 * (part.hi - part.lo) + 200 * d + 500 }
{
    let most = over_of(part.hi, y.hi, d) + 1;
    let least = over_of(part.lo, y.lo, d);
    Part {
        lo: FINE - most,
        hi: FINE - least,
    }
}

/// The nested sum of the sine, of degree 15.
#[inline(always)]
pub(crate) fn sine_part(y: Part) -> Part
    requires y_size { y.hi ≤ 10 ^ 18 }
    ensures holds { (square : ℕ) → HoldsSquare y.lo y.hi square →
        Holds result.lo result.hi (plain_num square sine_15) (nested_den sine_15) }
    ensures size { result.hi ≤ 10 ^ 18 }
    ensures width { y.hi ≤ 62 * 10 ^ 16 → y.hi ≤ y.lo + 5 → result.hi ≤ result.lo + 4 }
{
    let one = Part { lo: FINE, hi: FINE };
    let p15 = step(one, y, 14 * 15);
    let p13 = step(p15, y, 12 * 13);
    let p11 = step(p13, y, 10 * 11);
    let p9 = step(p11, y, 8 * 9);
    let p7 = step(p9, y, 6 * 7);
    let p5 = step(p7, y, 4 * 5);
    step(p5, y, 2 * 3)
}

/// The nested sum of the cosine, of degree 16.
#[inline(always)]
pub(crate) fn cosine_part(y: Part) -> Part
    requires y_size { y.hi ≤ 10 ^ 18 }
    ensures holds { (square : ℕ) → HoldsSquare y.lo y.hi square →
        Holds result.lo result.hi (plain_num square cosine_16) (nested_den cosine_16) }
    ensures size { result.hi ≤ 10 ^ 18 }
    ensures width { y.hi ≤ 62 * 10 ^ 16 → y.hi ≤ y.lo + 5 → result.hi ≤ result.lo + 5 }
{
    let one = Part { lo: FINE, hi: FINE };
    let p16 = step(one, y, 15 * 16);
    let p14 = step(p16, y, 13 * 14);
    let p12 = step(p14, y, 11 * 12);
    let p10 = step(p12, y, 9 * 10);
    let p8 = step(p10, y, 7 * 8);
    let p6 = step(p8, y, 5 * 6);
    let p4 = step(p6, y, 3 * 4);
    step(p4, y, 1 * 2)
}

/// The square of a rest's amount.
#[inline(always)]
pub(crate) fn square_of(a: u128) -> Part
    requires size { a ≤ greatest_rest }
    ensures holds { HoldsSquare result.lo result.hi (a * a) }
    ensures size { result.hi ≤ 62 * 10 ^ 16 }
    ensures width { result.hi ≤ result.lo + 5 }
{
    let square = over_square(a * a);
    Part {
        lo: square,
        hi: square + 1,
    }
}
