//! The ends of rounded products and quotients.

ghost use Rattle.std.specs.Prelude.{◌≡◌, ◌^◌, ℤ, pos, ◌+ℤ◌, ◌-ℤ◌, ◌*ℤ◌, ◌≤ℤ◌, ◌<ℤ◌};
ghost use Rattle.grid_model.specs.Sizes.{IsWithin};
ghost use Rattle.grid_model.specs.Intervals.{Between};
ghost use Rattle.grid_model.specs.Rounding.{IsFloor};
ghost use Rattle.grid_model.specs.Products.{ProductsWithin, least_product, greatest_product};
ghost use Rattle.grid_model.specs.Squares.{least_end, greatest_end};

use crate::exact::Exact;

/// The least amount of a number from lo to hi.
pub(crate) fn least_amount(lo: i128, hi: i128) -> u128
    requires lo_size { IsWithin (2 ^ 126) lo }
    requires hi_size { IsWithin (2 ^ 126) hi }
    ensures { result ≡ least_end lo hi }
{
    lo.max(-hi).max(0) as u128
}

/// The greatest amount of a number from lo to hi.
pub(crate) fn greatest_amount(lo: i128, hi: i128) -> u128
    requires lo_size { IsWithin (2 ^ 126) lo }
    requires hi_size { IsWithin (2 ^ 126) hi }
    ensures { result ≡ greatest_end lo hi }
{
    hi.max(-lo).max(0) as u128
}

/// A product that fits.
fn product(a: i128, b: i128) -> i128
    requires { IsWithin (10 ^ 38) (a *ℤ b) }
    ensures value { result ≡ a *ℤ b }
    ensures size { IsWithin (10 ^ 38) result }
{
    a * b
}

/// The least product of a number from a to b and one from c to d.
pub(crate) fn least_of_products(a: i128, b: i128, c: i128, d: i128) -> i128
    requires { ProductsWithin (10 ^ 38) a b c d }
    ensures value { result ≡ least_product a b c d }
    ensures size { IsWithin (10 ^ 38) result }
{
    product(a, c)
        .min(product(a, d))
        .min(product(b, c).min(product(b, d)))
}

/// The greatest such product.
pub(crate) fn greatest_of_products(a: i128, b: i128, c: i128, d: i128) -> i128
    requires { ProductsWithin (10 ^ 38) a b c d }
    ensures value { result ≡ greatest_product a b c d }
    ensures size { IsWithin (10 ^ 38) result }
{
    product(a, c)
        .max(product(a, d))
        .max(product(b, c).max(product(b, d)))
}

/// num / den rounded down.
fn floor_of(num: i128, den: i128) -> i128
    requires positive { pos 0 <ℤ den }
    requires num_size { IsWithin (10 ^ 38) num }
    ensures floor { IsFloor num den result }
    ensures size { IsWithin (10 ^ 38) result }
{
    num.div_euclid(den)
}

/// At most each number that is near num / den or above, and at most two units below num / den.
pub(crate) fn low_end(num: i128, den: i128) -> i128
    requires positive { pos 0 <ℤ den }
    requires num_size { IsWithin (10 ^ 38) num }
    ensures holds { (v : ℤ) → num ≤ℤ (v *ℤ den +ℤ den) → result ≤ℤ v }
    ensures tight { num ≤ℤ ((result +ℤ pos 2) *ℤ den) }
{
    floor_of(num, den) - 1
}

/// At least each number that is near num / den or below, and at most two units above num / den.
pub(crate) fn high_end(num: i128, den: i128) -> i128
    requires positive { pos 0 <ℤ den }
    requires num_size { IsWithin (10 ^ 38) num }
    ensures holds { (v : ℤ) → (v *ℤ den) ≤ℤ (num +ℤ den) → v ≤ℤ result }
    ensures tight { ((result -ℤ pos 2) *ℤ den) ≤ℤ num }
{
    floor_of(num, den) + 1
}

/// At most each number that is near num / d or above, for each divisor d.
pub(crate) fn low_end_over(num: i128, divisor: Exact) -> i128
    requires positive { pos 0 <ℤ divisor.lo }
    requires num_size { IsWithin (10 ^ 38) num }
    ensures holds { (d v : ℤ) → Between divisor.lo divisor.hi d → num ≤ℤ (v *ℤ d +ℤ d) →
        result ≤ℤ v }
    ensures tight { (d : ℤ) × Between divisor.lo divisor.hi d × (num ≤ℤ ((result +ℤ pos 2) *ℤ d)) }
{
    if num < 0 {
        low_end(num, divisor.lo)
    } else {
        low_end(num, divisor.hi)
    }
}

/// At least each number that is near num / d or below, for each divisor d.
pub(crate) fn high_end_over(num: i128, divisor: Exact) -> i128
    requires positive { pos 0 <ℤ divisor.lo }
    requires num_size { IsWithin (10 ^ 38) num }
    ensures holds { (d v : ℤ) → Between divisor.lo divisor.hi d → (v *ℤ d) ≤ℤ (num +ℤ d) →
        v ≤ℤ result }
    ensures tight { (d : ℤ) × Between divisor.lo divisor.hi d × (((result -ℤ pos 2) *ℤ d) ≤ℤ num) }
{
    if num < 0 {
        high_end(num, divisor.hi)
    } else {
        high_end(num, divisor.lo)
    }
}
