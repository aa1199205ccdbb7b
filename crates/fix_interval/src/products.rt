//! Products over one, which is 10^16 units, and sums and differences of two such products: the
//! results of printed equations that are rounded once.

ghost use Rattle.std.specs.Prelude.{ℕ, ◌+◌, ℤ};
ghost use Rattle.gnss_model.specs.OrbitChain.{IsProduct, IsSumOf, IsDifferenceOf};
ghost use Rattle.fix_interval.specs.Factors.{Holds, HasEnds, HasAmount, Spread, factor_bound};

use crate::exact::Exact;

/// One, in units of a ratio or an angle.
pub const UNIT: i128 = 10_000_000_000_000_000;

/// Every whole number within one unit of `a * b`, over one, for members of the two. The ends of
/// the factors are within 10^18.
pub fn product(a: Exact, b: Exact) -> Exact
    requires a_size { HasAmount factor_bound a }
    requires b_size { HasAmount factor_bound b }
    ensures holds { (x y v : ℤ) → Holds a x → Holds b y → IsProduct x y v → Holds result v }
    ensures ends { (k j : ℕ) → Spread k j a b → HasEnds (k + 2) (j + 4) result }
{
    a.times_over(b, UNIT)
}

/// Every whole number within one unit of `a * b + c * d`, over one, for members of the four. The
/// ends of the factors are within 10^18.
pub fn sum_of_products(a: Exact, b: Exact, c: Exact, d: Exact) -> Exact
    requires a_size { HasAmount factor_bound a }
    requires b_size { HasAmount factor_bound b }
    requires c_size { HasAmount factor_bound c }
    requires d_size { HasAmount factor_bound d }
    ensures holds { (x y z w v : ℤ) → Holds a x → Holds b y → Holds c z → Holds d w →
        IsSumOf x y z w v → Holds result v }
    ensures ends { (k j l i : ℕ) → Spread k j a b → Spread l i c d →
        HasEnds ((k + 2) + (l + 2)) ((j + 4) + (i + 4)) result }
{
    product(a, b).plus(product(c, d))
}

/// Every whole number within one unit of `a * b - c * d`, over one, for members of the four. The
/// ends of the factors are within 10^18.
pub fn difference_of_products(a: Exact, b: Exact, c: Exact, d: Exact) -> Exact
    requires a_size { HasAmount factor_bound a }
    requires b_size { HasAmount factor_bound b }
    requires c_size { HasAmount factor_bound c }
    requires d_size { HasAmount factor_bound d }
    ensures holds { (x y z w v : ℤ) → Holds a x → Holds b y → Holds c z → Holds d w →
        IsDifferenceOf x y z w v → Holds result v }
    ensures ends { (k j l i : ℕ) → Spread k j a b → Spread l i c d →
        HasEnds ((k + 2) + (l + 2)) ((j + 4) + (i + 4)) result }
{
    product(a, b).minus(product(c, d))
}
