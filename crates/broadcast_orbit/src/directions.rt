//! Angles that are kept as the intervals of their cosine and sine.

ghost use Rattle.std.specs.Prelude.{ℕ, ◌+◌, ◌*◌, ◌≤◌, ℤ, pos, ◌*ℤ◌};
ghost use Rattle.grid_model.specs.Angles.{unit};
ghost use Rattle.gnss_model.specs.OrbitChain.{IsProduct, IsSumOf, IsDifferenceOf};
ghost use Rattle.grid_model.specs.Sines.{Sine, Cosine};
ghost use Rattle.fix_interval.specs.Factors.{Holds, HasEnds, HasAmount};
ghost use Rattle.broadcast_orbit.specs.Directions.{HoldsDirection, DirectionEnds, DirectionAmount};
ghost use Rattle.broadcast_orbit.specs.Directions.{DirectionSpread};
ghost use Rattle.broadcast_orbit.specs.OrbitSizes.{value_amount, phi_amount, phi_width};
ghost use Rattle.broadcast_orbit.specs.OrbitSizes.{twice_amount, twice_width};

use fix_interval::{Exact, difference_of_products, product, sum_of_products};
use interval_trig::{cosine, sine};

/// Cosines and sines of angles, in units of 10^-16.
#[derive(Clone, Copy, Debug, PartialEq, Eq)]
pub(crate) struct Direction {
    pub(crate) cosine: Exact,
    pub(crate) sine: Exact,
}

/// The cosine and the sine of an angle.
pub(crate) fn direction_of(x: Exact) -> Direction
    requires { HasAmount (64 * unit) x }
    ensures holds { (a c s : ℤ) → Holds x a → Cosine a c → Sine a s → HoldsDirection result c s }
    ensures amount { DirectionAmount value_amount result }
    ensures ends { (m w : ℕ) → HasEnds m w x → DirectionEnds value_amount (w + 16) result }

    // The sine of a small angle is small.
    ensures small { (m w : ℕ) → HasEnds m w x → m ≤ unit →
        HasEnds (m + w + 23) (w + 16) result.sine }
{
    Direction {
        cosine: cosine(x),
        sine: sine(x),
    }
}

/// The cosine and the sine of the sum of two angles.
pub(crate) fn joined(a: Direction, b: Direction) -> Direction
    requires a_size { DirectionAmount (10 * unit) a }
    requires b_size { DirectionAmount value_amount b }
    ensures holds { (c s d t p q : ℤ) → HoldsDirection a c s → HoldsDirection b d t →
        IsDifferenceOf c d s t p → IsSumOf s d c t q → HoldsDirection result p q }
    ensures ends { (k j l i : ℕ) → DirectionSpread k j l i a b →
        DirectionEnds ((k + 2) + (l + 2)) ((j + 4) + (i + 4)) result }
{
    Direction {
        cosine: difference_of_products(a.cosine, b.cosine, a.sine, b.sine),
        sine: sum_of_products(a.sine, b.cosine, a.cosine, b.sine),
    }
}

/// The cosine and the sine of twice an angle.
pub(crate) fn doubled(a: Direction) -> Direction
    requires { DirectionAmount phi_amount a }
    ensures holds { (c s p q : ℤ) → HoldsDirection a c s → IsDifferenceOf c c s s p →
        IsProduct (pos 2 *ℤ s) c q → HoldsDirection result p q }
    ensures amount { DirectionAmount twice_amount result }
    ensures narrow { DirectionEnds phi_amount phi_width a →
        DirectionEnds twice_amount twice_width result }
{
    Direction {
        cosine: difference_of_products(a.cosine, a.cosine, a.sine, a.sine),
        sine: product(a.sine.plus(a.sine), a.cosine),
    }
}
