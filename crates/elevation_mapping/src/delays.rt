//! Delays straight up, mapped.

ghost use Rattle.std.specs.Prelude.{ℕ, ◌≡◌, ◌+◌, ◌*◌, ◌^◌, ℤ, pos, nat_abs, ◌-ℤ◌, ◌≤ℤ◌};
ghost use Rattle.grid_model.specs.Sizes.{IsWithin};
ghost use Rattle.fix_interval.specs.Factors.{Holds, HasAmount};
ghost use Rattle.gnss_model.specs.Mapping.{IsMappedDelay};
ghost use Rattle.elevation_mapping.specs.MappingSizes.{mapped_amount, delay_amount, width_over};
ghost use Rattle.gnss_model.specs.Delays.{spare_over};
ghost use Rattle.gnss_model.specs.declared.delays.Layer.{Layer};

use fix_interval::{Exact, product};

/// The number alone.
fn one(n: i64) -> Exact
    ensures low { result.lo ≡ n }
    ensures high { result.hi ≡ n }
{
    Exact {
        lo: i128::from(n),
        hi: i128::from(n),
    }
}

/// Every delay, in um, that the delay `upward`, in um, becomes by a member of `mapping`, in
/// 10^-16.
/// The amount of `upward` is at most 100 m and that of the mapping at most 30, as `mapped` gives
/// it. The result is within 3,000 m and 2 um. Over a mapping as narrow as `mapped` gives it the
/// result is as narrow as `err_spare` says.
pub fn mapped_delay(upward: i64, mapping: Exact) -> Exact
    requires upward_size { IsWithin (10 ^ 8) upward }
    requires mapping_size { HasAmount mapped_amount mapping }
    ensures holds { (factor delay : ℤ) → Holds mapping factor → IsMappedDelay upward factor delay →
        Holds result delay }
    ensures amount { HasAmount delay_amount result }
    ensures small { (n : ℕ) → IsWithin n upward → HasAmount (30 * n + 2) result }

    // Of a mapping of a layer as wide as that over a box whose longest side is d.
    ensures narrow { (layer : Layer) (d : ℕ)
        → (mapping.hi -ℤ mapping.lo) ≤ℤ pos (width_over layer d)
        → (result.hi -ℤ result.lo) ≤ℤ pos (spare_over layer (nat_abs upward) d) }
{
    product(one(upward), mapping)
}
