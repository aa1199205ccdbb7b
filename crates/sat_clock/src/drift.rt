//! The clock's offset by its polynomial (IS-GPS-200, 20.3.3.3.3.1), and what a user of one
//! frequency takes off (20.3.3.3.3.2).

ghost use Rattle.std.specs.Prelude.{◌+◌, ℤ, ◌-ℤ◌};
ghost use Rattle.gnss_model.specs.ClockChain.{ClockFields, AreClockFields, IsAdvanced, less_delay};
ghost use Rattle.grid_model.specs.Intervals.{Between, Ends};
ghost use Rattle.gnss_model.specs.RecordBounds.{IsValue};
ghost use Rattle.grid_model.specs.Sizes.{IsWithin};
ghost use Rattle.sat_clock.specs.ClockSizes.{IsNearEphemeris, since_size, drift_size, offset_size};
ghost use Rattle.sat_clock.specs.ClockSizes.{base_size, width};

use crate::times::since_clock;
use fix_interval::{Exact, advanced};
use gnss_model::Elements;

/// af1 + af2 (tsv - toc).
fn drift(el: &Elements, since: Exact) -> Exact
    requires low_size { IsWithin since_size since.lo }
    requires high_size { IsWithin since_size since.hi }
    ensures holds { (a b x v : ℤ) → IsValue el.now.af1 a → IsValue el.now.af2 b →
        Between since.lo since.hi x → IsAdvanced a b x v → Between result.lo result.hi v }
    ensures ends { Ends drift_size (width since.lo since.hi + 6) result.lo result.hi }
{
    advanced(Exact::of_wide(el.af1), Exact::of_wide(el.af2), since)
}

/// af0 + af1 (tsv - toc) + af2 (tsv - toc)^2.
fn offset(el: &Elements, since: Exact) -> Exact
    requires low_size { IsWithin since_size since.lo }
    requires high_size { IsWithin since_size since.hi }
    ensures holds { (f : ClockFields) → (x drift v : ℤ) → AreClockFields el.now f →
        Between since.lo since.hi x → IsAdvanced f.af1 f.af2 x drift → IsAdvanced f.af0 drift x v →
        Between result.lo result.hi v }
    ensures ends { Ends offset_size (width since.lo since.hi + 7) result.lo result.hi }
{
    advanced(Exact::of_wide(el.af0), drift(el, since), since)
}

/// The offset, less the group delay for one frequency.
fn less_group_delay(el: &Elements, offset: Exact, single: bool) -> Exact
    requires low_size { IsWithin offset_size offset.lo }
    requires high_size { IsWithin offset_size offset.hi }
    ensures holds { (a b : ℤ) → Between offset.lo offset.hi a → IsValue el.now.tgd b →
        Between result.lo result.hi (less_delay single a b) }
    ensures ends { Ends base_size (width offset.lo offset.hi + 1) result.lo result.hi }
{
    if single {
        offset.minus(Exact::of_wide(el.tgd))
    } else {
        offset
    }
}

/// The clock's offset without the relativistic correction.
pub(crate) fn base(el: &Elements, tsv: Exact, single: bool) -> Exact
    requires near { IsNearEphemeris el.now tsv.lo tsv.hi }
    ensures holds { (f : ClockFields) → (x drift offset : ℤ) → AreClockFields el.now f →
        Between tsv.lo tsv.hi x → IsAdvanced f.af1 f.af2 (x -ℤ el.now.toc) drift →
        IsAdvanced f.af0 drift (x -ℤ el.now.toc) offset →
        Between result.lo result.hi (less_delay single offset f.tgd) }
    ensures ends { Ends base_size (width tsv.lo tsv.hi + 8) result.lo result.hi }
{
    less_group_delay(el, offset(el, since_clock(el, tsv)), single)
}
