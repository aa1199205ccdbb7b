//! The ranges that a satellite allows with the offsets of a clock span.

ghost use Rattle.std.specs.Prelude.{IfSome, IsNone, ◌-ℤ◌};
ghost use Rattle.grid_model.specs.Sizes.{IsPlaceSize, IsErrorSize};
ghost use Rattle.range_contractor.specs.Ranges.{IsLeastWanted, IsMostWanted, IsWanted};
ghost use Rattle.range_contractor.specs.Ranges.{NoneIsWanted};

use grid_model::Span;

/// No range from a leaf's place to a point of a box is greater, in um.
const GREATEST_POSSIBLE: i64 = 139_999_999_999_999;

/// Offsets beyond this leave no possible range, or all.
const FAR_OFF: i64 = 300_000_000_000_000;

/// The least possible range that leaves an allowed error with some offset of the clock span.
fn least_wanted(range: &Span, err: &Span, clock: &Span) -> i64
    requires range_size { IsPlaceSize range.now.lo }
    requires err_size { IsErrorSize err.now.hi }
    ensures { IsLeastWanted (range.now.lo -ℤ clock.now.hi -ℤ err.now.hi) result }
{
    (range.lo - err.hi - clock.hi.clamp(-FAR_OFF, FAR_OFF)).max(0)
}

/// The greatest such range. It is negative where there is none.
fn most_wanted(range: &Span, err: &Span, clock: &Span) -> i64
    requires range_size { IsPlaceSize range.now.hi }
    requires err_size { IsErrorSize err.now.lo }
    ensures { IsMostWanted (range.now.hi -ℤ clock.now.lo -ℤ err.now.lo) result }
{
    (range.hi - err.lo - clock.lo.clamp(-FAR_OFF, FAR_OFF)).min(GREATEST_POSSIBLE)
}

/// The possible ranges, in um, that leave an allowed error with some offset of the clock span.
pub(crate) fn wanted(range: &Span, err: &Span, clock: &Span) -> Option<Span>
    requires range_low { IsPlaceSize range.now.lo }
    requires range_high { IsPlaceSize range.now.hi }
    requires err_low { IsErrorSize err.now.lo }
    requires err_high { IsErrorSize err.now.hi }
    ensures some { IfSome result (λ w. IsWanted (range.now.lo -ℤ clock.now.hi -ℤ err.now.hi)
        (range.now.hi -ℤ clock.now.lo -ℤ err.now.lo) w.lo w.hi) }
    ensures none { IsNone result → NoneIsWanted (range.now.lo -ℤ clock.now.hi -ℤ err.now.hi)
        (range.now.hi -ℤ clock.now.lo -ℤ err.now.lo) }
{
    let lo = least_wanted(range, err, clock);
    let hi = most_wanted(range, err, clock);
    if lo <= hi {
        Some(Span { lo, hi })
    } else {
        None
    }
}
