//! Squares of differences and of ranges over any kind of interval, and what they leave of each
//! other.

ghost use Rattle.std.specs.Prelude.{◌^◌, ◌<◌, ◌≤◌, pos, ◌≤ℤ◌, ◌≡◌, IfSome, IsNone};
ghost use Rattle.grid_model.specs.Sizes.{IsWithin, IsBoxSize};
ghost use Rattle.grid_model.specs.Boxes.{span_side};
ghost use Rattle.range_contractor.specs.Ranges.{greatest_possible};
ghost use Rattle.range_contractor.specs.Squares.{AreDifferenceSquares, AreRangeSquares, IsAmount};
ghost use Rattle.range_contractor.specs.Views.{interval_side};

use fix_interval::Interval;
use grid_model::Span;

/// The squares of the differences of a place and the numbers of a side.
pub(crate) fn difference_squares<I: Interval>(place: I, side: &Span) -> I::Area
    requires place_low { IsWithin 70000000000000 (I.low place) }
    requires place_high { IsWithin 70000000000000 (I.high place) }
    requires lo_size { IsBoxSize side.now.lo }
    requires hi_size { IsBoxSize side.now.hi }
    ensures squares { AreDifferenceSquares I.GRAIN (interval_side I.low I.high place)
        (span_side side.now) (I.area_low result) (I.area_high result) }
    ensures small { I.area_high result ≤ 2 ^ 93 }
{
    place.sub(I::of(side.lo, side.hi)).square()
}

/// The squares of the numbers from the least wanted range to one more than the greatest: those of
/// the distances whose whole-number roots are wanted are among them.
pub(crate) fn range_squares<I: Interval>(wanted: &Span) -> I::Area
    requires natural { pos 0 ≤ℤ wanted.now.lo }
    requires possible { wanted.now.hi ≤ℤ pos greatest_possible }
    ensures squares { AreRangeSquares I.GRAIN wanted.now.lo wanted.now.hi
        (I.area_low result) (I.area_high result) }
    ensures small { I.area_high result ≤ 2 ^ 96 }
{
    I::of(wanted.lo, wanted.hi + 1).square()
}

/// The ends of an interval.
pub(crate) fn ends_of<I: Interval>(x: I) -> Span
    requires low { IsWithin (2 ^ 62) (I.low x) }
    requires high { IsWithin (2 ^ 62) (I.high x) }
    ensures { span_side result ≡ interval_side I.low I.high x }
{
    Span {
        lo: x.lo(),
        hi: x.hi(),
    }
}

/// From the least to the greatest amount whose square and one of `others` come to one of `ranges`,
/// but for a grain at the ends.
pub(crate) fn amount_left<I: Interval>(ranges: I::Area, others: I::Area) -> Option<Span>
    requires { I.area_high ranges ≤ 2 ^ 96 }
    ensures some { IfSome result (λ a. IsAmount I.GRAIN (I.area_low ranges) (I.area_high ranges)
        (I.area_low others) (I.area_high others) (span_side a)) }
    ensures none { IsNone result → I.area_high ranges < I.area_low others }
{
    match I::area_less(ranges, others) {
        Some(left) => Some(ends_of(I::root(left))),
        None => None,
    }
}
