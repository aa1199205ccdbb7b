//! What one satellite leaves of one side of a box.

ghost use Rattle.std.specs.Prelude.{IfSome, IsNone, IsTrue, ◌+◌, ◌^◌, ◌≤◌};
ghost use Rattle.grid_model.specs.Sizes.{IsWithin, IsBoxSize};
ghost use Rattle.grid_model.specs.Boxes.{span_side};
ghost use Rattle.range_contractor.specs.Sides.{IsNearlyReached, IsBelow, IsAbove, IsKept};
ghost use Rattle.range_contractor.specs.Sides.{NoneIsKept};
ghost use Rattle.range_contractor.specs.Views.{interval_side};

use crate::meets::hull_of_meets;
use crate::squares::{amount_left, difference_squares, ends_of};
use fix_interval::Interval;
use grid_model::Span;

/// The numbers below the place by a number of the amount.
fn below(place: &Span, amount: &Span) -> Span
    requires place_low { IsWithin 70000000000000 place.now.lo }
    requires place_high { IsWithin 70000000000000 place.now.hi }
    requires amount_low { IsWithin (2 ^ 50) amount.now.lo }
    requires amount_high { IsWithin (2 ^ 50) amount.now.hi }
    ensures { IsBelow (span_side place.now) (span_side amount.now) (span_side result) }
{
    Span {
        lo: place.lo - amount.hi,
        hi: place.hi - amount.lo,
    }
}

/// The numbers above the place by a number of the amount.
fn above(place: &Span, amount: &Span) -> Span
    requires place_low { IsWithin 70000000000000 place.now.lo }
    requires place_high { IsWithin 70000000000000 place.now.hi }
    requires amount_low { IsWithin (2 ^ 50) amount.now.lo }
    requires amount_high { IsWithin (2 ^ 50) amount.now.hi }
    ensures { IsAbove (span_side place.now) (span_side amount.now) (span_side result) }
{
    Span {
        lo: place.lo + amount.lo,
        hi: place.hi + amount.hi,
    }
}

/// Whether the place's squared differences from a face and `others` meet `ranges`, which is told
/// without a root. Then the face is near enough and far enough.
fn is_face_reached<I: Interval>(place: I, face: i64, ranges: I::Area, others: I::Area) -> bool
    requires place_low { IsWithin 70000000000000 (I.low place) }
    requires place_high { IsWithin 70000000000000 (I.high place) }
    requires face_size { IsBoxSize face }
    requires others_size { I.area_high others ≤ 2 ^ 94 }
    ensures { IsTrue result → IsNearlyReached I.GRAIN (interval_side I.low I.high place)
        (I.area_low ranges) (I.area_high ranges) (I.area_low others) (I.area_high others) face }
{
    let at = difference_squares(place, &Span { lo: face, hi: face });
    let layer = I::area_sum(at, others);
    if I::area_less(ranges, layer).is_none() {
        return false;
    }
    I::area_less(layer, ranges).is_some()
}

/// Whether both faces of a side are reached.
fn is_side_reached<I: Interval>(place: I, side: &Span, ranges: I::Area, others: I::Area) -> bool
    requires place_low { IsWithin 70000000000000 (I.low place) }
    requires place_high { IsWithin 70000000000000 (I.high place) }
    requires lo_size { IsBoxSize side.now.lo }
    requires hi_size { IsBoxSize side.now.hi }
    requires others_size { I.area_high others ≤ 2 ^ 94 }
    ensures low { IsTrue result → IsNearlyReached I.GRAIN (interval_side I.low I.high place)
        (I.area_low ranges) (I.area_high ranges) (I.area_low others) (I.area_high others)
        side.now.lo }
    ensures high { IsTrue result → IsNearlyReached I.GRAIN (interval_side I.low I.high place)
        (I.area_low ranges) (I.area_high ranges) (I.area_low others) (I.area_high others)
        side.now.hi }
{
    if !is_face_reached::<I>(place, side.lo, ranges, others) {
        return false;
    }
    is_face_reached::<I>(place, side.hi, ranges, others)
}

/// The least span of the side that holds each number at which the place's squared difference and
/// one of `others` come to one of `ranges`, but for a grain at the ends.
fn side_between<I: Interval>(
    place: I,
    side: &Span,
    ranges: I::Area,
    others: I::Area,
) -> Option<Span>
    requires place_low { IsWithin 70000000000000 (I.low place) }
    requires place_high { IsWithin 70000000000000 (I.high place) }
    requires ranges_size { I.area_high ranges ≤ 2 ^ 96 }
    ensures some { IfSome result (λ k. IsKept I.GRAIN (interval_side I.low I.high place)
        (span_side side.now) (I.area_low ranges) (I.area_high ranges) (I.area_low others)
        (I.area_high others) (span_side k)) }
    ensures none { IsNone result → NoneIsKept (interval_side I.low I.high place)
        (span_side side.now) (I.area_low ranges) (I.area_high ranges) (I.area_low others)
        (I.area_high others) }
{
    let Some(amount) = amount_left::<I>(ranges, others) else {
        return None;
    };
    let place = ends_of(place);
    hull_of_meets(side, &below(&place, &amount), &above(&place, &amount))
}

/// The same by the squares of the two other axes. Most often both faces stay, which takes no root
/// to see.
pub(crate) fn side_kept<I: Interval>(
    place: I,
    side: &Span,
    ranges: I::Area,
    one: I::Area,
    other: I::Area,
) -> Option<Span>
    requires place_low { IsWithin 70000000000000 (I.low place) }
    requires place_high { IsWithin 70000000000000 (I.high place) }
    requires lo_size { IsBoxSize side.now.lo }
    requires hi_size { IsBoxSize side.now.hi }
    requires ranges_size { I.area_high ranges ≤ 2 ^ 96 }
    requires one_size { I.area_high one ≤ 2 ^ 93 }
    requires other_size { I.area_high other ≤ 2 ^ 93 }
    ensures some { IfSome result (λ k. IsKept I.GRAIN (interval_side I.low I.high place)
        (span_side side.now) (I.area_low ranges) (I.area_high ranges)
        (I.area_low one + I.area_low other) (I.area_high one + I.area_high other) (span_side k)) }
    ensures none { IsNone result → NoneIsKept (interval_side I.low I.high place)
        (span_side side.now) (I.area_low ranges) (I.area_high ranges)
        (I.area_low one + I.area_low other) (I.area_high one + I.area_high other) }
    ensures sizes { IfSome result (λ k. IsBoxSize k.lo × IsBoxSize k.hi) }
{
    let others = I::area_sum(one, other);
    if is_side_reached(place, side, ranges, others) {
        return Some(*side);
    }
    side_between(place, side, ranges, others)
}
