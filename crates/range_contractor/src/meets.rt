//! Meets and hulls of spans.

ghost use Rattle.std.specs.Prelude.{IfSome, IsNone};
ghost use Rattle.grid_model.specs.Boxes.{span_side};
ghost use Rattle.range_contractor.specs.Sides.{IsMeetOf, DontMeet, IsHullOf, IsHullOfMeets};
ghost use Rattle.range_contractor.specs.Sides.{NoneMeets};

use grid_model::Span;

/// The numbers that both spans have.
pub(crate) fn meet(a: &Span, b: &Span) -> Option<Span>
    ensures some { IfSome result (λ r.
        IsMeetOf (span_side a.now) (span_side b.now) (span_side r)) }
    ensures none { IsNone result → DontMeet (span_side a.now) (span_side b.now) }
{
    let lo = a.lo.max(b.lo);
    let hi = a.hi.min(b.hi);
    if lo <= hi {
        Some(Span { lo, hi })
    } else {
        None
    }
}

/// The least span that holds the numbers of both.
fn hull(a: &Span, b: &Span) -> Span
    ensures { IsHullOf (span_side a.now) (span_side b.now) (span_side result) }
{
    Span {
        lo: a.lo.min(b.lo),
        hi: a.hi.max(b.hi),
    }
}

/// The hull of what two spans have of a side.
pub(crate) fn hull_of_meets(side: &Span, below: &Span, above: &Span) -> Option<Span>
    ensures some { IfSome result (λ k. IsHullOfMeets (span_side side.now)
        (span_side below.now) (span_side above.now) (span_side k)) }
    ensures none { IsNone result → NoneMeets (span_side side.now)
        (span_side below.now) (span_side above.now) }
{
    match (meet(side, below), meet(side, above)) {
        (Some(a), Some(b)) => Some(hull(&a, &b)),
        (Some(a), None) => Some(a),
        (None, Some(b)) => Some(b),
        (None, None) => None,
    }
}
