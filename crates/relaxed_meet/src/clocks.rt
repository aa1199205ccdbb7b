//! The clock offsets at which a row fits somewhere, or everywhere, in a box.

ghost use Rattle.std.specs.Prelude.{◌≡◌, ◌≤◌, IfSome, IsNone, pos, ◌-ℤ◌, ◌<ℤ◌};
ghost use Rattle.grid_model.specs.Boxes.{grid_box};
ghost use Rattle.sat_model.specs.ClockSpans.{clock_ends, inner_ends};
ghost use Rattle.sat_model.specs.Relaxed.{ends};

use crate::distance::near_far;
use grid_model::{Box3, Span};
use sat_model::Row;

/// The clock offsets in um at which the row may fit somewhere in the box.
pub fn clock_span(row: &Row, part: &Box3) -> Span
    ensures { ends result ≡ clock_ends (grid_box part.now) row.now }
{
    let (span, _) = clock_spans(row, part);
    span
}

/// The clock offsets in um at which the row fits everywhere in the box, where there are any.
pub fn inner_span(row: &Row, part: &Box3) -> Option<Span>
    ensures some { IfSome result (λ s. ends s ≡ inner_ends (grid_box part.now) row.now) }
    ensures none { IsNone result → (inner_ends (grid_box part.now) row.now).1
        <ℤ (inner_ends (grid_box part.now) row.now).0 }
{
    let (_, span) = clock_spans(row, part);
    span
}

/// Both spans, from one pair of ranges.
pub(crate) fn clock_spans(row: &Row, part: &Box3) -> (Span, Option<Span>)
    ensures clock { ends result.0 ≡ clock_ends (grid_box part.now) row.now }
    ensures some { IfSome result.1 (λ s. ends s ≡ inner_ends (grid_box part.now) row.now) }
    ensures none { IsNone result.1 → (inner_ends (grid_box part.now) row.now).1
        <ℤ (inner_ends (grid_box part.now) row.now).0 }
{
    let (near, far) = near_far(row, part);
    (clock_at(row, near, far), inner_at(row, near, far))
}

/// The clock offsets at which the row fits somewhere from `near` to `far` um away.
fn clock_at(row: &Row, near: u64, far: u64) -> Span
    requires order { near ≤ far }
    requires bound { far ≤ 200000000000000 }
    ensures { ends result ≡ (
      row.now.range.lo -ℤ pos far -ℤ row.now.err.hi,
      row.now.range.hi -ℤ pos near -ℤ row.now.err.lo,
    ) }
{
    Span {
        lo: row.range.lo - far as i64 - row.err.hi,
        hi: row.range.hi - near as i64 - row.err.lo,
    }
}

/// The clock offsets at which it fits everywhere from `near` to `far` um away, where there are any.
fn inner_at(row: &Row, near: u64, far: u64) -> Option<Span>
    requires order { near ≤ far }
    requires bound { far ≤ 200000000000000 }
    ensures some { IfSome result (λ s. ends s ≡ (
      row.now.range.hi -ℤ pos near -ℤ row.now.sure_hi,
      row.now.range.lo -ℤ pos far -ℤ row.now.sure_lo,
    )) }
    ensures none { IsNone result → (row.now.range.lo -ℤ pos far -ℤ row.now.sure_lo)
        <ℤ (row.now.range.hi -ℤ pos near -ℤ row.now.sure_hi) }
{
    let lo = row.range.hi - near as i64 - row.sure_hi;
    let hi = row.range.lo - far as i64 - row.sure_lo;
    if lo <= hi {
        Some(Span { lo, hi })
    } else {
        None
    }
}
