//! What the rows show of a box.

ghost use Rattle.std.specs.Prelude.{◌-◌, ◌<◌, ◌≤◌, ◌↔◌, length, IfSome, IsNone};
ghost use Rattle.grid_model.specs.Boxes.{grid_box};
ghost use Rattle.relaxed_meet.specs.BoxStates.{IsBoxState, span_test};
ghost use Rattle.sat_model.specs.ClockSpans.{IsClockHull, IsShownEmpty, NoneIsShownInner};
ghost use Rattle.sat_model.specs.ClockSpans.{IsLeastShownInner};

use crate::clocks::{clock_span, clock_spans, inner_span};
use crate::deciding::SlabTests;
use crate::hull::{least_number, relaxed, relaxed_with_middle};
use arrayvec::ArrayVec;
use grid_model::{Box3, Span};
use sat_model::Row;

/// The hull of the clock offsets in um that lie in the clock spans of all but at most `q` rows over
/// the box, none where there are none.
pub fn clock_hull(rows: &[Row], part: &Box3, q: u8) -> Option<Span>
    requires { (q < length rows.now) × (length rows.now ≤ 64) }
    ensures none { IsNone result ↔ IsShownEmpty rows.now (grid_box part.now) q }
    ensures some { IfSome result (λ h. IsClockHull rows.now (grid_box part.now) q h.lo h.hi) }
{
    let mut spans: ArrayVec<Span, 64> = ArrayVec::new();
    for row in rows {
        spans.push(clock_span(row, part));
    }
    relaxed(&spans, rows.len() as u8 - q)
}

/// The least clock offset in um that lies in the inner spans of all but at most `q` rows over the
/// box, none where there is none: at it every point of the box fits.
pub fn shown_inner(rows: &[Row], part: &Box3, q: u8) -> Option<i64>
    requires { (q < length rows.now) × (length rows.now ≤ 64) }
    ensures none { IsNone result → NoneIsShownInner rows.now (grid_box part.now) q }
    ensures some { IfSome result (λ b. IsLeastShownInner rows.now (grid_box part.now) q b) }
{
    let mut spans: ArrayVec<Span, 64> = ArrayVec::new();
    for row in rows {
        match inner_span(row, part) {
            Some(span) => spans.push(span),
            None => {}
        }
    }
    least_number(&spans, rows.len() - usize::from(q))
}

/// What the rows show of a box. Offsets are in um.
#[derive(Clone, Copy, Debug, PartialEq, Eq)]
pub enum BoxState {
    /// No point of it fits.
    Empty,
    /// Every point of it fits at `clock`, the least such offset. Offsets that fit lie in `hull`.
    Inner { clock: i64, hull: Span },
    /// Neither. Offsets that fit lie in `hull`.
    Undecided { hull: Span },
}

/// What the rows show of a box where up to `q` of them may be inconsistent: `clock_hull` and
/// `shown_inner` at once, from one pair of ranges a row. The tests of the box's slabs get the
/// middle of the hull's widest part to ask about.
pub fn box_state(rows: &[Row], part: &Box3, q: u8, tests: &mut SlabTests) -> BoxState
    requires { (q < length rows.now) × (length rows.now ≤ 64) }
    ensures { IsBoxState (span_test rows.now q) (grid_box part.now) result }
{
    let mut clocks: ArrayVec<Span, 64> = ArrayVec::new();
    let mut inner: ArrayVec<Span, 64> = ArrayVec::new();
    for row in rows {
        let (clock, everywhere) = clock_spans(row, part);
        clocks.push(clock);
        match everywhere {
            Some(span) => inner.push(span),
            None => {}
        }
    }
    let (hull, middle) = relaxed_with_middle(&clocks, rows.len() as u8 - q);
    let Some(hull) = hull else {
        return BoxState::Empty;
    };
    tests.ask_about(middle);
    match least_number(&inner, rows.len() - usize::from(q)) {
        Some(clock) => BoxState::Inner { clock, hull },
        None => BoxState::Undecided { hull },
    }
}
