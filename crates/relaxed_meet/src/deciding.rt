//! A test for empty boxes that asks first what decided the tests before.

ghost use Rattle.std.specs.Prelude.{◌≡◌, ◌-◌, ◌<◌, ◌≤◌, ◌↔◌, length, map, IsTrue};
ghost use Rattle.grid_model.specs.Boxes.{grid_box};
ghost use Rattle.sat_model.specs.ClockSpans.{IsShownEmpty, clock_spans};
ghost use Rattle.sat_model.specs.Relaxed.{IsRelaxedEmpty, ends};

use crate::clocks::clock_span;
use crate::extremes::{Falling, extremes, keep};
use crate::hull::{least_between, widest_middle};
use crate::offsets::{bounded, lies_in_most};
use crate::separation::Separation;
use arrayvec::ArrayVec;
use grid_model::{Box3, Span};
use sat_model::Row;

/// What decided the last tests whether a box is empty. A box next to one that is shown empty is
/// mostly shown so by the same few rows, and a clock offset at which one isn't does for others too.
/// So most tests take no root. What is remembered doesn't matter for an answer: where it decides
/// nothing all rows are asked.
#[derive(Clone, Copy, Debug, Default, PartialEq, Eq)]
pub struct Deciding {
    separation: Separation,
    /// A clock offset in um that lay in the clock spans of enough rows.
    common: i64,
    /// Whether the last test showed a box empty. The next one mostly ends as it did.
    was_empty: bool,
}

impl Deciding {
    /// Whether no clock offset lies in the clock spans of all but at most `q` rows over the box:
    /// then no point of the box fits.
    pub fn shown_empty(&mut self, rows: &[Row], part: &Box3, q: u8) -> bool
        requires { (q < length rows.now) × (length rows.now ≤ 64) }
        ensures { IsTrue result ↔ IsShownEmpty rows.now (grid_box part.now) q }
    {
        let is_empty = self.decide(rows, part, q);
        self.was_empty = is_empty;
        is_empty
    }

    /// The same, without taking note of the answer.
    fn decide(&mut self, rows: &[Row], part: &Box3, q: u8) -> bool
        requires { (q < length rows.now) × (length rows.now ≤ 64) }
        ensures { IsTrue result ↔ IsShownEmpty rows.now (grid_box part.now) q }
    {
        if self.was_empty {
            return self.decide_behind_empty(rows, part, q);
        }
        if lies_in_most(rows, part, q, bounded(self.common)) {
            return false;
        }
        if self.separation.shows_empty(rows, part, q) {
            return true;
        }
        self.ask_all(rows, part, q)
    }

    /// The same behind a box that was shown empty.
    fn decide_behind_empty(&mut self, rows: &[Row], part: &Box3, q: u8) -> bool
        requires { (q < length rows.now) × (length rows.now ≤ 64) }
        ensures { IsTrue result ↔ IsShownEmpty rows.now (grid_box part.now) q }
    {
        if self.separation.shows_empty(rows, part, q) {
            return true;
        }
        if lies_in_most(rows, part, q, bounded(self.common)) {
            return false;
        }
        if self.some_show_empty(rows, part, q) {
            return true;
        }
        self.ask_all(rows, part, q)
    }

    /// The same by the clock spans of all rows.
    fn ask_all(&mut self, rows: &[Row], part: &Box3, q: u8) -> bool
        requires { (q < length rows.now) × (length rows.now ≤ 64) }
        ensures { IsTrue result ↔ IsShownEmpty rows.now (grid_box part.now) q }
    {
        let spans = spans_over(rows, part);
        self.test(&spans, rows.len() - usize::from(q))
    }

    /// Whether the rows of the separation show the box empty, which then gets new offsets.
    fn some_show_empty(&mut self, rows: &[Row], part: &Box3, q: u8) -> bool
        requires { (q < length rows.now) × (length rows.now ≤ 64) }
        ensures { IsTrue result → IsShownEmpty rows.now (grid_box part.now) q }
    {
        let most = usize::from(q) + 1;
        let mut lows = Falling::new();
        let mut highs = Falling::new();
        let mut left = self.separation.rows();
        for row in rows {
            if left & 1 == 1 {
                let span = clock_span(row, part);
                keep(&mut lows, span.lo, most);
                keep(&mut highs, -1 - span.hi, most);
            }
            left >>= 1;
        }
        if lows.len() != most {
            return false;
        }
        if least_between(&lows, &highs).is_some() {
            return false;
        }
        self.separation = self.separation.moved(&lows, &highs);
        true
    }

    /// Whether no number lies in at least `need` of the spans. What decided it is remembered.
    fn test(&mut self, spans: &[Span], need: usize) -> bool
        requires { (1 ≤ need) × (need ≤ length spans.now) × (length spans.now ≤ 64) }
        ensures { IsTrue result ↔ IsRelaxedEmpty (map ends spans.now) need }
    {
        let mut lows = Falling::new();
        let mut highs = Falling::new();
        extremes(spans, spans.len() - need + 1, &mut lows, &mut highs);
        let is_empty = least_between(&lows, &highs).is_none();
        self.remember(is_empty, spans, &lows, &highs);
        is_empty
    }

    /// Takes what decided a test from the ends that it kept.
    fn remember(&mut self, is_empty: bool, spans: &[Span], lows: &[i64], highs: &[i64]) {
        if is_empty {
            self.separation = Separation::of_ends(spans, lows, highs);
        } else {
            self.common = widest_middle(lows, highs);
        }
    }
}

/// For each face of a box, what decided the last test of a slab there.
#[derive(Clone, Copy, Debug, Default, PartialEq, Eq)]
pub struct SlabTests {
    faces: [Deciding; 6],
    /// The reference offset of the last box. The offsets kept for slabs move with it.
    middle: i64,
}

impl SlabTests {
    /// Takes an offset that lies in the clock spans of enough rows over a box, about in their
    /// middle. What is asked first of the slabs moves along with it.
    pub(crate) fn ask_about(&mut self, offset: i64) {
        let moved = offset.wrapping_sub(self.middle);
        for face in &mut self.faces {
            face.common = face.common.wrapping_add(moved);
        }
        self.middle = offset;
    }

    /// Whether the rows show a slab at this face empty, as `Deciding::shown_empty` does.
    pub fn shown_empty(&mut self, face: u8, rows: &[Row], slab: &Box3, q: u8) -> bool
        requires { (q < length rows.now) × (length rows.now ≤ 64) }
        ensures { IsTrue result ↔ IsShownEmpty rows.now (grid_box slab.now) q }
    {
        self.faces[usize::from(face % 6)].shown_empty(rows, slab, q)
    }
}

/// The clock spans of the rows over the box.
fn spans_over(rows: &[Row], part: &Box3) -> ArrayVec<Span, 64>
    requires { length rows.now ≤ 64 }
    ensures { map ends result.items ≡ clock_spans (grid_box part.now) rows.now }
{
    let mut spans = ArrayVec::new();
    for row in rows {
        spans.push(clock_span(row, part));
    }
    spans
}
