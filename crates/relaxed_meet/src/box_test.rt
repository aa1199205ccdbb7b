//! What the boxes of an epoch are tested by.

ghost use Rattle.std.specs.Prelude.{◌≡◌, ◌<◌, ◌≤◌, ◌↔◌, length, IfSome, IsNone, IsTrue};
ghost use Rattle.grid_model.specs.Boxes.{grid_box};

use crate::bounds::bounds_offsets;
use crate::deciding::{Deciding, SlabTests};
use crate::inner::is_shown_inner;
use crate::shown::{BoxState, box_state, clock_hull};
use arrayvec::ArrayVec;
use grid_model::{Box3, Span};
use row_pairs::{
    Form, fill_forms, forms_of, proposed_by_pairs, shown_empty_by_forms, shown_empty_by_pairs,
};
use sat_model::{Row, Rules};

/// What decided the last tests. It suits other rows too, and doesn't matter for an answer.
#[derive(Clone, Copy, Default)]
pub struct Memory {
    boxes: Deciding,
    slabs: SlabTests,
}

/// An inclusion test of boxes: the rows of an epoch, how many of them may be inconsistent, and
/// whether pairs of them show boxes empty too. It remembers what decided the tests before, and up to
/// 24 rows' forms around the last box that pairs were asked of: room for more takes long to clear.
#[derive(Drop)]
pub struct BoxTest<'a> {
    rows: &'a [Row],
    q: u8,
    pairs: bool,
    boxes: Deciding,
    slabs: SlabTests,
    forms: ArrayVec<Form, 24>,
    ghost enough: { q < length rows.now },
    ghost at_most: { length rows.now ≤ 64 },
}

impl<'a> BoxTest<'a> {
    ghost use Rattle.sat_model.specs.BoxTests.{test_of, IsEmpty, IsInner, IsHull, HoldsHull};
    ghost use Rattle.sat_model.specs.ClockSpans.{IsShownEmpty};
    ghost use Rattle.relaxed_meet.specs.BoxStates.{IsBoxState};
    ghost use Rattle.relaxed_meet.specs.TestValues.{test_value};

    /// The test by these rows under these rules.
    pub fn new(rows: &'a [Row], rules: &Rules) -> Self
        requires { (rules.now.outliers < length rows.now) × (length rows.now ≤ 64) }
        ensures { test_value result ≡ test_of rules.now rows.now }
    {
        BoxTest::recalling(rows, rules, Memory::default())
    }

    /// The same, which asks first what decided the tests that are remembered.
    pub fn recalling(rows: &'a [Row], rules: &Rules, memory: Memory) -> Self
        requires { (rules.now.outliers < length rows.now) × (length rows.now ≤ 64) }
        ensures { test_value result ≡ test_of rules.now rows.now }
    {
        BoxTest {
            rows,
            q: rules.outliers,
            pairs: rules.pairs,
            boxes: memory.boxes,
            slabs: memory.slabs,
            forms: ArrayVec::new(),
        }
    }

    /// What decided the tests so far. It makes those to come faster and changes no answer, so
    /// nothing is promised of it.
    pub fn memory(&self) -> Memory {
        Memory {
            boxes: self.boxes,
            slabs: self.slabs,
        }
    }

    /// What it shows of a box. The tests of the box's slabs are told what to ask first.
    pub fn state(&mut self, part: &Box3) -> BoxState
        ensures state { IsBoxState (test_value self.old) (grid_box part.now) result }
        ensures same { test_value self.new ≡ test_value self.old }
    {
        let state = box_state(self.rows, part, self.q, &mut self.slabs);
        let BoxState::Undecided { .. } = state else {
            return state;
        };
        if self.pairs_show_empty(part) {
            return BoxState::Empty;
        }
        state
    }

    /// Whether a box is shown empty: no point of it fits.
    pub fn is_empty(&mut self, part: &Box3) -> bool
        ensures empty { IsTrue result ↔ IsEmpty (test_value self.old) (grid_box part.now) }
        ensures same { test_value self.new ≡ test_value self.old }
    {
        if self.boxes.shown_empty(self.rows, part, self.q) {
            return true;
        }
        self.pairs_show_empty(part)
    }

    /// The same of a slab at this face, from 0 to 5, of the last box whose state was asked for.
    /// What decided the last test at the face is asked first.
    pub fn is_slab_empty(&mut self, face: u8, slab: &Box3) -> bool
        ensures empty { IsTrue result ↔ IsEmpty (test_value self.old) (grid_box slab.now) }
        ensures same { test_value self.new ≡ test_value self.old }
    {
        if self.slabs.shown_empty(face, self.rows, slab, self.q) {
            return true;
        }
        self.pairs_show_empty(slab)
    }

    /// Whether pairs are asked, and show a box empty that clock spans don't.
    fn pairs_show_empty(&mut self, part: &Box3) -> bool
        ensures shows { (IsShownEmpty self.old.rows.now (grid_box part.now) self.old.q → ⊥)
            → (IsTrue result ↔ IsEmpty (test_value self.old) (grid_box part.now)) }
        ensures same { test_value self.new ≡ test_value self.old }
    {
        if !self.pairs {
            return false;
        }
        if self.rows.len() > 24 {
            return shown_empty_by_pairs(self.rows, part, self.q);
        }
        fill_forms(&mut self.forms, self.rows, part);
        shown_empty_by_forms(&self.forms, part, self.q)
    }

    /// Forms the rows around a box, for a proposal.
    pub fn form_rows(&mut self, part: &Box3)
        ensures same { test_value self.new ≡ test_value self.old }
    {
        if self.rows.len() <= 24 {
            fill_forms(&mut self.forms, self.rows, part);
        }
    }

    /// Where pairs of rows propose the faces of a box around which the rows were formed last, as they
    /// are by a test of it. It is a guess, and nothing is promised of it.
    pub fn proposal(&self, part: &Box3) -> Box3 {
        if self.rows.len() <= 24 {
            return proposed_by_pairs(&self.forms, self.q, part);
        }
        let forms: ArrayVec<Form, 64> = forms_of(self.rows, part);
        proposed_by_pairs(&forms, self.q, part)
    }

    /// Whether a box is shown inner at this clock offset in um: every point of it fits there.
    pub fn is_inner(&self, part: &Box3, clock: i64) -> bool
        ensures { IsTrue result ↔ IsInner (test_value self.now) (grid_box part.now) clock }
    {
        is_shown_inner(self.rows, self.q, part, clock)
    }

    /// Whether the offsets in um from `lo` to `hi` hold the clock hull over a box. Where they do,
    /// the ends of the spans beyond them mostly show it.
    pub fn holds_hull(&self, part: &Box3, lo: i64, hi: i64) -> bool
        ensures { IsTrue result ↔ HoldsHull (test_value self.now) (grid_box part.now) lo hi }
    {
        if bounds_offsets(self.rows, part, self.q, lo, hi) {
            return true;
        }
        match self.clock_hull(part) {
            Some(hull) => lo <= hull.lo && hull.hi <= hi,
            None => true,
        }
    }

    /// The hull of the clock offsets in um that lie in the clock spans of enough rows over a box,
    /// none where there are none.
    pub fn clock_hull(&self, part: &Box3) -> Option<Span>
        ensures none { IsNone result
            ↔ IsShownEmpty self.now.rows.now (grid_box part.now) self.now.q }
        ensures some { IfSome result
            (λ h. IsHull (test_value self.now) (grid_box part.now) h.lo h.hi) }
    {
        clock_hull(self.rows, part, self.q)
    }
}
