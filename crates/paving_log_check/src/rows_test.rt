//! The test of boxes by the rows in use, however few they are.

ghost use Rattle.std.specs.Prelude.{◌≡◌, ◌≤◌, ◌↔◌, length, IsTrue};
ghost use Rattle.grid_model.specs.Boxes.{grid_box};

use grid_model::Box3;
use relaxed_meet::BoxTest;
use sat_model::{Row, Rules};

/// Rows that may all be inconsistent.
#[derive(Clone, Copy)]
pub(crate) struct FewRows<'a> {
    pub(crate) rows: &'a [Row],
    pub(crate) q: u8,
    pub(crate) pairs: bool,
    ghost few: { length rows.now ≤ q },
}

/// By rows of which not all may be inconsistent, or by fewer: these show no box empty, they show
/// each box inner at each clock offset, and no offsets hold their hull.
#[derive(Drop)]
pub(crate) enum RowsTest<'a> {
    Enough(BoxTest<'a>),
    Few(FewRows<'a>),
}

impl<'a> RowsTest<'a> {
    ghost use Rattle.sat_model.specs.BoxTests.{test_of, IsEmpty, IsInner, HoldsHull};
    ghost use Rattle.paving_log_check.specs.RowsTests.{rows_test_value};

    /// The test by these rows under these rules.
    pub(crate) fn new(rows: &'a [Row], rules: &Rules) -> Self
        requires { length rows.now ≤ 64 }
        ensures { rows_test_value result ≡ test_of rules.now rows.now }
    {
        if usize::from(rules.outliers) < rows.len() {
            return RowsTest::Enough(BoxTest::new(rows, rules));
        }
        RowsTest::Few(FewRows {
            rows,
            q: rules.outliers,
            pairs: rules.pairs,
        })
    }

    /// Whether a box is shown empty.
    pub(crate) fn is_empty(&mut self, part: &Box3) -> bool
        ensures empty { IsTrue result ↔ IsEmpty (rows_test_value self.old) (grid_box part.now) }
        ensures same { rows_test_value self.new ≡ rows_test_value self.old }
    {
        match self {
            RowsTest::Enough(test) => test.is_empty(part),
            RowsTest::Few(_) => false,
        }
    }

    /// The same of a slab at this face of a box.
    pub(crate) fn is_slab_empty(&mut self, face: u8, slab: &Box3) -> bool
        ensures empty { IsTrue result ↔ IsEmpty (rows_test_value self.old) (grid_box slab.now) }
        ensures same { rows_test_value self.new ≡ rows_test_value self.old }
    {
        match self {
            RowsTest::Enough(test) => test.is_slab_empty(face, slab),
            RowsTest::Few(_) => false,
        }
    }

    /// Whether a box is shown inner at this clock offset in um.
    pub(crate) fn is_inner(&self, part: &Box3, clock: i64) -> bool
        ensures { IsTrue result ↔ IsInner (rows_test_value self.now) (grid_box part.now) clock }
    {
        match self {
            RowsTest::Enough(test) => test.is_inner(part, clock),
            RowsTest::Few(_) => true,
        }
    }

    /// Whether the offsets in um from `lo` to `hi` hold the clock hull over a box.
    pub(crate) fn holds_hull(&self, part: &Box3, lo: i64, hi: i64) -> bool
        ensures { IsTrue result ↔ HoldsHull (rows_test_value self.now) (grid_box part.now) lo hi }
    {
        match self {
            RowsTest::Enough(test) => test.holds_hull(part, lo, hi),
            RowsTest::Few(_) => false,
        }
    }
}
