//! Whether every point of a box fits at a clock offset.

ghost use Rattle.std.specs.Prelude.{◌≡◌, ◌<◌, ◌≤◌, ◌↔◌, IsTrue, length, count_by};
ghost use Rattle.grid_model.specs.Boxes.{grid_box};
ghost use Rattle.sat_model.specs.ClockSpans.{inner_ends, IsShownInner};
ghost use Rattle.sat_model.specs.Relaxed.{holds};

use crate::clocks::inner_span;
use grid_model::Box3;
use sat_model::Row;

/// Whether the row fits everywhere in the box at this clock offset.
fn fits_everywhere(row: &Row, part: &Box3, clock: i64) -> bool
    ensures { result ≡ holds (inner_ends (grid_box part.now) row.now) clock }
{
    match inner_span(row, part) {
        Some(span) => span.lo <= clock && clock <= span.hi,
        None => false,
    }
}

/// How many rows fit everywhere in the box at this clock offset.
fn fitting(rows: &[Row], part: &Box3, clock: i64) -> usize
    ensures { result ≡ count_by (λ row. holds (inner_ends (grid_box part.now) row) clock) rows.now }
{
    rows.iter()
        .filter(|row| fits_everywhere(row, part, clock))
        .count()
}

/// Whether all rows but at most `q` fit everywhere in the box at this clock offset.
pub(crate) fn is_shown_inner(rows: &[Row], q: u8, part: &Box3, clock: i64) -> bool
    requires { (q < length rows.now) × (length rows.now ≤ 64) }
    ensures { IsTrue result ↔ IsShownInner rows.now (grid_box part.now) q clock }
{
    rows.len() - usize::from(q) <= fitting(rows, part, clock)
}
