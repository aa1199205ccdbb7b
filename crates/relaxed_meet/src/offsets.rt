//! On which side of a clock offset the clock span of a row over a box lies, without a root: the
//! root of a number is less than another one exactly where the number is less than its square.

ghost use Rattle.std.specs.Prelude.{◌≡◌, ◌-◌, ◌↔◌, ◌≤ℤ◌, ◌<ℤ◌, length, IsTrue};
ghost use Rattle.grid_model.specs.Boxes.{grid_box};
ghost use Rattle.sat_model.specs.ClockSpans.{clock_ends, clock_spans};
ghost use Rattle.sat_model.specs.Relaxed.{holds, LiesInRelaxed};
ghost use Rattle.grid_model.specs.Sizes.{IsWithin};

use crate::distance::{far_square, near_square};
use grid_model::Box3;
use sat_model::Row;

/// The amount up to which an offset is compared with a clock span, in um. No span reaches as far.
const FARTHEST: i64 = 900_000_000_000_000;

/// Whether all of the row's clock span over the box is above the offset in um.
pub(crate) fn is_above(row: &Row, part: &Box3, offset: i64) -> bool
    requires { IsWithin 1000000000000000 offset }
    ensures { IsTrue result ↔ (offset <ℤ (clock_ends (grid_box part.now) row.now).0) }
{
    let reach = row.range.lo - row.err.hi - offset;
    if reach <= 0 {
        return false;
    }
    let reach = u128::from(reach as u64);
    far_square(row, part) < reach * reach
}

/// Whether none of it is.
pub(crate) fn is_up_to(row: &Row, part: &Box3, offset: i64) -> bool
    requires { IsWithin 1000000000000000 offset }
    ensures { IsTrue result ↔ ((clock_ends (grid_box part.now) row.now).1 ≤ℤ offset) }
{
    let reach = row.range.hi - row.err.lo - offset;
    if reach <= 0 {
        return true;
    }
    let reach = u128::from(reach as u64);
    reach * reach <= near_square(row, part)
}

/// Whether the offset lies in the span.
fn has_offset(row: &Row, part: &Box3, offset: i64) -> bool
    requires { IsWithin 900000000000000 offset }
    ensures { result ≡ holds (clock_ends (grid_box part.now) row.now) offset }
{
    !is_above(row, part, offset) && !is_up_to(row, part, offset - 1)
}

/// Whether the offset lies in the clock spans of all but at most `q` rows.
pub(crate) fn lies_in_most(rows: &[Row], part: &Box3, q: u8, offset: i64) -> bool
    requires { IsWithin 900000000000000 offset }
    ensures { IsTrue result
        → LiesInRelaxed (clock_spans (grid_box part.now) rows.now) (length rows.now - q) offset }
{
    let mut missed: u8 = 0;
    for row in rows {
        if !has_offset(row, part, offset) {
            if missed == q {
                return false;
            }
            missed += 1;
        }
    }
    true
}

/// The offset, or where it is greater in amount the greatest one that is compared with spans.
pub(crate) fn bounded(offset: i64) -> i64
    ensures { IsWithin 900000000000000 result }
{
    offset.min(FARTHEST).max(-FARTHEST)
}

/// Whether the offset can be compared with spans.
pub(crate) fn is_bounded(offset: i64) -> bool
    ensures { IsTrue result → IsWithin 900000000000000 offset }
{
    -FARTHEST <= offset && offset <= FARTHEST
}
