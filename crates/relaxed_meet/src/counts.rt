//! How many clock spans over a box lie on one side of an offset.

ghost use Rattle.std.specs.Prelude.{◌≤◌};
ghost use Rattle.grid_model.specs.Boxes.{grid_box};
ghost use Rattle.sat_model.specs.ClockSpans.{clock_spans};
ghost use Rattle.grid_model.specs.Sizes.{IsWithin};
ghost use Rattle.relaxed_meet.specs.Separated.{lows_above, highs_to};

use crate::offsets::{is_above, is_up_to};
use grid_model::Box3;
use sat_model::Row;

/// How many of the rows that have a bit have clock spans above the offset, counted up to `most`.
pub(crate) fn count_above(rows: &[Row], part: &Box3, which: u64, offset: i64, most: usize) -> usize
    requires { IsWithin 1000000000000000 offset }
    ensures { result ≤ lows_above offset (clock_spans (grid_box part.now) rows.now) }
{
    let mut count = 0;
    let mut left = which;
    for row in rows {
        if count >= most {
            return count;
        }
        let is_asked = left & 1 == 1;
        if is_asked && is_above(row, part, offset) {
            count += 1;
        }
        left >>= 1;
    }
    count
}

/// How many of them have clock spans up to it, counted up to `most`.
pub(crate) fn count_up_to(rows: &[Row], part: &Box3, which: u64, offset: i64, most: usize) -> usize
    requires { IsWithin 1000000000000000 offset }
    ensures { result ≤ highs_to offset (clock_spans (grid_box part.now) rows.now) }
{
    let mut count = 0;
    let mut left = which;
    for row in rows {
        if count >= most {
            return count;
        }
        let is_asked = left & 1 == 1;
        if is_asked && is_up_to(row, part, offset) {
            count += 1;
        }
        left >>= 1;
    }
    count
}
