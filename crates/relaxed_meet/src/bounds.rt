//! Whether two clock offsets bound those that lie in enough clock spans over a box. It takes the
//! roots of the rows alone whose spans lie beyond one of them.

ghost use Rattle.std.specs.Prelude.{◌-◌, ◌<◌, ◌≤◌, length, IsTrue, ℤ, ◌≤ℤ◌};
ghost use Rattle.grid_model.specs.Boxes.{grid_box};
ghost use Rattle.sat_model.specs.ClockSpans.{clock_spans};
ghost use Rattle.sat_model.specs.Relaxed.{LiesInRelaxed};
ghost use Rattle.grid_model.specs.Sizes.{IsWithin};

use crate::clocks::clock_span;
use crate::counts::{count_above, count_up_to};
use crate::extremes::{Falling, keep};
use crate::offsets::{is_above, is_bounded, is_up_to};
use crate::separation::Separation;
use grid_model::Box3;
use sat_model::Row;

/// Whether each offset that lies in the clock spans over the box of all but at most `q` rows is
/// seen to lie from `lo` to `hi`.
pub fn bounds_offsets(rows: &[Row], part: &Box3, q: u8, lo: i64, hi: i64) -> bool
    requires { (q < length rows.now) × (length rows.now ≤ 64) }
    ensures low { IsTrue result → (b : ℤ)
        → LiesInRelaxed (clock_spans (grid_box part.now) rows.now) (length rows.now - q) b
        → lo ≤ℤ b }
    ensures high { IsTrue result → (b : ℤ)
        → LiesInRelaxed (clock_spans (grid_box part.now) rows.now) (length rows.now - q) b
        → b ≤ℤ hi }
{
    is_bounded(lo)
        && is_bounded(hi)
        && none_is_below(rows, part, q, lo)
        && none_is_above(rows, part, q, hi)
}

/// Whether none of these offsets is seen to lie below `lo`.
fn none_is_below(rows: &[Row], part: &Box3, q: u8, lo: i64) -> bool
    requires few { (q < length rows.now) × (length rows.now ≤ 64) }
    requires bound { IsWithin 900000000000000 lo }
    ensures { IsTrue result → (b : ℤ)
        → LiesInRelaxed (clock_spans (grid_box part.now) rows.now) (length rows.now - q) b
        → lo ≤ℤ b }
{
    let wanted = usize::from(q) + 1;
    let above = count_above(rows, part, u64::MAX, lo - 1, wanted);
    if above >= wanted {
        return true;
    }
    parted_below(rows, part, q, lo - 1).shows_none(rows, part, q, 0, above)
}

/// Whether none of them is seen to lie above `hi`.
fn none_is_above(rows: &[Row], part: &Box3, q: u8, hi: i64) -> bool
    requires few { (q < length rows.now) × (length rows.now ≤ 64) }
    requires bound { IsWithin 900000000000000 hi }
    ensures { IsTrue result → (b : ℤ)
        → LiesInRelaxed (clock_spans (grid_box part.now) rows.now) (length rows.now - q) b
        → b ≤ℤ hi }
{
    let wanted = usize::from(q) + 1;
    let below = count_up_to(rows, part, u64::MAX, hi, wanted);
    if below >= wanted {
        return true;
    }
    parted_above(rows, part, q, hi).shows_none(rows, part, q, below, 0)
}

/// The rows whose clock spans lie up to the offset, and the least of their high ends.
fn parted_below(rows: &[Row], part: &Box3, q: u8, offset: i64) -> Separation
    requires few { q < 64 }
    requires bound { IsWithin 1000000000000000 offset }
{
    let mut highs = Falling::new();
    let mut below = 0;
    let mut bit: u64 = 1;
    for row in rows {
        if is_up_to(row, part, offset) {
            below |= bit;
            keep(
                &mut highs,
                -1 - clock_span(row, part).hi,
                usize::from(q) + 1,
            );
        }
        bit <<= 1;
    }
    Separation::behind(below, &highs)
}

/// The rows whose clock spans lie above it, and what comes before the greatest of their low ends.
fn parted_above(rows: &[Row], part: &Box3, q: u8, offset: i64) -> Separation
    requires few { q < 64 }
    requires bound { IsWithin 1000000000000000 offset }
{
    let mut lows = Falling::new();
    let mut above = 0;
    let mut bit: u64 = 1;
    for row in rows {
        if is_above(row, part, offset) {
            above |= bit;
            keep(&mut lows, clock_span(row, part).lo, usize::from(q) + 1);
        }
        bit <<= 1;
    }
    Separation::before(above, &lows, q)
}
