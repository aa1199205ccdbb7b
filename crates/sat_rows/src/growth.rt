//! Rows with room at their ends.

ghost use Rattle.std.specs.Prelude.{◌≡◌, pos, ◌+ℤ◌, ◌-ℤ◌, ◌≤ℤ◌};
ghost use Rattle.grid_model.specs.Sizes.{IsPlaceSize};
ghost use Rattle.sat_rows.specs.Growth.{GrowsWithin, IsGrown, BoundsGrowWithin, AreBoundsGrown};

use grid_model::Span;
use sat_model::Row;

/// A span, wider by so much at both ends.
fn wider(span: Span, by: i64) -> Span
    requires by { pos 0 ≤ℤ by }
    requires low_size { IsPlaceSize (span.lo -ℤ by) }
    requires high_size { IsPlaceSize (span.hi +ℤ by) }
    ensures low { result.lo ≡ span.lo -ℤ by }
    ensures high { result.hi ≡ span.hi +ℤ by }
{
    Span {
        lo: span.lo - by,
        hi: span.hi + by,
    }
}

/// A row whose spans of the place and of the range are wider by `by` um at both ends, and those of
/// the low and of the high ends of the error by `err_by` um.
pub fn grown(row: &Row, by: i64, err_by: i64) -> Row
    requires by { pos 0 ≤ℤ by }
    requires err_by { pos 0 ≤ℤ err_by }
    requires x { GrowsWithin by row.now.x }
    requires y { GrowsWithin by row.now.y }
    requires z { GrowsWithin by row.now.z }
    requires range { GrowsWithin by row.now.range }
    requires bounds { BoundsGrowWithin err_by row.now }
    ensures sat { result.sat ≡ row.now.sat }
    ensures x { IsGrown by row.now.x result.x }
    ensures y { IsGrown by row.now.y result.y }
    ensures z { IsGrown by row.now.z result.z }
    ensures range { IsGrown by row.now.range result.range }
    ensures bounds { AreBoundsGrown err_by row.now result }
{
    let low = wider(row.low_bounds(), err_by);
    let high = wider(row.high_bounds(), err_by);
    Row {
        sat: row.sat,
        x: wider(row.x, by),
        y: wider(row.y, by),
        z: wider(row.z, by),
        range: wider(row.range, by),
        err: Span {
            lo: low.lo,
            hi: high.hi,
        },
        sure_lo: low.hi,
        sure_hi: high.lo,
    }
}
