//! What is known of a satellite, as a line of a log.

ghost use Rattle.std.specs.Prelude.{◌≤ℤ◌};
ghost use Rattle.grid_model.specs.Sizes.{IsPlaceSize, IsErrorSize};

use gnss_model::{Sat, Skip};
use grid_model::Span;

/// What is known of one satellite: spans of its place, of its corrected pseudorange and of the
/// error, all in um. Places and ranges are within 6 * 10^13 um, errors within 10^12 um.
///
/// The error's bounds are known only as spans: no error outside `err` is allowed, and each from
/// `sure_lo` to `sure_hi`, if there is one, is.
#[derive(Clone, Copy, Debug, PartialEq, Eq)]
pub struct Row {
    pub sat: Sat,
    pub x: Span,
    pub y: Span,
    pub z: Span,
    pub range: Span,
    pub err: Span,
    /// The greatest low end of what is allowed of the error, of which `err.lo` is the least.
    pub sure_lo: i64,
    /// The least high end, of which `err.hi` is the greatest.
    pub sure_hi: i64,
    pub ghost x_within: { IsPlaceSize x.lo × IsPlaceSize x.hi },
    pub ghost y_within: { IsPlaceSize y.lo × IsPlaceSize y.hi },
    pub ghost z_within: { IsPlaceSize z.lo × IsPlaceSize z.hi },
    pub ghost range_within: { IsPlaceSize range.lo × IsPlaceSize range.hi },
    pub ghost err_within: { IsErrorSize err.lo × IsErrorSize err.hi },
    pub ghost sure_within: { IsErrorSize sure_lo × IsErrorSize sure_hi },
    pub ghost low_ordered: { err.lo ≤ℤ sure_lo },
    pub ghost high_ordered: { sure_hi ≤ℤ err.hi },
}

impl Row {
    ghost use Rattle.std.specs.Prelude.{◌≡◌};
    ghost use Rattle.grid_model.specs.Boxes.{span_side};
    ghost use Rattle.sat_model.specs.Fitting.{low_bounds, high_bounds};

    /// From the least to the greatest low end of what is allowed of the error, in um.
    pub fn low_bounds(&self) -> Span
        ensures { span_side result ≡ low_bounds self.now }
    {
        Span {
            lo: self.err.lo,
            hi: self.sure_lo,
        }
    }

    /// From the least to the greatest high end of it, in um.
    pub fn high_bounds(&self) -> Span
        ensures { span_side result ≡ high_bounds self.now }
    {
        Span {
            lo: self.sure_hi,
            hi: self.err.hi,
        }
    }
}

/// A satellite line of a log: its row, or why it has none.
#[derive(Clone, Copy, Debug, PartialEq, Eq)]
pub enum SatEntry {
    Row(Row),
    Skipped { sat: Sat, skip: Skip },
}
