//! The row of a satellite: spans of its place, of its corrected pseudorange and of the ends of its
//! error over a search box.

ghost use Rattle.std.specs.Prelude.{◌≡◌, true};
ghost use Rattle.grid_model.specs.Boxes.{grid_box};
ghost use Rattle.sat_model.specs.Relaxed.{ends};
ghost use Rattle.grid_model.specs.SearchBoxes.{IsSearchBox};
ghost use Rattle.grid_model.specs.Sizes.{IsPlaceSize};
ghost use Rattle.gnss_model.specs.Delays.{AreDelays, is_plain};
ghost use Rattle.sat_rows.specs.Bases.{ComesFrom, IsNarrowBase};
ghost use Rattle.sat_rows.specs.OwnRows.{HoldsAllowed, HasBounds, AreBoundsTight, IsTight};
ghost use Rattle.sat_rows.specs.OwnRows.{IsSmallRow};
ghost use Rattle.usable_sats.specs.Usability.{IsHigh};

use crate::bases::Base;
use crate::bounds::bounds_over;
use crate::places::seen_place;
use fix_interval::Exact;
use gnss_model::Delays;
use grid_model::{Box3, Span};
use sat_model::Row;

/// The span from the least to the greatest member, in 64 bits.
pub fn span_of(x: Exact) -> Span
    requires low_size { IsPlaceSize x.lo }
    requires high_size { IsPlaceSize x.hi }
    ensures low { result.lo ≡ x.lo }
    ensures high { result.hi ≡ x.hi }
{
    Span {
        lo: x.lo as i64,
        hi: x.hi as i64,
    }
}

/// The row of a satellite over a box, which may be a part of the search box: it holds whatever
/// comes from the base as seen from the points of the box. `delays` are the spans of the delays
/// straight up, in um, which are mapped and added to the ends of the error.
pub fn renewed(base: &Base, delays: Delays, part: &Box3) -> Row
    requires base { IsNarrowBase base.now }
    requires delays { AreDelays delays }
    requires part { IsSearchBox (grid_box part.now) }
    requires high { IsHigh delays (grid_box part.now) }
    ensures sat { result.sat ≡ base.now.sat }
    ensures holds { HoldsAllowed (ComesFrom delays base.now) (grid_box part.now) result }

    // Each span is at most 2,000 um and a 40,000th of the longest side of the box wide.
    ensures x_tight { IsTight (grid_box part.now) result.x }
    ensures y_tight { IsTight (grid_box part.now) result.y }
    ensures z_tight { IsTight (grid_box part.now) result.z }
    ensures range_tight { IsTight (grid_box part.now) result.range }

    // The spans of the ends of the error are at most as wide as the delays straight up spread.
    ensures bounds_tight { AreBoundsTight (grid_box part.now) delays result }
    ensures plain { is_plain delays ≡ true → HasBounds result (ends base.now.err) }
    ensures small { IsSmallRow result }
{
    let place = seen_place(base.place, part);
    let bounds = bounds_over(base.err, delays, place, part);
    Row {
        sat: base.sat,
        x: span_of(place.x),
        y: span_of(place.y),
        z: span_of(place.z),
        range: base.range,
        err: Span {
            lo: bounds.low.lo,
            hi: bounds.high.hi,
        },
        sure_lo: bounds.low.hi,
        sure_hi: bounds.high.lo,
    }
}
