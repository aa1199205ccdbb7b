//! One axis of a row around a box, in um.

ghost use Rattle.std.specs.Prelude.{◌≡◌, ◌≤◌, ◌*◌, ◌≤ℤ◌, ◌+ℤ◌, ◌-ℤ◌, pos};
ghost use Rattle.grid_model.specs.Sizes.{IsWithin, IsPlaceSize, IsBoxSize};
ghost use Rattle.grid_model.specs.Boxes.{middle, span_side};
ghost use Rattle.sat_model.specs.Pairs.{away, half};

use grid_model::Span;

/// The way from the middle of the place to that of the box, and how far the high ends are from
/// these middles.
#[derive(Clone, Copy)]
pub(crate) struct Axis {
    pub away: i64,
    pub place: u64,
    pub side: u64,
    pub ghost away_within: { IsWithin 70000000000000 away },
    pub ghost place_small: { place ≤ 60000000000000 },
    pub ghost side_small: { side ≤ 10000000000000 },
}

/// The axis of a place with these spans and a box with these ends.
pub(crate) fn axis_of(place: &Span, lo: i64, hi: i64) -> Axis
    requires place { IsPlaceSize place.now.lo × IsPlaceSize place.now.hi }
    requires ordered { lo ≤ℤ hi }
    requires lo_within { IsBoxSize lo }
    requires hi_within { IsBoxSize hi }
    ensures away { result.away ≡ away place.now (record { lo = lo; hi = hi }) }
    ensures place { result.place ≡ half (span_side place.now) }
    ensures side { result.side ≡ half (record { lo = lo; hi = hi }) }
{
    Axis {
        away: away_of(place, lo, hi),
        place: half_of(place.lo, place.hi),
        side: half_of(lo, hi),
    }
}

/// From the middle of the place to that of the box.
fn away_of(place: &Span, lo: i64, hi: i64) -> i64
    requires place { IsPlaceSize place.now.lo × IsPlaceSize place.now.hi }
    requires ordered { lo ≤ℤ hi }
    requires lo_within { IsBoxSize lo }
    requires hi_within { IsBoxSize hi }
    ensures value { result ≡ away place.now (record { lo = lo; hi = hi }) }
    ensures bound { IsWithin 70000000000000 result }
{
    middle_of(lo, hi) - middle_of(place.lo, place.hi)
}

/// From the middle of two ends to the high end.
fn half_of(lo: i64, hi: i64) -> u64
    requires ordered { lo ≤ℤ hi }
    requires lo_within { IsPlaceSize lo }
    requires hi_within { IsPlaceSize hi }
    ensures value { result ≡ half (record { lo = lo; hi = hi }) }
    ensures bound { pos (2 * result) ≤ℤ (hi -ℤ lo +ℤ pos 1) }
{
    (hi - middle_of(lo, hi)) as u64
}

/// The middle of two ends, rounded down, in um.
pub fn middle_of(lo: i64, hi: i64) -> i64
    requires ordered { lo ≤ℤ hi }
    requires lo_within { IsPlaceSize lo }
    requires hi_within { IsPlaceSize hi }
    ensures value { result ≡ middle (record { lo = lo; hi = hi }) }
    ensures between { (lo ≤ℤ result) × (result ≤ℤ hi) }
{
    lo + (hi - lo) / 2
}
