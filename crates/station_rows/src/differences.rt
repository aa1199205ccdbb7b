//! The receiver's base of a satellite less the residuals of a station.

ghost use Rattle.std.specs.Prelude.{◌≡◌, true};
ghost use Rattle.fix_interval.specs.Factors.{Holds, HasEnds};
ghost use Rattle.grid_model.specs.Boxes.{grid_box, box_holds};
ghost use Rattle.grid_model.specs.Lengths.{longest_length};
ghost use Rattle.grid_model.specs.Sizes.{IsBoxSize};
ghost use Rattle.grid_model.specs.declared.boxes.Pos.{Pos};
ghost use Rattle.gnss_model.specs.declared.delays.Delays.{Delays};
ghost use Rattle.sat_rows.specs.Bases.{ComesFrom, IsNarrowBase};
ghost use Rattle.sat_rows.specs.Chains.{Chain};
ghost use Rattle.error_bounds.specs.Sizes.{IsNearGround};
ghost use Rattle.station_rows.specs.Bases.{HaveSmallDifference, IsBaseOfOne};
ghost use Rattle.station_rows.specs.Bases.{residual_amount, residual_width};
ghost use Rattle.station_rows.specs.Differences.{less_residual, residual_of};

use earth_rotation::seen_range;
use fix_interval::Exact;
use grid_model::{Box3, Pos, Span};
use sat_rows::{Base, span_of};

/// The box of a point.
fn point(at: &Pos) -> Box3
    requires x_size { IsBoxSize at.now.x }
    requires y_size { IsBoxSize at.now.y }
    requires z_size { IsBoxSize at.now.z }
    ensures small { longest_length (grid_box result) ≡ 0 }
    ensures holds { box_holds (grid_box result) at.now ≡ true }
{
    Box3 { lo: *at, hi: *at }
}

/// The same numbers in 128 bits.
fn wide(span: Span) -> Exact
    ensures low { result.lo ≡ span.lo }
    ensures high { result.hi ≡ span.hi }
{
    Exact {
        lo: i128::from(span.lo),
        hi: i128::from(span.hi),
    }
}

/// Every residual in um at the place of a station: a corrected pseudorange less the range, by what
/// comes from the station's base of a satellite. With its sign changed it is the correction of
/// differential GPS, but for the station's clock offset.
fn residuals(station: &Base, place: &Pos) -> Exact
    requires base { IsBaseOfOne station.now }
    requires ground { IsNearGround place.now }
    ensures holds { (delays : Delays) (c : Chain) → ComesFrom delays station.now place.now c
        → Holds result (residual_of c) }
    ensures ends { HasEnds residual_amount residual_width result }
{
    let at = point(place);
    let range = seen_range(station.place, &at);
    wide(station.range).minus(range)
}

/// The base of the single difference: the receiver's own, but for its corrected pseudoranges, which
/// are less by the station's residuals.
pub(crate) fn single_difference(receiver: &Base, station: &Base, place: &Pos) -> Base
    requires receiver { IsBaseOfOne receiver.now }
    requires station { IsBaseOfOne station.now }
    requires ground { IsNearGround place.now }
    requires small { HaveSmallDifference receiver.now station.now place.now }
    ensures sat { result.sat ≡ receiver.now.sat }
    ensures err { result.err ≡ receiver.now.err }
    ensures holds { (delays other : Delays) (p : Pos) (c d : Chain)
        → ComesFrom delays receiver.now p c → ComesFrom other station.now place.now d
        → ComesFrom delays result p (less_residual c (residual_of d)) }
    ensures narrow { IsNarrowBase result }
{
    let residual = residuals(station, place);
    let difference = wide(receiver.range).minus(residual);
    Base {
        sat: receiver.sat,
        place: receiver.place,
        range: span_of(difference),
        err: receiver.err,
    }
}
