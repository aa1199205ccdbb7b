//! The rows of a satellite that a receiver and a station observed.

ghost use Rattle.std.specs.Prelude.{◌≡◌, ◌*◌, ◌^◌, ℤ, pos, ◌-ℤ◌, ◌≤ℤ◌, ◌<ℤ◌, true};
ghost use Rattle.gnss_model.specs.RecordBounds.{time_bound};
ghost use Rattle.gnss_model.specs.declared.delays.Delays.{Delays};
ghost use Rattle.grid_model.specs.Boxes.{grid_box, box_holds};
ghost use Rattle.grid_model.specs.SearchBoxes.{IsSearchBox};
ghost use Rattle.grid_model.specs.declared.boxes.Pos.{Pos};
ghost use Rattle.sat_model.specs.Fitting.{IsPossible};
ghost use Rattle.sat_model.specs.Relaxed.{ends};
ghost use Rattle.sat_rows.specs.Bases.{ComesFrom, IsNarrowBase};
ghost use Rattle.sat_rows.specs.Chains.{Chain};
ghost use Rattle.sat_rows.specs.OwnRows.{HasBounds, IsSmall, IsTight};
ghost use Rattle.sat_rows.specs.RowSizes.{AreNarrow, IsNearEpoch};
ghost use Rattle.error_bounds.specs.Sizes.{IsNearGround};
ghost use Rattle.station_rows.specs.Differences.{AreDifferences, ErrorsDifferWithin};
ghost use Rattle.station_rows.specs.Nearby.{AreNearby};
ghost use Rattle.station_rows.specs.Observations.{view_of};
ghost use Rattle.usable_sats.specs.Measured.{codes_of};
ghost use Rattle.usable_sats.specs.Usability.{ArePlausible};

use crate::differences::single_difference;
use crate::observations::CommonSat;
use gnss_model::{Delays, Elements};
use grid_model::{Box3, Span};
use sat_model::Row;
use sat_rows::{Base, base_of, renewed};

/// The base of a satellite that a receiver and a station observed, by one record for both.
/// `declared`, in um, is the sum of the spans that are declared for the error of the receiver less
/// that of the station. Both times are within 14,401 s of the ephemeris time.
pub fn base_of_both(common: &CommonSat, el: &Elements, declared: Span) -> Base
    requires receiver_from { pos 0 ≤ℤ common.now.receiver.tag }
    requires receiver_under { common.now.receiver.tag <ℤ pos time_bound }
    requires receiver_codes { ArePlausible common.now.system (codes_of common.now.receiver.codes) }
    requires receiver_narrow { AreNarrow (codes_of common.now.receiver.codes) }
    requires receiver_near { IsNearEpoch el.now common.now.receiver.tag }
    requires station_from { pos 0 ≤ℤ common.now.station.tag }
    requires station_under { common.now.station.tag <ℤ pos time_bound }
    requires station_codes { ArePlausible common.now.system (codes_of common.now.station.codes) }
    requires station_narrow { AreNarrow (codes_of common.now.station.codes) }
    requires station_near { IsNearEpoch el.now common.now.station.tag }
    requires ground { IsNearGround common.now.place }
    requires nearby { AreNearby (view_of common.now el.now) }
    requires small { IsSmall (6 * 10 ^ 9) declared }
    ensures sat { result.sat ≡ common.now.sat }
    ensures err { result.err ≡ declared }
    ensures holds { (delays : Delays) (p : Pos) (c : Chain)
        → AreDifferences delays (ends declared) (view_of common.now el.now) p c
        → ComesFrom delays result p c }
    ensures narrow { IsNarrowBase result }
{
    let receiver = base_of(
        common.system,
        common.sat,
        common.receiver.tag,
        &common.receiver.codes,
        el,
        declared,
    );
    let station = base_of(
        common.system,
        common.sat,
        common.station.tag,
        &common.station.codes,
        el,
        declared,
    );
    single_difference(&receiver, &station, &common.place)
}

/// The row of such a satellite over a box: it is possible wherever numbers that meet the equations
/// of both leave errors whose difference is declared, at the receiver's clock offset less that of
/// the station.
pub fn row_of_both(common: &CommonSat, el: &Elements, declared: Span, part: &Box3) -> Row
    requires receiver_from { pos 0 ≤ℤ common.now.receiver.tag }
    requires receiver_under { common.now.receiver.tag <ℤ pos time_bound }
    requires receiver_codes { ArePlausible common.now.system (codes_of common.now.receiver.codes) }
    requires receiver_narrow { AreNarrow (codes_of common.now.receiver.codes) }
    requires receiver_near { IsNearEpoch el.now common.now.receiver.tag }
    requires station_from { pos 0 ≤ℤ common.now.station.tag }
    requires station_under { common.now.station.tag <ℤ pos time_bound }
    requires station_codes { ArePlausible common.now.system (codes_of common.now.station.codes) }
    requires station_narrow { AreNarrow (codes_of common.now.station.codes) }
    requires station_near { IsNearEpoch el.now common.now.station.tag }
    requires ground { IsNearGround common.now.place }
    requires nearby { AreNearby (view_of common.now el.now) }
    requires small { IsSmall (6 * 10 ^ 9) declared }
    requires part { IsSearchBox (grid_box part.now) }
    ensures sat { result.sat ≡ common.now.sat }
    ensures possible { (p : Pos) (offset station_offset : ℤ)
        → box_holds (grid_box part.now) p ≡ true
        → ErrorsDifferWithin (view_of common.now el.now) p offset station_offset
        declared.lo declared.hi
        → IsPossible p (offset -ℤ station_offset) result }

    // It is as narrow as a row of one receiver.
    ensures x_tight { IsTight (grid_box part.now) result.x }
    ensures y_tight { IsTight (grid_box part.now) result.y }
    ensures z_tight { IsTight (grid_box part.now) result.z }
    ensures range_tight { IsTight (grid_box part.now) result.range }
    ensures bounds { HasBounds result (ends declared) }
{
    let none = Delays {
        zenith: None,
        vertical: None,
    };
    let base = base_of_both(common, el, declared);
    renewed(&base, none, part)
}
