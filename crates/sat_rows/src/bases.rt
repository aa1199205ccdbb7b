//! What is known of a satellite of an epoch before it is seen from a box.

ghost use Rattle.std.specs.Prelude.{◌≡◌, ◌*◌, ◌^◌, ℤ, pos, ◌-ℤ◌, ◌≤ℤ◌, ◌<ℤ◌};
ghost use Rattle.gnss_model.specs.RecordBounds.{time_bound};
ghost use Rattle.sat_model.specs.Relaxed.{ends};
ghost use Rattle.grid_model.specs.declared.boxes.Pos.{Pos};
ghost use Rattle.gnss_model.specs.declared.delays.Delays.{Delays};
ghost use Rattle.sat_rows.specs.Bases.{ComesFrom, IsNarrowBase};
ghost use Rattle.sat_rows.specs.Chains.{Chain, AreValues};
ghost use Rattle.usable_sats.specs.Measured.{codes_of};
ghost use Rattle.sat_rows.specs.OwnRows.{IsSmall};
ghost use Rattle.sat_rows.specs.RowSizes.{AreNarrow, IsNearEpoch};
ghost use Rattle.usable_sats.specs.Usability.{ArePlausible};

use crate::places::sent_place;
use crate::signals::{clock, corrected_range, of_one_code, pseudorange};
use crate::spans::span_of;
use fix_interval::Place;
use gnss_model::{Elements, Sat, System};
use grid_model::Span;
use usable_sats::Measured;

/// What the rows of a satellite are formed from, whatever the box: spans of its place when the
/// signal was sent, in the earth-fixed frame of that time, of its corrected pseudorange, and the
/// sum of the spans that are declared for its error, all in um.
#[derive(Clone, Copy, Debug, PartialEq, Eq)]
pub struct Base {
    pub sat: Sat,
    pub place: Place,
    pub range: Span,
    pub err: Span,
}

/// The base of a system's satellite whose signal came at `tag` by the receiver's clock, in ps since
/// 1980-01-06 00:00:00 GPS time and within 14,401 s of the ephemeris time. `declared`, in um, is
/// the sum of the spans that are declared for its error. The corrected pseudoranges are at most 14
/// um apart.
pub fn base_of(
    system: System,
    sat: Sat,
    tag: i128,
    codes: &Measured,
    el: &Elements,
    declared: Span,
) -> Base
    requires tag_from { pos 0 ≤ℤ tag }
    requires tag_under { tag <ℤ pos time_bound }
    requires plausible { ArePlausible system (codes_of codes.now) }
    requires narrow { AreNarrow (codes_of codes.now) }
    requires near { IsNearEpoch el.now tag }
    requires small { IsSmall (6 * 10 ^ 9) declared }
    ensures sat { result.sat ≡ sat }
    ensures err { result.err ≡ declared }
    ensures holds { (delays : Delays) (p : Pos) (c : Chain) → AreValues delays (ends declared)
        (record { system = system; tag = tag; codes = codes_of codes.now; el = el.now }) p c
        → ComesFrom delays result p c }
    ensures narrow { IsNarrowBase result }
    ensures range_width { (result.range.hi -ℤ result.range.lo) ≤ℤ pos 14 }
{
    let range = pseudorange(codes, system);
    let sending = clock(tag, range, el, of_one_code(codes), system);
    Base {
        sat,
        place: sent_place(el, sending.t, system),
        range: span_of(corrected_range(range, sending.dt)),
        err: declared,
    }
}
