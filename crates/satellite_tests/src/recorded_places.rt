//! Clocks and places of recorded satellites.

ghost use Rattle.std.specs.Prelude.{◌≡◌, ◌*◌, ◌^◌, pos, neg_ℤ, ◌+ℤ◌, ◌-ℤ◌, ◌≤ℤ◌};
ghost use Rattle.sat_clock.specs.ClockSizes.{ephemeris_reach};

use crate::recorded_ephemerides::RECORDS;
use crate::recorded_vectors::VECTORS;
use broadcast_orbit::place;
use fix_interval::{Exact, Place};
use gnss_model::Elements;
use grid_model::Wide;
use rinex_nav::{Nav, read_nav};
use sat_clock::{Clock, correction, mean_motion};
use std::alloc::Global;
use std::process::Abort;
use std::test::Fail;

/// How far from the ephemeris time the clock and the place are asked for, in ps.
const REACH: i128 = 14_500_000_000_000_000;

/// The last time that is asked for, in ps.
const LATEST: i128 = 4_000_000_000_000_000_000_000;

/// How far the offsets of a clock may be from the expected one, in 10^-16 s.
const OFFSET_TOLERANCE: i128 = 10;

/// How far the times may be from the expected one, in ps.
const TIME_TOLERANCE: i128 = 10;

/// How far the numbers of a coordinate may be from the expected one, in um.
const PLACE_TOLERANCE: i128 = 100;

/// The recorded records.
fn recorded(alloc: Global) -> Result<Nav, Fail> {
    let bytes = RECORDS.as_bytes();
    if bytes.len() > 4_000_000_000 {
        return Err("long")?;
    }
    Ok(read_nav(alloc, bytes).ok().ok_or("refused")?)
}

fn number(rt: &impl Abort, field: Option<&str>) -> i128 {
    field.expect(rt, "a number").parse().expect(rt, "a number")
}

fn record_place(rt: &impl Abort, field: Option<&str>) -> u32 {
    field.expect(rt, "a place").parse().expect(rt, "a place")
}

fn point(n: i128) -> Exact
    ensures low { result.lo ≡ n }
    ensures high { result.hi ≡ n }
{
    Exact { lo: n, hi: n }
}

/// The ephemeris time, within the times that are asked for.
fn ephemeris_time(rt: &impl Abort, el: &Elements) -> Wide
    ensures low { result.lo ≡ el.now.week_start +ℤ el.now.toe_week.lo }
    ensures high { result.hi ≡ el.now.week_start +ℤ el.now.toe_week.hi }
    ensures from { pos 0 ≤ℤ result.lo }
    ensures under { result.hi ≤ℤ pos (5 * 10 ^ 21) }
{
    assert!(rt; 0 <= el.week_start, "not too early a week");
    assert!(rt; el.week_start <= LATEST, "not too late a week");
    el.ephemeris_time()
}

/// The time is so near to the ephemeris time that the clock and the place are told.
fn is_near(rt: &impl Abort, el: &Elements, time: i128)
    ensures from { neg_ℤ (pos ephemeris_reach)
        ≤ℤ (time -ℤ (el.now.week_start +ℤ el.now.toe_week.hi)) }
    ensures to { (time -ℤ (el.now.week_start +ℤ el.now.toe_week.lo)) ≤ℤ pos ephemeris_reach }
{
    let toe = ephemeris_time(rt, el);
    assert!(rt; toe.hi - REACH <= time, "not too long before");
    assert!(rt; time <= toe.lo + REACH, "not too long after");
}

fn clock_at(rt: &impl Abort, el: &Elements, tsv: i128) -> Clock {
    is_near(rt, el, tsv);
    correction(el, point(tsv), true)
}

fn place_at(rt: &impl Abort, el: &Elements, t: i128) -> Place {
    is_near(rt, el, t);
    place(el, mean_motion(el), point(t))
}

/// Whether the members hold a number, and none is further from it than the tolerance.
fn hold_closely(x: Exact, n: i128, tolerance: i128) -> bool {
    n.saturating_sub(tolerance) <= x.lo
        && x.lo <= n
        && n <= x.hi
        && x.hi <= n.saturating_add(tolerance)
}

#[test]
fn clocks_and_places_of_recorded_satellites(rt: HostRuntime) -> Result<(), Fail> {
    let nav = recorded(rt.alloc())?;
    assert_eq!(rt; nav.count(), 30, "records");
    assert_eq!(rt; VECTORS.lines().count(), 90, "rows");
    for line in VECTORS.lines() {
        let mut fields = line.split(' ');
        let at = record_place(&rt, fields.next());
        assert!(rt; at < nav.count(), "a record");
        let el = nav.at(at).elements().ok().ok_or("outside")?;
        let tsv = number(&rt, fields.next());
        let t = tsv.saturating_add(number(&rt, fields.next()));
        let dt = number(&rt, fields.next());
        let clock = clock_at(&rt, &el, tsv);
        assert!(rt;
            hold_closely(clock.dt, dt, OFFSET_TOLERANCE),
            "the offset {dt}"
        );
        assert!(rt; hold_closely(clock.t, t, TIME_TOLERANCE), "the time {t}");
        let at = place_at(&rt, &el, t);
        for x in [at.x, at.y, at.z] {
            let n = number(&rt, fields.next());
            assert!(rt; hold_closely(x, n, PLACE_TOLERANCE), "the coordinate {n}");
        }
    }
    Ok(())
}
