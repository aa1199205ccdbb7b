//! Mean motions and clock corrections.

ghost use Rattle.std.specs.Prelude.{pos, neg_ℤ, ◌≤ℤ◌};
ghost use Rattle.sat_clock.specs.ClockSizes.{ephemeris_reach};

use crate::clock_records::{circle, greatest, least, usual};
use fix_interval::Exact;
use gnss_model::Elements;
use sat_clock::{Clock, correction, mean_motion};
use std::process::Abort;

/// How far a signal may be sent from the ephemeris time, in ps.
const REACH: i128 = 14_500_000_000_000_000;

/// The 8 ps up to so many ps after the ephemeris time.
fn just_before(rt: &impl Abort, after: i128) -> Exact
    ensures low { neg_ℤ (pos ephemeris_reach) ≤ℤ result.lo }
    ensures high { result.hi ≤ℤ pos ephemeris_reach }
{
    assert!(rt; -14_000_000_000_000_000 <= after, "not too early");
    assert!(rt; after <= REACH, "not too late");
    Exact {
        lo: after - 8,
        hi: after,
    }
}

/// What the clock tells of a signal that was sent in the 8 ps up to so many after the ephemeris
/// time, with the time when it was sent since then.
fn corrected(rt: &impl Abort, el: &Elements, after: i128, single: bool) -> Clock {
    let toe = Exact::of_wide(el.ephemeris_time());
    assert!(rt; toe.lo == toe.hi, "one ephemeris time");
    let clock = correction(el, just_before(rt, after).plus(toe), single);
    Clock {
        dt: clock.dt,
        t: clock.t.minus(toe),
    }
}

fn holds(x: Exact, n: i128) -> bool {
    x.lo <= n && n <= x.hi
}

/// The motion is held, and little more.
fn has_motion(rt: &impl Abort, el: &Elements, n: i128) {
    let held = mean_motion(el);
    assert!(rt; holds(held, n), "the motion {n}");
    assert!(rt;
        held.hi <= held.lo.saturating_add(4_096),
        "the width at {n}"
    );
}

#[test]
fn mean_motions(rt: HostRuntime) {
    // The whole-number root of mu * 10^116 / S^6 by Python's `isqrt`, and the correction.
    has_motion(
        &rt,
        &usual(),
        1_458_601_974_545_781_106 + 45_000_000_000_000,
    );
    has_motion(
        &rt,
        &greatest(),
        694_443_812_895_392_934 + 1_000_000_000_000_000,
    );
    has_motion(
        &rt,
        &least(),
        1_597_198_547_457_391_096 - 1_000_000_000_000_000,
    );
}

#[test]
fn group_delay_of_one_frequency(rt: HostRuntime) {
    let el = circle();
    let single = corrected(&rt, &el, 0, true);
    assert!(rt; holds(single.dt, -100_000_000), "10^-8 s early");
    let dual = corrected(&rt, &el, 0, false);
    assert!(rt; holds(dual.dt, 0), "no offset");
    assert!(rt; holds(dual.t, 0), "the ephemeris time");
}

/// The time since the ephemeris time, whether one frequency was received, dt, and t - toe.
type Offset = (i128, bool, i128, i128);

// The equations in real numbers of 60 digits, Kepler's by 200 rounds of E = M + e sin E (Python's
// mpmath), rounded.
static USUAL: [Offset; 3] = [
    (
        3_600_123_456_789_012,
        true,
        -4_123_661_644_237,
        3_600_123_869_155_176,
    ),
    (
        3_600_123_456_789_012,
        false,
        -4_123_773_402_946,
        3_600_123_869_166_352,
    ),
    (
        -7_199_999_999_999_999,
        true,
        -4_123_310_441_988,
        -7_199_999_587_668_955,
    ),
];

static GREATEST: [Offset; 2] = [
    (REACH, true, 232_010_820_459_732, 14_499_976_798_917_954),
    (REACH, false, 232_110_820_459_731, 14_499_976_788_917_954),
];

static LEAST: [Offset; 1] = [(REACH, true, -168_840_477_604_679, 14_500_016_884_047_760)];

/// The offsets and times are held, and little more.
fn has_offsets(rt: &impl Abort, el: &Elements, rows: &[Offset]) {
    for &(after, single, dt, t) in rows {
        let clock = corrected(rt, el, after, single);
        assert!(rt; holds(clock.dt, dt), "the offset {dt}");
        assert!(rt; holds(clock.t, t), "the time {t}");
        assert!(rt;
            clock.dt.hi <= clock.dt.lo.saturating_add(64),
            "the width of {dt}"
        );
        assert!(rt;
            clock.t.hi <= clock.t.lo.saturating_add(64),
            "the width of {t}"
        );
    }
}

#[test]
fn offsets_of_a_whole_chain(rt: HostRuntime) {
    has_offsets(&rt, &usual(), &USUAL);
    has_offsets(&rt, &greatest(), &GREATEST);
    has_offsets(&rt, &least(), &LEAST);
}
