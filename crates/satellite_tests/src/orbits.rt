//! Places of satellites.

ghost use Rattle.std.specs.Prelude.{pos, neg_ℤ, ◌-ℤ◌, ◌≤ℤ◌};
ghost use Rattle.broadcast_orbit.specs.OrbitSizes.{orbit_reach};

use crate::orbit_records::{circle, ellipse, far_ellipse, recorded};
use crate::orbit_vectors::VECTORS;
use broadcast_orbit::place;
use fix_interval::{Exact, Place};
use gnss_model::Elements;
use std::process::Abort;

/// Later than the ephemerides of the tests, in ps since the start of GPS time.
const LATEST: i128 = 4_000_000_000_000_000_000_000;

fn number(rt: &impl Abort, field: Option<&str>) -> i128 {
    field.expect(rt, "a number").parse().expect(rt, "a number")
}

fn holds(x: Exact, n: i128) -> bool {
    x.lo <= n && n <= x.hi
}

/// The 32 ps to both sides of a time, so many ps after the ephemeris time.
fn around(rt: &impl Abort, toe: i128, after: i128) -> Exact
    ensures low { neg_ℤ (pos orbit_reach) ≤ℤ (result.lo -ℤ toe) }
    ensures high { (result.hi -ℤ toe) ≤ℤ pos orbit_reach }
{
    assert!(rt; 0 <= toe, "an ephemeris time of GPS");
    assert!(rt; toe <= LATEST, "not too late an ephemeris");
    assert!(rt; -14_400_000_000_000_000 <= after, "not too early");
    assert!(rt; after <= 14_400_000_000_000_000, "not too late");
    Exact {
        lo: toe + after - 32,
        hi: toe + after + 32,
    }
}

fn placed(rt: &impl Abort, el: &Elements, motion: i128, after: i128) -> Place {
    let toe = el.ephemeris_time();
    assert!(rt; toe.lo == toe.hi, "one ephemeris time");
    assert!(rt; 0 <= motion, "a motion that isn't negative");
    assert!(rt;
        motion <= 2_000_000_000_000_000_000,
        "a motion that isn't too great"
    );
    let motion = Exact {
        lo: motion,
        hi: motion,
    };
    place(el, motion, around(rt, toe.lo, after))
}

#[test]
fn a_circle_over_the_equator(rt: HostRuntime) {
    let at = placed(&rt, &circle(), 1_419_860_000_000_000_000, 0);
    assert!(rt; holds(at.x, 27_040_000_000_000), "5,200^2 m");
    assert!(rt; holds(at.y, 0), "no y");
    assert!(rt; holds(at.z, 0), "no z");
}

#[test]
fn ellipses_over_the_equator(rt: HostRuntime) {
    let low = placed(&rt, &ellipse(), 0, 0);
    assert!(rt; holds(low.x, 24_336_000_000_000), "0.9 * 5,200^2 m");
    assert!(rt; holds(low.y, 0), "no y");
    let high = placed(&rt, &far_ellipse(), 0, 0);
    assert!(rt; holds(high.x, -52_272_000_000_000), "1.2 * 6,600^2 m");
    assert!(rt;
        high.y.hi <= high.y.lo.saturating_add(500),
        "the width of y"
    );
}

#[test]
fn places_of_a_recorded_satellite(rt: HostRuntime) {
    assert_eq!(rt; VECTORS.lines().count(), 4, "rows");
    let el = recorded();
    for line in VECTORS.lines() {
        let mut fields = line.split(' ');
        let motion = number(&rt, fields.next());
        let after = number(&rt, fields.next());
        let at = placed(&rt, &el, motion, after);
        for x in [at.x, at.y, at.z] {
            let n = number(&rt, fields.next());
            assert!(rt; holds(x, n), "the coordinate {n}");
            assert!(rt; x.hi <= x.lo.saturating_add(500), "the width at {n}");
        }
    }
}
