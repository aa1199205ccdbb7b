//! Eccentric anomalies.

use crate::anomaly_vectors::VECTORS;
use fix_interval::Exact;
use kepler_enclosure::{GREATEST_ECCENTRICITY, eccentric};
use std::process::Abort;

const FARTHEST: i128 = 600_000_000_000_000_000;

fn number(rt: &impl Abort, field: Option<&str>) -> i128 {
    field.expect(rt, "a number").parse().expect(rt, "a number")
}

#[test]
fn holds_the_vectors(rt: HostRuntime) {
    assert_eq!(rt; VECTORS.lines().count(), 60, "rows");
    for line in VECTORS.lines() {
        let mut fields = line.split(' ');
        let m = number(&rt, fields.next());
        let e = number(&rt, fields.next());
        let x = number(&rt, fields.next());
        assert!(rt; -FARTHEST <= m && m <= FARTHEST, "{m} is in range");
        assert!(rt; 0 <= e && e <= GREATEST_ECCENTRICITY, "{e} is in range");
        let held = eccentric(Exact { lo: m, hi: m }, Exact { lo: e, hi: e });
        assert!(rt; held.lo <= x && x <= held.hi, "the anomaly of {m} and {e}");
        assert!(rt;
            held.hi <= held.lo.saturating_add(64),
            "the width at {m} and {e}"
        );
    }
}

#[test]
fn holds_both_ends_of_the_bracket_on_a_circle(rt: HostRuntime) {
    let circle = Exact { lo: 0, hi: 0 };
    for m in [0, 10_000_000_000_000_000] {
        let held = eccentric(Exact { lo: m, hi: m }, circle);
        assert!(rt; held.lo < m && m <= held.hi, "{m} and the number below");
    }
}
