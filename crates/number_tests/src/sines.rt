//! Sines and cosines of angles.

use crate::sine_vectors::VECTORS;
use fix_interval::Exact;
use interval_trig::{cosine, sine};
use std::process::Abort;

const FARTHEST: i128 = 640_000_000_000_000_000;

fn number(rt: &impl Abort, field: Option<&str>) -> i128 {
    field.expect(rt, "a number").parse().expect(rt, "a number")
}

#[test]
fn holds_the_vectors(rt: HostRuntime) {
    assert_eq!(rt; VECTORS.lines().count(), 223, "rows");
    for line in VECTORS.lines() {
        let mut fields = line.split(' ');
        let x = number(&rt, fields.next());
        let s = number(&rt, fields.next());
        let c = number(&rt, fields.next());
        assert!(rt; -FARTHEST <= x && x <= FARTHEST, "{x} is in range");
        let point = Exact { lo: x, hi: x };
        let sines = sine(point);
        assert!(rt; sines.lo <= s && s < sines.hi, "the sine of {x}");
        assert!(rt; sines.hi <= sines.lo.saturating_add(16), "the width at {x}");
        let cosines = cosine(point);
        assert!(rt; cosines.lo <= c && c < cosines.hi, "the cosine of {x}");
        assert!(rt;
            cosines.hi <= cosines.lo.saturating_add(16),
            "the width at {x}"
        );
    }
}

#[test]
fn holds_a_seam(rt: HostRuntime) {
    // From 0.7 to 0.9 rad the quarter changes.
    let sines = sine(Exact {
        lo: 7_000_000_000_000_000,
        hi: 9_000_000_000_000_000,
    });
    assert!(rt; sines.lo <= 6_442_176_872_376_910, "the sine of 0.7");
    assert!(rt; 7_833_269_096_274_834 <= sines.hi, "the sine of 0.9");
    // Round zero the sine holds both signs.
    let zero = sine(Exact { lo: 0, hi: 0 });
    assert!(rt; zero.lo <= -1 && 1 <= zero.hi, "one unit on both sides");
}
