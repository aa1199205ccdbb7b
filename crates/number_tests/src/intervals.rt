//! Intervals of whole numbers: exact ones, and coarse ones with ends at multiples of a grain.

use fix_interval::{Coarse, Exact, ExactArea, Interval, Place, advanced, squared_distance};
use grid_model::Wide;
use std::process::Abort;

/// What the ends of coarse intervals are multiples of, in um.
const GRAIN: i64 = 65_536;

#[test]
fn meets_and_hulls(rt: HostRuntime) {
    let five = Exact { lo: 0, hi: 5 }.meet(Exact { lo: 5, hi: 9 });
    assert!(rt; five == Some(Exact { lo: 5, hi: 5 }), "both hold 5");
    let none = Exact { lo: 0, hi: 4 }.meet(Exact { lo: 5, hi: 9 });
    assert!(rt; none == None, "no number in both");
    let hull = Exact { lo: 7, hi: 9 }.hull(Exact { lo: -2, hi: 8 });
    assert!(rt; hull == Exact { lo: -2, hi: 9 }, "the hull");
}

#[test]
fn squares_and_their_roots(rt: HostRuntime) {
    for (lo, hi, least, greatest) in [(2, 3, 4, 9), (-3, 2, 0, 9), (-5, -4, 16, 25)] {
        let x: Exact = Interval::of(lo, hi);
        let area = x.square();
        assert_eq!(rt; area.lo, least, "least square from {lo}");
        assert_eq!(rt; area.hi, greatest, "greatest square from {lo}");
    }
    let x: Exact = Interval::of(2, 3);
    assert!(rt;
        <Exact as Interval>::root(x.square()) == Exact { lo: 2, hi: 3 },
        "the roots"
    );
    let widest = ExactArea {
        lo: 0,
        hi: u128::MAX,
    };
    assert_eq!(rt;
        <Exact as Interval>::root(widest).hi,
        18_446_744_073_709_551_615,
        "any area has a root"
    );
}

#[test]
fn differences_of_areas(rt: HostRuntime) {
    let a = ExactArea { lo: 3, hi: 9 };
    let b = ExactArea { lo: 5, hi: 6 };
    assert!(rt;
        <Exact as Interval>::area_less(a, b) == Some(ExactArea { lo: 0, hi: 4 }),
        "from 0"
    );
    let c = ExactArea { lo: 10, hi: 11 };
    assert!(rt;
        <Exact as Interval>::area_less(a, c) == None,
        "all differences are negative"
    );
}

#[test]
fn products_and_quotients(rt: HostRuntime) {
    // 7 * 3 / 2 is 10.5.
    let seven = Exact { lo: 7, hi: 7 };
    let p = seven.times_over(Exact { lo: 3, hi: 3 }, 2);
    assert!(rt;
        p.lo <= 10 && 11 <= p.hi && p.hi <= p.lo.saturating_add(4),
        "10 and 11"
    );
    // 7 * 3 / 2 again, and -7 * 3 / 2.
    let q = seven.over(Exact { lo: 2, hi: 2 }, 3);
    assert!(rt;
        q.lo <= 10 && 11 <= q.hi && q.hi <= q.lo.saturating_add(4),
        "10 and 11"
    );
    let n = Exact { lo: -7, hi: -7 }.over(Exact { lo: 2, hi: 2 }, 3);
    assert!(rt;
        n.lo <= -11 && -10 <= n.hi && n.hi <= n.lo.saturating_add(4),
        "-11 and -10"
    );
}

#[test]
fn wide_ends_stay(rt: HostRuntime) {
    let x = Exact::of_wide(Wide { lo: -1, hi: 1 });
    let y = x.plus(x).minus(x);
    assert!(rt; y.wide() == Wide { lo: -3, hi: 3 }, "sums and differences");
    let place = Place { x, y, z: x };
    assert!(rt; place == place, "a place");
}

#[test]
fn distances(rt: HostRuntime) {
    let x: Exact = Interval::of(2, 3);
    let y: Exact = Interval::of(-6, -3);
    let z: Exact = Interval::of(-1, 6);
    let square = squared_distance(x, y, z);
    assert_eq!(rt; square.lo, 13, "4 + 9 + 0");
    assert_eq!(rt; square.hi, 81, "9 + 36 + 36");
}

#[test]
fn values_moved_on(rt: HostRuntime) {
    // 100 + 3 * (5 * 10^17) / 10^18 is 101.5, and with -3 it is 98.5.
    let value = Exact { lo: 100, hi: 100 };
    let half = Exact {
        lo: 500_000_000_000_000_000,
        hi: 500_000_000_000_000_000,
    };
    for (rate, below) in [(3, 101), (-3, 98)] {
        let moved = advanced(value, Exact { lo: rate, hi: rate }, half);
        assert!(rt;
            moved.lo <= below && below < moved.hi,
            "{below} and the next"
        );
        assert!(rt; moved.hi <= moved.lo.saturating_add(4), "the width");
    }
}

#[test]
fn coarse_ends(rt: HostRuntime) {
    let x: Coarse = Interval::of(1, 65_537);
    assert_eq!(rt; x.lo(), 0, "rounded down");
    assert_eq!(rt; x.hi(), 131_072, "rounded up");
    let y: Coarse = Interval::of(-65_537, -1);
    assert_eq!(rt; y.lo(), -131_072, "rounded down");
    assert_eq!(rt; y.hi(), 0, "rounded up");
}

#[test]
fn coarse_meets(rt: HostRuntime) {
    let a: Coarse = Interval::of(0, 65_536);
    let shared: Coarse = Interval::of(65_536, 65_536);
    assert!(rt;
        a.meet(Interval::of(65_536, 65_537)) == Some(shared),
        "both hold 65536"
    );
    assert!(rt;
        a.meet(Interval::of(131_072, 131_073)) == None,
        "no number in both"
    );
}

#[test]
fn coarse_sums_and_hulls(rt: HostRuntime) {
    let a: Coarse = Interval::of(0, 65_536);
    let wide: Coarse = Interval::of(-65_536, 131_072);
    assert!(rt; a.add(a).sub(a) == wide, "sums and differences");
    let held = a.hull(Interval::of(-1, 65_537));
    assert!(rt; held == wide, "the hull");
}

#[test]
fn coarse_squares(rt: HostRuntime) {
    let x: Coarse = Interval::of(131_072, 196_608);
    assert!(rt; <Coarse as Interval>::root(x.square()) == x, "the roots");
}

/// Asserts that so many grains are the root of their square.
fn assert_root(rt: &impl Abort, grains: i64) {
    assert!(rt;
        0 <= grains && grains <= 2_147_483_647,
        "{grains} is in range"
    );
    let x: Coarse = Interval::of(grains * GRAIN, grains * GRAIN);
    assert!(rt;
        <Coarse as Interval>::root(x.square()) == x,
        "the root of {grains} squared"
    );
}

#[test]
fn coarse_roots(rt: HostRuntime) {
    for grains in [0, 1, 3, 32_768, 2_147_483_647] {
        assert_root(&rt, grains);
    }
}

#[test]
fn coarse_roots_past_squares(rt: HostRuntime) {
    // With one square of a grain more the root in um passes n grains, up to n = 32,767.
    let one: Coarse = Interval::of(GRAIN, GRAIN);
    let two_squares = <Coarse as Interval>::area_sum(one.square(), one.square());
    let past_one: Coarse = Interval::of(GRAIN, GRAIN + 1);
    assert!(rt;
        <Coarse as Interval>::root(two_squares) == past_one,
        "past 1 squared"
    );
    let last: Coarse = Interval::of(32_767 * GRAIN, 32_767 * GRAIN);
    let last_area = <Coarse as Interval>::area_sum(last.square(), one.square());
    let past_last: Coarse = Interval::of(32_767 * GRAIN, 32_767 * GRAIN + 1);
    assert!(rt;
        <Coarse as Interval>::root(last_area) == past_last,
        "past 32767 squared"
    );
    let next: Coarse = Interval::of(32_768 * GRAIN, 32_768 * GRAIN);
    let next_area = <Coarse as Interval>::area_sum(next.square(), one.square());
    assert!(rt;
        <Coarse as Interval>::root(next_area) == next,
        "past 32768 squared"
    );
    let second: Coarse = Interval::of(32_769 * GRAIN, 32_769 * GRAIN);
    let second_area = <Coarse as Interval>::area_sum(second.square(), one.square());
    assert!(rt;
        <Coarse as Interval>::root(second_area) == second,
        "past 32769 squared"
    );
}

#[test]
fn coarse_areas(rt: HostRuntime) {
    let x: Coarse = Interval::of(2 * GRAIN, 3 * GRAIN);
    let y: Coarse = Interval::of(-6 * GRAIN, -3 * GRAIN);
    let z: Coarse = Interval::of(-GRAIN, 6 * GRAIN);
    let square = squared_distance(x, y, z);
    // From 4 + 9 + 0 to 9 + 36 + 36 squares of a grain.
    let roots: Coarse = Interval::of(3 * GRAIN, 9 * GRAIN);
    assert!(rt; <Coarse as Interval>::root(square) == roots, "13 to 81");
    let four: Coarse = Interval::of(4 * GRAIN, 4 * GRAIN);
    let left = <Coarse as Interval>::area_less(square, four.square());
    let past_eight: Coarse = Interval::of(0, 8 * GRAIN + 1);
    assert!(rt;
        left.map(|area| <Coarse as Interval>::root(area)) == Some(past_eight),
        "0 to 65"
    );
    let ten: Coarse = Interval::of(10 * GRAIN, 10 * GRAIN);
    assert!(rt;
        <Coarse as Interval>::area_less(square, ten.square()) == None,
        "all differences are negative"
    );
}
