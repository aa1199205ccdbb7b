//! Places turned with the earth.

ghost use Rattle.std.specs.Prelude.{◌≤ℤ◌};
ghost use Rattle.grid_model.specs.Sizes.{IsBoxSize};
ghost use Rattle.fix_interval.specs.Factors.{HasAmount};
ghost use Rattle.earth_rotation.specs.TurnSizes.{turn_reach};

use crate::turn_vectors::VECTORS;
use earth_rotation::turned;
use fix_interval::{Exact, Place};
use grid_model::{Box3, Pos};
use std::process::Abort;

const FARTHEST_CORNER: i64 = 9_000_000_000_000;

const LONGEST_SIDE: i64 = 1_000_000_000_000;

fn number(rt: &impl Abort, field: Option<&str>) -> i128 {
    field.expect(rt, "a number").parse().expect(rt, "a number")
}

fn short(rt: &impl Abort, field: Option<&str>) -> i64 {
    field.expect(rt, "a number").parse().expect(rt, "a number")
}

fn holds(x: Exact, n: i128) -> bool {
    x.lo <= n && n <= x.hi
}

/// The numbers from `at` up to 1,000 beyond it.
fn up_from(rt: &impl Abort, at: i128) -> Exact
    ensures { HasAmount turn_reach result }
{
    assert!(rt; -52_300_000_000_000 <= at, "not too far down");
    assert!(rt; at <= 52_299_999_999_000, "not too far up");
    Exact {
        lo: at,
        hi: at + 1_000,
    }
}

/// A number and the one `side` beyond it, which can be the ends of a box's side.
fn ends(rt: &impl Abort, n: i64, side: i64) -> (i64, i64)
    ensures ordered { result.0 ≤ℤ result.1 }
    ensures low_size { IsBoxSize result.0 }
    ensures high_size { IsBoxSize result.1 }
{
    assert!(rt; -FARTHEST_CORNER <= n, "not too far down");
    assert!(rt; n <= FARTHEST_CORNER, "not too far up");
    assert!(rt; 0 <= side, "a side");
    assert!(rt; side <= LONGEST_SIDE, "not too long a side");
    (n, n + side)
}

/// The points from a corner up to `side` beyond it on each axis.
fn cube(rt: &impl Abort, low: Pos, side: i64) -> Box3 {
    let x = ends(rt, low.x, side);
    let y = ends(rt, low.y, side);
    let z = ends(rt, low.z, side);
    Box3 {
        lo: Pos {
            x: x.0,
            y: y.0,
            z: z.0,
        },
        hi: Pos {
            x: x.1,
            y: y.1,
            z: z.1,
        },
    }
}

#[test]
fn a_satellite_overhead_turns_to_the_west(rt: HostRuntime) {
    let zero = Exact { lo: 0, hi: 0 };
    let overhead = Exact {
        lo: 27_040_000_000_000,
        hi: 27_040_000_000_000,
    };
    let place = Place {
        x: overhead,
        y: zero,
        z: zero,
    };
    let point = Pos {
        x: 6_378_137_000_000,
        y: 0,
        z: 0,
    };
    let seen = turned(place, &cube(&rt, point, 0));
    assert!(rt; holds(seen.y, -135_896_721), "136 m to the west");
    assert!(rt; -135_899_000 <= seen.y.lo, "no farther");
    assert!(rt; seen.y.hi <= -135_894_000, "no less far");
    assert!(rt; seen.z == zero, "the same z");
}

#[test]
fn places_seen_from_the_corners_of_a_cube(rt: HostRuntime) {
    assert_eq!(rt; VECTORS.lines().count(), 8, "rows");
    for line in VECTORS.lines() {
        let mut fields = line.split(' ');
        let place = Place {
            x: up_from(&rt, number(&rt, fields.next())),
            y: up_from(&rt, number(&rt, fields.next())),
            z: up_from(&rt, number(&rt, fields.next())),
        };
        let low = Pos {
            x: short(&rt, fields.next()),
            y: short(&rt, fields.next()),
            z: short(&rt, fields.next()),
        };
        let side = short(&rt, fields.next());
        let seen = turned(place, &cube(&rt, low, side));
        for corner in ["low", "high"] {
            let turned_x = number(&rt, fields.next());
            let turned_y = number(&rt, fields.next());
            assert!(rt;
                holds(seen.x, turned_x),
                "x {turned_x} from the {corner} corner"
            );
            assert!(rt;
                holds(seen.y, turned_y),
                "y {turned_y} from the {corner} corner"
            );
        }
        let widest = i128::from(2_000 + side.max(0) / 40_000);
        for at in [seen.x, seen.y, seen.z] {
            assert!(rt;
                at.hi <= at.lo.saturating_add(widest),
                "the width at {}",
                at.lo
            );
        }
    }
}
