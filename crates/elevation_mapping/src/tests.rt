ghost use Rattle.std.specs.Prelude.{◌*◌, ◌+◌, ◌^◌, ◌≤◌, ◌≤ℤ◌, IsTrue};
ghost use Rattle.grid_model.specs.Boxes.{grid_box};
ghost use Rattle.grid_model.specs.Lengths.{spare_of};
ghost use Rattle.grid_model.specs.Sizes.{IsBoxSize};
ghost use Rattle.fix_interval.specs.Factors.{HasEnds};
ghost use Rattle.fix_interval.specs.Places.{PlaceEnds, PlaceAmount};
ghost use Rattle.elevation_mapping.specs.Places.{IsFarFromPlace};
ghost use Rattle.elevation_mapping.specs.MappingSizes.{turned_reach};

use crate::lines::{offsets, place_of, squares_of};
use crate::vectors::VECTORS;
use crate::{is_far_from_origin, mapped, mapped_delay};
use fix_interval::{Exact, Place};
use gnss_model::{Delays, Layer, err_spare, spare};
use grid_model::{Box3, Pos, Span};
use std::process::Abort;

const FARTHEST_CORNER: i64 = 9_000_000_000_000;

const LONGEST_SIDE: i64 = 200_000_000_000;

/// The square of 5,000 km, in um^2.
const LEAST_SQUARE: u128 = 25_000_000_000_000_000_000_000_000;

/// By how much the equations may differ from the mapping, in 10^-16: they cut lengths off to whole
/// um, and the vectors don't.
const CUT_OFF: i128 = 10_000;

fn number(rt: &impl Abort, field: Option<&str>) -> i128 {
    field.expect(rt, "a number").parse().expect(rt, "a number")
}

fn short(rt: &impl Abort, field: Option<&str>) -> i64 {
    field.expect(rt, "a number").parse().expect(rt, "a number")
}

/// A number and the one `side` beyond it, which can be the ends of a box's side.
fn ends(rt: &impl Abort, n: i64, side: i64) -> (i64, i64)
    ensures ordered { result.0 ≤ℤ result.1 }
    ensures low_size { IsBoxSize result.0 }
    ensures high_size { IsBoxSize result.1 }
{
    assert!(rt; -FARTHEST_CORNER <= n, "not too far down");
    assert!(rt; n <= FARTHEST_CORNER, "not too far up");
    assert!(rt; 0 <= side, "a side");
    assert!(rt; side <= LONGEST_SIDE, "not too long a side");
    (n, n + side)
}

/// The points from a corner up to `side` beyond it on each axis.
fn cube(rt: &impl Abort, low: Pos, side: i64) -> Box3 {
    let x = ends(rt, low.x, side);
    let y = ends(rt, low.y, side);
    let z = ends(rt, low.z, side);
    Box3 {
        lo: Pos {
            x: x.0,
            y: y.0,
            z: z.0,
        },
        hi: Pos {
            x: x.1,
            y: y.1,
            z: z.1,
        },
    }
}

/// The numbers from `at` up to the width of a turned place beyond it.
fn up_from(rt: &impl Abort, at: i128, part: &Box3) -> Exact
    ensures { HasEnds turned_reach (spare_of (grid_box part.now)) result }
{
    assert!(rt; -60_000_000_000_000 <= at, "not too far down");
    assert!(rt; at <= 60_000_000_000_000, "not too far up");
    let by = spare(part);
    assert!(rt; by <= 1_000_000_000_000, "not too wide");
    Exact {
        lo: at,
        hi: at + i128::from(by),
    }
}

/// Whether each grid point of the box is at least 5,000 km from each point of the place.
fn is_far_from_place(turned: Place, part: &Box3) -> bool
    requires { PlaceAmount turned_reach turned }
    ensures { IsTrue result → IsFarFromPlace (5 * 10 ^ 12) turned (grid_box part.now) }
{
    LEAST_SQUARE <= squares_of(offsets(turned, place_of(part))).lo
}

/// The mapping, where its conditions hold.
fn mapped_from(rt: &impl Abort, place: Place, part: &Box3, layer: Layer) -> Exact
    requires { PlaceEnds turned_reach (spare_of (grid_box part.now)) place }
{
    let (_, side) = part.longest_axis();
    assert!(rt; side <= 200_000_000_000, "not too long a side");
    assert!(rt; is_far_from_origin(part), "far from the origin");
    assert!(rt; is_far_from_place(place, part), "far from the place");
    mapped(place, part, layer)
}

/// That the mapping holds an exact factor, but for what the equations cut off.
fn holds_factor(rt: &impl Abort, found: Exact, exact: i128, corner: &str) {
    assert!(rt;
        found.lo.saturating_sub(CUT_OFF) <= exact,
        "{exact} at the {corner} corner"
    );
    assert!(rt;
        exact <= found.hi.saturating_add(CUT_OFF),
        "{exact} at the {corner} corner"
    );
}

fn width_of(found: Exact) -> i128 {
    found.hi.saturating_sub(found.lo)
}

#[test]
fn a_satellite_on_the_horizon(rt: HostRuntime) {
    let place = Place {
        x: Exact {
            lo: 6_378_137_000_000,
            hi: 6_378_137_000_000,
        },
        y: Exact {
            lo: 20_000_000_000_000,
            hi: 20_000_000_000_000,
        },
        z: Exact { lo: 0, hi: 0 },
    };
    let point = Pos {
        x: 6_378_137_000_000,
        y: 0,
        z: 0,
    };
    let part = Box3 {
        lo: point,
        hi: point,
    };
    let found = mapped(place, &part, Layer::Troposphere);
    assert!(rt; 223_773_000_000_000_000 <= found.lo, "no less");
    assert!(rt; found.hi <= 223_776_000_000_000_000, "no more");
}

#[test]
fn places_seen_from_the_corners_of_a_cube(rt: HostRuntime) {
    assert_eq!(rt; VECTORS.lines().count(), 7, "rows");
    for line in VECTORS.lines() {
        let mut fields = line.split(' ');
        let low = Pos {
            x: short(&rt, fields.next()),
            y: short(&rt, fields.next()),
            z: short(&rt, fields.next()),
        };
        let side = short(&rt, fields.next());
        let part = cube(&rt, low, side);
        let place = Place {
            x: up_from(&rt, number(&rt, fields.next()), &part),
            y: up_from(&rt, number(&rt, fields.next()), &part),
            z: up_from(&rt, number(&rt, fields.next()), &part),
        };
        let side = i128::from(side.max(0));
        let near = mapped_from(&rt, place, &part, Layer::Troposphere);
        for corner in ["low", "high"] {
            holds_factor(&rt, near, number(&rt, fields.next()), corner);
        }
        assert!(rt;
            width_of(near) <= 100_000_000_000 + 10_000_000 * side / 3,
            "the width"
        );
        let far = mapped_from(&rt, place, &part, Layer::Ionosphere);
        for corner in ["low", "high"] {
            holds_factor(&rt, far, number(&rt, fields.next()), corner);
        }
        assert!(rt;
            width_of(far) <= 100_000_000_000 + 10_000_000 * side / 175,
            "its width"
        );
    }
}

#[test]
fn spare_of_a_root_of_2_km(rt: HostRuntime) {
    let root = Box3 {
        lo: Pos {
            x: 6_377_137_000_000,
            y: 0,
            z: 0,
        },
        hi: Pos {
            x: 6_379_137_000_000,
            y: 5,
            z: 7,
        },
    };
    let none = Delays {
        zenith: None,
        vertical: None,
    };
    assert_eq!(rt; err_spare(&root, none), 0, "without a delay");
    let zenith = Some(Span {
        lo: -2_500_000,
        hi: 2_000_000,
    });
    assert_eq!(rt;
        err_spare(&root, Delays { zenith, ..none }),
        1_668_666,
        "of the troposphere"
    );
    let vertical = Some(Span {
        lo: 0,
        hi: 35_000_000,
    });
    // 2,000 and 35 * 10^6 * 2 * 10^9 / (175 * 10^9)
    assert_eq!(rt;
        err_spare(&root, Delays { vertical, ..none }),
        402_000,
        "of the ionosphere"
    );
    assert_eq!(rt;
        err_spare(&root, Delays { zenith, vertical }),
        2_070_666,
        "of both"
    );
}

#[test]
fn delay_at_the_zenith(rt: HostRuntime) {
    let mapping = Exact {
        lo: 9_999_999_999_999_998,
        hi: 10_000_000_000_000_003,
    };
    let found = mapped_delay(2_000_000, mapping);
    assert!(rt; found.lo <= 1_999_999, "one unit less");
    assert!(rt; 2_000_001 <= found.hi, "one unit more");
}
