//! Directions around the middle of a box.

ghost use Rattle.grid_model.specs.Sizes.{IsBoxSize};

use crate::direction_vectors::VECTORS;
use bound_directions::{Azimuths, Direction, Directions};
use grid_model::{Box3, Pos};
use std::process::Abort;

/// The places of the directions of a row among those of sixteen azimuths.
const PLACES: [usize; 5] = [0, 1, 5, 4, 16];

const FARTHEST: i64 = 10_000_000_000_000;

fn number(rt: &impl Abort, field: Option<&str>) -> i64 {
    field.expect(rt, "a number").parse().expect(rt, "a number")
}

fn coordinate(rt: &impl Abort, field: Option<&str>) -> i64
    ensures { IsBoxSize result }
{
    let number = number(rt, field);
    assert!(rt; -FARTHEST <= number, "not too low");
    assert!(rt; number <= FARTHEST, "not too high");
    number
}

fn root(rt: &impl Abort, line: &str) -> Box3 {
    let mut fields = line.split(' ');
    let lo = Pos {
        x: coordinate(rt, fields.next()),
        y: coordinate(rt, fields.next()),
        z: coordinate(rt, fields.next()),
    };
    let hi = Pos {
        x: coordinate(rt, fields.next()),
        y: coordinate(rt, fields.next()),
        z: coordinate(rt, fields.next()),
    };
    assert!(rt; lo.x <= hi.x, "x ordered");
    assert!(rt; lo.y <= hi.y, "y ordered");
    assert!(rt; lo.z <= hi.z, "z ordered");
    Box3 { lo, hi }
}

fn components(rt: &impl Abort, directions: &[Direction], place: usize) -> (i64, i64, i64) {
    let direction = directions.get(place).expect(rt, "a direction");
    (direction.x, direction.y, direction.z)
}

#[test]
fn are_those_of_the_table(rt: HostRuntime) {
    assert_eq!(rt; VECTORS.lines().count(), 20, "rows");
    for line in VECTORS.lines() {
        let all = Directions::Azimuths(Azimuths::Sixteen).over(&root(&rt, line));
        let mut fields = line.split(' ').skip(6);
        for place in PLACES {
            let x = number(&rt, fields.next());
            let y = number(&rt, fields.next());
            let z = number(&rt, fields.next());
            assert_eq!(rt; components(&rt, &all, place), (x, y, z), "{line} {place}");
        }
    }
}

#[test]
fn opposites_stand_behind_and_fewer_are_among_them(rt: HostRuntime) {
    for line in VECTORS.lines() {
        let root = root(&rt, line);
        let all = Directions::Azimuths(Azimuths::Sixteen).over(&root);
        let eight = Directions::Azimuths(Azimuths::Eight).over(&root);
        let four = Directions::Azimuths(Azimuths::Four).over(&root);
        for place in 0..8 {
            let (x, y, z) = components(&rt, &all, place);
            let (a, b, c) = components(&rt, &all, place + 8);
            assert_eq!(rt;
                (x.checked_neg(), y.checked_neg(), z.checked_neg()),
                (Some(a), Some(b), Some(c))
            );
            let half = components(&rt, &eight, place);
            assert_eq!(rt; half, components(&rt, &all, 2 * place));
            let quarter = components(&rt, &four, place / 2);
            assert_eq!(rt; quarter, components(&rt, &all, 4 * (place / 2)));
        }
        for place in 0..2 {
            let upright = components(&rt, &all, 16 + place);
            assert_eq!(rt; components(&rt, &eight, 8 + place), upright);
            assert_eq!(rt; components(&rt, &four, 4 + place), upright);
        }
    }
}
