use crate::small_rows::{row, up_to};
use grid_model::{Box3, Pos};
use row_pairs::shown_empty_by_pairs;
use sat_model::Row;
use std::test::Fail;

/// The farthest place that a log may name, on each axis.
const FARTHEST: i64 = 60_000_000_000_000;

/// The greatest error.
const WIDEST: i64 = 1_000_000_000_000;

/// All boxes of the grid lie in it.
const WHOLE: Box3 = Box3 {
    lo: Pos {
        x: -10_000_000_000_000,
        y: -10_000_000_000_000,
        z: -10_000_000_000_000,
    },
    hi: Pos {
        x: 10_000_000_000_000,
        y: 10_000_000_000_000,
        z: 10_000_000_000_000,
    },
};

const HIGH: Pos = Pos {
    x: FARTHEST,
    y: FARTHEST,
    z: FARTHEST,
};

const LOW: Pos = Pos {
    x: -FARTHEST,
    y: -FARTHEST,
    z: -FARTHEST,
};

const ORIGIN: Pos = Pos { x: 0, y: 0, z: 0 };

// Two satellites at opposite corners, the ranges as far apart as they may be: the difference of the
// ranges to them is at most 3.5 * 10^13 um over the whole grid, and 1.2 * 10^14 um is measured.
#[test]
fn rows_at_the_ends_of_their_sizes(rt: HostRuntime) -> Result<(), Fail> {
    let far = row(1, HIGH, FARTHEST, up_to(0));
    let near = row(2, LOW, -FARTHEST, up_to(0));
    assert!(rt; shown_empty_by_pairs(&[far, near], &WHOLE, 0));
    assert!(rt; !shown_empty_by_pairs(&[far, near], &WHOLE, 1));
    assert!(rt; !shown_empty_by_pairs(&[far, near], &WHOLE, 255));
    let far = row(1, HIGH, FARTHEST, up_to(WIDEST));
    let near = row(2, LOW, -FARTHEST, up_to(WIDEST));
    assert!(rt; shown_empty_by_pairs(&[near, far], &WHOLE, 0));
    let same = row(3, LOW, FARTHEST, up_to(0));
    assert!(rt; !shown_empty_by_pairs(&[far, same], &WHOLE, 0));
    assert!(rt; !shown_empty_by_pairs(&[], &WHOLE, 0));
    Ok(())
}

// At a satellite's place v is 0, so A is 1. A range R leaves S b up to (R + 1) S, and from R S - S
// / 2: that of 1 um still meets that of 0, and that of 2 um doesn't.
#[test]
fn rows_of_a_satellite_in_the_box(rt: HostRuntime) -> Result<(), Fail> {
    let point = Box3 {
        lo: ORIGIN,
        hi: ORIGIN,
    };
    let here = row(1, ORIGIN, 0, up_to(0));
    let one = row(2, ORIGIN, 1, up_to(0));
    let two = row(3, ORIGIN, 2, up_to(0));
    assert!(rt; !shown_empty_by_pairs(&[here, one], &point, 0));
    assert!(rt; shown_empty_by_pairs(&[here, two], &point, 0));
    assert!(rt; !shown_empty_by_pairs(&[here, one, two], &point, 1));
    Ok(())
}

// Each of 56 rows conflicts with each of 8: without the eight no two are in conflict.
#[test]
fn as_many_rows_as_a_log_may_have(rt: HostRuntime) -> Result<(), Fail> {
    let mut rows: [Row; 64] = [row(1, HIGH, FARTHEST, up_to(0)); 64];
    let other = row(2, LOW, -FARTHEST, up_to(0));
    for place in 56..64_usize {
        rows[place] = other;
    }
    assert!(rt; shown_empty_by_pairs(&rows, &WHOLE, 7));
    assert!(rt; !shown_empty_by_pairs(&rows, &WHOLE, 8));
    Ok(())
}
