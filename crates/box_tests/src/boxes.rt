//! The steps of one box.

ghost use Rattle.std.specs.Prelude.{◌≡◌, ◌<◌, ◌≤◌, length, ◌≤ℤ◌};
ghost use Rattle.grid_model.specs.Sizes.{IsBoxSize, IsErrorSize, IsPlaceSize};

use box_contraction::{BoxStep, BoxSteps, work_on};
use box_pool::Item;
use fix_interval::Exact;
use gnss_model::Sat;
use grid_model::{Box3, NoMemory, Pos, Span};
use range_contractor::relaxed_tree;
use relaxed_meet::BoxTest;
use sat_model::{Row, Rules, Step};
use std::alloc::Global;

/// The distance of the satellites from the origin, in um.
const FAR: i64 = 20_000_000_000_000;

const ON_X: Pos = Pos { x: FAR, y: 0, z: 0 };

const ON_Y: Pos = Pos { x: 0, y: FAR, z: 0 };

const ON_Z: Pos = Pos { x: 0, y: 0, z: FAR };

const OPPOSITE: Pos = Pos {
    x: -FAR,
    y: 0,
    z: 0,
};

/// The span of one number.
fn only(number: i64) -> Span
    ensures lo { result.lo ≡ number }
    ensures hi { result.hi ≡ number }
{
    Span {
        lo: number,
        hi: number,
    }
}

const HALF_METRE: Span = Span {
    lo: -500_000,
    hi: 500_000,
};

const FIVE_METRES: Span = Span {
    lo: -5_000_000,
    hi: 5_000_000,
};

const FIFTY_METRES: Span = Span {
    lo: -50_000_000,
    hi: 50_000_000,
};

/// The row of a satellite at this place, whose range is its distance from the origin.
fn row(number: u8, place: Pos, err: Span) -> Row
    requires place { IsPlaceSize place.x × IsPlaceSize place.y × IsPlaceSize place.z }
    requires err { IsErrorSize err.lo × IsErrorSize err.hi }
{
    Row {
        sat: Sat {
            system: b'G',
            number,
        },
        x: only(place.x),
        y: only(place.y),
        z: only(place.z),
        range: only(FAR),
        err,
        sure_lo: err.lo,
        sure_hi: err.hi,
    }
}

/// The box of these x, with y and z up to 1 m in amount.
fn slab(lo: i64, hi: i64) -> Box3
    requires ordered { lo ≤ℤ hi }
    requires sizes { IsBoxSize lo × IsBoxSize hi }
{
    Box3 {
        lo: Pos {
            x: lo,
            y: -1_000_000,
            z: -1_000_000,
        },
        hi: Pos {
            x: hi,
            y: 1_000_000,
            z: 1_000_000,
        },
    }
}

/// No row may be inconsistent, and no box is split.
const NO_SPLITS: Rules = Rules {
    outliers: 0,
    bisections: 0,
    width: 1_000_000,
    pairs: false,
};

/// The steps of box 0 with these rows.
fn worked_on(alloc: Global, rows: &[Row], part: &Box3) -> Result<BoxSteps, NoMemory>
    requires { (0 < length rows.now) × (length rows.now ≤ 64) }
{
    let tree = relaxed_tree::<Exact>(alloc, rows, 0)?;
    let mut test = BoxTest::new(rows, &NO_SPLITS);
    let first = Item { id: 0, part: *part };
    let mut steps = BoxSteps::new();
    work_on(&mut test, &NO_SPLITS, Some(&tree), 0, &first, &mut steps);
    Ok(steps)
}

/// The same with pairs of rows asked.
const BY_PAIRS: Rules = Rules {
    outliers: 0,
    bisections: 0,
    width: 1_000_000,
    pairs: true,
};

/// A cut of box 0, with the slab that it takes off.
fn cut(face: u8, bound: i64, part: Box3) -> BoxStep {
    BoxStep {
        step: Step::Cut { id: 0, face, bound },
        part,
    }
}

/// The errors of the satellites on the x axis let their clock spans meet in both rounds of eighths
/// at the middle of the box alone; the others leave every offset. The eighths are 2,000,000 and
/// 1,750,000 points thick.
fn two_on_x() -> [Row; 4]
    ensures { length result ≡ 4 }
{
    [
        row(1, ON_X, FIVE_METRES),
        row(2, ON_Y, FIFTY_METRES),
        row(3, ON_Z, FIFTY_METRES),
        row(5, OPPOSITE, FIVE_METRES),
    ]
}

#[test]
fn eighths_are_cut_until_a_round_cuts_none(rt: HostRuntime) -> Result<(), NoMemory> {
    let steps = worked_on(rt.alloc(), &two_on_x(), &slab(-8_000_000, 8_000_000))?;
    let edge = BoxStep {
        step: Step::Edge {
            id: 0,
            lo: -11_000_000,
            hi: 11_000_000,
        },
        part: slab(-6_000_000, 6_250_000),
    };
    let low = cut(0, -6_000_000, slab(-8_000_000, -6_000_001));
    let high = cut(1, 6_250_000, slab(6_250_001, 8_000_000));
    assert_eq!(rt; steps.as_slice(), [low, high, edge].as_slice());
    Ok(())
}

#[test]
fn a_box_without_fitting_points_is_closed_at_once(rt: HostRuntime) -> Result<(), NoMemory> {
    let part = slab(7_000_000, 8_000_000);
    let steps = worked_on(rt.alloc(), &two_on_x(), &part)?;
    let outside = BoxStep {
        step: Step::Outside { id: 0 },
        part,
    };
    assert_eq!(rt; steps.as_slice(), [outside].as_slice());
    Ok(())
}

/// The bounds that the box is cut at first, where they are at the faces of the x axis.
fn first_bounds(steps: &[BoxStep]) -> Option<(i64, i64)> {
    let first = steps.get(0)?;
    let second = steps.get(1)?;
    match (first.step, second.step) {
        (
            Step::Cut {
                face: 0,
                bound: low,
                ..
            },
            Step::Cut {
                face: 1,
                bound: high,
                ..
            },
        ) => Some((low, high)),
        _ => None,
    }
}

/// Of the satellites on the x axis the one leaves offsets from x - 5 m to x + 5 m, the other from
/// -x - 5 m to -x + 5 m, so x is from -5 m to 5 m. The box is cut once at each face of that axis, as
/// deep as the two are in conflict but for what is rounded.
#[test]
fn slabs_are_cut_off_as_deep_as_pairs_show_them(rt: HostRuntime) {
    let rows = two_on_x();
    let mut test = BoxTest::new(&rows, &BY_PAIRS);
    let first = Item {
        id: 0,
        part: slab(-9_000_000, 9_000_000),
    };
    let mut steps = BoxSteps::new();
    work_on::<Exact>(&mut test, &BY_PAIRS, None, 0, &first, &mut steps);
    assert_eq!(rt; steps.len(), 3);
    match first_bounds(steps.as_slice()) {
        Some((low, high)) => {
            assert!(rt; -5_000_020 <= low && low <= -5_000_000, "low face");
            assert!(rt; 5_000_000 <= high && high <= 5_000_020, "high face");
        }
        None => assert!(rt; false, "no cuts"),
    }
}

/// With errors of half a metre the satellites on y and z leave offsets up to 1.5 m, and so the
/// others x up to 2 m: less than an eighth of the box would leave.
#[test]
fn the_proposal_is_cut_to_first(rt: HostRuntime) -> Result<(), NoMemory> {
    let rows = [
        row(1, ON_X, HALF_METRE),
        row(2, ON_Y, HALF_METRE),
        row(3, ON_Z, HALF_METRE),
        row(5, OPPOSITE, HALF_METRE),
    ];
    let steps = worked_on(rt.alloc(), &rows, &slab(-8_000_000, 8_000_000))?;
    match first_bounds(steps.as_slice()) {
        Some((low, high)) => {
            assert!(rt; -2_000_020 <= low && low <= -2_000_001, "low face");
            assert!(rt; 2_000_000 <= high && high <= 2_000_020, "high face");
        }
        None => assert!(rt; false, "no cuts"),
    }
    Ok(())
}
