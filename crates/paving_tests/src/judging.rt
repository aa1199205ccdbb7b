//! Small logs whose verdicts were worked out by hand.

ghost use Rattle.std.specs.Prelude.{◌≡◌, ◌≤◌, length};
ghost use Rattle.sat_model.specs.Logs.{lines_in};
ghost use Rattle.paving_log.specs.Values.{block_of};

use crate::small_rows::{
    FAR, cuboid, cut_of, edge, five_rows, four_rows, metre_row, row, rules, split, up_to,
};
use grid_model::{Box3, NoMemory, Pos, Span};
use paving_log::{Body, Log, LogEpoch};
use paving_log_check::{Fault, Verdict, judge};
use sat_model::{Row, Rules, SatEntry, Step};
use std::alloc::Global;
use std::test::Fail;
use step_lines::LoggedSteps;

fn yes(boxes: u64) -> Verdict {
    Verdict::Yes { boxes }
}

fn no(number: u8, line: u32) -> Verdict {
    Verdict::No(Fault {
        number,
        line,
        theirs: Span { lo: 0, hi: 0 },
        ours: Span { lo: 0, hi: 0 },
    })
}

/// What is expected of a log: how many boxes are closed inside or at the edge, or the number of its
/// first fault and the line.
type Want = Result<u64, (u8, u32)>;

fn verdict(want: Want) -> Verdict {
    match want {
        Ok(boxes) => yes(boxes),
        Err((number, line)) => no(number, line),
    }
}

/// The verdict on a log of one paved epoch, which has as many satellites as rows.
fn judged(
    alloc: Global,
    rules: Rules,
    rows: &[Row],
    root: Box3,
    steps: &[Step],
    done: u32,
) -> Result<Verdict, NoMemory>
    requires { (length rows.now ≤ 64) × (length steps.now ≤ 64) }
{
    let mut sats = Vec::new(alloc);
    for row in rows {
        sats.push(SatEntry::Row(*row))?;
    }
    let Some(steps) = LoggedSteps::from_slice(alloc, steps)? else {
        return Err(NoMemory);
    };
    let mut epochs = Vec::new(alloc);
    epochs.push(LogEpoch {
        line: 3,
        index: 1,
        ps: 1_388_102_400_000_000_000_000,
        n: rows.len() as u32,
        sats,
        body: Some(Body {
            root,
            steps,
            renewals: Vec::new(alloc),
            done,
            bounds: Vec::new(alloc),
        }),
    })?;
    let log = Log {
        version: 1,
        rules,
        epochs,
    };
    judge(alloc, &log)
}

fn inside(id: u32, clock: i64, lo: i64, hi: i64) -> Step {
    Step::Inside { id, clock, lo, hi }
}

const CLOSING: Step = Step::Edge {
    id: 0,
    lo: -1_400_000,
    hi: 1_400_000,
};

/// Steps of the cuboid, and what is expected of them.
static ONE_BOX: [(&[Step], Want); 10] = [
    (&[CLOSING], Ok(1)),
    (
        &[Step::Edge {
            id: 0,
            lo: -1_400_000,
            hi: 1_400_001,
        }],
        Ok(1),
    ),
    (&[], Err((63, 9))),
    (&[Step::Outside { id: 0 }], Err((58, 9))),
    (
        &[Step::Edge {
            id: 0,
            lo: -1_399_999,
            hi: 1_400_000,
        }],
        Err((60, 9)),
    ),
    (
        &[Step::Edge {
            id: 0,
            lo: -1_400_000,
            hi: 1_399_999,
        }],
        Err((60, 9)),
    ),
    (
        &[Step::Edge {
            id: 1,
            lo: 0,
            hi: 0,
        }],
        Err((56, 9)),
    ),
    (&[Step::Split { id: 1, axis: 0 }], Err((56, 9))),
    (&[CLOSING, CLOSING], Err((56, 10))),
    (&[Step::Split { id: 0, axis: 0 }], Err((62, 9))),
];

#[test]
fn judges_one_box(rt: HostRuntime) -> Result<(), Fail> {
    let rows = four_rows(FAR, up_to(500_000));
    for &(steps, want) in &ONE_BOX {
        assert!(rt; steps.len() <= 64);
        let found = judged(
            rt.alloc(),
            rules(0, 0, 1_000_000),
            &rows,
            cuboid(),
            steps,
            0,
        )?;
        assert_eq!(rt; found, verdict(want));
    }
    Ok(())
}

/// How many splits are allowed and the width, how many are told, and what is expected.
static HALVES: [(u32, i64, u32, Want); 4] = [
    (1, 1_000_000, 1, Ok(2)),
    (0, 1_000_000, 1, Err((62, 9))),
    (1, 3_000_000, 1, Err((61, 9))),
    (1, 1_000_000, 2, Err((64, 12))),
];

#[test]
fn judges_two_halves(rt: HostRuntime) -> Result<(), Fail> {
    let rows = four_rows(FAR, up_to(500_000));
    let steps = [
        split(0),
        edge(1, -1_400_000, 500_000),
        edge(2, -499_999, 1_400_000),
    ];
    for &(splits, width, done, want) in &HALVES {
        assert!(rt; splits <= 1);
        assert!(rt; 1_000_000 <= width);
        assert!(rt; width <= 3_000_000);
        let rules = rules(0, splits, width);
        let found = judged(rt.alloc(), rules, &rows, cuboid(), &steps, done)?;
        assert_eq!(rt; found, verdict(want));
    }
    Ok(())
}

/// The clock spans of the first satellite lie 10 m above those of the second and third.
#[test]
fn judges_an_empty_cover(rt: HostRuntime) -> Result<(), Fail> {
    let rows = four_rows(20_000_010_000_000, up_to(500_000));
    let steps = [Step::Outside { id: 0 }];
    let found = judged(
        rt.alloc(),
        rules(0, 0, 1_000_000),
        &rows,
        cuboid(),
        &steps,
        0,
    )?;
    assert_eq!(rt; found, yes(0));
    Ok(())
}

/// Less is sure of the first satellite than that its error is allowed. A box at the edge goes by
/// what is allowed, an inner one by what is sure.
#[test]
fn judges_unsure_rows(rt: HostRuntime) -> Result<(), Fail> {
    let [_, second, third, fourth] = four_rows(FAR, up_to(500_000));
    let rows = [metre_row(-400_000, 400_000), second, third, fourth];
    let steps = [edge(0, -1_400_000, 1_400_000)];
    let found = judged(
        rt.alloc(),
        rules(0, 0, 1_000_000),
        &rows,
        cuboid(),
        &steps,
        0,
    )?;
    assert_eq!(rt; found, yes(1));
    let [_, second, third, fourth, fifth] = five_rows(up_to(1_000_000));
    let first = metre_row(-999_999, 999_999);
    let rows = [first, second, third, fourth, fifth];
    let steps = [inside(0, 0, -1_900_000, 1_900_000)];
    let found = judged(
        rt.alloc(),
        rules(1, 0, 1_000_000),
        &rows,
        cuboid(),
        &steps,
        0,
    )?;
    assert_eq!(rt; found, no(59, 10));
    Ok(())
}

static CLOCKS: [(i64, Want); 2] = [(0, Ok(1)), (1, Err((59, 10)))];

/// One of five satellites may be inconsistent. All but the first fit everywhere at clock offset 0,
/// and at 1 only three of them.
#[test]
fn judges_an_inner_box(rt: HostRuntime) -> Result<(), Fail> {
    let rows = five_rows(up_to(1_000_000));
    for &(clock, want) in &CLOCKS {
        let steps = [inside(0, clock, -1_900_000, 1_900_000)];
        let found = judged(
            rt.alloc(),
            rules(1, 0, 1_000_000),
            &rows,
            cuboid(),
            &steps,
            0,
        )?;
        assert_eq!(rt; found, verdict(want));
    }
    Ok(())
}

/// A cut of a box at its low face on x, and what is expected.
static LOW_CUTS: [(u32, i64, Want); 5] = [
    (0, -6_000_000, Ok(1)),
    (0, -4_000_000, Err((57, 9))),
    (0, -8_000_000, Err((57, 9))),
    (0, 8_000_001, Err((57, 9))),
    (1, -6_000_000, Err((56, 9))),
];

/// Two satellites on either side of a long box leave nothing beyond 6 m, and 6.25 m, of its middle.
#[test]
fn judges_cuts(rt: HostRuntime) -> Result<(), Fail> {
    let low = Pos {
        x: -FAR,
        y: 0,
        z: 0,
    };
    let on_x = Pos { x: FAR, y: 0, z: 0 };
    let on_y = Pos { x: 0, y: FAR, z: 0 };
    let on_z = Pos { x: 0, y: 0, z: FAR };
    let rows = [
        row(1, on_x, FAR, up_to(5_000_000)),
        row(2, on_y, FAR, up_to(50_000_000)),
        row(3, on_z, FAR, up_to(50_000_000)),
        row(5, low, FAR, up_to(5_000_000)),
    ];
    let long = Box3 {
        lo: Pos {
            x: -8_000_000,
            y: -1_000_000,
            z: -1_000_000,
        },
        hi: Pos {
            x: 8_000_000,
            y: 1_000_000,
            z: 1_000_000,
        },
    };
    let high = cut_of(0, 1, 6_250_000);
    let closing = edge(0, -11_000_000, 11_000_000);
    for &(id, bound, want) in &LOW_CUTS {
        let steps = [cut_of(id, 0, bound), high, closing];
        let found = judged(rt.alloc(), rules(0, 0, 1_000_000), &rows, long, &steps, 0)?;
        assert_eq!(rt; found, verdict(want));
    }
    Ok(())
}

/// Four satellites are too few where one may be inconsistent, and one is named twice.
#[test]
fn judges_satellites(rt: HostRuntime) -> Result<(), Fail> {
    let rows = four_rows(FAR, up_to(500_000));
    let steps = [edge(0, -1_400_000, 1_400_000)];
    let found = judged(
        rt.alloc(),
        rules(1, 0, 1_000_000),
        &rows,
        cuboid(),
        &steps,
        0,
    )?;
    assert_eq!(rt; found, no(51, 3));
    let [first, _, third, fourth] = rows;
    let twice = [first, first, third, fourth];
    let found = judged(
        rt.alloc(),
        rules(0, 0, 1_000_000),
        &twice,
        cuboid(),
        &steps,
        0,
    )?;
    assert_eq!(rt; found, no(52, 5));
    Ok(())
}

/// A block of few satellites, four of them, without a line for any.
fn few(alloc: Global, line: u32, index: u32) -> LogEpoch
    ensures line { result.line ≡ line }
    ensures lines { lines_in (block_of result) ≡ 1 }
{
    LogEpoch {
        line,
        index,
        ps: 1_388_102_400_000_000_000_000,
        n: 4,
        sats: Vec::new(alloc),
        body: None,
    }
}

/// The verdict on a log of two such blocks with these indices.
fn judged_few(alloc: Global, rules: Rules, first: u32, second: u32) -> Result<Verdict, NoMemory> {
    let mut epochs = Vec::new(alloc);
    epochs.push(few(alloc, 3, first))?;
    epochs.push(few(alloc, 4, second))?;
    let log = Log {
        version: 1,
        rules,
        epochs,
    };
    judge(alloc, &log)
}

#[test]
fn judges_few_satellites(rt: HostRuntime) -> Result<(), Fail> {
    let one = rules(1, 0, 1_000_000);
    assert_eq!(rt; judged_few(rt.alloc(), one, 1, 2)?, yes(0));
    assert_eq!(rt; judged_few(rt.alloc(), one, 2, 2)?, no(51, 4));
    assert_eq!(rt;
        judged_few(rt.alloc(), rules(0, 0, 1_000_000), 1, 2)?,
        no(51, 3)
    );
    Ok(())
}
