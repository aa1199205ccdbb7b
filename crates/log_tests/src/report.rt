use crate::logs::search_box;
use epoch_report::{Counts4, Line, epoch_text, metres, step_text, total_text};
use grid_model::{Box3, Pos};
use sat_model::Step;
use std::test::Fail;

/// Lengths in um, and their texts.
static LENGTHS: [(i64, &str); 8] = [
    (0, "0.000000"),
    (-1, "-0.000001"),
    (1, "0.000001"),
    (-999_999, "-0.999999"),
    (999_999, "0.999999"),
    (-1_000_000, "-1.000000"),
    (12_500_000, "12.500000"),
    (i64::MIN, "-9223372036854.775808"),
];

#[test]
fn lengths_have_a_sign_where_negative_and_six_decimals(rt: HostRuntime) -> Result<(), Fail> {
    for &(um, text) in &LENGTHS {
        assert_eq!(rt; &*metres(um), text);
    }
    Ok(())
}

/// Whether an epoch has too few satellites, its time in ps, how many they are, and its line.
static EPOCHS: [(bool, i128, u32, &str); 2] = [
    (
        false,
        1_388_102_400_000_000_000_000,
        4,
        "epoch 1 gps 1388102400.000000000000 satellites 4\n",
    ),
    (
        true,
        1_388_102_400_070_000_000_005,
        3,
        "epoch 1 gps 1388102400.070000000005 few 3\n",
    ),
];

#[test]
fn an_epoch_begins_with_its_time_in_seconds(rt: HostRuntime) -> Result<(), Fail> {
    for &(few, ps, n, text) in &EPOCHS {
        assert_eq!(rt; &*epoch_text(few, 1, ps, n), text);
    }
    Ok(())
}

/// What a cut takes off.
fn slab() -> Box3 {
    Box3 {
        lo: Pos {
            x: -8_000_000,
            y: -1_000_000,
            z: -1_000_000,
        },
        hi: Pos {
            x: -6_000_001,
            y: 1_000_000,
            z: 1_000_000,
        },
    }
}

/// Steps that close the search box, and their lines.
static CLOSING: [(Step, &str); 3] = [
    (
        Step::Edge {
            id: 0,
            lo: -1_400_000,
            hi: 1_400_000,
        },
        "edge -1.000000 1.000000 -0.900000 0.900000 -0.900000 0.900000 clock -1.400000 1.400000\n",
    ),
    (
        Step::Inside {
            id: 5,
            clock: -3,
            lo: -7,
            hi: 8,
        },
        "in -1.000000 1.000000 -0.900000 0.900000 -0.900000 0.900000 clock -0.000003\n",
    ),
    (
        Step::Outside { id: 2 },
        "out -1.000000 1.000000 -0.900000 0.900000 -0.900000 0.900000\n",
    ),
];

#[test]
fn a_step_is_told_by_the_box_that_it_closes_and_a_split_not(rt: HostRuntime) -> Result<(), Fail> {
    let part = search_box();
    for (step, text) in &CLOSING {
        let line = step_text(step, &part).unwrap_or(Line::new());
        assert_eq!(rt; &*line, *text);
    }
    let split = Step::Split { id: 0, axis: 1 };
    assert!(rt; step_text(&split, &part).is_none());
    Ok(())
}

#[test]
fn a_cut_is_told_by_its_slab(rt: HostRuntime) -> Result<(), Fail> {
    let cut = Step::Cut {
        id: 0,
        face: 0,
        bound: -6_000_000,
    };
    let line = step_text(&cut, &slab()).unwrap_or(Line::new());
    assert_eq!(rt;
        &*line,
        "out -8.000000 -6.000001 -1.000000 1.000000 -1.000000 1.000000\n"
    );
    Ok(())
}

/// Counts, and their lines.
static TOTALS: [(Counts4, &str); 2] = [
    (
        Counts4 {
            inside: 0,
            edge: 1,
            outside: 0,
            bisections: 0,
        },
        "total in 0 edge 1 out 0 bisections 0\n",
    ),
    (
        Counts4 {
            inside: 12,
            edge: 345,
            outside: 6,
            bisections: 4096,
        },
        "total in 12 edge 345 out 6 bisections 4096\n",
    ),
];

#[test]
fn a_total_counts_lines_and_splits(rt: HostRuntime) -> Result<(), Fail> {
    for (counts, text) in &TOTALS {
        assert_eq!(rt; &*total_text(counts), *text);
    }
    Ok(())
}
