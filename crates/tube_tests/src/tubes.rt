//! How far a receiver can come, and the roots and hulls of its epochs.

ghost use Rattle.std.specs.Prelude.{◌≤ℤ◌, pos};
ghost use Rattle.grid_model.specs.Boxes.{grid_box};
ghost use Rattle.grid_model.specs.Sizes.{IsBoxSize};
ghost use Rattle.subpaving.specs.Folding.{StepsFold};
ghost use Rattle.sat_model.specs.Fold.{first_boxes};

use grid_model::{Box3, NoMemory, Pos};
use moving_tube::{cover_hull, next_root, reach, root_behind};
use paving_log::{Body, LogEpoch};
use sat_model::Step;
use std::alloc::Global;
use std::test::Fail;
use step_lines::LoggedSteps;

/// Epoch 0 of 2024 in ps.
const THEN: i128 = 1_388_102_400_000_000_000_000;

/// The box with these half sides round the origin.
fn round_origin(x: i64, y: i64, z: i64) -> Box3
    requires some { (pos 0 ≤ℤ x) × (pos 0 ≤ℤ y) × (pos 0 ≤ℤ z) }
    requires sizes { IsBoxSize x × IsBoxSize y × IsBoxSize z }
{
    Box3 {
        lo: Pos {
            x: -x,
            y: -y,
            z: -z,
        },
        hi: Pos { x, y, z },
    }
}

#[test]
fn a_reach_is_rounded_up_and_no_more_than_400_km(rt: HostRuntime) -> Result<(), Fail> {
    assert_eq!(rt; reach(1_000, THEN, THEN + 30_000_000_000_000), 30_000_000);
    assert_eq!(rt; reach(1_000, THEN + 30_000_000_000_000, THEN), 30_000_000);
    assert_eq!(rt; reach(1, THEN, THEN + 1), 1);
    assert_eq!(rt; reach(1, THEN, THEN), 0);
    assert_eq!(rt; reach(0, THEN, THEN + 1), 0);
    assert_eq!(rt; reach(1_000_000, 0, 399_999_999_999_000), 399_999_999_999);
    assert_eq!(rt; reach(1_000_000, 0, 400_000_000_000_001), 400_000_000_000);
    assert_eq!(rt;
        reach(1_000_000, 0, 3_999_999_999_999_999_999_999),
        400_000_000_000
    );
    Ok(())
}

#[test]
fn the_next_root_is_grown_and_met_with_the_search_box(rt: HostRuntime) -> Result<(), Fail> {
    let cover = round_origin(1_000_000, 900_000, 900_000);
    let search = round_origin(50_000_000, 50_000_000, 50_000_000);
    let grown = round_origin(31_000_000, 30_900_000, 30_900_000);
    assert_eq!(rt; next_root(&cover, 30_000_000, &search), Some(grown));
    assert_eq!(rt; next_root(&cover, 0, &search), Some(cover));
    assert_eq!(rt; next_root(&cover, 400_000_000_000, &search), Some(search));
    let far = Box3 {
        lo: Pos {
            x: 50_000_003,
            y: 0,
            z: 0,
        },
        hi: Pos {
            x: 50_000_003,
            y: 0,
            z: 0,
        },
    };
    assert_eq!(rt; next_root(&far, 2, &search), None);
    let touching = Box3 {
        lo: Pos {
            x: 50_000_000,
            y: -3,
            z: -3,
        },
        hi: Pos {
            x: 50_000_000,
            y: 3,
            z: 3,
        },
    };
    assert_eq!(rt; next_root(&far, 3, &search), Some(touching));
    let end = round_origin(10_000_000_000_000, 0, 0);
    assert_eq!(rt; next_root(&end, 1, &end), Some(end));
    Ok(())
}

/// The hull of what an epoch keeps with this search box and these steps.
fn kept(alloc: Global, root: Box3, steps: &[Step]) -> Result<Option<Box3>, NoMemory>
    requires { StepsFold (first_boxes (grid_box root)) steps.now }
{
    let Some(steps) = LoggedSteps::from_slice(alloc, steps)? else {
        return Err(NoMemory);
    };
    let epoch = LogEpoch {
        line: 3,
        index: 1,
        ps: 0,
        n: 4,
        sats: Vec::new(alloc),
        body: Some(Body {
            root,
            steps,
            renewals: Vec::new(alloc),
            done: 0,
            bounds: Vec::new(alloc),
        }),
    };
    cover_hull(alloc, &epoch)
}

#[test]
fn a_box_that_is_kept_is_its_own_hull(rt: HostRuntime) -> Result<(), Fail> {
    let root = round_origin(1_000_000, 900_000, 900_000);
    let (id, lo, hi) = (0, -1_400_000, 1_400_000);
    assert_eq!(rt;
        kept(rt.alloc(), root, &[Step::Edge { id, lo, hi }])?,
        Some(root)
    );
    assert_eq!(rt; kept(rt.alloc(), root, &[Step::Outside { id }])?, None);
    Ok(())
}
