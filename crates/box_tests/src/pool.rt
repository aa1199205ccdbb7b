//! The pool's calls in turn, and the memory that it gives back.

use box_pool::{Item, MAX_NODES, Pool};
use grid_model::{Box3, NoMemory, Pos};
use std::fs;

/// The items of a pool.
#[derive(Clone, Copy)]
enum Named {
    A,
    B,
}

/// A call of the pool, and its answer. The hull is that of these items.
#[derive(Clone, Copy)]
enum Call {
    Push(u8, Named),
    Pop(u8, Option<Named>),
    Spare(u32),
    Greatest(Option<u8>),
    NoHull,
    HullOfA,
    HullOfBoth,
}

const FAR_WEST: Box3 = Box3 {
    lo: Pos { x: -10, y: 0, z: 2 },
    hi: Pos { x: -7, y: 3, z: 5 },
};

const EAST: Box3 = Box3 {
    lo: Pos { x: 0, y: 1, z: 0 },
    hi: Pos { x: 40, y: 2, z: 6 },
};

const BOTH: Box3 = Box3 {
    lo: Pos { x: -10, y: 0, z: 0 },
    hi: Pos { x: 40, y: 3, z: 6 },
};

const A: Item = Item {
    id: 1,
    part: FAR_WEST,
};

const B: Item = Item { id: 2, part: EAST };

/// Calls of a pool with two nodes, one after another.
static CALLS: [Call; 21] = [
    Call::Greatest(None),
    Call::NoHull,
    // The first node is given back, and used again before the second one is.
    Call::Push(0, Named::B),
    Call::Pop(0, Some(Named::B)),
    Call::Spare(2),
    Call::Push(5, Named::A),
    Call::Push(9, Named::B),
    Call::Spare(0),
    Call::Greatest(Some(9)),
    Call::HullOfBoth,
    Call::Pop(9, Some(Named::B)),
    Call::Pop(9, None),
    Call::HullOfA,
    Call::Pop(5, Some(Named::A)),
    Call::Greatest(None),
    Call::NoHull,
    Call::Spare(2),
    // A queue gives back its items in their order.
    Call::Push(47, Named::B),
    Call::Push(47, Named::A),
    Call::Pop(47, Some(Named::B)),
    Call::Pop(47, Some(Named::A)),
];

/// The item of a name.
fn item_of(name: Named) -> Item {
    match name {
        Named::A => A,
        Named::B => B,
    }
}

#[test]
fn two_nodes(rt: HostRuntime) -> Result<(), NoMemory> {
    let mut pool = Pool::with_nodes(rt.alloc(), 2)?;
    for (step, call) in CALLS.iter().enumerate() {
        match *call {
            Call::Push(bucket, name) => {
                assert!(rt; bucket < 48 && pool.spare() > 0, "{step}");
                if bucket < 48 && pool.spare() > 0 {
                    pool.push(bucket, item_of(name));
                }
            }
            Call::Pop(bucket, name) => {
                assert!(rt; bucket < 48, "{step}");
                assert_eq!(rt; pool.pop(bucket), name.map(item_of), "{step}");
            }
            Call::Spare(nodes) => assert_eq!(rt; pool.spare(), nodes, "{step}"),
            Call::Greatest(bucket) => assert_eq!(rt; pool.greatest(), bucket, "{step}"),
            Call::NoHull => assert_eq!(rt; pool.hull(), None, "{step}"),
            Call::HullOfA => assert_eq!(rt; pool.hull(), Some(FAR_WEST), "{step}"),
            Call::HullOfBoth => assert_eq!(rt; pool.hull(), Some(BOTH), "{step}"),
        }
    }
    Ok(())
}

/// The fields of the process's pages: all that it has, and those that it wrote or read.
const ALL: usize = 0;

const RESIDENT: usize = 1;

/// How many pages of memory the process has.
fn pages(rt: HostRuntime, field: usize) -> Option<u64> {
    let text = fs::read_to_string(&rt, "/proc/self/statm").ok()?;
    text.split(' ').nth(field)?.parse::<u64>().ok()
}

/// A block that stayed would be 3,000 pages and more.
#[test]
fn the_block_is_given_back(rt: HostRuntime) -> Result<(), NoMemory> {
    let _first = Pool::with_nodes(rt.alloc(), MAX_NODES)?;
    let before = pages(rt, ALL);
    for _ in 0..20 {
        let mut pool = Pool::with_nodes(rt.alloc(), MAX_NODES)?;
        pool.push(37, A);
    }
    let after = pages(rt, ALL);
    assert!(rt; before.is_some() && after.is_some());
    if let (Some(before), Some(after)) = (before, after) {
        assert!(rt; after.saturating_sub(before) < 10_000, "{before} {after}");
    }
    Ok(())
}

/// The nodes of a pool, all written, would be 3,000 pages and more.
#[test]
fn unused_nodes_stay_unwritten(rt: HostRuntime) -> Result<(), NoMemory> {
    let before = pages(rt, RESIDENT);
    let mut pool = Pool::with_nodes(rt.alloc(), MAX_NODES)?;
    pool.push(37, A);
    let after = pages(rt, RESIDENT);
    assert!(rt; before.is_some() && after.is_some());
    if let (Some(before), Some(after)) = (before, after) {
        assert!(rt; after.saturating_sub(before) < 500, "{before} {after}");
    }
    Ok(())
}
