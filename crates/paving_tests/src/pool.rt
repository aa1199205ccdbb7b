//! A pool of as many boxes as may wait.

use box_pool::{Item, MAX_NODES, Pool};
use grid_model::{Box3, NoMemory, Pos};

const ORIGIN: Pos = Pos { x: 0, y: 0, z: 0 };

const PART: Box3 = Box3 {
    lo: ORIGIN,
    hi: ORIGIN,
};

#[test]
fn a_full_pool_gives_its_items_back_in_order(rt: HostRuntime) -> Result<(), NoMemory> {
    let mut pool = Pool::with_nodes(rt.alloc(), MAX_NODES)?;
    for id in 0..MAX_NODES {
        if pool.spare() > 0 {
            pool.push(37, Item { id, part: PART });
        }
    }
    assert_eq!(rt; pool.spare(), 0);
    for id in 0..MAX_NODES {
        assert_eq!(rt; pool.pop(37), Some(Item { id, part: PART }));
    }
    assert_eq!(rt; pool.pop(37), None);
    assert_eq!(rt; pool.spare(), MAX_NODES);
    Ok(())
}
