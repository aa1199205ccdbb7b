//! Nodes of the block, and the links between them.

ghost use Rattle.std.specs.Prelude.{◌≡◌, ◌<◌, ◌≤◌, Some, None, length, slice_set};
ghost use Rattle.box_pool.specs.Places.{IsFilled};
ghost use Rattle.box_pool.specs.Chains.{node, node_at, spare_behind};

use crate::block::{Base, Cells};
use crate::item::{Item, Node};
use crate::pool::MAX_NODES;

/// Puts an item into a spare node, and gives the place of the spare node behind it. The nodes from
/// `used` on hold nothing yet.
pub(crate) fn fill(
    cells: &mut Cells<Node>,
    base: Base<Node>,
    place: u32,
    used: u32,
    item: Item,
) -> u32
    requires at { base.ptr ≡ cells.old.at }
    requires inside { place < length cells.old.slots }
    requires few { length cells.old.slots ≤ MAX_NODES }
    requires filled { place < used → IsFilled cells.old.slots place }
    requires empty { used ≤ place → node_at cells.old.slots place ≡ None }
    ensures behind { result ≡ spare_behind (node_at cells.old.slots place) place }
    ensures at { cells.new.at ≡ cells.old.at }
    ensures slots { cells.new.slots ≡ slice_set cells.old.slots place (Some (node item 0)) }
{
    let behind = if place < used {
        cells.read(base, place as usize).next
    } else {
        place + 1
    };
    cells.write(base, place as usize, Node { item, next: 0 });
    behind
}

/// Links the node at a place to another place, and gives the node as it was.
pub(crate) fn relink(cells: &mut Cells<Node>, base: Base<Node>, place: u32, next: u32) -> Node
    requires at { base.ptr ≡ cells.old.at }
    requires filled { IsFilled cells.old.slots place }
    ensures was { node_at cells.old.slots place ≡ Some result }
    ensures at { cells.new.at ≡ cells.old.at }
    ensures slots { cells.new.slots
        ≡ slice_set cells.old.slots place (Some (node result.item next)) }
{
    let was = cells.read(base, place as usize);
    let item = was.item;
    cells.write(base, place as usize, Node { item, next });
    was
}
