//! A box that waits, and the node that holds it.

use grid_model::Box3;

/// A box that was opened and not taken up yet, with its number in the log.
#[derive(Clone, Copy, Debug, PartialEq, Eq)]
pub struct Item {
    pub id: u32,
    pub part: Box3,
}

/// An item, and the place in the block of the node behind it in its queue. The last node of a queue
/// may name any place, since a queue counts its nodes.
#[derive(Clone, Copy, Debug, PartialEq, Eq)]
pub struct Node {
    pub(crate) item: Item,
    pub(crate) next: u32,
}
