//! Boxes that wait in 48 queues, over one block of memory that is taken once.
//!
//! A caller sees a pool as 48 lists of items and a number of spare nodes (`specs/Lists` and
//! `specs/Hulls`). The other files of `specs/` say how the nodes of the block are linked; no public
//! clause cites them.
#![tactic(auto)]

mod block;
mod hulls;
mod item;
mod links;
mod mask;
mod pool;

#[doc(hidden)]
pub use block::{Base, Cells, Deed};
pub use item::Item;
#[doc(hidden)]
pub use item::Node;
pub use pool::{MAX_NODES, Pool, QUEUES};
