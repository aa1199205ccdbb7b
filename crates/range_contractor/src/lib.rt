//! Contractor trees (Chabert and Jaulin, 2009): the part of a box that satellites, each by itself,
//! all together, or all but a few, allow with the offsets of a clock span.
#![tactic(auto)]

mod boxes;
mod contraction;
mod hulls;
mod laws;
mod leaf;
mod meets;
mod ranges;
mod row_trees;
mod sides;
mod squares;
mod tree;

pub use contraction::contract;
pub use laws::trees_hold_rows;
pub use row_trees::{refresh, relaxed_tree};
pub use tree::{Leaf, Tree};
