//! The blocks of the epochs of an observation file, each over the box in which a walk searches it:
//! the rows of its satellites, with room at their ends, each block formed when the one before is
//! finished, and these rows formed anew for smaller boxes.
#![tactic(auto)]

mod blocks;
mod given;
mod lines;
mod maker;
mod source;
mod told;
mod walks;

pub use blocks::{EpochBlock, block};
pub use given::Given;
pub use maker::RowMaker;
pub use source::ObsBlocks;
pub use walks::HullWalk;
