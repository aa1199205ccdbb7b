//! What satellite rows show of a box: the clock offsets at which each may fit there, the q-relaxed
//! intersection of these spans (Drevelle and Bonnifait, 2011), and where a test asks for them the
//! conflicts of pairs of rows.
#![tactic(auto)]

mod bounds;
mod box_test;
mod clocks;
mod counts;
mod deciding;
mod distance;
mod extremes;
mod hull;
mod inner;
mod offsets;
mod separation;
mod shown;

pub use bounds::bounds_offsets;
pub use box_test::{BoxTest, Memory};
pub use clocks::{clock_span, inner_span};
pub use deciding::{Deciding, SlabTests};
pub use distance::{far_square_of, near_far, near_square_of};
pub use hull::relaxed;
pub use shown::{BoxState, box_state, clock_hull, shown_inner};
