//! The grid of gpscover and its whole numbers: points, boxes, spans and roots, and, in `specs/`,
//! how the reals' roots, quotients and sines are read in whole numbers.
//!
//! Lengths are whole numbers of micrometres (um).
#![tactic(auto)]

mod boxes;
mod hulls;
mod memory;
mod roots;
mod spans;

pub use boxes::{Box3, Pos};
pub use memory::NoMemory;
pub use roots::{root_u64, root_u128};
pub use spans::{Span, Wide};
