//! What a line with a name says.

use crate::pieces::Sizes;
use crate::planes::Direction;
use arrayvec::ArrayString;
use grid_model::Box3;

/// What stands behind the name.
#[derive(Clone, Copy)]
pub enum OpeningKind {
    /// The corners of a box.
    Box(Box3),
    /// How many sides of a prism follow.
    Prism(u32),
    /// How many pieces follow, and how many sides of each.
    Group(Sizes),
    /// A direction.
    Reach(Direction),
}

/// A line with a name.
#[derive(Clone, Copy)]
pub struct Opening {
    pub name: ArrayString<16>,
    pub kind: OpeningKind,
}
