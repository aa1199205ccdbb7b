//! What a file of zones names.

use crate::pieces::Group;
use crate::planes::{Direction, HalfSpace};
use arrayvec::ArrayString;
use grid_model::Box3;

/// What may have a name.
#[derive(Drop)]
pub enum Form {
    /// A zone: the grid points of a box.
    Box(Box3),
    /// A zone: the grid points that lie in each of some half-spaces.
    Prism(Vec<HalfSpace>),
    /// A zone: the grid points of each of some pieces, which are prisms.
    Group(Group),
    /// A direction, along which the reach of the boxes is told.
    Reach(Direction),
}

/// A zone or a direction with a name: 1 to 16 characters of a to z, 0 to 9 and `-`.
#[derive(Drop)]
pub struct Watch {
    pub name: ArrayString<16>,
    pub form: Form,
}

/// The zones and directions of a file, and whether it is of the second form, for which totals are
/// told behind the epochs.
#[derive(Drop)]
pub struct Watches {
    pub list: Vec<Watch>,
    pub is_second: bool,
}
