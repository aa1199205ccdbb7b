//! Which directions an epoch has.

ghost use Rattle.std.specs.Prelude.{◌≡◌, ◌≤◌, length};

use crate::direction::Direction;
use crate::horizon::Horizon;
use arrayvec::ArrayVec;
use grid_model::Box3;
use std::alloc::AllocError;

/// How many azimuths there are, evenly from east.
#[derive(Clone, Copy, Debug, PartialEq, Eq)]
pub enum Azimuths {
    Four,
    Eight,
    Sixteen,
}

/// Along which directions bounds are sought.
#[derive(Drop)]
pub enum Directions {
    /// At the middle of an epoch's search box.
    Azimuths(Azimuths),
    /// The same in each epoch.
    Vectors(ArrayVec<Direction, 64>),
}

impl Directions {
    ghost use Rattle.bound_directions.specs.Directions.{IsDirectionsOf};

    /// The directions of an epoch with this root: those that are given, or so many azimuths evenly from
    /// east over north, and then up and down, in millionths, around the middle of the root. Of what
    /// the vectors of azimuths are nothing is promised.
    pub fn over(&self, root: &Box3) -> ArrayVec<Direction, 64>
        ensures { IsDirectionsOf self.now result.items }
    {
        match self {
            Directions::Azimuths(azimuths) => Horizon::around(root).all(*azimuths),
            Directions::Vectors(given) => copied(given.as_slice()),
        }
    }
}

impl Clone for Directions {
    ghost is_clone = { λ a b. b ≡ a };

    ghost is_infallible = { λ a. Unit {0} };

    fn clone(&self) -> Result<Self, AllocError> {
        Ok(match self {
            Directions::Azimuths(azimuths) => Directions::Azimuths(*azimuths),
            Directions::Vectors(given) => Directions::Vectors(copied(given.as_slice())),
        })
    }
}

/// The same directions.
pub(crate) fn copied(directions: &[Direction]) -> ArrayVec<Direction, 64>
    requires { length directions.now ≤ 64 }
    ensures { result.items ≡ directions.now }
{
    let mut copy: ArrayVec<Direction, 64> = ArrayVec::new();
    let _ = copy.try_extend_from_slice(directions);
    copy
}
