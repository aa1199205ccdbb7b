//! Directions and half-spaces of the earth-fixed frame.

ghost use Rattle.log_tokens.specs.Fields.{IsPosWithin};
ghost use Rattle.zone_guard.specs.Limits.{IsLimit};

use grid_model::Pos;

/// A whole vector, each coordinate of at most 2^20 in amount.
#[derive(Clone, Copy, Debug, PartialEq, Eq)]
pub struct Direction {
    pub vector: Pos,
    pub ghost within: { IsPosWithin 1048576 vector },
}

/// The grid points whose product with a direction is at most `most`.
#[derive(Clone, Copy, Debug, PartialEq, Eq)]
pub struct HalfSpace {
    pub along: Direction,
    pub most: i128,
    pub ghost limit: { IsLimit most },
}

/// The same of any vector that two half-spaces give together.
#[derive(Clone, Copy, Debug, PartialEq, Eq)]
pub struct Plane {
    pub along: Pos,
    pub most: i128,
    pub ghost within: { IsPosWithin 2199023255552 along },
}

/// The least and the greatest product of a direction and the points of some boxes.
#[derive(Clone, Copy, Debug, PartialEq, Eq)]
pub struct Extent {
    pub least: i128,
    pub greatest: i128,
}
