//! Which boxes are far enough from the origin.

ghost use Rattle.std.specs.Prelude.{◌↔◌, ◌*◌, ◌^◌, IsTrue};
ghost use Rattle.grid_model.specs.Boxes.{grid_box};
ghost use Rattle.grid_model.specs.SearchBoxes.{IsFarFromOrigin};

use crate::lines::{place_of, squares_of};
use grid_model::Box3;

/// The square of 6,000 km, in um^2.
const LEAST_SQUARE: u128 = 36_000_000_000_000_000_000_000_000;

/// Whether each grid point of the box is at least 6,000 km from the origin, as `mapped` wants it.
pub fn is_far_from_origin(part: &Box3) -> bool
    ensures { IsTrue result ↔ IsFarFromOrigin (6 * 10 ^ 12) (grid_box part.now) }
{
    LEAST_SQUARE <= squares_of(place_of(part)).lo
}
