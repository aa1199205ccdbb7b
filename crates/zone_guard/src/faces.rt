//! The faces of a box, as half-spaces behind which it lies.

ghost use Rattle.std.specs.Prelude.{◌≡◌, neg_ℤ};
ghost use Rattle.grid_model.specs.Boxes.{grid_box};
ghost use Rattle.grid_model.specs.Sizes.{IsBoxSize, IsWithin};
ghost use Rattle.zone_guard.specs.Answers.{faces, plane_on};
ghost use Rattle.zone_guard.specs.Planes.{plane_value, plane_values};

use crate::planes::{Direction, HalfSpace};
use grid_model::{Box3, Pos};

/// The half-space with a vector of ones and zeros.
fn face(x: i64, y: i64, z: i64, most: i64) -> HalfSpace
    requires x { IsWithin 1 x }
    requires y { IsWithin 1 y }
    requires z { IsWithin 1 z }
    requires most { IsBoxSize most }
    ensures { plane_value result ≡ plane_on x y z most }
{
    HalfSpace {
        along: Direction {
            vector: Pos { x, y, z },
        },
        most: i128::from(most),
    }
}

/// A coordinate turned.
fn turned(end: i64) -> i64
    requires { IsBoxSize end }
    ensures value { result ≡ neg_ℤ end }
    ensures bound { IsBoxSize result }
{
    -end
}

/// The six faces of a box.
pub fn faces(zone: &Box3) -> [HalfSpace; 6]
    ensures { plane_values result ≡ faces (grid_box zone.now) }
{
    [
        face(1, 0, 0, zone.hi.x),
        face(-1, 0, 0, turned(zone.lo.x)),
        face(0, 1, 0, zone.hi.y),
        face(0, -1, 0, turned(zone.lo.y)),
        face(0, 0, 1, zone.hi.z),
        face(0, 0, -1, turned(zone.lo.z)),
    ]
}
