//! The search box.

ghost use Rattle.std.specs.Prelude.{◌≡◌, ◌+ℤ◌, ◌-ℤ◌, ◌≤ℤ◌};
ghost use Rattle.grid_model.specs.Boxes.{grid_box};
ghost use Rattle.grid_model.specs.SearchBoxes.{IsSearchBox};
ghost use Rattle.grid_model.specs.Sizes.{IsWithin, IsBoxSize};
ghost use Rattle.error_bounds.specs.Reading.{box_around};
ghost use Rattle.error_bounds.specs.Sizes.{IsNearEarth, IsHalfSide, AreHalfSides};

use grid_model::{Box3, Pos};

/// The ends of a side around a coordinate.
fn side_around(centre: i64, half: i64) -> (i64, i64)
    requires near { IsWithin 8500000000000 centre }
    requires half_side { IsHalfSide half }
    ensures lo { result.0 ≡ centre -ℤ half }
    ensures hi { result.1 ≡ centre +ℤ half }
    ensures ordered { result.0 ≤ℤ result.1 }
    ensures lo_within { IsBoxSize result.0 }
    ensures hi_within { IsBoxSize result.1 }
{
    (centre - half, centre + half)
}

/// The box around a point.
pub fn box_around(centre: Pos, half: Pos) -> Box3
    requires near { IsNearEarth centre }
    requires half_within { AreHalfSides half }
    ensures value { grid_box result ≡ box_around centre half }
    ensures search_box { IsSearchBox (grid_box result) }
{
    let x = side_around(centre.x, half.x);
    let y = side_around(centre.y, half.y);
    let z = side_around(centre.z, half.z);
    Box3 {
        lo: Pos {
            x: x.0,
            y: y.0,
            z: z.0,
        },
        hi: Pos {
            x: x.1,
            y: y.1,
            z: z.1,
        },
    }
}
