//! Boxes that lie in other boxes.

ghost use Rattle.std.specs.Prelude.{◌↔◌, IsTrue};
ghost use Rattle.grid_model.specs.Boxes.{grid_box, side_at, IsSideInside, IsInside};

use grid_model::Box3;

/// Whether the side of the first box on an axis lies in that of the second.
fn lies_on(part: &Box3, whole: &Box3, axis: u8) -> bool
    ensures { IsTrue result
        ↔ IsSideInside (side_at axis (grid_box part.now)) (side_at axis (grid_box whole.now)) }
{
    let (low, high) = part.side(axis);
    let (whole_low, whole_high) = whole.side(axis);
    if whole_low > low {
        return false;
    }
    if high > whole_high {
        return false;
    }
    true
}

/// Whether the first box lies in the second.
pub fn lies_in(part: &Box3, whole: &Box3) -> bool
    ensures { IsTrue result ↔ IsInside (grid_box part.now) (grid_box whole.now) }
{
    lies_on(part, whole, 0) && lies_on(part, whole, 1) && lies_on(part, whole, 2)
}
