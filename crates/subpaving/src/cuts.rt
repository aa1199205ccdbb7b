//! Cuts: what a box loses at a face, and what it keeps.

ghost use Rattle.std.specs.Prelude.{◌≡◌, ◌↔◌, IsTrue};
ghost use Rattle.grid_model.specs.Boxes.{grid_box};
ghost use Rattle.sat_model.specs.Fold.{IsProperCut, left_by_cut, slab_of_cut};

use grid_model::Box3;

/// Whether a cut takes something off the box, and leaves something.
pub fn is_proper_cut(part: &Box3, face: u8, bound: i64) -> bool
    ensures { IsTrue result ↔ IsProperCut face bound (grid_box part.now) }
{
    let (lo, hi) = part.side(face / 2);
    if face % 2 == 0 {
        lo < bound && bound <= hi
    } else {
        lo <= bound && bound < hi
    }
}

/// The slab beyond the bound at a face, which a cut takes off.
pub fn slab_of(part: &Box3, face: u8, bound: i64) -> Box3
    requires { IsProperCut face bound (grid_box part.now) }
    ensures { grid_box result ≡ slab_of_cut face bound (grid_box part.now) }
{
    if face % 2 == 0 {
        part.up_to(face / 2, bound - 1)
    } else {
        part.from_on(face / 2, bound + 1)
    }
}

/// The rest of the box, which the cut leaves.
pub fn left_by(part: &Box3, face: u8, bound: i64) -> Box3
    requires { IsProperCut face bound (grid_box part.now) }
    ensures { grid_box result ≡ left_by_cut face bound (grid_box part.now) }
{
    if face % 2 == 0 {
        part.from_on(face / 2, bound)
    } else {
        part.up_to(face / 2, bound)
    }
}
