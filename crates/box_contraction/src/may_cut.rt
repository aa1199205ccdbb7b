//! Whether a box may be cut at a bound.

ghost use Rattle.std.specs.Prelude.{◌≡◌, ◌↔◌, IsTrue};
ghost use Rattle.grid_model.specs.Boxes.{grid_box};
ghost use Rattle.relaxed_meet.specs.TestValues.{test_value};
ghost use Rattle.box_contraction.specs.Cuts.{MayCut};

use grid_model::Box3;
use relaxed_meet::BoxTest;
use subpaving::{is_proper_cut, slab_of};

/// Whether the box may be cut at a face: the bound, in um, lies inside it, and the slab beyond the
/// bound is shown empty. What decided the tests before changes no answer, but how soon it comes.
pub(crate) fn may_cut(test: &mut BoxTest, face: u8, bound: i64, part: &Box3) -> bool
    ensures may { IsTrue result ↔ MayCut (test_value test.old) face bound (grid_box part.now) }
    ensures same { test_value test.new ≡ test_value test.old }
{
    if !is_proper_cut(part, face, bound) {
        return false;
    }
    test.is_slab_empty(face, &slab_of(part, face, bound))
}
