//! What stands on a box that a test shows empty, by clock spans or by pairs.

ghost use Rattle.std.specs.Prelude.{◌≡◌, ◌⊎◌, ◌<◌, ℤ, true, length};
ghost use Rattle.grid_model.specs.declared.boxes.Pos.{Pos};
ghost use Rattle.grid_model.specs.Boxes.{grid_box, box_holds};
ghost use Rattle.sat_model.specs.BoxTests.{BoxTest, IsEmpty, IsInner};
ghost use Rattle.sat_model.specs.Fitting.{AllBut, IsPossible};

use grid_model::Box3;

/// At no point of a box that a test shows empty, with no offset, are all of its rows but at most q
/// possible.
pub fn nothing_fits(_part: &Box3)
    ensures { (test : BoxTest) → IsEmpty test (grid_box _part.now)
        → (p : Pos) (b : ℤ) → box_holds (grid_box _part.now) p ≡ true
        → AllBut test.q (IsPossible p b) test.rows → ⊥ }
{}

/// A box is shown empty or it isn't, and one that is shown inner isn't.
pub fn empty_or_not(_part: &Box3)
    ensures decided { (test : BoxTest) → test.q < length test.rows
        → IsEmpty test (grid_box _part.now) ⊎ (IsEmpty test (grid_box _part.now) → ⊥) }
    ensures inner { (test : BoxTest) (b : ℤ) → IsInner test (grid_box _part.now) b
        → IsEmpty test (grid_box _part.now) → ⊥ }
{}
