//! Laws of the steps of one box.

ghost use Rattle.std.specs.Prelude.{◌≡◌, ℕ, ◌<◌, ◌≤◌, ℤ, pos, ◌*ℤ◌, ◌≤ℤ◌, List, length, false};
ghost use Rattle.grid_model.specs.Boxes.{GridBox, grid_box};
ghost use Rattle.sat_model.specs.BoxTests.{BoxTest};
ghost use Rattle.sat_model.specs.Contractors.{LiesIn};
ghost use Rattle.sat_model.specs.Fold.{ShownStep};
ghost use Rattle.sat_model.specs.Waiting.{IsUndecided};
ghost use Rattle.grid_model.specs.declared.boxes.Box3.{Box3};
ghost use Rattle.sat_model.specs.declared.rules.Rules.{Rules};
ghost use Rattle.box_contraction.specs.BoxSteps.{AreBoxSteps, AreCutsOf};
ghost use Rattle.box_contraction.specs.Cuts.{NoneMayCut, all_faces};

/// The law: for every grain that an interval may have, and more rows than may be inconsistent, each
/// box has steps. The call does nothing.
pub fn box_steps_exist()
    ensures { (grain : ℤ) → (test : BoxTest) → (rules : Rules) → (splits : ℕ) → (id : ℕ)
        → (part : Box3) → pos 1 ≤ℤ grain → grain ≤ℤ pos 1048576 → test.q < length test.rows
        → (steps : List ShownStep) × AreBoxSteps grain (pos 16 *ℤ grain) test rules splits
        (record { id = id; part = grid_box part }) steps }
{}

/// The law: a box has at most 1,014 cuts, 6 by a proposal and 1,008 by eighths, and they leave a
/// part of it. If the rows don't decide that part and no pairs of them are asked, no eighth at its
/// faces is shown empty. The call does nothing.
pub fn cuts_leave_no_eighth()
    ensures few { (grain : ℤ) → (slack : ℤ) → (test : BoxTest) → (id : ℕ)
        → (part : Box3) → (cuts : List ShownStep) → (left : GridBox)
        → AreCutsOf grain slack test (record { id = id; part = grid_box part }) cuts left
        → length cuts ≤ 1014 }
    ensures inside { (grain : ℤ) → (slack : ℤ) → (test : BoxTest) → (id : ℕ)
        → (part : Box3) → (cuts : List ShownStep) → (left : GridBox)
        → AreCutsOf grain slack test (record { id = id; part = grid_box part }) cuts left
        → LiesIn left (grid_box part) }
    ensures none_left { (grain : ℤ) → (slack : ℤ) → (test : BoxTest) → (id : ℕ)
        → (part : Box3) → (cuts : List ShownStep) → (left : GridBox)
        → AreCutsOf grain slack test (record { id = id; part = grid_box part }) cuts left
        → test.pairs ≡ false → IsUndecided test left
        → NoneMayCut test all_faces left }
{}
