//! What the answers of an accepted log mean.

ghost use Rattle.std.specs.Prelude.{◌≡◌, true, ℤ, List, Option};
ghost use Rattle.grid_model.specs.Boxes.{GridBox, box_holds};
ghost use Rattle.sat_model.specs.Cover.{SomeKeeps};
ghost use Rattle.sat_model.specs.Fold.{ShownStep};
ghost use Rattle.grid_model.specs.declared.boxes.Pos.{Pos};
ghost use Rattle.paving_log.specs.CoverBoxes.{kept_parts};
ghost use Rattle.zone_guard.specs.Answers.{AreApart, AreParts};
ghost use Rattle.zone_guard.specs.Findings.{IsReached};
ghost use Rattle.zone_guard.specs.GroupAnswers.{AreOutOfAll, IsInOne, LieInOne};
ghost use Rattle.zone_guard.specs.Planes.{PlaneValue, IsInPrism, dot};
ghost use Rattle.zone_guard.specs.PrismAnswers.{AreShutOut, AreEnclosed};
ghost use Rattle.zone_guard.specs.Reaches.{IsReach};
ghost use Rattle.zone_guard.specs.declared.planes.Extent.{Extent};

/// The law: where the bounds leave nothing of the kept boxes in a zone, no point within the bounds
/// that one of the boxes keeps with any clock offset lies in it. So where the boxes cover what fits,
/// and the bounds hold it, nothing in the zone does. The call does nothing.
pub fn outside_is_out()
    ensures { (bounds : List PlaneValue) (zone : GridBox) (parts : List ShownStep) (p : Pos)
        (b : ℤ) → AreApart bounds zone (kept_parts parts) → box_holds zone p ≡ true
        → SomeKeeps p b parts → IsInPrism bounds p → ⊥ }
{}

/// The same for a prism.
pub fn prism_outside_is_out()
    ensures { (bounds sides : List PlaneValue) (parts : List ShownStep) (p : Pos) (b : ℤ)
        → AreShutOut bounds sides (kept_parts parts) → IsInPrism sides p → SomeKeeps p b parts
        → IsInPrism bounds p → ⊥ }
{}

/// The same for a group: no such point lies in any of its pieces.
pub fn group_outside_is_out()
    ensures { (bounds : List PlaneValue) (pieces : List (List PlaneValue))
        (parts : List ShownStep) (p : Pos) (b : ℤ) → AreOutOfAll bounds pieces (kept_parts parts)
        → IsInOne pieces p → SomeKeeps p b parts → IsInPrism bounds p → ⊥ }
{}

/// The law: where what the bounds leave of each kept box lies in a zone, each point within the bounds
/// that one of the boxes keeps does.
pub fn inside_is_in()
    ensures zone { (bounds : List PlaneValue) (zone : GridBox) (parts : List ShownStep) (p : Pos)
        (b : ℤ) → AreParts bounds zone (kept_parts parts) → SomeKeeps p b parts
        → IsInPrism bounds p → box_holds zone p ≡ true }
    ensures prism { (bounds sides : List PlaneValue) (parts : List ShownStep) (p : Pos) (b : ℤ)
        → AreEnclosed bounds sides (kept_parts parts) → SomeKeeps p b parts
        → IsInPrism bounds p → IsInPrism sides p }
{}

/// The same for a group, where it lies in one of the pieces for each box: each such point lies in one
/// of them.
pub fn group_inside_is_in()
    ensures { (bounds : List PlaneValue) (pieces : List (List PlaneValue))
        (parts : List ShownStep) (p : Pos) (b : ℤ) → LieInOne bounds pieces (kept_parts parts)
        → SomeKeeps p b parts → IsInPrism bounds p → IsInOne pieces p }
{}

/// The law: the product of a direction and a point that a kept box keeps lies between the ends of
/// the reach, which is there then.
pub fn reach_is_kept()
    ensures { (a : Pos) (found : Option Extent) (parts : List ShownStep) (p : Pos) (b : ℤ)
        → IsReach a (kept_parts parts) found → SomeKeeps p b parts → IsReached found (dot a p) }
{}
