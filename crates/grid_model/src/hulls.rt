//! The hull of boxes: the least box that holds them all.

ghost use Rattle.std.specs.Prelude.{◌≡◌};
ghost use Rattle.std.specs.Int.{int_min, int_max};
ghost use Rattle.grid_model.specs.Boxes.{GridBox, grid_box, IsInside};
ghost use Rattle.grid_model.specs.Hulls.{joined_box};

use crate::boxes::{Box3, Pos};

/// The lesser one of the coordinates of two points, on each axis.
fn lesser(one: &Pos, other: &Pos) -> Pos
    ensures x { result.x ≡ int_min one.now.x other.now.x }
    ensures y { result.y ≡ int_min one.now.y other.now.y }
    ensures z { result.z ≡ int_min one.now.z other.now.z }
{
    Pos {
        x: one.x.min(other.x),
        y: one.y.min(other.y),
        z: one.z.min(other.z),
    }
}

/// The greater one of the coordinates of two points, on each axis.
fn greater(one: &Pos, other: &Pos) -> Pos
    ensures x { result.x ≡ int_max one.now.x other.now.x }
    ensures y { result.y ≡ int_max one.now.y other.now.y }
    ensures z { result.z ≡ int_max one.now.z other.now.z }
{
    Pos {
        x: one.x.max(other.x),
        y: one.y.max(other.y),
        z: one.z.max(other.z),
    }
}

impl Box3 {
    /// The hull of two boxes.
    pub fn hull(&self, other: &Box3) -> Box3
        ensures value { grid_box result ≡ joined_box (grid_box self.now) (grid_box other.now) }
        ensures first { IsInside (grid_box self.now) (grid_box result) }
        ensures second { IsInside (grid_box other.now) (grid_box result) }
        ensures least { (whole : GridBox) → IsInside (grid_box self.now) whole
            → IsInside (grid_box other.now) whole → IsInside (grid_box result) whole }
    {
        Box3 {
            lo: lesser(&self.lo, &other.lo),
            hi: greater(&self.hi, &other.hi),
        }
    }
}
