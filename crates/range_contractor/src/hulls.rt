//! The q-relaxed hulls of sides.

ghost use Rattle.std.specs.Prelude.{◌≡◌, ◌+◌, ◌≤◌, ◌++◌, ◌∷◌, [], length, map, IfSome, IsNone};
ghost use Rattle.std.specs.Prelude.{option_map};
ghost use Rattle.grid_model.specs.Boxes.{grid_box, side_at};
ghost use Rattle.sat_model.specs.Relaxed.{ends, IsRelaxedEmpty, IsRelaxedHull};
ghost use Rattle.sat_model.specs.Contractors.{sides_of};
ghost use Rattle.range_contractor.specs.Hulls.{AreInside, IsBoxOfHulls};

use crate::boxes::{box_of, side_of};
use arrayvec::ArrayVec;
use grid_model::{Box3, Span};
use relaxed_meet::relaxed;

/// The sides of boxes on one axis.
pub(crate) type Sides = ArrayVec<Span, 64>;

/// Adds the sides of one more box, if there is one, each to its list. Three lists for themselves
/// are cleared sooner than one value with all three.
pub(crate) fn add_sides(kept: Option<Box3>, x: &mut Sides, y: &mut Sides, z: &mut Sides)
    requires { (length x.old.items ≤ 63) × (length y.old.items ≤ 63) × (length z.old.items ≤ 63) }
    ensures x { map ends x.new.items
        ≡ map ends x.old.items ++ sides_of 0 (option_map grid_box kept ∷ []) }
    ensures y { map ends y.new.items
        ≡ map ends y.old.items ++ sides_of 1 (option_map grid_box kept ∷ []) }
    ensures z { map ends z.new.items
        ≡ map ends z.old.items ++ sides_of 2 (option_map grid_box kept ∷ []) }
    ensures few { (length x.new.items ≤ length x.old.items + 1)
        × (length y.new.items ≤ length y.old.items + 1)
        × (length z.new.items ≤ length z.old.items + 1) }
{
    match kept {
        Some(part) => {
            x.push(side_of(&part, 0));
            y.push(side_of(&part, 1));
            z.push(side_of(&part, 2));
        }
        None => {}
    }
}

/// The hull of the numbers in at least `need` of the spans.
fn hull_on(spans: &[Span], need: u8) -> Option<Span>
    requires { (1 ≤ need) × (length spans.now ≤ 64) }
    ensures none { IsNone result → IsRelaxedEmpty (map ends spans.now) need }
    ensures some { IfSome result (λ h. IsRelaxedHull (map ends spans.now) need h.lo h.hi) }
{
    if spans.len() < usize::from(need) {
        None
    } else {
        relaxed(spans, need)
    }
}

/// The box of the hulls on the three axes, each of which lies in the side of `part`.
pub(crate) fn hull_box(x: &Sides, y: &Sides, z: &Sides, part: &Box3, need: u8) -> Option<Box3>
    requires need { 1 ≤ need }
    requires few { (length x.now.items ≤ 64)
        × (length y.now.items ≤ 64)
        × (length z.now.items ≤ 64) }
    requires x_inside { AreInside (side_at 0 (grid_box part.now)) (map ends x.now.items) }
    requires y_inside { AreInside (side_at 1 (grid_box part.now)) (map ends y.now.items) }
    requires z_inside { AreInside (side_at 2 (grid_box part.now)) (map ends z.now.items) }
    ensures { IsBoxOfHulls (map ends x.now.items) (map ends y.now.items)
        (map ends z.now.items) need (option_map grid_box result) }
{
    let Some(x) = hull_on(x, need) else {
        return None;
    };
    let Some(y) = hull_on(y, need) else {
        return None;
    };
    let Some(z) = hull_on(z, need) else {
        return None;
    };
    Some(box_of(&x, &y, &z))
}
