//! The hull of boxes: the least box round them.

ghost use Rattle.std.specs.Prelude.{List, [], ◌∷◌, ◌++◌, Some};
ghost use Rattle.box_pool.specs.Hulls.{IsHullOf};

use crate::item::Item;
use grid_model::Box3;

/// The hull of items and one more, from the hull of the items.
pub(crate) fn around(hull: Option<Box3>, item: &Item) -> Box3
    ensures { (items : List Item) → IsHullOf items hull
        → IsHullOf (items ++ item.now ∷ []) (Some result) }
{
    match hull {
        None => item.part,
        Some(so_far) => so_far.hull(&item.part),
    }
}
