//! How far the boxes that an epoch keeps reach along a direction.

ghost use Rattle.std.specs.Prelude.{◌≡◌, map};
ghost use Rattle.grid_model.specs.Boxes.{grid_box};
ghost use Rattle.zone_guard.specs.Corners.{grown};
ghost use Rattle.zone_guard.specs.Reaches.{IsReach};

use crate::corners::{greatest, least};
use crate::planes::{Direction, Extent};
use grid_model::Box3;

/// The extent of a box, and of those before it.
fn with_box(found: &Option<Extent>, along: &Direction, part: &Box3) -> Extent
    ensures { result ≡ grown found.now along.now.vector (grid_box part.now) }
{
    let low = least(&along.vector, part);
    let high = greatest(&along.vector, part);
    match found {
        None => Extent {
            least: low,
            greatest: high,
        },
        Some(before) => Extent {
            least: before.least.min(low),
            greatest: before.greatest.max(high),
        },
    }
}

/// How far these boxes reach along the direction.
pub fn reach_along(along: &Direction, boxes: &[Box3]) -> Option<Extent>
    ensures { IsReach along.now.vector (map grid_box boxes.now) result }
{
    let mut found = None;
    for part in boxes {
        found = Some(with_box(&found, along, part));
    }
    found
}
