//! What is known of the block that was given last, by the hull of the boxes that it kept.

ghost use Rattle.std.specs.Prelude.{◌≡◌, List};
ghost use Rattle.epoch_rows.specs.EpochsLeft.{given_value, kept_told, lost_of, searches_behind, IsKept};
ghost use Rattle.epoch_rows.specs.Ready.{CanGoOn};
ghost use Rattle.grid_model.specs.Boxes.{grid_box};
ghost use Rattle.sat_model.specs.Logs.{Block};
ghost use Rattle.subpaving.specs.LiveValues.{box_option};

use crate::given::Given;
use epoch_selection::Walk;
use grid_model::Box3;

/// Where the receiver was in a block, whose boxes have this hull: in all of its root, where it has
/// few satellites.
fn part_of(given: &Given<'_>, kept: Option<Box3>) -> Option<Box3>
    ensures { box_option result
        ≡ kept_told given.now.few (grid_box given.now.root) (box_option kept) }
{
    if given.few { Some(given.root) } else { kept }
}

/// The walk that goes on behind the block before.
pub fn walk_behind<'a, W: Walk<'a>>(walk: W, given: Option<Given<'a>>, kept: Option<Box3>) -> W
    ensures epochs { W.epochs result ≡ W.epochs walk }
    ensures searches { (blocks : List Block) → W.searches result blocks
        ≡ searches_behind (W.searches walk) (W.behind walk) given.entry (box_option kept) blocks }
    ensures ready { CanGoOn (W.ready walk) (W.may_keep walk) given.entry
        → IsKept (given_value given.entry) (box_option kept) → W.ready result }
{
    match given {
        None => walk,
        Some(last) => {
            let mut next = walk;
            next.go_on(last.epoch, part_of(&last, kept));
            next
        }
    }
}

/// The number of the block before, where it kept no box and hasn't few satellites.
pub fn lost_at(given: Option<Given<'_>>, kept: Option<Box3>) -> Option<u32>
    ensures { result ≡ lost_of (given_value given.entry) (box_option kept) }
{
    let given = given?;
    match kept {
        None if !given.few => Some(given.epoch.index),
        _ => None,
    }
}
