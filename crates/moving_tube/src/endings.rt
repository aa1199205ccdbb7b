//! What a log leaves for a track that goes on behind it.

ghost use Rattle.std.specs.Prelude.{◌≡◌, ◌↔◌, IfOk, IsTrue, Some, map, option_map, true};
ghost use Rattle.std.specs.List.{AllByRecursion};
ghost use Rattle.grid_model.specs.Boxes.{grid_box};
ghost use Rattle.log_tokens.specs.Fields.{IsTime};
ghost use Rattle.moving_tube.specs.Endings.{IsInsideOf, before_value, ending_of, last_paved, left_by};
ghost use Rattle.moving_tube.specs.Roots.{handed_on};
ghost use Rattle.paving_log.specs.CoverBoxes.{BodyFolds};
ghost use Rattle.paving_log.specs.Values.{block_of, log_value};
ghost use Rattle.subpaving.specs.LiveValues.{box_option};

use crate::hull::cover_hull;
use crate::kept::Kept;
use grid_model::{Box3, NoMemory};
use paving_log::{Log, LogEpoch};
use std::alloc::Global;
use subpaving::lies_in;

/// The last of these epochs that is paved.
fn last_paved(epochs: &[LogEpoch]) -> Option<&LogEpoch>
    ensures { option_map (λ epoch. block_of epoch.now) result
        ≡ last_paved (map block_of epochs.now) }
{
    let mut last = None;
    for epoch in epochs {
        if !epoch.is_few() {
            last = Some(epoch);
        }
    }
    last
}

/// What an epoch leaves that kept this: nothing, where it kept no box.
fn left_with(epoch: &LogEpoch, part: Option<Box3>) -> Option<Kept>
    requires { IsTime epoch.now.ps }
    ensures { before_value result ≡ handed_on true epoch.now.ps (box_option part) }
{
    match part {
        None => None,
        Some(_) => Some(Kept {
            tag: epoch.ps,
            part,
        }),
    }
}

/// What the log leaves for a track that goes on behind it: the time of its last paved epoch, and the
/// hull of the boxes that this one keeps; nothing, where it keeps none or no epoch is paved. Epochs
/// of few satellites behind it leave nothing of their own. The steps are to fold, as those of a log
/// that is judged to be right do. Want of memory is the only error.
pub fn ending(alloc: Global, log: &Log) -> Result<Option<Kept>, NoMemory>
    requires folds { AllByRecursion (λ block. BodyFolds block.body) (log_value log.now).blocks }
    requires times { AllByRecursion (λ block. IsTime block.ps) (log_value log.now).blocks }
    ensures { IfOk result (λ left. before_value left ≡ ending_of (log_value log.now).blocks) }
{
    let Some(epoch) = last_paved(&log.epochs) else {
        return Ok(None);
    };
    let part = cover_hull(alloc, epoch)?;
    Ok(left_with(epoch, part))
}

/// Whether what was left lies in the search box.
pub fn is_inside_of(search: &Box3, left: &Option<Kept>) -> bool
    ensures { IsTrue result ↔ IsInsideOf (grid_box search.now) (before_value left.now) }
{
    match left {
        Some(
            Kept {
                part: Some(part),
                ..
            },
        ) => lies_in(part, search),
        _ => true,
    }
}
