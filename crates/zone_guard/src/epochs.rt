//! What is found in each epoch of a log.

ghost use Rattle.std.specs.Prelude.{IfOk, map};
ghost use Rattle.std.specs.List.{AllByRecursion};
ghost use Rattle.grid_model.specs.Boxes.{grid_box};
ghost use Rattle.paving_log.specs.CoverBoxes.{BodyFolds};
ghost use Rattle.paving_log.specs.Values.{block_of, log_value};
ghost use Rattle.zone_guard.specs.EpochsFound.{AreFindings, IsEpochFound, AreEpochsFound};
ghost use Rattle.zone_guard.specs.Planes.{plane_values};
ghost use Rattle.zone_guard.specs.WatchValues.{watch_values};

use crate::bounds::bounds_in;
use crate::findings::found_in;
use crate::found::{EpochFindings, Finding};
use crate::planes::HalfSpace;
use crate::watch::Watch;
use grid_model::{Box3, NoMemory};
use paving_log::{Log, LogEpoch, cover_boxes};
use std::alloc::Global;

/// What these boxes within these bounds say of each zone and direction.
fn findings_in(
    alloc: Global,
    watches: &[Watch],
    bounds: &[HalfSpace],
    boxes: &[Box3],
) -> Result<Vec<Finding>, NoMemory>
    ensures { IfOk result (λ found. AreFindings (plane_values bounds.now) (map grid_box boxes.now)
        (watch_values watches.now) found.items) }
{
    let mut found: Vec<Finding> = Vec::new(alloc);
    for watch in watches {
        found.push(found_in(watch, bounds, boxes))?;
    }
    Ok(found)
}

/// What is found in an epoch.
fn epoch_findings(
    alloc: Global,
    watches: &[Watch],
    epoch: &LogEpoch,
) -> Result<EpochFindings, NoMemory>
    requires { BodyFolds (block_of epoch.now).body }
    ensures { IfOk result (IsEpochFound (watch_values watches.now) (block_of epoch.now)) }
{
    if epoch.is_few() {
        return Ok(EpochFindings {
            index: epoch.index,
            found: None,
        });
    }
    let bounds = bounds_in(alloc, epoch)?;
    let boxes = cover_boxes(alloc, epoch)?;
    let found = findings_in(alloc, watches, &bounds, &boxes)?;
    Ok(EpochFindings {
        index: epoch.index,
        found: Some(found),
    })
}

/// What is found in each epoch of a log whose steps fold, as those of a log that is judged to be
/// right do. Want of memory is the only error.
pub fn log_findings(
    alloc: Global,
    watches: &[Watch],
    log: &Log,
) -> Result<Vec<EpochFindings>, NoMemory>
    requires { AllByRecursion (λ block. BodyFolds block.body) (log_value log.now).blocks }
    ensures { IfOk result (λ found. AreEpochsFound (watch_values watches.now)
        (log_value log.now).blocks found.items) }
{
    let mut found: Vec<EpochFindings> = Vec::new(alloc);
    for epoch in &log.epochs {
        let here = epoch_findings(alloc, watches, epoch)?;
        found.push(here)?;
    }
    Ok(found)
}
