//! The bounds of an epoch, as half-spaces.

ghost use Rattle.std.specs.Prelude.{◌≡◌, IfOk, map};
ghost use Rattle.paving_log.specs.Values.{block_of, bound_value};
ghost use Rattle.zone_guard.specs.Bounds.{bound_plane, bound_planes, bounds_of};
ghost use Rattle.zone_guard.specs.Planes.{plane_value, plane_values};

use crate::planes::{Direction, HalfSpace};
use grid_model::{NoMemory, Pos};
use paving_log::{Bound, LogEpoch};
use std::alloc::Global;

/// The half-space of a bound.
fn half_space_of(bound: &Bound) -> HalfSpace
    ensures { plane_value result ≡ bound_plane (bound_value bound.now) }
{
    let vector = Pos {
        x: bound.half.x,
        y: bound.half.y,
        z: bound.half.z,
    };
    HalfSpace {
        along: Direction { vector },
        most: i128::from(bound.half.most),
    }
}

/// Those of some bounds.
fn half_spaces_of(alloc: Global, bounds: &[Bound]) -> Result<Vec<HalfSpace>, NoMemory>
    ensures { IfOk result (λ found. plane_values found.items
        ≡ bound_planes (map bound_value bounds.now)) }
{
    let mut found: Vec<HalfSpace> = Vec::new(alloc);
    for bound in bounds {
        found.push(half_space_of(bound))?;
    }
    Ok(found)
}

/// The bounds of an epoch, each of which holds what fits there; none where it isn't paved.
pub fn bounds_in(alloc: Global, epoch: &LogEpoch) -> Result<Vec<HalfSpace>, NoMemory>
    ensures { IfOk result (λ found. plane_values found.items
        ≡ bounds_of (block_of epoch.now).body) }
{
    match &epoch.body {
        Some(body) => half_spaces_of(alloc, &body.bounds),
        None => Ok(Vec::new(alloc)),
    }
}
