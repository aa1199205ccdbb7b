//! The costs of a search along a direction.

use crate::fixed::{ONE, cut, ratio};
use bound_directions::Direction;

/// The costs of x, y and z in a search for the furthest point, where the sum of cost times coordinate
/// is least: the direction turned round, with its longest component as one.
pub(crate) fn costs(direction: &Direction) -> [i64; 3] {
    let longest = direction.longest();
    [
        cost(direction.x, longest),
        cost(direction.y, longest),
        cost(direction.z, longest),
    ]
}

/// A component over the longest one, turned round, as a fixed-point number.
fn cost(component: i64, longest: u64) -> i64 {
    let scaled = i128::from(component).wrapping_mul(i128::from(ONE));
    cut(ratio(scaled, i128::from(longest))).wrapping_neg()
}
