//! Trees of contractors.

use fix_interval::Interval;
use grid_model::{Box3, Span};

/// What one satellite says: spans of its place, of its corrected pseudorange and of the error, in
/// um. The ends of `x`, `y` and `z` are within 7 * 10^13 um in amount, the others have the sizes of
/// a `Row`.
#[derive(Clone, Copy, Drop)]
pub struct Leaf<I: Interval> {
    pub x: I,
    pub y: I,
    pub z: I,
    pub range: Span,
    pub err: Span,
}

/// A contractor made of others. A well-formed tree is at most 8 deep, and a list has 1 to 64 kids.
#[derive(Drop)]
pub enum Tree<I: Interval> {
    /// What one satellite allows.
    Sat(Leaf<I>),
    /// What all kids allow.
    All(Vec<Tree<I>>),
    /// What all kids but at most `q` allow. `q` is less than their number.
    Relaxed { q: u8, kids: Vec<Tree<I>> },
    /// What the kid allows, contracted 1 to 8 times.
    Again { rounds: u8, kid: Box<Tree<I>> },
    /// The points of a box.
    Within(Box3),
}
