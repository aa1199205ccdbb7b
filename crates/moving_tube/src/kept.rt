//! Where a receiver was in an epoch.

ghost use Rattle.log_tokens.specs.Fields.{IsTime};

use grid_model::Box3;

/// The time of an epoch, and the box in which the receiver was then; none where it is lost.
#[derive(Clone, Copy)]
pub struct Kept {
    pub tag: i128,
    pub part: Option<Box3>,
    pub ghost time: { IsTime tag },
}
