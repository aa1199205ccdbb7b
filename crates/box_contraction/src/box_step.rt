//! The steps of a box, in a list.

use arrayvec::ArrayVec;
use grid_model::{Box3, Pos};
use sat_model::Step;

/// A step of a box, with the box or slab that it speaks of: for a cut the slab that it takes off,
/// for the last step what the cuts left of the box.
#[derive(Clone, Copy, Debug, PartialEq, Eq)]
pub struct BoxStep {
    pub step: Step,
    pub part: Box3,
}

/// What fills a list beyond its end: a box of one point.
impl Default for BoxStep {
    fn default() -> Self {
        let origin = Pos { x: 0, y: 0, z: 0 };
        BoxStep {
            step: Step::Outside { id: 0 },
            part: Box3 {
                lo: origin,
                hi: origin,
            },
        }
    }
}

/// All steps of one box, in order. It has at most 1,015, and a round over its six faces is begun
/// only where there is room for six more.
pub type BoxSteps = ArrayVec<BoxStep, 1024>;
