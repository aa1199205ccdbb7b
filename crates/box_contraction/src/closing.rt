//! The step that splits or closes a box.

ghost use Rattle.grid_model.specs.Boxes.{grid_box};
ghost use Rattle.sat_model.specs.BoxTests.{BoxTest, IsHull};
ghost use Rattle.sat_model.specs.Waiting.{Closes, IsUndecided};
ghost use Rattle.relaxed_meet.specs.BoxStates.{IsBoxState};

use grid_model::{Box3, Span};
use relaxed_meet::BoxState;
use sat_model::{Rules, Step};

/// What is done with a box of which a test shows this, after so many splits: it is closed outside
/// where it is shown empty, and inside where it is shown inner. Else it is split on its longest
/// axis, or closed at the edge where it is short enough or no split is left.
pub fn closing_step(rules: &Rules, splits: u32, id: u32, part: &Box3, state: &BoxState) -> Step
    ensures { (test : BoxTest) → IsBoxState test (grid_box part.now) state.now
        → Closes test rules.now splits id (grid_box part.now) result }
{
    match *state {
        BoxState::Empty => Step::Outside { id },
        BoxState::Inner { clock, hull } => Step::Inside {
            id,
            clock,
            lo: hull.lo,
            hi: hull.hi,
        },
        BoxState::Undecided { hull } => undecided_step(rules, splits, id, part, hull),
    }
}

/// The step for a box that is shown neither empty nor inner, with its clock hull.
fn undecided_step(rules: &Rules, splits: u32, id: u32, part: &Box3, hull: Span) -> Step
    ensures { (test : BoxTest) → IsUndecided test (grid_box part.now)
        → IsHull test (grid_box part.now) hull.lo hull.hi
        → Closes test rules.now splits id (grid_box part.now) result }
{
    let (axis, longest) = part.longest_axis();
    if longest as i64 > rules.width && splits < rules.bisections {
        Step::Split { id, axis }
    } else {
        let Span { lo, hi } = hull;
        Step::Edge { id, lo, hi }
    }
}
