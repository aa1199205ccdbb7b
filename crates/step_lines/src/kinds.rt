//! The kinds of steps.

ghost use Rattle.std.specs.Prelude.{◌≡◌};
ghost use Rattle.sat_model.specs.StepKinds.{is_kept_step};

use sat_model::Step;

/// Whether a step closes a box inside or at the edge.
pub fn is_kept(step: &Step) -> bool
    ensures { result ≡ is_kept_step step.now }
{
    match step {
        Step::Cut { .. } => false,
        Step::Split { .. } => false,
        Step::Outside { .. } => false,
        Step::Inside { .. } => true,
        Step::Edge { .. } => true,
    }
}
