//! The first words of the lines of steps.

/// The kind of a step, as the first word of its line tells it.
#[derive(Clone, Copy, Debug, PartialEq, Eq)]
pub enum StepName {
    Cut,
    Split,
    Out,
    In,
    Edge,
}
