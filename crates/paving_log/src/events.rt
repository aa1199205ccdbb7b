//! The steps of an epoch and the renewals among them.

ghost use Rattle.paving_log.specs.Renewing.{AreAmong, AreAmong-prop};

use crate::renewal::Renewal;
use std::alloc::Global;
use step_lines::LoggedSteps;

/// The steps of an epoch, and the renewals among them.
#[derive(Debug, Drop)]
pub struct Events {
    pub steps: LoggedSteps,
    pub renewals: Vec<Renewal>,
    pub ghost places: { AreAmong steps renewals.items } by { AreAmong-prop steps renewals.items },
}

impl Events {
    ghost use Rattle.std.specs.Prelude.{◌≡◌, []};
    ghost use Rattle.paving_log.specs.EventValues.{events_of};

    /// No steps.
    pub fn new(alloc: Global) -> Events
        ensures { events_of result ≡ [] }
    {
        Events {
            steps: LoggedSteps::new(),
            renewals: Vec::new(alloc),
        }
    }
}
