//! The codes that are wanted of the systems.

use gnss_model::Signal;

/// The wanted codes of GPS, and where its satellites are read too those of Galileo.
#[derive(Clone, Copy, Debug, PartialEq, Eq)]
pub struct Sought {
    pub gps: Signal,
    pub galileo: Option<Signal>,
}

impl Sought {
    ghost use Rattle.std.specs.Prelude.{◌≡◌};
    ghost use Rattle.rinex_obs.specs.Header.{are_both};
    ghost use Rattle.rinex_obs.specs.Files.{alone};

    /// Those of GPS alone.
    pub fn alone(gps: Signal) -> Sought
        ensures { result ≡ alone gps }
    {
        Sought { gps, galileo: None }
    }

    /// Whether the satellites of both systems are read.
    pub fn are_both(&self) -> bool
        ensures { result ≡ are_both self.now }
    {
        self.galileo.is_some()
    }
}
