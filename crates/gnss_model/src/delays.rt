//! Delays of a signal that grow towards the horizon, and what is declared of them straight up.

ghost use Rattle.std.specs.Prelude.{◌≡◌};
ghost use Rattle.gnss_model.specs.Delays.{is_plain};

use grid_model::Span;

/// Where a signal is delayed. The constants of its mapping are in `specs/Layers.antt`.
#[derive(Clone, Copy, Debug, PartialEq, Eq)]
pub enum Layer {
    /// By the mapping of Black and Eisner.
    Troposphere,
    /// By a thin shell at 350 km.
    Ionosphere,
}

/// What is declared of the delays straight up, in um: mapped by elevation they are added to the
/// bounds of the error.
#[derive(Clone, Copy, Debug, PartialEq, Eq)]
pub struct Delays {
    /// The troposphere's at the zenith.
    pub zenith: Option<Span>,
    /// The ionosphere's at the vertical, on L1.
    pub vertical: Option<Span>,
}

impl Delays {
    /// Whether none is declared, so that nothing is mapped.
    pub fn is_plain(self) -> bool
        ensures { result ≡ is_plain self }
    {
        self.zenith.is_none() && self.vertical.is_none()
    }
}
