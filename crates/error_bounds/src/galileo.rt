//! What is declared for Galileo satellites.

ghost use Rattle.std.specs.Prelude.{◌≡◌, true};
ghost use Rattle.error_bounds.specs.Sizes.{IsDeclared, are_codes_of};

use gnss_model::{Message, Signal};
use grid_model::Span;

/// What the table `galileo` gives.
#[derive(Clone, Copy, Debug, PartialEq, Eq)]
pub struct Galileo {
    /// The message whose records are used.
    pub message: Message,
    /// The codes on E1, or on E1 and the other band of the message.
    pub signal: Signal,
    /// The speed of light times the declared difference of the two system times: within 1 km. It is
    /// added to the bounds of each Galileo satellite.
    pub offset: Span,
    pub ghost codes: { are_codes_of message signal ≡ true },
    pub ghost offset_within: { IsDeclared offset },
}
