//! The speed of a receiver that moves.

ghost use Rattle.std.specs.Prelude.{◌≡◌};
ghost use Rattle.input_files.specs.Motion.{speed_of};

use error_bounds::Settings;

/// The greatest speed of the receiver, in mm/s, where it is declared.
pub fn speed_of(settings: &Settings) -> Option<u32>
    ensures { result ≡ speed_of settings.now }
{
    settings.speed
}
