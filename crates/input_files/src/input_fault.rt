//! Why a receiver's file is refused that isn't too long.

use error_bounds::SettingsFault;
use rinex_text::Refusal;

/// The first fault of an observation file, of a navigation file, of a station's observation file or
/// of settings.
#[derive(Clone, Copy, PartialEq, Eq)]
pub enum InputFault {
    Obs(Refusal),
    Nav(Refusal),
    Station(Refusal),
    Settings(SettingsFault),
}
