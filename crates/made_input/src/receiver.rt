//! A made receiver: what stays the same from epoch to epoch.

ghost use Rattle.std.specs.Prelude.{◌≡◌};
ghost use Rattle.made_input.specs.MadeCodes.{place_of};
ghost use Rattle.made_input.specs.MadeRecords.{made_records};
ghost use Rattle.rinex_nav.specs.Reading.{records_of};

use grid_model::Pos;
use rinex_nav::Nav;

/// The receiver of a seed: its place, and the records that its navigation file reads as.
#[derive(Drop)]
pub(crate) struct Receiver {
    pub seed: u32,
    pub place: Pos,
    pub nav: Nav,
    ghost place_is: { place ≡ place_of seed },
    ghost records_are: { records_of nav ≡ made_records seed },
}
