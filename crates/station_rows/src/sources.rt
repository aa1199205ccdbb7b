//! The rows of a receiver's files, with a station or without.

ghost use Rattle.std.specs.Prelude.{◌+◌, ◌≤◌};
ghost use Rattle.std.specs.Option.{ForSome};

use crate::sats::StationSats;
use error_bounds::Settings;
use gnss_model::Delays;
use grid_model::{Box3, NoMemory};
use rinex_nav::Nav;
use rinex_obs::ObsEpoch;
use sat_rows::{EpochRows, RowSource, rows_by, rows_of};
use station_epochs::KnownStation;
use std::alloc::Global;

/// The rows that a navigation file and settings give of what a receiver observed, alone or with a
/// station: of GPS satellites, and where the settings have codes of Galileo also of its satellites.
/// With a station, the spans of the settings are those of the difference of both errors.
#[derive(Clone, Copy)]
pub struct FileRows<'a> {
    pub nav: &'a Nav,
    pub settings: &'a Settings,
    pub station: Option<KnownStation<'a>>,
    pub ghost short_ages: { ForSome station (λ known. settings.now.max_age + known.age ≤ 14400) },
}

impl<'a> RowSource for FileRows<'a> {
    ghost use Rattle.std.specs.Prelude.{option_map};
    ghost use Rattle.station_epochs.specs.Stations.{station_of};
    ghost use Rattle.station_rows.specs.Laws.{rows_sound};
    ghost use Rattle.station_rows.specs.Stations.{rows_meaning};

    ghost meaning = { λ source. rows_meaning source.nav.now source.settings.now
        (option_map station_of source.station) };

    fn lines(&self, alloc: Global, epoch: &ObsEpoch, root: &Box3) -> Result<EpochRows, NoMemory> {
        let galileo = self.settings.galileo_use();
        match self.station {
            None => rows_by(alloc, epoch, self.nav, self.settings, root, &galileo),
            Some(station) => {
                let sats = StationSats {
                    nav: self.nav,
                    settings: self.settings,
                    galileo,
                    station,
                };
                rows_of(alloc, epoch, root, &sats)
            }
        }
    }

    fn delays(&self) -> Delays {
        self.settings.delays
    }

    ghost sound = { λ source. rows_sound source.nav.now source.settings.now
        (option_map station_of source.station) };
}
