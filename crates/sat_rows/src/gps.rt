//! GPS satellites as a source of rows.

use crate::epochs::rows;
use crate::lines::EpochRows;
use crate::source::RowSource;
use error_bounds::Settings;
use gnss_model::Delays;
use grid_model::{Box3, NoMemory};
use rinex_nav::Nav;
use rinex_obs::ObsEpoch;
use std::alloc::Global;

/// The rows that a navigation file and settings give.
#[derive(Clone, Copy)]
pub struct GpsRows<'a> {
    pub nav: &'a Nav,
    pub settings: &'a Settings,
}

impl<'a> RowSource for GpsRows<'a> {
    ghost use Rattle.sat_rows.specs.Sources.{gps_meaning};
    ghost use Rattle.sat_rows.specs.Laws.{gps_sound};

    ghost meaning = { λ source. gps_meaning source.nav.now source.settings.now };

    fn lines(&self, alloc: Global, epoch: &ObsEpoch, root: &Box3) -> Result<EpochRows, NoMemory> {
        rows(alloc, epoch, self.nav, self.settings, root)
    }

    fn delays(&self) -> Delays {
        self.settings.delays
    }

    ghost sound = { λ source. gps_sound source.nav.now source.settings.now };
}
