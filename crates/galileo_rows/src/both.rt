//! The satellites of both systems as one source of rows.

use error_bounds::Settings;
use gnss_model::Delays;
use grid_model::{Box3, NoMemory};
use rinex_nav::Nav;
use rinex_obs::ObsEpoch;
use sat_rows::{EpochRows, RowSource, rows_by};
use std::alloc::Global;

/// The rows that a navigation file and settings give: of GPS satellites, and where the settings
/// have codes of Galileo also of its satellites.
#[derive(Clone, Copy)]
pub struct BothRows<'a> {
    pub nav: &'a Nav,
    pub settings: &'a Settings,
}

impl<'a> RowSource for BothRows<'a> {
    ghost use Rattle.sat_rows.specs.Sources.{both_meaning};
    ghost use Rattle.sat_rows.specs.Laws.{both_sound};

    ghost meaning = { λ source. both_meaning source.nav.now source.settings.now };

    fn lines(&self, alloc: Global, epoch: &ObsEpoch, root: &Box3) -> Result<EpochRows, NoMemory> {
        let galileo = self.settings.galileo_use();
        rows_by(alloc, epoch, self.nav, self.settings, root, &galileo)
    }

    fn delays(&self) -> Delays {
        self.settings.delays
    }

    ghost sound = { λ source. both_sound source.nav.now source.settings.now };
}
