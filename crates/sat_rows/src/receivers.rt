//! The satellites that a receiver alone observed.

use crate::bases::{Base, base_of};
use crate::sat_bases::SatBases;
use error_bounds::Settings;
use gnss_model::{Delays, GalileoUse, Skip};
use grid_model::Box3;
use rinex_nav::Nav;
use rinex_obs::{ObsEpoch, SatObs};
use usable_sats::{Judgement, judge_satellite, use_of};

/// What a navigation file and settings say of them. The satellites of Galileo are used where its
/// codes are given.
#[derive(Clone, Copy)]
pub(crate) struct ReceiverSats<'a> {
    pub(crate) nav: &'a Nav,
    pub(crate) settings: &'a Settings,
    pub(crate) galileo: Option<GalileoUse>,
}

impl<'a> SatBases for ReceiverSats<'a> {
    ghost use Rattle.sat_rows.specs.Sources.{meaning_by};

    ghost meaning = { λ source. meaning_by source.galileo source.nav.now source.settings.now };

    fn base_in(&self, seen: &SatObs, epoch: &ObsEpoch, root: &Box3) -> Result<Base, Skip> {
        match judge_satellite(seen, epoch, self.nav, self.settings, &self.galileo, root) {
            Judgement::Usable { codes, elements } => {
                let declared = self.settings.bound_of(seen.sat);
                let (system, _) = use_of(seen.sat, self.settings, &self.galileo);
                Ok(base_of(system, seen.sat, epoch.tag, &codes, &elements, declared))
            }
            Judgement::Skipped(skip) => Err(skip),
        }
    }

    fn delays(&self) -> Delays {
        self.settings.delays
    }
}
