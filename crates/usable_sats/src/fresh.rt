//! The nearest fresh record of a satellite, found by its age alone.

ghost use Rattle.std.specs.Prelude.{ℤ, ◌≡◌, ◌∷◌, [], ◌++◌, List, Option, length, IfSome, IfNone};
ghost use Rattle.rinex_nav.specs.declared.record.NavRecord.{NavRecord};
ghost use Rattle.rinex_obs.specs.declared.obs.SatObs.{SatObs};
ghost use Rattle.usable_sats.specs.Answers.{IsNearestFresh, IsRecent};
ghost use Rattle.gnss_model.specs.declared.satellites.GalileoUse.{GalileoUse};
ghost use Rattle.usable_sats.specs.Usability.{sighting_by};

use error_bounds::Settings;
use rinex_nav::{Nav, NavRecord};
use rinex_obs::{ObsEpoch, SatObs};

/// The ps in a second.
const PS_PER_S: i128 = 1_000_000_000_000;

/// The nearest of the fresh records: its place in the file, and its age in ps.
#[derive(Clone, Copy)]
pub(crate) struct Nearest {
    pub(crate) place: u32,
    pub(crate) age: i128,
}

/// The age in ps of a healthy record that is fresh.
pub(crate) fn fresh_age(one: &NavRecord, epoch: &ObsEpoch, settings: &Settings) -> Option<i128>
    ensures recent { IfSome result (IsRecent settings.now.max_age epoch.now.tag one.now) }
    ensures none { IfNone result ((age : ℤ)
        → IsRecent settings.now.max_age epoch.now.tag one.now age → ⊥) }
{
    let age = one.age(epoch.tag)?;
    if !one.healthy || age > i128::from(settings.max_age) * PS_PER_S {
        return None;
    }
    Some(age)
}

/// The nearest of the fresh records with one more behind them: of two ages alike the later counts.
fn nearer(
    so_far: Option<Nearest>,
    place: u32,
    one: &NavRecord,
    epoch: &ObsEpoch,
    settings: &Settings,
) -> Option<Nearest>
    ensures { (galileo : Option GalileoUse) → (records : List NavRecord) → (seen : SatObs)
        → place ≡ length records → one.now.sat ≡ seen.sat
        → IsNearestFresh (sighting_by galileo records settings.now epoch.now.tag seen) so_far
        → IsNearestFresh (sighting_by galileo (records ++ one.now ∷ [])
        settings.now epoch.now.tag seen) result }
{
    let Some(age) = fresh_age(one, epoch, settings) else {
        return so_far;
    };
    match so_far {
        Some(nearest) if nearest.age < age => so_far,
        _ => Some(Nearest { place, age }),
    }
}

/// The nearest of the satellite's fresh records: one pass over those that are its own.
pub(crate) fn nearest_fresh(
    seen: &SatObs,
    epoch: &ObsEpoch,
    nav: &Nav,
    settings: &Settings,
) -> Option<Nearest>
    ensures { (galileo : Option GalileoUse) →
        IsNearestFresh (sighting_by galileo nav.now settings.now epoch.now.tag seen.now) result }
{
    let mut nearest = None;
    for place in nav.places(seen.sat) {
        nearest = nearer(nearest, *place, nav.at(*place), epoch, settings);
    }
    nearest
}
