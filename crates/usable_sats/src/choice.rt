//! The choice of a satellite's record.

ghost use Rattle.std.specs.Prelude.{◌≡◌, ◌∷◌, [], ◌++◌, List, Option};
ghost use Rattle.rinex_nav.specs.declared.record.NavRecord.{NavRecord};
ghost use Rattle.usable_sats.specs.Answers.{IsAlone, IsChoice};
ghost use Rattle.gnss_model.specs.declared.satellites.GalileoUse.{GalileoUse};
ghost use Rattle.usable_sats.specs.Usability.{sighting_by};

use crate::fresh::{fresh_age, nearest_fresh};
use error_bounds::Settings;
use gnss_model::Elements;
use rinex_nav::{Nav, NavRecord};
use rinex_obs::{ObsEpoch, SatObs};

/// What the records give of a satellite.
#[derive(Clone, Copy)]
pub(crate) enum Choice {
    /// There is none.
    NoRecord,
    /// None is healthy.
    Unhealthy,
    /// No healthy one is fresh.
    Old,
    /// No fresh one is within the bounds: the age of the nearest in ps, and its first field
    /// outside.
    Unfit { age: i128, field: u8 },
    /// The nearest that is within the bounds: its age in ps, and its elements.
    Fit { age: i128, elements: Elements },
}

impl Choice {
    ghost use Rattle.std.specs.Prelude.{◌↔◌, IsTrue};
    ghost use Rattle.usable_sats.specs.Answers.{passed_by, age_of, IsBetter};

    /// How many tests its record passes.
    fn passed(&self) -> u8
        ensures { result ≡ passed_by self.now }
    {
        match self {
            Choice::NoRecord => 0,
            Choice::Unhealthy => 1,
            Choice::Old => 2,
            Choice::Unfit { .. } => 3,
            Choice::Fit { .. } => 4,
        }
    }

    /// The age of its record in ps, and 0 where it isn't told.
    fn age(&self) -> i128
        ensures { result ≡ age_of self.now }
    {
        match self {
            Choice::NoRecord | Choice::Unhealthy | Choice::Old => 0,
            Choice::Unfit { age, .. } | Choice::Fit { age, .. } => *age,
        }
    }

    /// Whether it is better than what comes later in the file; of two ages alike the later counts.
    fn is_better(&self, later: &Choice) -> bool
        ensures { IsTrue result ↔ IsBetter self.now later.now }
    {
        let (own, other) = (self.passed(), later.passed());
        other < own || (other == own && self.age() < later.age())
    }
}

/// What the record of a satellite gives alone.
fn alone(one: &NavRecord, epoch: &ObsEpoch, settings: &Settings) -> Choice
    ensures { IsAlone settings.now.max_age epoch.now.tag one.now result }
{
    if !one.healthy {
        return Choice::Unhealthy;
    }
    let Some(age) = fresh_age(one, epoch, settings) else {
        return Choice::Old;
    };
    match one.elements() {
        Ok(elements) => Choice::Fit { age, elements },
        Err(field) => Choice::Unfit { age, field },
    }
}

/// What the records of the satellite give with one more.
fn with_record(
    so_far: Choice,
    one: &NavRecord,
    seen: &SatObs,
    epoch: &ObsEpoch,
    settings: &Settings,
) -> Choice
    requires { one.now.sat ≡ seen.now.sat }
    ensures { (galileo : Option GalileoUse) → (records : List NavRecord)
        → IsChoice (sighting_by galileo records settings.now epoch.now.tag seen.now) so_far
        → IsChoice (sighting_by galileo (records ++ one.now ∷ [])
        settings.now epoch.now.tag seen.now) result }
{
    let later = alone(one, epoch, settings);
    if so_far.is_better(&later) {
        so_far
    } else {
        later
    }
}

/// What the records give of the satellite, each judged in turn: one pass over those that are its
/// own.
fn choose_from_all(seen: &SatObs, epoch: &ObsEpoch, nav: &Nav, settings: &Settings) -> Choice
    ensures { (galileo : Option GalileoUse) →
        IsChoice (sighting_by galileo nav.now settings.now epoch.now.tag seen.now) result }
{
    let mut choice = Choice::NoRecord;
    for place in nav.places(seen.sat) {
        choice = with_record(choice, nav.at(*place), seen, epoch, settings);
    }
    choice
}

/// What the records give of the satellite. Mostly its nearest fresh record is fit, and then no
/// other is converted.
pub(crate) fn choose(seen: &SatObs, epoch: &ObsEpoch, nav: &Nav, settings: &Settings) -> Choice
    ensures { (galileo : Option GalileoUse) →
        IsChoice (sighting_by galileo nav.now settings.now epoch.now.tag seen.now) result }
{
    if let Some(nearest) = nearest_fresh(seen, epoch, nav, settings) {
        if let Ok(elements) = nav.at(nearest.place).elements() {
            return Choice::Fit {
                age: nearest.age,
                elements,
            };
        }
    }
    choose_from_all(seen, epoch, nav, settings)
}
