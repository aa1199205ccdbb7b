//! Whether a single difference is as small as the pseudorange of a row.

ghost use Rattle.std.specs.Prelude.{◌≡◌, ◌↔◌, ◌*◌, pos, neg_ℤ, ◌-ℤ◌, IsTrue};
ghost use Rattle.gnss_model.specs.Systems.{squares_apart};
ghost use Rattle.gnss_model.specs.declared.systems.System.{System};
ghost use Rattle.station_rows.specs.Nearby.{AreCodesNear, AreNear, AreNearby, HasNearRecord};
ghost use Rattle.grid_model.specs.Sizes.{IsWithin};
ghost use Rattle.station_rows.specs.Judgements.{LiesIn};
ghost use Rattle.station_rows.specs.Nearby.{clock_time_reach, pseudoranges_apart};
ghost use Rattle.station_rows.specs.Observations.{observed_by, view_of};
ghost use Rattle.usable_sats.specs.Measured.{codes_of};
ghost use Rattle.usable_sats.specs.Usability.{ArePlausible, IsPlausible};

use crate::observations::{CommonSat, Observation};
use fix_interval::Exact;
use gnss_model::{Elements, Message, System};
use grid_model::Wide;
use pseudorange_prep::{combination, single};
use usable_sats::Measured;

/// The greatest root of the semi-major axis of a medium orbit, in 10^-12 m^(1/2).
const MEDIUM_ROOT_A: i128 = 5_600_000_000_000_000;

/// How far a record's clock time may be from a reception, in ps: 6 h.
const CLOCK_TIME_REACH: u128 = 21_600_000_000_000_000;

/// How far the two pseudoranges may be apart, in um: 5,000 km.
const PSEUDORANGES_APART: i128 = 5_000_000_000_000;

/// Whether the record is near for the receiver and the station, and their codes are near.
pub(crate) fn are_nearby(common: &CommonSat, el: &Elements) -> bool
    requires receiver_codes { ArePlausible common.now.system (codes_of common.now.receiver.codes) }
    requires station_codes { ArePlausible common.now.system (codes_of common.now.station.codes) }
    ensures { IsTrue result ↔ AreNearby (view_of common.now el.now) }
{
    if !has_near_record(&common.receiver, el) {
        return false;
    }
    has_near_record(&common.station, el) && are_pseudoranges_near(common)
}

/// Whether the record is of a medium orbit, and its clock time near the reception.
fn has_near_record(observation: &Observation, el: &Elements) -> bool
    ensures { (system : System)
        → (IsTrue result ↔ HasNearRecord (observed_by system observation.now el.now)) }
{
    el.root_a.hi <= MEDIUM_ROOT_A && is_near_in_time(observation, el)
}

/// Whether the clock time is near.
fn is_near_in_time(observation: &Observation, el: &Elements) -> bool
    ensures { IsTrue result ↔ IsWithin clock_time_reach (observation.now.tag -ℤ el.now.toc) }
{
    observation.tag.abs_diff(el.toc) <= CLOCK_TIME_REACH
}

/// Whether the pseudoranges of both are at most 5,000 km apart, by one code each or by two.
fn are_pseudoranges_near(common: &CommonSat) -> bool
    requires receiver_codes { ArePlausible common.now.system (codes_of common.now.receiver.codes) }
    requires station_codes { ArePlausible common.now.system (codes_of common.now.station.codes) }
    ensures { IsTrue result ↔ AreCodesNear common.now.system (codes_of common.now.receiver.codes)
        (codes_of common.now.station.codes) }
{
    let system = common.system;
    match (common.receiver.codes, common.station.codes) {
        (Measured::Single(code), Measured::Single(other)) => are_codes_near(code, other),
        (Measured::Dual(first, second), Measured::Dual(other_first, other_second)) => {
            let own = combination(first, second, system);
            let other = combination(other_first, other_second, system);
            are_combinations_near(own, other, system)
        }
        _ => false,
    }
}

/// Whether two codes are.
fn are_codes_near(code: Wide, other: Wide) -> bool
    requires code { IsPlausible code.lo code.hi 1 }
    requires other { IsPlausible other.lo other.hi 1 }
    ensures { IsTrue result ↔ AreNear code.lo code.hi other.lo other.hi 1 }
{
    let apart = single(code).minus(single(other));
    let most = Exact {
        lo: -PSEUDORANGES_APART,
        hi: PSEUDORANGES_APART,
    };
    lies_in(&apart, &most)
}

/// Whether two ionosphere-free combinations are, each times the difference of the squares of the
/// frequencies.
fn are_combinations_near(own: Exact, other: Exact, system: System) -> bool
    requires own { IsPlausible own.lo own.hi (squares_apart system) }
    requires other { IsPlausible other.lo other.hi (squares_apart system) }
    ensures { IsTrue result ↔ AreNear own.lo own.hi other.lo other.hi (squares_apart system) }
{
    let apart = own.minus(other);
    let most = combinations_apart(system);
    lies_in(&apart, &most)
}

/// Whether all members of an interval are members of another.
fn lies_in(members: &Exact, all: &Exact) -> bool
    ensures { IsTrue result ↔ LiesIn members.now all.now }
{
    if members.lo < all.lo {
        return false;
    }
    members.hi <= all.hi
}

/// How far they may be apart.
fn combinations_apart(system: System) -> Exact
    ensures low { result.lo ≡ neg_ℤ (pos (squares_apart system * pseudoranges_apart)) }
    ensures high { result.hi ≡ pos (squares_apart system * pseudoranges_apart) }
{
    match system {
        System::Gps => Exact {
            lo: -2_329 * PSEUDORANGES_APART,
            hi: 2_329 * PSEUDORANGES_APART,
        },
        System::Galileo(Message::Fnav) => Exact {
            lo: -10_491 * PSEUDORANGES_APART,
            hi: 10_491 * PSEUDORANGES_APART,
        },
        System::Galileo(Message::Inav) => Exact {
            lo: -9_792 * PSEUDORANGES_APART,
            hi: 9_792 * PSEUDORANGES_APART,
        },
    }
}
