//! The codes of a satellite.

ghost use Rattle.std.specs.Prelude.{ℕ, ◌*◌, ◌≡◌, ◌↔◌, pos, List, IsTrue, IsNone, IfNone, IfSome};
ghost use Rattle.exact_decimal.specs.declared.unit.Unit.TheVariants.{Length};
ghost use Rattle.rinex_nav.specs.ElementsOf.{IsRounded};
ghost use Rattle.gnss_model.specs.Pseudorange.{Codes};
ghost use Rattle.gnss_model.specs.Systems.{squares_apart};
ghost use Rattle.gnss_model.specs.declared.satellites.Signal.TheVariants.{Single, Dual};
ghost use Rattle.grid_model.specs.declared.spans.Wide.{Wide};
ghost use Rattle.gnss_model.specs.declared.systems.System.{System};
ghost use Rattle.usable_sats.specs.Answers.{IsReading};
ghost use Rattle.usable_sats.specs.Measured.{codes_of};
ghost use Rattle.usable_sats.specs.Usability.{HaveValue, IsPlausible, IsCombinationPlausible};
ghost use Rattle.usable_sats.specs.Usability.{ArePlausible, least_range, greatest_range};

use exact_decimal::{Decimal, Unit, to_unit_between};
use gnss_model::{Message, Signal, System};
use grid_model::Wide;
use pseudorange_prep::combination;
use rinex_obs::SatObs;

/// The least range that a signal of a GPS satellite is under way, in um.
const LEAST_RANGE: i128 = 15_000_000_000_000;

/// The greatest.
const GREATEST_RANGE: i128 = 40_000_000_000_000;

/// The codes of a satellite in whole um: one, or one on each of two frequencies.
#[derive(Clone, Copy, Debug, PartialEq, Eq)]
pub enum Measured {
    Single(Wide),
    Dual(Wide, Wide),
}

/// What the wanted codes of a satellite are.
#[derive(Clone, Copy)]
pub(crate) enum Reading {
    Missing,
    OutOfRange,
    Within(Measured),
}

/// The wanted codes of the satellite, where they are there and in range.
pub(crate) fn read_codes(seen: &SatObs, signal: &Signal, system: System) -> Reading
    ensures { IsReading system signal.now seen.now result }
{
    match signal {
        Signal::Single { .. } => read_single(seen),
        Signal::Dual { .. } => read_dual(seen, system),
    }
}

/// The wanted codes of the satellite, none where one of them is missing or out of range.
pub fn codes_in_range(seen: &SatObs, signal: &Signal, system: System) -> Option<Measured>
    ensures values { IfSome result (λ codes. HaveValue signal.now seen.now (codes_of codes)) }
    ensures plausible { IfSome result (λ codes. ArePlausible system (codes_of codes)) }
    ensures none { IfNone result ((codes : Codes) → HaveValue signal.now seen.now codes
        → ArePlausible system codes → ⊥) }
{
    match read_codes(seen, signal, system) {
        Reading::Missing => None,
        Reading::OutOfRange => None,
        Reading::Within(codes) => Some(codes),
    }
}

/// One code.
fn read_single(seen: &SatObs) -> Reading
    ensures { (system : System) → (code : List ℕ) → IsReading system (Single code) seen.now result }
{
    let Some(code) = seen.first else {
        return Reading::Missing;
    };
    match in_um(code) {
        Some(code) => Reading::Within(Measured::Single(code)),
        None => Reading::OutOfRange,
    }
}

/// Two codes on two frequencies.
fn read_dual(seen: &SatObs, system: System) -> Reading
    ensures { (first second : List ℕ) → IsReading system (Dual first second) seen.now result }
{
    let (Some(first), Some(second)) = (seen.first, seen.second) else {
        return Reading::Missing;
    };
    let (Some(first), Some(second)) = (in_um(first), in_um(second)) else {
        return Reading::OutOfRange;
    };
    if is_combination_in_range(&first, &second, system) {
        Reading::Within(Measured::Dual(first, second))
    } else {
        Reading::OutOfRange
    }
}

/// The code in whole um, where it is in range.
fn in_um(code: Decimal) -> Option<Wide>
    ensures rounded { IfSome result (λ w. IsRounded w code Length) }
    ensures plausible { IfSome result (λ w. IsPlausible w.lo w.hi 1) }
    ensures out { IsNone result → (w : Wide) → IsRounded w code Length → ¬ IsPlausible w.lo w.hi 1 }
{
    to_unit_between(code, Unit::Length, LEAST_RANGE, GREATEST_RANGE)
}

/// Whether the ionosphere-free combination of two codes is in range.
fn is_combination_in_range(first: &Wide, second: &Wide, system: System) -> bool
    requires first { IsPlausible first.now.lo first.now.hi 1 }
    requires second { IsPlausible second.now.lo second.now.hi 1 }
    ensures { IsTrue result ↔ IsCombinationPlausible system first.now second.now }
{
    let sum = combination(*first, *second, system);
    least_combination(system) <= sum.lo && sum.hi <= greatest_combination(system)
}

/// The least ionosphere-free combination of two codes, times the difference of the squares of their
/// frequencies.
fn least_combination(system: System) -> i128
    ensures { result ≡ pos (squares_apart system * least_range) }
{
    match system {
        System::Gps => 2_329 * LEAST_RANGE,
        System::Galileo(Message::Fnav) => 10_491 * LEAST_RANGE,
        System::Galileo(Message::Inav) => 9_792 * LEAST_RANGE,
    }
}

/// The greatest.
fn greatest_combination(system: System) -> i128
    ensures { result ≡ pos (squares_apart system * greatest_range) }
{
    match system {
        System::Gps => 2_329 * GREATEST_RANGE,
        System::Galileo(Message::Fnav) => 10_491 * GREATEST_RANGE,
        System::Galileo(Message::Inav) => 9_792 * GREATEST_RANGE,
    }
}
