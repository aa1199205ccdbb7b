//! The tables whose keys have to be there.

ghost use Rattle.std.specs.Prelude.{◌≡◌, true, None, Ok, option_map, IfOk, IfErr, OnOk};
ghost use Rattle.sat_model.specs.Relaxed.{ends};
ghost use Rattle.toml.specs.View.{table_view};
ghost use Rattle.error_bounds.specs.Keys.{value_of, mode_of, codes_key, optional_at, zenith, vertical, search_tests, signal_tests, bounds_tests, first_found};
ghost use Rattle.error_bounds.specs.Reading.{IsSearch, IsCommon, TellsFirst};
ghost use Rattle.error_bounds.specs.Sizes.{are_codes};

use crate::bounds::{Bounds, sum};
use crate::fault::SettingsFault;
use crate::form::{Count, DECLARED, Errors, Length, Truth};
use crate::key::{optional, required};
use crate::places::{HalfSides, Place};
use crate::search::Search;
use crate::signals::{Codes, Mode, ModeWord};
use gnss_model::{Delays, Signal};
use sat_model::Rules;
use toml::Table;

/// The keys of `search`.
pub fn read_search(tree: &Table) -> Result<Search, SettingsFault>
    ensures none { OnOk result (first_found (search_tests (table_view tree.now)) ≡ None) }
    ensures value { IfOk result (IsSearch (table_view tree.now)) }
    ensures fault { IfErr result (TellsFirst (search_tests (table_view tree.now))) }
{
    let centre = required(tree, "search", "centre", &Place)?;
    let half = required(tree, "search", "half", &HalfSides)?;
    let outliers = required(tree, "search", "outliers", &Count { lo: 0, hi: 8 })?;
    let bisections = required(tree, "search", "bisections", &Count { lo: 0, hi: 200_000 })?;
    let width = required(
        tree,
        "search",
        "width",
        &Length {
            lo: 1,
            hi: 10_000_000,
        },
    )?;
    let max_age = required(tree, "search", "max_age", &Count { lo: 1, hi: 14_400 })?;
    let renew = optional(tree, "search", "renew", &Truth)?;
    let pairs = optional(tree, "search", "pairs", &Truth)?;
    let rules = Rules {
        outliers: outliers as u8,
        bisections,
        width,
        pairs: pairs.unwrap_or(false),
    };
    Ok(Search {
        centre,
        half,
        rules,
        max_age,
        renew: renew.unwrap_or(false),
    })
}

/// The keys of `signal`.
pub fn read_signal(tree: &Table) -> Result<(Mode, Signal), SettingsFault>
    ensures none { OnOk result (first_found (signal_tests (table_view tree.now)) ≡ None) }
    ensures mode { IfOk result (λ t. mode_of (table_view tree.now) ≡ t.0) }
    ensures value { IfOk result (λ t.
        value_of (codes_key (table_view tree.now)) (table_view tree.now) ≡ Ok t.1) }
    ensures codes { IfOk result (λ t. are_codes t.1 ≡ true) }
    ensures fault { IfErr result (TellsFirst (signal_tests (table_view tree.now))) }
{
    let mode = required(tree, "signal", "mode", &ModeWord)?;
    let signal = required(tree, "signal", "codes", &Codes { mode })?;
    Ok((mode, signal))
}

/// The keys of `bounds`.
pub fn read_bounds(tree: &Table) -> Result<Bounds, SettingsFault>
    ensures none { OnOk result (first_found (bounds_tests (table_view tree.now)) ≡ None) }
    ensures common { IfOk result (λ bounds. IsCommon (table_view tree.now) (ends bounds.common)) }
    ensures zenith { IfOk result (λ bounds.
        optional_at zenith (table_view tree.now) ≡ Ok (option_map ends bounds.delays.zenith)) }
    ensures vertical { IfOk result (λ bounds.
        optional_at vertical (table_view tree.now) ≡ Ok (option_map ends bounds.delays.vertical)) }
    ensures fault { IfErr result (TellsFirst (bounds_tests (table_view tree.now))) }
{
    let receiver = required(tree, "bounds", "receiver", &DECLARED)?;
    let orbit_clock = required(tree, "bounds", "orbit_clock", &DECLARED)?;
    let ionosphere = required(tree, "bounds", "ionosphere", &DECLARED)?;
    let troposphere = required(tree, "bounds", "troposphere", &DECLARED)?;
    let zenith = optional(tree, "bounds", "zenith", &Errors { most: 10_000 })?;
    let vertical = optional(tree, "bounds", "vertical", &Errors { most: 100_000 })?;
    let common = sum(receiver, orbit_clock);
    let common = sum(common, ionosphere);
    let common = sum(common, troposphere);
    Ok(Bounds {
        common,
        delays: Delays { zenith, vertical },
    })
}
