//! The table of how the receiver moves, which may be absent.

ghost use Rattle.std.specs.Prelude.{◌≡◌, None, Ok, IfOk, IfErr, OnOk};
ghost use Rattle.toml.specs.View.{table_view};
ghost use Rattle.error_bounds.specs.Keys.{speed, restart_key, optional_at, truth_at, motion_tests, first_found};
ghost use Rattle.error_bounds.specs.Reading.{TellsFirst};
ghost use Rattle.error_bounds.specs.Sizes.{IsSpeed};

use crate::fault::SettingsFault;
use crate::form::{Count, TruthWith};
use crate::key::optional;
use toml::Table;

/// The greatest speed of the receiver, in mm/s, where it is declared, and whether its track begins
/// anew behind an epoch that kept no box.
pub fn read_motion(tree: &Table) -> Result<(Option<u32>, bool), SettingsFault>
    ensures none { OnOk result (first_found (motion_tests (table_view tree.now)) ≡ None) }
    ensures speed { IfOk result (λ t. optional_at speed (table_view tree.now) ≡ Ok t.0) }
    ensures restart { IfOk result (λ t.
        truth_at (restart_key (table_view tree.now)) (table_view tree.now) ≡ Ok t.1) }
    ensures within { IfOk result (λ t. IsSpeed t.0) }
    ensures fault { IfErr result (TellsFirst (motion_tests (table_view tree.now))) }
{
    let form = Count {
        lo: 0,
        hi: 1_000_000,
    };
    let speed = optional(tree, "motion", "speed", &form)?;
    let form = TruthWith {
        declared: speed.is_some(),
    };
    let restart = optional(tree, "motion", "restart", &form)?;
    Ok((speed, restart.unwrap_or(false)))
}
