//! Along which directions bounds are written, which may be absent.

ghost use Rattle.std.specs.Prelude.{◌≡◌, true, None, Ok, option_map, IfOk, IfErr, OnOk};
ghost use Rattle.std.specs.Option.{ForSome};
ghost use Rattle.toml.specs.View.{table_view};
ghost use Rattle.error_bounds.specs.Keys.{pairs as pairs_key, truth_at, optional_at, directions_key, directions_tests, first_found};
ghost use Rattle.error_bounds.specs.Reading.{directions_value, TellsFirst};

use crate::directions::DirectionsWith;
use crate::fault::SettingsFault;
use crate::key::optional;
use bound_directions::Directions;
use toml::Table;

/// The directions of bounds, where there are any: they ask for `pairs`.
pub fn read_directions(tree: &Table, pairs: bool) -> Result<Option<Directions>, SettingsFault>
    requires { truth_at pairs_key (table_view tree.now) ≡ Ok pairs }
    ensures none { OnOk result (first_found (directions_tests (table_view tree.now)) ≡ None) }
    ensures value { IfOk result (λ directions.
        optional_at (directions_key (table_view tree.now)) (table_view tree.now)
        ≡ Ok (option_map directions_value directions)) }
    ensures with_pairs { IfOk result (λ directions. ForSome directions (λ given. pairs ≡ true)) }
    ensures fault { IfErr result (TellsFirst (directions_tests (table_view tree.now))) }
{
    optional(tree, "search", "directions", &DirectionsWith { pairs })
}
