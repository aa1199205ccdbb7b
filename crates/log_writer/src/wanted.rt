//! What a log is made by.

ghost use Rattle.std.specs.Prelude.{◌≡◌, true, is_some};

use bound_directions::Directions;
use sat_model::Rules;

/// The rules of a log, and in which directions bounds are asked for, if any are. Bounds go with pairs of
/// rows.
#[derive(Drop)]
pub struct Wanted {
    pub rules: Rules,
    pub directions: Option<Directions>,
    pub ghost pairs: { is_some directions ≡ true → rules.pairs ≡ true },
}
