//! Where to search, and how.

ghost use Rattle.std.specs.Prelude.{◌≤◌};
ghost use Rattle.error_bounds.specs.Sizes.{IsCentre, AreHalfSides};

use crate::settings::Centre;
use grid_model::Pos;
use sat_model::Rules;

/// What the keys of `search` give.
#[derive(Clone, Copy)]
pub struct Search {
    pub centre: Centre,
    pub half: Pos,
    pub rules: Rules,
    pub max_age: u32,
    pub renew: bool,
    pub ghost centre_within: { IsCentre centre },
    pub ghost half_within: { AreHalfSides half },
    pub ghost some_age: { 1 ≤ max_age },
    pub ghost short_age: { max_age ≤ 14400 },
}
