//! What the first line of a bound says.

ghost use Rattle.std.specs.Prelude.{◌≤◌};

use sat_model::HalfSpace;

/// A half-space, and how many sums of rows follow that show it: 1 to 64.
#[derive(Clone, Copy, Debug, PartialEq, Eq)]
pub struct BoundHead {
    pub half: HalfSpace,
    pub sums: u8,
    pub ghost some_sums: { 1 ≤ sums },
    pub ghost few_sums: { sums ≤ 64 },
}
