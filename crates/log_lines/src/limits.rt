//! The numbers of a search.

ghost use Rattle.std.specs.Prelude.{◌≤◌, ◌≤ℤ◌, pos};

/// The numbers of the line of the rules: all that `Rules` has but `pairs`, which the first line
/// tells.
#[derive(Clone, Copy, Debug, PartialEq, Eq)]
pub struct Limits {
    pub outliers: u8,
    pub bisections: u32,
    pub width: i64,
    pub ghost few_outliers: { outliers ≤ 8 },
    pub ghost few_bisections: { bisections ≤ 200000 },
    pub ghost wide: { pos 1000 ≤ℤ width },
    pub ghost narrow: { width ≤ℤ pos 10000000000 },
}
