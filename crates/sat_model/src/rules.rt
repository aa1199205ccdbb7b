//! How a search is to be done.

ghost use Rattle.std.specs.Prelude.{◌≤◌, ◌≤ℤ◌, pos};

/// The rules of a search: how many satellites may be inconsistent (0 to 8), how many splits an
/// epoch may take (0 to 200,000), how long in um (1,000 to 10^10) a side stays unsplit, and whether
/// pairs of satellites show boxes empty too.
#[derive(Clone, Copy, Debug, PartialEq, Eq)]
pub struct Rules {
    pub outliers: u8,
    pub bisections: u32,
    pub width: i64,
    pub pairs: bool,
    pub ghost few_outliers: { outliers ≤ 8 },
    pub ghost few_bisections: { bisections ≤ 200000 },
    pub ghost wide: { pos 1000 ≤ℤ width },
    pub ghost narrow: { width ≤ℤ pos 10000000000 },
}
