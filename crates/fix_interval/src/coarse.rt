//! Intervals whose grain is 65,536 um, and their areas. All that boxes and satellites need fits 64
//! bits.

ghost use Rattle.std.specs.Prelude.{◌≤◌, ◌≤ℤ◌};

/// The whole numbers of um from `lo` to `hi` grains.
#[derive(Clone, Copy, Debug, PartialEq, Eq)]
pub struct Coarse {
    pub(crate) lo: i64,
    pub(crate) hi: i64,
    ghost ordered: { lo ≤ℤ hi },
}

/// The whole numbers of square um from `lo` to `hi` squares of a grain.
#[derive(Clone, Copy, Debug, PartialEq, Eq)]
pub struct CoarseArea {
    pub(crate) lo: u64,
    pub(crate) hi: u64,
    ghost ordered: { lo ≤ hi },
}
