//! Whole numbers between two ends, both included.

ghost use Rattle.std.specs.Prelude.{◌≤ℤ◌};

/// The whole numbers from `lo` to `hi`.
#[derive(Clone, Copy, Debug, PartialEq, Eq)]
pub struct Span {
    pub lo: i64,
    pub hi: i64,
    pub ghost ordered: { lo ≤ℤ hi },
}

/// The span of 0 alone.
impl Default for Span {
    fn default() -> Self {
        Span { lo: 0, hi: 0 }
    }
}

/// The whole numbers from `lo` to `hi`, for amounts that pass 64 bits.
#[derive(Clone, Copy, Debug, PartialEq, Eq)]
pub struct Wide {
    pub lo: i128,
    pub hi: i128,
    pub ghost ordered: { lo ≤ℤ hi },
}
