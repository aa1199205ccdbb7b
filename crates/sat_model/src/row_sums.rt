//! A sum of rows, as a certificate states it.

ghost use Rattle.std.specs.Prelude.{◌≤◌, ◌<◌};
ghost use Rattle.grid_model.specs.Sizes.{IsWithin};

/// The row at a place, counted from 0, and its multiplier, which is at most 2^20 in amount.
#[derive(Clone, Copy, Debug, PartialEq, Eq)]
pub struct Term {
    pub place: u8,
    pub multiplier: i64,
    pub ghost place_low: { place < 64 },
    pub ghost multiplier_within: { IsWithin 1048576 multiplier },
}

impl Default for Term {
    fn default() -> Self {
        Term {
            place: 0,
            multiplier: 0,
        }
    }
}

/// A sum of five rows, and how many times the direction of a half-space is in its slopes, at most
/// 2^44. In four unknowns, the point and the offset, a vertex has four rows and a contradiction five
/// (Helly's theorem). A sum of fewer rows repeats one of them 0 times.
#[derive(Clone, Copy, Debug, PartialEq, Eq)]
pub struct RowSum {
    pub aim: u64,
    pub first: Term,
    pub second: Term,
    pub third: Term,
    pub fourth: Term,
    pub fifth: Term,
    pub ghost aim_low: { aim ≤ 17592186044416 },
}

impl Default for RowSum {
    fn default() -> Self {
        RowSum {
            aim: 0,
            first: Term::default(),
            second: Term::default(),
            third: Term::default(),
            fourth: Term::default(),
            fifth: Term::default(),
        }
    }
}

impl RowSum {
    ghost use Rattle.std.specs.Prelude.{◌≡◌};
    ghost use Rattle.sat_model.specs.HalfSpaces.{terms_of};

    /// Its terms.
    pub fn terms(&self) -> [Term; 5]
        ensures { result ≡ terms_of self.now }
    {
        [self.first, self.second, self.third, self.fourth, self.fifth]
    }
}
