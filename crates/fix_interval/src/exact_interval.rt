//! `Exact` as an interval whose grain is 1 um.

ghost use Rattle.std.specs.Prelude.{◌≤◌, pos, refl};
ghost use Rattle.grid_model.proofs.RoundingLemmas.{multiple_of_one};

use crate::ends::{greatest_amount, least_amount};
use crate::exact::Exact;
use crate::interval::Interval;
use grid_model::root_u128;

/// The whole numbers of square um from `lo` to `hi`.
#[derive(Clone, Copy, Debug, PartialEq, Eq)]
pub struct ExactArea {
    pub lo: u128,
    pub hi: u128,
    pub ghost ordered: { lo ≤ hi },
}

impl Interval for Exact {
    type Area = ExactArea;

    ghost low = { λ x. x.lo };

    ghost high = { λ x. x.hi };

    ghost area_low = { λ a. a.lo };

    ghost area_high = { λ a. a.hi };

    ghost GRAIN = { pos 1 };

    ghost SLACK = { pos 16 };

    const GRAIN: i64 = 1;

    const SLACK: i64 = 16;

    ghost ordered = { λ x. x.ordered };

    ghost area_ordered = { λ a. a.ordered };

    ghost grain_low = { record { le = tt } };

    ghost grain_high = { record { le = tt } };

    ghost slack = { refl };

    ghost whole_low = { λ x. multiple_of_one x.lo };

    ghost whole_high = { λ x. multiple_of_one x.hi };

    ghost area_whole_low = { λ a. multiple_of_one (pos a.lo) };

    ghost area_whole_high = { λ a. multiple_of_one (pos a.hi) };

    fn of(lo: i64, hi: i64) -> Exact {
        Exact {
            lo: lo as i128,
            hi: hi as i128,
        }
    }

    fn lo(self) -> i64 {
        self.lo as i64
    }

    fn hi(self) -> i64 {
        self.hi as i64
    }

    fn meet(self, other: Exact) -> Option<Exact> {
        let lo = self.lo.max(other.lo);
        let hi = self.hi.min(other.hi);
        if lo <= hi {
            Some(Exact { lo, hi })
        } else {
            None
        }
    }

    fn hull(self, other: Exact) -> Exact {
        Exact {
            lo: self.lo.min(other.lo),
            hi: self.hi.max(other.hi),
        }
    }

    fn add(self, other: Exact) -> Exact {
        self.plus(other)
    }

    fn sub(self, other: Exact) -> Exact {
        self.minus(other)
    }

    fn square(self) -> ExactArea {
        let lo = least_amount(self.lo, self.hi);
        let hi = greatest_amount(self.lo, self.hi);
        ExactArea {
            lo: lo * lo,
            hi: hi * hi,
        }
    }

    fn area_sum(a: ExactArea, b: ExactArea) -> ExactArea {
        ExactArea {
            lo: a.lo + b.lo,
            hi: a.hi + b.hi,
        }
    }

    fn area_less(a: ExactArea, b: ExactArea) -> Option<ExactArea> {
        if a.hi < b.lo {
            None
        } else {
            Some(ExactArea {
                lo: a.lo.saturating_sub(b.hi),
                hi: a.hi - b.lo,
            })
        }
    }

    fn root(a: ExactArea) -> Exact {
        Exact {
            lo: root_u128(a.lo) as i128,
            hi: root_u128(a.hi) as i128,
        }
    }
}
