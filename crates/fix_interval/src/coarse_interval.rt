//! `Coarse` as an interval whose grain is 65,536 um.

ghost use Rattle.std.specs.Prelude.{◌*◌, pos, refl};
ghost use Rattle.fix_interval.specs.Grains.{coarse_low, coarse_high, grains_ordered, areas_ordered};

use crate::coarse::{Coarse, CoarseArea};
use crate::grains::{GRAIN, grains_below, greatest_amount, least_amount, root_above, root_below};
use crate::interval::Interval;

impl Interval for Coarse {
    type Area = CoarseArea;

    ghost low = { coarse_low };

    ghost high = { coarse_high };

    ghost area_low = { λ a. a.lo * 4294967296 };

    ghost area_high = { λ a. a.hi * 4294967296 };

    ghost GRAIN = { pos 65536 };

    ghost SLACK = { pos 1048576 };

    const GRAIN: i64 = 65_536;

    const SLACK: i64 = 1_048_576;

    ghost ordered = { λ x. grains_ordered x.lo x.hi x.ordered };

    ghost area_ordered = { λ a. areas_ordered a.lo a.hi a.ordered };

    ghost grain_low = { record { le = tt } };

    ghost grain_high = { record { le = tt } };

    ghost slack = { refl };

    ghost whole_low = { λ x. record { times = x.lo; is = refl } };

    ghost whole_high = { λ x. record { times = x.hi; is = refl } };

    ghost area_whole_low = { λ a. record { times = pos a.lo; is = refl } };

    ghost area_whole_high = { λ a. record { times = pos a.hi; is = refl } };

    fn of(lo: i64, hi: i64) -> Coarse {
        Coarse {
            lo: grains_below(lo),
            hi: -grains_below(-hi),
        }
    }

    fn lo(self) -> i64 {
        self.lo * GRAIN
    }

    fn hi(self) -> i64 {
        self.hi * GRAIN
    }

    fn meet(self, other: Coarse) -> Option<Coarse> {
        let lo = self.lo.max(other.lo);
        let hi = self.hi.min(other.hi);
        if lo <= hi {
            Some(Coarse { lo, hi })
        } else {
            None
        }
    }

    fn hull(self, other: Coarse) -> Coarse {
        Coarse {
            lo: self.lo.min(other.lo),
            hi: self.hi.max(other.hi),
        }
    }

    fn add(self, other: Coarse) -> Coarse {
        Coarse {
            lo: self.lo + other.lo,
            hi: self.hi + other.hi,
        }
    }

    fn sub(self, other: Coarse) -> Coarse {
        Coarse {
            lo: self.lo - other.hi,
            hi: self.hi - other.lo,
        }
    }

    fn square(self) -> CoarseArea {
        let lo = least_amount(self.lo, self.hi);
        let hi = greatest_amount(self.lo, self.hi);
        CoarseArea {
            lo: lo * lo,
            hi: hi * hi,
        }
    }

    fn area_sum(a: CoarseArea, b: CoarseArea) -> CoarseArea {
        CoarseArea {
            lo: a.lo + b.lo,
            hi: a.hi + b.hi,
        }
    }

    fn area_less(a: CoarseArea, b: CoarseArea) -> Option<CoarseArea> {
        if a.hi < b.lo {
            None
        } else {
            Some(CoarseArea {
                lo: a.lo.saturating_sub(b.hi),
                hi: a.hi - b.lo,
            })
        }
    }

    fn root(a: CoarseArea) -> Coarse {
        Coarse {
            lo: root_below(a.lo),
            hi: root_above(a.hi),
        }
    }
}
