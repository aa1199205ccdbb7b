//! The satellite's clock.

ghost use Rattle.std.specs.Prelude.{ℤ, pos, ◌+ℤ◌, ◌-ℤ◌, ◌≤ℤ◌};
ghost use Rattle.gnss_model.specs.ClockChain.{ClockChain, ClockChainOf};
ghost use Rattle.grid_model.specs.Intervals.{Between};
ghost use Rattle.gnss_model.specs.MeanMotion.{MeanMotion, MeanMotionOf};
ghost use Rattle.grid_model.specs.Sizes.{IsWithin};
ghost use Rattle.sat_clock.specs.ClockSizes.{IsNearEphemeris, correction_size, sent_reach};

use crate::drift::base;
use crate::relativity::relativistic;
use crate::times::earlier;
use fix_interval::Exact;
use gnss_model::{Elements, System};

/// What the clock tells of a signal.
#[derive(Clone, Copy, Debug, PartialEq, Eq)]
pub struct Clock {
    /// The clock's offset, in 10^-16 s.
    pub dt: Exact,
    /// When the signal was sent, in ps since 1980-01-06 00:00:00 GPS time.
    pub t: Exact,
}

/// Every clock offset and every GPS time of a signal that a system's satellite sent at `tsv` by its
/// clock, in ps, within 14,500 s of the ephemeris time. A user of one frequency (`single`) takes
/// off the group delay (IS-GPS-200, 20.3.3.3.3.1 and 20.3.3.3.3.2).
pub fn correction_of(el: &Elements, tsv: Exact, single: bool, system: System) -> Clock
    requires near { IsNearEphemeris el.now tsv.lo tsv.hi }
    ensures holds { (n x dt t : ℤ) → MeanMotionOf system el.now n → Between tsv.lo tsv.hi x →
        ClockChainOf system el.now single n x dt t → Between result.dt.lo result.dt.hi dt
        × Between result.t.lo result.t.hi t }

    // Within 0.05 s.
    ensures low_size { IsWithin correction_size result.dt.lo }
    ensures high_size { IsWithin correction_size result.dt.hi }

    // Within a second of tsv.
    ensures early { (tsv.lo -ℤ pos sent_reach) ≤ℤ result.t.lo }
    ensures late { result.t.hi ≤ℤ (tsv.hi +ℤ pos sent_reach) }

    // For a signal whose time is known to 8 ps.
    ensures narrow_dt { (tsv.hi -ℤ tsv.lo) ≤ℤ pos 8 → (result.dt.hi -ℤ result.dt.lo) ≤ℤ pos 64 }
    ensures narrow_t { (tsv.hi -ℤ tsv.lo) ≤ℤ pos 8 → (result.t.hi -ℤ result.t.lo) ≤ℤ pos 64 }
{
    let base = base(el, tsv, single);
    let dt = base.plus(relativistic(el, tsv, base, system));
    let t = earlier(tsv, dt);
    Clock { dt, t }
}

/// Those of a GPS satellite.
pub fn correction(el: &Elements, tsv: Exact, single: bool) -> Clock
    requires near { IsNearEphemeris el.now tsv.lo tsv.hi }
    ensures holds { (n x dt t : ℤ) → MeanMotion el.now n → Between tsv.lo tsv.hi x →
        ClockChain el.now single n x dt t → Between result.dt.lo result.dt.hi dt
        × Between result.t.lo result.t.hi t }

    // Within 0.05 s.
    ensures low_size { IsWithin correction_size result.dt.lo }
    ensures high_size { IsWithin correction_size result.dt.hi }

    // Within a second of tsv.
    ensures early { (tsv.lo -ℤ pos sent_reach) ≤ℤ result.t.lo }
    ensures late { result.t.hi ≤ℤ (tsv.hi +ℤ pos sent_reach) }

    // For a signal whose time is known to 8 ps.
    ensures narrow_dt { (tsv.hi -ℤ tsv.lo) ≤ℤ pos 8 → (result.dt.hi -ℤ result.dt.lo) ≤ℤ pos 64 }
    ensures narrow_t { (tsv.hi -ℤ tsv.lo) ≤ℤ pos 8 → (result.t.hi -ℤ result.t.lo) ≤ℤ pos 64 }
{
    correction_of(el, tsv, single, System::Gps)
}
