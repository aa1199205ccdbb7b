//! The equations in which the chains of Galileo and of GPS differ: the mean motion, the
//! relativistic correction of the clock, and the ionosphere-free pseudorange.

ghost use Rattle.std.specs.Prelude.{Some, ◌*◌, ◌^◌, ℤ, pos, ◌+ℤ◌, ◌-ℤ◌, ◌≤ℤ◌};
ghost use Rattle.fix_interval.specs.Factors.{Holds};
ghost use Rattle.pseudorange_prep.specs.Ranges.{IsCode, IsNarrow};
ghost use Rattle.sat_clock.specs.ClockSizes.{IsNearEphemeris, correction_size, motion_size};
ghost use Rattle.sat_clock.specs.ClockSizes.{motion_width, sent_reach};
ghost use Rattle.gnss_model.specs.ClockChain.{ClockChainOf};
ghost use Rattle.grid_model.specs.Intervals.{Between};
ghost use Rattle.gnss_model.specs.MeanMotion.{MeanMotionOf};
ghost use Rattle.gnss_model.specs.Pseudorange.{IsRangeOf};
ghost use Rattle.grid_model.specs.Sizes.{IsWithin};
ghost use Rattle.gnss_model.specs.declared.systems.System.TheVariants.{Galileo};

use fix_interval::Exact;
use gnss_model::{Elements, Message, System};
use grid_model::Wide;
use pseudorange_prep::dual_of;
use sat_clock::{Clock, correction_of, motion_of};

/// Every mean motion of the ephemeris, in 10^-22 rad/s: at most 4,096 units wide, from 0 to
/// 2 * 10^18.
pub fn gal_motion(el: &Elements, message: Message) -> Exact
    ensures holds { (n : ℤ) → MeanMotionOf (Galileo message) el.now n → Between result.lo result.hi n }
    ensures width { (result.hi -ℤ result.lo) ≤ℤ pos motion_width }
    ensures low { pos 0 ≤ℤ result.lo }
    ensures high { result.hi ≤ℤ pos motion_size }
{
    motion_of(el, System::Galileo(message))
}

/// Every clock offset and every GPS time of a signal that was sent at `tsv` by the satellite's
/// clock, in ps, within 14,500 s of the ephemeris time. With codes on two frequencies no group delay
/// is taken off; with a single one on E1 that of the record is.
pub fn gal_correction(el: &Elements, tsv: Exact, single: bool, message: Message) -> Clock
    requires near { IsNearEphemeris el.now tsv.lo tsv.hi }
    ensures holds { (n x dt t : ℤ) → MeanMotionOf (Galileo message) el.now n → Between tsv.lo tsv.hi x →
        ClockChainOf (Galileo message) el.now single n x dt t → Between result.dt.lo result.dt.hi dt
        × Between result.t.lo result.t.hi t }

    // Within 0.05 s.
    ensures low_size { IsWithin correction_size result.dt.lo }
    ensures high_size { IsWithin correction_size result.dt.hi }

    // Within a second of tsv.
    ensures early { (tsv.lo -ℤ pos sent_reach) ≤ℤ result.t.lo }
    ensures late { result.t.hi ≤ℤ (tsv.hi +ℤ pos sent_reach) }

    // For a signal whose time is known to 8 ps.
    ensures narrow_dt { (tsv.hi -ℤ tsv.lo) ≤ℤ pos 8 → (result.dt.hi -ℤ result.dt.lo) ≤ℤ pos 64 }
    ensures narrow_t { (tsv.hi -ℤ tsv.lo) ≤ℤ pos 8 → (result.t.hi -ℤ result.t.lo) ≤ℤ pos 64 }
{
    correction_of(el, tsv, single, System::Galileo(message))
}

/// The ionosphere-free pseudorange by the codes on E1 and on E5a or E5b, in um.
pub fn gal_dual(p1: Wide, p5: Wide, message: Message) -> Exact
    requires first_code { IsCode p1.lo p1.hi }
    requires second_code { IsCode p5.lo p5.hi }
    ensures holds { (x : ℤ) → IsRangeOf (Galileo message) (record { first = p1; second = Some p5 }) x →
        Holds result x }
    ensures width { IsNarrow 1 p1.lo p1.hi → IsNarrow 1 p5.lo p5.hi →
        IsNarrow 8 result.lo result.hi }
    ensures low_size { IsWithin (2 * 10 ^ 14) result.lo }
    ensures high_size { IsWithin (2 * 10 ^ 14) result.hi }
{
    dual_of(p1, p5, System::Galileo(message))
}
