//! Times on a record's scale: from its clock time (IS-GPS-200, 20.3.3.3.3.1), from its ephemeris
//! time (table 20-IV), and by GPS time.

ghost use Rattle.std.specs.Prelude.{ℕ, ◌+◌, ◌*◌, ◌^◌, ◌≤◌, ℤ, pos, ◌+ℤ◌, ◌-ℤ◌, ◌≤ℤ◌};
ghost use Rattle.gnss_model.specs.ClockChain.{IsEarlier};
ghost use Rattle.grid_model.specs.Intervals.{Between, Ends};
ghost use Rattle.gnss_model.specs.RecordBounds.{IsValue};
ghost use Rattle.grid_model.specs.Sizes.{IsWithin};
ghost use Rattle.sat_clock.specs.ClockSizes.{IsNearEphemeris, ephemeris_reach, since_size};
ghost use Rattle.sat_clock.specs.ClockSizes.{base_size, after_size, width};

use fix_interval::Exact;
use gnss_model::Elements;

/// A ps in the unit of clock offsets, 10^-16 s.
const PS: i128 = 10_000;

/// tsv - toc.
pub(crate) fn since_clock(el: &Elements, tsv: Exact) -> Exact
    requires near { IsNearEphemeris el.now tsv.lo tsv.hi }
    ensures holds { (x : ℤ) → Between tsv.lo tsv.hi x →
        Between result.lo result.hi (x -ℤ el.now.toc) }
    ensures ends { Ends since_size (width tsv.lo tsv.hi) result.lo result.hi }
{
    let toc = el.toc;
    tsv.minus(Exact { lo: toc, hi: toc })
}

/// tsv - toe.
fn since_ephemeris(el: &Elements, tsv: Exact) -> Exact
    requires near { IsNearEphemeris el.now tsv.lo tsv.hi }
    ensures holds { (x toe : ℤ) → Between tsv.lo tsv.hi x → IsValue el.now.toe_week toe →
        Between result.lo result.hi (x -ℤ (el.now.week_start +ℤ toe)) }
    ensures ends { Ends ephemeris_reach (width tsv.lo tsv.hi + 1) result.lo result.hi }
{
    tsv.minus(Exact::of_wide(el.ephemeris_time()))
}

/// A time less a clock offset.
pub(crate) fn earlier(time: Exact, offset: Exact) -> Exact
    requires low_size { IsWithin (10 ^ 37) time.lo }
    requires high_size { IsWithin (10 ^ 37) time.hi }
    requires offset_low_size { IsWithin (10 ^ 37) offset.lo }
    requires offset_high_size { IsWithin (10 ^ 37) offset.hi }
    ensures holds { (a b t : ℤ) → Between time.lo time.hi a → Between offset.lo offset.hi b →
        IsEarlier a b t → Between result.lo result.hi t }

    // For amounts m, n and widths v, w of the two: the offset is at most j ps and at most k
    // wide.
    ensures ends { (m v n w j k : ℕ) → Ends m v time.lo time.hi → Ends n w offset.lo offset.hi →
        n ≤ j * 10 ^ 4 → w ≤ k * 10 ^ 4 → Ends (m + (j + 2)) (v + (k + 4)) result.lo result.hi }
    ensures early { (n w j : ℕ) → Ends n w offset.lo offset.hi → n ≤ j * 10 ^ 4 →
        (time.lo -ℤ pos (j + 2)) ≤ℤ result.lo }
    ensures late { (n w j : ℕ) → Ends n w offset.lo offset.hi → n ≤ j * 10 ^ 4 →
        result.hi ≤ℤ (time.hi +ℤ pos (j + 2)) }
{
    time.minus(offset.times_over(Exact { lo: 1, hi: 1 }, PS))
}

/// t_k, for the offset without the relativistic correction.
pub(crate) fn after(el: &Elements, tsv: Exact, base: Exact) -> Exact
    requires near { IsNearEphemeris el.now tsv.lo tsv.hi }
    requires low_size { IsWithin base_size base.lo }
    requires high_size { IsWithin base_size base.hi }
    ensures holds { (x toe b about : ℤ) → Between tsv.lo tsv.hi x → IsValue el.now.toe_week toe →
        Between base.lo base.hi b → IsEarlier x b about →
        Between result.lo result.hi (about -ℤ (el.now.week_start +ℤ toe)) }
    ensures ends { Ends after_size (width tsv.lo tsv.hi + width base.lo base.hi
        + 6) result.lo result.hi }
{
    earlier(since_ephemeris(el, tsv), base)
}
