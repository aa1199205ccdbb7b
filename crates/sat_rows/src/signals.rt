//! What a signal tells of itself: its pseudorange, the satellite's clock, and when it was sent.

ghost use Rattle.std.specs.Prelude.{◌≡◌, ℤ, pos, ◌-ℤ◌, ◌≤ℤ◌, ◌<ℤ◌, ◌*◌, ◌^◌};
ghost use Rattle.broadcast_orbit.specs.OrbitSizes.{time_width};
ghost use Rattle.fix_interval.specs.Factors.{Holds, HasEnds};
ghost use Rattle.sat_clock.specs.ClockSizes.{correction_size};
ghost use Rattle.gnss_model.specs.ClockChain.{ClockChainOf};
ghost use Rattle.gnss_model.specs.MeanMotion.{MeanMotionOf};
ghost use Rattle.gnss_model.specs.Pseudorange.{is_single, IsRangeOf, IsSent, IsCorrected};
ghost use Rattle.gnss_model.specs.RecordBounds.{time_bound};
ghost use Rattle.usable_sats.specs.Measured.{codes_of};
ghost use Rattle.sat_rows.specs.RowSizes.{AreNarrow, IsNearEpoch, IsNearOrbit, pseudorange_amount};
ghost use Rattle.usable_sats.specs.Usability.{ArePlausible};

use fix_interval::Exact;
use gnss_model::{Elements, System};
use pseudorange_prep::{corrected, dual_of, sent_at, single};
use sat_clock::{Clock, correction_of};
use usable_sats::Measured;

/// Whether there is one code alone.
pub(crate) fn of_one_code(codes: &Measured) -> bool
    ensures { result ≡ is_single (codes_of codes.now) }
{
    match codes {
        Measured::Single(_) => true,
        Measured::Dual(_, _) => false,
    }
}

/// Every pseudorange by the codes of a system's satellite, in um.
pub(crate) fn pseudorange(codes: &Measured, system: System) -> Exact
    requires plausible { ArePlausible system (codes_of codes.now) }
    requires narrow { AreNarrow (codes_of codes.now) }
    ensures holds { (x : ℤ) → IsRangeOf system (codes_of codes.now) x → Holds result x }
    ensures ends { HasEnds pseudorange_amount 8 result }
{
    match codes {
        Measured::Single(code) => single(*code),
        Measured::Dual(first, second) => dual_of(*first, *second, system),
    }
}

/// Every clock offset and every time of sending of a signal that came at `tag` over the
/// pseudorange.
pub(crate) fn clock(tag: i128, range: Exact, el: &Elements, one_code: bool, system: System) -> Clock
    requires tag_from { pos 0 ≤ℤ tag }
    requires tag_under { tag <ℤ pos time_bound }
    requires near { IsNearEpoch el.now tag }
    requires range_ends { HasEnds pseudorange_amount 8 range }
    ensures holds { (p v n dt t : ℤ) → Holds range p → IsSent tag p v → MeanMotionOf system el.now n
        → ClockChainOf system el.now one_code n v dt t → Holds result.dt dt × Holds result.t t }
    ensures dt { HasEnds correction_size 64 result.dt }
    ensures t { (result.t.hi -ℤ result.t.lo) ≤ℤ pos time_width }
    ensures near_orbit { IsNearOrbit el.now result.t.lo result.t.hi }
{
    let sent = sent_at(tag, range);
    correction_of(el, sent, one_code, system)
}

/// Every pseudorange less what the clock's offset makes of it, in um.
pub(crate) fn corrected_range(range: Exact, dt: Exact) -> Exact
    requires range_ends { HasEnds pseudorange_amount 8 range }
    requires dt_ends { HasEnds correction_size 64 dt }
    ensures holds { (p d v : ℤ) → Holds range p → Holds dt d → IsCorrected p d v → Holds result v }
    ensures ends { HasEnds (56 * 10 ^ 12) 14 result }
{
    corrected(range, dt)
}
