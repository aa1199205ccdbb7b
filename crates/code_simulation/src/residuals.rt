//! The residuals of a code at a point, as an interval.

ghost use Rattle.std.specs.Prelude.{ℕ, ◌≡◌, ◌+◌, ◌*◌, ◌^◌, ◌≤◌, ℤ, pos, ◌+ℤ◌, ◌-ℤ◌, ◌≤ℤ◌, ◌<ℤ◌};
ghost use Rattle.std.specs.Prelude.{true};
ghost use Rattle.broadcast_orbit.specs.OrbitSizes.{time_width, IsOrbitDistance};
ghost use Rattle.fix_interval.specs.Places.{HoldsPlace, PlaceEnds};
ghost use Rattle.earth_rotation.specs.RoundSizes.{range_amount};
ghost use Rattle.earth_rotation.specs.TurnSizes.{near_reach, narrow_width};
ghost use Rattle.fix_interval.specs.Factors.{Holds, HasEnds};
ghost use Rattle.sat_clock.specs.ClockSizes.{correction_size};
ghost use Rattle.grid_model.specs.Boxes.{grid_box, box_holds};
ghost use Rattle.gnss_model.specs.ClockChain.{ClockChain};
ghost use Rattle.grid_model.specs.Lengths.{longest_length};
ghost use Rattle.gnss_model.specs.MeanMotion.{MeanMotion};
ghost use Rattle.gnss_model.specs.OrbitChain.{OrbitChain};
ghost use Rattle.gnss_model.specs.Pseudorange.{IsSent, IsCorrected};
ghost use Rattle.gnss_model.specs.RecordBounds.{time_bound};
ghost use Rattle.grid_model.specs.Sizes.{IsBoxSize, IsWithin};
ghost use Rattle.gnss_model.specs.Turn.{Turn};
ghost use Rattle.grid_model.specs.declared.boxes.Pos.{Pos};
ghost use Rattle.code_simulation.specs.SearchSizes.{IsNearEpoch, IsNearOrbit, IsNearPoint, code_amount};
ghost use Rattle.code_simulation.specs.SearchSizes.{code_width, corrected_amount, farthest_range};
ghost use Rattle.code_simulation.specs.SearchSizes.{greatest_offset, one_width};
ghost use Rattle.code_simulation.specs.Residuals.{Residual};

use broadcast_orbit::place;
use earth_rotation::{range, turned};
use fix_interval::{Exact, Place};
use gnss_model::Elements;
use grid_model::{Box3, Pos};
use pseudorange_prep::{corrected, sent_at};
use sat_clock::{Clock, correction, mean_motion};

/// Every clock offset and every time of sending of a signal that came at `tag` over the code.
fn clock(tag: i128, code: Exact, el: &Elements) -> Clock
    requires tag_from { pos 0 ≤ℤ tag }
    requires tag_under { tag <ℤ pos time_bound }
    requires near { IsNearEpoch el.now tag }
    requires code_ends { HasEnds code_amount code_width code }
    ensures holds { (p v n dt t : ℤ) → Holds code p → IsSent tag p v → MeanMotion el.now n
        → ClockChain el.now true n v dt t → Holds result.dt dt × Holds result.t t }
    ensures dt { HasEnds correction_size 64 result.dt }
    ensures t { (result.t.hi -ℤ result.t.lo) ≤ℤ pos time_width }
    ensures near_orbit { IsNearOrbit el.now result.t.lo result.t.hi }
{
    let sent = sent_at(tag, code);
    correction(el, sent, true)
}

/// Every code less what the clock's offset makes of it, in um.
fn corrected_code(code: Exact, dt: Exact) -> Exact
    requires code_ends { HasEnds code_amount code_width code }
    requires dt_ends { HasEnds correction_size 64 dt }
    ensures holds { (p d v : ℤ) → Holds code p → Holds dt d → IsCorrected p d v → Holds result v }
    ensures ends { (w : ℕ) → HasEnds code_amount w code → HasEnds corrected_amount (w + 6) result }
{
    corrected(code, dt)
}

/// Every place of the satellite when the signal was sent.
fn sent_place(el: &Elements, t: Exact) -> Place
    requires near { IsNearOrbit el.now t.lo t.hi }
    requires width { (t.hi -ℤ t.lo) ≤ℤ pos time_width }
    ensures holds { (n time x y z : ℤ) → MeanMotion el.now n → Holds t time
        → OrbitChain el.now n time x y z → HoldsPlace result x y z }
    ensures distance { (x y z : ℤ) → HoldsPlace result x y z → IsOrbitDistance x y z }
    ensures ends { PlaceEnds near_reach narrow_width result }
{
    place(el, mean_motion(el), t)
}

/// The box of a point.
fn point(at: &Pos) -> Box3
    requires x_size { IsBoxSize at.now.x }
    requires y_size { IsBoxSize at.now.y }
    requires z_size { IsBoxSize at.now.z }
    ensures small { longest_length (grid_box result) ≡ 0 }
    ensures holds { box_holds (grid_box result) at.now ≡ true }
{
    Box3 { lo: *at, hi: *at }
}

/// Every range from a point to the place, turned.
fn seen_range(el: &Elements, t: Exact, at: &Pos) -> Exact
    requires near { IsNearOrbit el.now t.lo t.hi }
    requires width { (t.hi -ℤ t.lo) ≤ℤ pos time_width }
    requires x_size { IsBoxSize at.now.x }
    requires y_size { IsBoxSize at.now.y }
    requires z_size { IsBoxSize at.now.z }
    ensures holds { (n time x y z tx ty : ℤ) (r : ℕ) → MeanMotion el.now n → Holds t time
        → OrbitChain el.now n time x y z → Turn at.now x y z tx ty r → Holds result (pos r) }
    ensures far { IsNearPoint at.now → (n time x y z tx ty : ℤ) (r : ℕ) → MeanMotion el.now n
        → Holds t time → OrbitChain el.now n time x y z → Turn at.now x y z tx ty r
        → r ≤ farthest_range }
    ensures ends { HasEnds range_amount 3501 result }
{
    let part = point(at);
    range(turned(sent_place(el, t), &part), &part)
}

/// Every residual at the point, in um, of the pseudoranges of a code in um, which are at most 1,002
/// um apart. The signal came at `tag`, in ps since 1980-01-06 00:00:00 GPS time by the receiver's
/// clock.
pub(crate) fn residual(el: &Elements, tag: i128, code: Exact, at: &Pos) -> Exact
    requires tag_from { pos 0 ≤ℤ tag }
    requires tag_under { tag <ℤ pos time_bound }
    requires near { IsNearEpoch el.now tag }
    requires code_ends { HasEnds code_amount code_width code }
    requires x_size { IsBoxSize at.now.x }
    requires y_size { IsBoxSize at.now.y }
    requires z_size { IsBoxSize at.now.z }
    ensures holds { (p v : ℤ) → Holds code p → Residual el.now tag at.now p v → Holds result v }
    ensures most { (p v : ℤ) → Holds code p → Residual el.now tag at.now p v
        → v ≤ℤ (p +ℤ pos greatest_offset) }
    ensures least { IsNearPoint at.now → (p v : ℤ) → Holds code p
        → Residual el.now tag at.now p v → (p -ℤ pos (greatest_offset + farthest_range)) ≤ℤ v }
    ensures size { IsWithin (10 ^ 15) result.lo }
    ensures width { (w : ℕ) → HasEnds code_amount w code
        → (result.hi -ℤ result.lo) ≤ℤ pos (w + one_width) }
{
    let clock = clock(tag, code, el);
    corrected_code(code, clock.dt).minus(seen_range(el, clock.t, at))
}
