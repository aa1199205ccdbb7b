//! Between which ends the error may lie, over a search box: the declared ones and, where spans of
//! the delays straight up are declared, these delays mapped by elevation.

ghost use Rattle.std.specs.Prelude.{ℕ, ◌≡◌, ◌+◌, ◌*◌, ◌^◌, ℤ, pos, ◌+ℤ◌, ◌-ℤ◌, ◌≤ℤ◌};
ghost use Rattle.std.specs.Prelude.{None, Some, true};
ghost use Rattle.elevation_mapping.specs.MappingSizes.{delay_amount};
ghost use Rattle.elevation_mapping.specs.Places.{IsFarFromPlace};
ghost use Rattle.fix_interval.specs.Factors.{HasAmount};
ghost use Rattle.fix_interval.specs.Places.{HoldsPlace, PlaceEnds};
ghost use Rattle.earth_rotation.specs.TurnSizes.{near_reach, reach_after};
ghost use Rattle.grid_model.specs.Boxes.{grid_box, box_holds};
ghost use Rattle.grid_model.specs.Ranges.{range_to};
ghost use Rattle.grid_model.specs.Lengths.{spare_of};
ghost use Rattle.sat_model.specs.Relaxed.{ends};
ghost use Rattle.grid_model.specs.SearchBoxes.{IsFarFromOrigin, IsSearchBox};
ghost use Rattle.grid_model.specs.Sizes.{IsWithin};
ghost use Rattle.gnss_model.specs.Delays.{IsDelayWithin, AreDelays, is_plain};
ghost use Rattle.gnss_model.specs.Delays.{delay_spare, err_spare_of};
ghost use Rattle.grid_model.specs.declared.boxes.Pos.{Pos};
ghost use Rattle.grid_model.specs.declared.spans.Span.{Span};
ghost use Rattle.sat_rows.specs.Chains.{Chain, IsDelay, IsBound};
ghost use Rattle.sat_rows.specs.OwnRows.{HoldEnds, HoldDelay, IsSmall};
ghost use Rattle.usable_sats.specs.Usability.{IsHigh};

use elevation_mapping::{mapped, mapped_delay};
use fix_interval::{Exact, Place};
use gnss_model::{Delays, Layer};
use grid_model::{Box3, Span};

/// From the least to the greatest low end of what is allowed of the error or of a delay, and the
/// same of the high end, in um.
#[derive(Clone, Copy, Debug, PartialEq, Eq)]
pub(crate) struct Bounds {
    pub low: Span,
    pub high: Span,
}

/// The same numbers in 64 bits.
fn short(delays: Exact) -> Span
    requires { HasAmount delay_amount delays }
    ensures low { result.lo ≡ delays.lo }
    ensures high { result.hi ≡ delays.hi }
{
    Span {
        lo: delays.lo as i64,
        hi: delays.hi as i64,
    }
}

/// The span of one number.
fn one(n: i64) -> Span
    ensures low { result.lo ≡ n }
    ensures high { result.hi ≡ n }
{
    Span { lo: n, hi: n }
}

/// The sums of a declared end and two delays.
fn delayed(end: i64, zenith: Span, vertical: Span) -> Span
    requires end_size { IsWithin (6 * 10 ^ 9) end }
    requires zenith_size { IsSmall (3 * 10 ^ 8 + 2) zenith }
    requires vertical_size { IsSmall (3 * 10 ^ 9 + 2) vertical }
    ensures low { result.lo ≡ (end +ℤ zenith.lo) +ℤ vertical.lo }
    ensures high { result.hi ≡ (end +ℤ zenith.hi) +ℤ vertical.hi }
{
    Span {
        lo: end + zenith.lo + vertical.lo,
        hi: end + zenith.hi + vertical.hi,
    }
}

/// The spans of the low and of the high ends of a layer's delay, mapped over the points of the box
/// and the members of the place.
fn mapped_span(layer: Layer, upward: Span, place: Place, root: &Box3) -> Bounds
    requires low_size { IsWithin (10 ^ 8) upward.lo }
    requires high_size { IsWithin (10 ^ 8) upward.hi }
    requires root { IsSearchBox (grid_box root.now) }
    requires from_origin { IsFarFromOrigin (6 * 10 ^ 12) (grid_box root.now) }
    requires far { IsFarFromPlace (5 * 10 ^ 12) place (grid_box root.now) }
    requires place { PlaceEnds (reach_after near_reach) (spare_of (grid_box root.now)) place }
    ensures holds { (p : Pos) (c : Chain) (delay : ℤ × ℤ) → box_holds (grid_box root.now) p ≡ true
        → HoldsPlace place c.x c.y c.z → c.range ≡ range_to c.x c.y c.z p
        → IsDelay layer (Some upward) p c delay → HoldDelay result.low result.high delay }
    ensures low_tight { (result.low.hi -ℤ result.low.lo)
        ≤ℤ pos (delay_spare layer (grid_box root.now) (Some upward)) }
    ensures high_tight { (result.high.hi -ℤ result.high.lo)
        ≤ℤ pos (delay_spare layer (grid_box root.now) (Some upward)) }
    ensures order { result.low.lo ≤ℤ result.high.hi }
    ensures low_small { (n : ℕ) → IsWithin n upward.lo → IsSmall (30 * n + 2) result.low }
    ensures high_small { (n : ℕ) → IsWithin n upward.hi → IsSmall (30 * n + 2) result.high }
{
    let mapping = mapped(place, root, layer);
    Bounds {
        low: short(mapped_delay(upward.lo, mapping)),
        high: short(mapped_delay(upward.hi, mapping)),
    }
}

/// The same where the delay is declared, and else 0 alone.
fn delay_over(layer: Layer, upward: Option<Span>, place: Place, root: &Box3) -> Bounds
    requires within { IsDelayWithin (10 ^ 8) upward }
    requires root { IsSearchBox (grid_box root.now) }
    requires from_origin { (s : Span) → upward ≡ Some s
        → IsFarFromOrigin (6 * 10 ^ 12) (grid_box root.now) }
    requires far { IsFarFromPlace (5 * 10 ^ 12) place (grid_box root.now) }
    requires place { PlaceEnds (reach_after near_reach) (spare_of (grid_box root.now)) place }
    ensures holds { (p : Pos) (c : Chain) (delay : ℤ × ℤ) → box_holds (grid_box root.now) p ≡ true
        → HoldsPlace place c.x c.y c.z → c.range ≡ range_to c.x c.y c.z p
        → IsDelay layer upward p c delay → HoldDelay result.low result.high delay }
    ensures low_tight { (result.low.hi -ℤ result.low.lo)
        ≤ℤ pos (delay_spare layer (grid_box root.now) upward) }
    ensures high_tight { (result.high.hi -ℤ result.high.lo)
        ≤ℤ pos (delay_spare layer (grid_box root.now) upward) }
    ensures order { result.low.lo ≤ℤ result.high.hi }
    ensures low_small { (n : ℕ) → IsDelayWithin n upward → IsSmall (30 * n + 2) result.low }
    ensures high_small { (n : ℕ) → IsDelayWithin n upward → IsSmall (30 * n + 2) result.high }
    ensures low_plain { upward ≡ None → (result.low.lo ≡ pos 0) × (result.low.hi ≡ pos 0) }
    ensures high_plain { upward ≡ None → (result.high.lo ≡ pos 0) × (result.high.hi ≡ pos 0) }
{
    match upward {
        None => Bounds {
            low: one(0),
            high: one(0),
        },
        Some(span) => mapped_span(layer, span, place, root),
    }
}

/// The spans of the low and of the high ends of the error of a satellite whose place, as seen from
/// the points of the box, is a member of `place`. Each is at most as wide as `err_spare` of
/// `gnss_model` says, and without a delay straight up it is one declared end alone.
pub(crate) fn bounds_over(declared: Span, delays: Delays, place: Place, root: &Box3) -> Bounds
    requires delays { AreDelays delays }
    requires small { IsSmall (6 * 10 ^ 9) declared }
    requires root { IsSearchBox (grid_box root.now) }
    requires high { IsHigh delays (grid_box root.now) }
    requires far { IsFarFromPlace (5 * 10 ^ 12) place (grid_box root.now) }
    requires place { PlaceEnds (reach_after near_reach) (spare_of (grid_box root.now)) place }
    ensures holds { (p : Pos) (c : Chain) → box_holds (grid_box root.now) p ≡ true
        → HoldsPlace place c.x c.y c.z → c.range ≡ range_to c.x c.y c.z p
        → IsBound delays (ends declared) p c → HoldEnds result.low result.high c }
    ensures low_tight { (result.low.hi -ℤ result.low.lo)
        ≤ℤ pos (err_spare_of (grid_box root.now) delays) }
    ensures high_tight { (result.high.hi -ℤ result.high.lo)
        ≤ℤ pos (err_spare_of (grid_box root.now) delays) }
    ensures order { result.low.lo ≤ℤ result.high.hi }
    ensures low_small { IsSmall (10 ^ 10) result.low }
    ensures high_small { IsSmall (10 ^ 10) result.high }
    ensures low_plain { is_plain delays ≡ true
        → (result.low.lo ≡ declared.lo) × (result.low.hi ≡ declared.lo) }
    ensures high_plain { is_plain delays ≡ true
        → (result.high.lo ≡ declared.hi) × (result.high.hi ≡ declared.hi) }
{
    let zenith = delay_over(Layer::Troposphere, delays.zenith, place, root);
    let vertical = delay_over(Layer::Ionosphere, delays.vertical, place, root);
    Bounds {
        low: delayed(declared.lo, zenith.low, vertical.low),
        high: delayed(declared.hi, zenith.high, vertical.high),
    }
}
