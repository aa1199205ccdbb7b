//! A code with a given residual at a point, found by halving.

ghost use Rattle.std.specs.Prelude.{◌≡◌, ◌+◌, ◌*◌, ◌^◌, ◌≤◌, ℤ, pos, ◌+ℤ◌, ◌-ℤ◌};
ghost use Rattle.std.specs.Prelude.{◌≤ℤ◌, ◌<ℤ◌, true, false};
ghost use Rattle.fix_interval.specs.Factors.{Holds};
ghost use Rattle.gnss_model.specs.RecordBounds.{time_bound};
ghost use Rattle.grid_model.specs.Sizes.{IsBoxSize, IsWithin};
ghost use Rattle.grid_model.specs.declared.boxes.Pos.{Pos};
ghost use Rattle.gnss_model.specs.declared.elements.Elements.{Elements};
ghost use Rattle.code_simulation.specs.SearchSizes.{IsNearEpoch, IsNearPoint, farthest_range};
ghost use Rattle.code_simulation.specs.SearchSizes.{greatest_offset, last_code, one_width, pair_width};
ghost use Rattle.code_simulation.specs.Residuals.{Residual, ResidualsAtMost, ResidualsAtLeast, um_of};

use crate::residuals::residual;
use fix_interval::Exact;
use gnss_model::Elements;
use grid_model::Pos;

/// Every pseudorange has a residual at every point, so that what `code_for` says of residuals says
/// something. The call does nothing.
pub fn residual_exists()
    ensures { (el : Elements) (tag : ℤ) (p : Pos) (pr : ℤ) → (v : ℤ) × Residual el tag p pr v }
{}

const LAST_CODE: u64 = 100_000_000_000;

/// A code in um.
fn in_um(code: u64) -> i128
    requires { code ≤ last_code }
    ensures { result ≡ um_of code }
{
    code as i128 * 1_000 - 20_000_000_000_000
}

/// The residuals of a code and of the one behind it, or of a code alone.
fn over_codes(el: &Elements, tag: i128, low: u64, high: u64, at: &Pos) -> Exact
    requires tag_from { pos 0 ≤ℤ tag }
    requires tag_under { tag <ℤ pos time_bound }
    requires near { IsNearEpoch el.now tag }
    requires order { low ≤ high }
    requires close { high ≤ low + 1 }
    requires to { high ≤ last_code }
    requires x_size { IsBoxSize at.now.x }
    requires y_size { IsBoxSize at.now.y }
    requires z_size { IsBoxSize at.now.z }
    ensures low { (v : ℤ) → Residual el.now tag at.now (um_of low) v → Holds result v }
    ensures high { (v : ℤ) → Residual el.now tag at.now (um_of high) v → Holds result v }
    ensures most { ResidualsAtMost el.now tag at.now low (um_of low +ℤ pos greatest_offset) }
    ensures least { IsNearPoint at.now
        → ResidualsAtLeast el.now tag at.now high (um_of high -ℤ pos (greatest_offset +
        farthest_range)) }
    ensures size { IsWithin (10 ^ 15) result.lo }
    ensures one { low ≡ high → (result.hi -ℤ result.lo) ≤ℤ pos one_width }
    ensures two { (result.hi -ℤ result.lo) ≤ℤ pos pair_width }
{
    let code = codes(low, high);
    residual(el, tag, code, at)
}

/// The codes from one to another, in um.
fn codes(low: u64, high: u64) -> Exact
    requires order { low ≤ high }
    requires to { high ≤ last_code }
    ensures low { result.lo ≡ um_of low }
    ensures high { result.hi ≡ um_of high }
{
    Exact {
        lo: in_um(low),
        hi: in_um(high),
    }
}

/// A code, in mm from -20,000 km on, whose residuals at the point are about `goal` um: at most
/// 4,507 um less and 3,507 um more. The signal came at `tag`, in ps since 1980-01-06 00:00:00 GPS
/// time by the receiver's clock.
pub fn code_for(el: &Elements, tag: i128, goal: i64, at: &Pos) -> u64
    requires tag_from { pos 0 ≤ℤ tag }
    requires tag_under { tag <ℤ pos time_bound }
    requires near { IsNearEpoch el.now tag }
    requires goal { IsWithin (10 ^ 9) goal }
    requires point { IsNearPoint at.now }
    requires x_size { IsBoxSize at.now.x }
    requires y_size { IsBoxSize at.now.y }
    requires z_size { IsBoxSize at.now.z }
    ensures low { ResidualsAtLeast el.now tag at.now result (goal -ℤ pos pair_width) }
    ensures high { ResidualsAtMost el.now tag at.now result (goal +ℤ pos one_width) }
    ensures range { result ≤ last_code }
{
    let mut low: u64 = 0;
    let mut high: u64 = LAST_CODE;

    // That the first end is low enough and the last one isn't is what these calls say. The call
    // behind the loop says that the residuals of neighbours are near to each other.
    let _first = over_codes(el, tag, 0, 0, at);
    let _last = over_codes(el, tag, LAST_CODE, LAST_CODE, at);
    while high - low > 1 {
        let middle = low + (high - low) / 2;
        if is_low(el, tag, goal, middle, at) {
            low = middle;
        } else {
            high = middle;
        }
    }
    let _both = over_codes(el, tag, low, high, at);
    low
}

/// Whether the residuals of a code are little enough.
fn is_low(el: &Elements, tag: i128, goal: i64, code: u64, at: &Pos) -> bool
    requires tag_from { pos 0 ≤ℤ tag }
    requires tag_under { tag <ℤ pos time_bound }
    requires near { IsNearEpoch el.now tag }
    requires to { code ≤ last_code }
    requires goal { IsWithin (10 ^ 9) goal }
    requires x_size { IsBoxSize at.now.x }
    requires y_size { IsBoxSize at.now.y }
    requires z_size { IsBoxSize at.now.z }
    ensures low { result ≡ true → ResidualsAtMost el.now tag at.now code (goal +ℤ pos one_width) }
    ensures high { result ≡ false → ResidualsAtLeast el.now tag at.now code goal }
{
    let here = over_codes(el, tag, code, code, at);
    if here.lo <= goal as i128 {
        return true;
    }
    false
}
