//! The q-relaxed intersection of spans, without sorting them: only the ends that up to q spans may
//! pass over matter.

ghost use Rattle.std.specs.Prelude.{◌≡◌, ◌≤◌, ◌↔◌, length, map, IfSome, IsNone};
ghost use Rattle.relaxed_meet.specs.Kept.{LiesBetween, IsFalling, IsLeastIn, IsGreatestIn};
ghost use Rattle.sat_model.specs.Relaxed.{IsRelaxedHull, LiesInRelaxed, IsRelaxedEmpty, ends};

use crate::extremes::{Falling, extremes};
use crate::separation::middle;
use grid_model::Span;

/// The least number that lies between a low end and the high end that goes with it.
pub(crate) fn least_between(lows: &[i64], highs: &[i64]) -> Option<i64>
    requires falling { IsFalling lows.now }
    requires pairs { length highs.now ≡ length lows.now }
    ensures { IsLeastIn (LiesBetween lows.now highs.now) result }
{
    let last = lows.len();
    for passed in 0..last {
        let rank = last - 1 - passed;
        if lows[rank] <= -1 - highs[passed] {
            return Some(lows[rank]);
        }
    }
    None
}

/// The greatest such number: the mirror image of the least one between the mirrored ends.
fn greatest_between(lows: &[i64], highs: &[i64]) -> Option<i64>
    requires falling { IsFalling highs.now }
    requires pairs { length highs.now ≡ length lows.now }
    ensures { IsGreatestIn (LiesBetween lows.now highs.now) result }
{
    match least_between(highs, lows) {
        Some(mirrored) => Some(-1 - mirrored),
        None => None,
    }
}

/// The least number that lies in at least `need` of the spans.
pub(crate) fn least_number(spans: &[Span], need: usize) -> Option<i64>
    requires { (1 ≤ need) × (length spans.now ≤ 64) }
    ensures { IsLeastIn (LiesInRelaxed (map ends spans.now) need) result }
{
    if spans.len() < need {
        return None;
    }
    let mut lows = Falling::new();
    let mut highs = Falling::new();
    extremes(spans, spans.len() - need + 1, &mut lows, &mut highs);
    least_between(&lows, &highs)
}

/// The hull of the numbers that lie in at least `need` of the spans, none where there are none.
pub fn relaxed(spans: &[Span], need: u8) -> Option<Span>
    requires { (1 ≤ need) × (need ≤ length spans.now) × (length spans.now ≤ 64) }
    ensures none { IsNone result ↔ IsRelaxedEmpty (map ends spans.now) need }
    ensures some { IfSome result (λ h. IsRelaxedHull (map ends spans.now) need h.lo h.hi) }
{
    let (hull, _) = relaxed_with_middle(spans, need);
    hull
}

/// The same hull, and about the middle of the widest span whose numbers all lie in enough of them.
pub(crate) fn relaxed_with_middle(spans: &[Span], need: u8) -> (Option<Span>, i64)
    requires { (1 ≤ need) × (need ≤ length spans.now) × (length spans.now ≤ 64) }
    ensures none { IsNone result.0 ↔ IsRelaxedEmpty (map ends spans.now) need }
    ensures some { IfSome result.0 (λ h. IsRelaxedHull (map ends spans.now) need h.lo h.hi) }
{
    let mut lows = Falling::new();
    let mut highs = Falling::new();
    let most = spans.len() - usize::from(need) + 1;
    extremes(spans, most, &mut lows, &mut highs);
    let middle = widest_middle(&lows, &highs);
    match (
        least_between(&lows, &highs),
        greatest_between(&lows, &highs),
    ) {
        (Some(lo), Some(hi)) => (Some(Span { lo, hi }), middle),
        _ => (None, middle),
    }
}

/// About the middle of the widest span from a low end to the high end that goes with it. The
/// numbers between two such ends lie in enough of the spans, and one in the middle does for spans
/// near to these too.
pub(crate) fn widest_middle(lows: &[i64], highs: &[i64]) -> i64 {
    let mut widest = 0;
    let mut found = 0;
    for (passed, mirrored) in highs.iter().enumerate() {
        if passed < lows.len() {
            let low = lows[lows.len() - 1 - passed];
            let high = -1 - *mirrored;
            let half = high / 2 - low / 2;
            if half >= widest {
                widest = half;
                found = middle(low, high);
            }
        }
    }
    found
}
